//! Plans of unglues.
ghost use Rattle.std.specs.Prelude.{◌≡◌, ◌<◌, ◌++◌, true, None, Some, length, set, MatchResult, IfOk, option_copied};
ghost use Rattle.edit_simple.specs.Prelude.{is_lt, is_node, name_cmp, row_at, row_changes, is_sound, first_that_holds, IsNamed, IsPlan};
ghost use Rattle.osm_elements.specs.declared.element.Element.TheVariants.{Way};
ghost use Rattle.edit_topology.specs.Inner.Ungluing.{name_checks, node_standing};
ghost use Rattle.edit_topology.specs.Unglue.{unglue_checks, after_unglue};

use edit_simple::kinds::{is_node, is_way};
use edit_simple::lookup::is_present;
use edit_simple::ways::way_at;
use osm_changes::changes::Changes;
use osm_drafts::draft::Draft;
use osm_elements::Memory;
use osm_elements::element::Element;
use osm_elements::name::Name;
use osm_elements::nodes::Nodes;
use osm_elements::shared::Shared;
use osm_elements::shared_tags::SharedTags;
use room_interface::refusal::Refusal;
use std::alloc::Allocator;

/// Plans to unglue the way `name` from the node at position `place`, counted from 0.
///
/// The way gets the new node `into` at this position. The new node has the position and the tags of the old node. The
/// old node stays, and so do all other references to it, also those of the way at other positions. (Editors' practice;
/// which names and positions are refused is this project's.)
///
/// # Errors
///
/// The first of these that applies:
/// - `WrongKind`, if `name` is not a way's, and then if `into` is not a node's
/// - `Absent`, if the map does not have the way
/// - `Present`, if the map has the new node
/// - `BadPosition`, if `place` lies after the last position
#[tactic(auto, using(edit_simple::specs::Facts::Checked::named_if_none))]
pub fn plan_unglue<A: Allocator + Clone>(
    alloc: A,
    rows: &Draft<'_, A>,
    name: &Name,
    place: u32,
    into: &Name,
) -> Result<Changes<A>, Refusal<A>>
    requires { is_sound rows.now ≡ true }
    ensures plan { IsPlan rows.now (unglue_checks rows.now name.now place into.now)
        (after_unglue rows.now name.now place into.now) result }
    ensures named { IsNamed (unglue_checks rows.now name.now place into.now) result }
{
    let (nodes, tags) = way_to_unglue(rows, name, into)?;
    let Some(node) = node_at(rows, nodes, place) else {
        return Err(Refusal::BadPosition);
    };
    Ok(change_both(alloc, into, node, name, nodes, tags, place)?)
}

// Returns the nodes and tags of the way. Refuses a name of the wrong kind, an absent way, and a new node that is
// present.
fn way_to_unglue<'m, A: Allocator>(
    rows: &'m Draft<'_, A>,
    name: &Name,
    into: &Name,
) -> Result<(&'m Shared<Nodes<A>, A>, &'m SharedTags<A>), Refusal<A>>
    requires { is_sound rows.now ≡ true }
    ensures { MatchResult result
        (λ way. (first_that_holds (name_checks rows.now name.now into.now) ≡ None)
        × (row_at rows.now name.now ≡ Some (Way way.0.now way.1.now)))
        (λ r. first_that_holds (name_checks rows.now name.now into.now) ≡ Some r) }
{
    if !is_way(name) {
        return Err(Refusal::WrongKind(*name));
    }
    if !is_node(into) {
        return Err(Refusal::WrongKind(*into));
    }
    let way = way_at(rows, name)?;
    if is_present(rows, into) {
        return Err(Refusal::Present(*into));
    }
    Ok(way)
}

// Returns the node at a position of the list, or `None` if the position lies after the last.
fn node_at<'m, A: Allocator>(
    rows: &'m Draft<'_, A>,
    nodes: &Nodes<A>,
    place: u32,
) -> Option<&'m Element<A>>
    ensures { option_copied result ≡ node_standing rows.now nodes.now place }
{
    rows.get(nodes.names().get(place as usize)?)
}

// Returns the list with another node at a position.
fn with_node<A: Allocator + Clone>(
    nodes: &Nodes<A>,
    place: u32,
    node: &Name,
) -> Result<Nodes<A>, Memory>
    requires place { place < length nodes.now }
    requires node { is_node node.now.kind ≡ true }
    ensures { IfOk result (λ new. new ≡ set nodes.now place node.now) }
{
    let mut names = nodes.copy()?.into_vec();
    names[place as usize] = *node;
    Ok(Nodes::from_vec(names))
}

// Returns the changes of the new node and the way. The new node has the element of the old one, and comes first,
// because names of nodes come before names of ways.
fn change_both<A: Allocator + Clone>(
    alloc: A,
    into: &Name,
    node: &Element<A>,
    name: &Name,
    nodes: &Shared<Nodes<A>, A>,
    tags: &SharedTags<A>,
    place: u32,
) -> Result<Changes<A>, Memory>
    requires place { place < length nodes.now }
    requires node { is_node into.now.kind ≡ true }
    requires order { is_lt (name_cmp into.now name.now) ≡ true }
    ensures { IfOk result (λ cs. cs
        ≡ row_changes into.now None (Some node.now)
        ++ row_changes name.now (Some (Way nodes.now tags.now)) (Some (Way (set nodes.now place into.now) tags.now))) }
{
    let unglued = Shared::new(alloc.clone()?, with_node(nodes, place, into)?)?;
    let mut changes = Changes::empty(alloc);
    changes.push_row(*into, None, Some(node.copy()?))?;
    let before = Element::Way {
        nodes: nodes.copy()?,
        tags: tags.copy()?,
    };
    let after = Element::Way {
        nodes: unglued,
        tags: tags.copy()?,
    };
    changes.push_row(*name, Some(before), Some(after))?;
    Ok(changes)
}
