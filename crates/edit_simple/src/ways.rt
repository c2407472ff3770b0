//! Ways in a map, and the change of their nodes.
ghost use Rattle.std.specs.Prelude.{◌≡◌, ◌⊎◌, true, false, MatchResult, Some, Err};
ghost use Rattle.osm_drafts.specs.Prelude.{is_absent, row_at, row_changes, are_same_names, is_sound};
ghost use Rattle.osm_elements.specs.declared.element.Element.TheVariants.{Way};
ghost use Rattle.room_interface.specs.declared.refusal.Refusal.TheVariants.{Absent, Nothing, Memory as OutOfMemory};
ghost use Rattle.edit_simple.specs.Kinds.{is_way};

use crate::changing::one_change;
use osm_changes::changes::Changes;
use osm_changes::same::are_same_names;
use osm_drafts::draft::Draft;
use osm_elements::element::Element;
use osm_elements::name::Name;
use osm_elements::nodes::Nodes;
use osm_elements::shared::Shared;
use osm_elements::shared_tags::SharedTags;
use room_interface::refusal::Refusal;
use std::alloc::Allocator;

/// Returns the nodes and the tags of a way. Takes time logarithmic in the size of the map.
///
/// # Errors
///
/// `Absent`, if the map does not have the way.
pub fn way_at<'m, A: Allocator>(
    rows: &'m Draft<'_, A>,
    name: &Name,
) -> Result<(&'m Shared<Nodes<A>, A>, &'m SharedTags<A>), Refusal<A>>
    requires sound { is_sound rows.now ≡ true }
    requires kind { is_way name.now.kind ≡ true }
    ensures { MatchResult result
        (λ way. row_at rows.now name.now ≡ Some (Way way.0.now way.1.now))
        (λ r. (is_absent rows.now name.now ≡ true) × (r ≡ Absent name.now)) }
{
    let Some(element) = rows.get(name) else {
        return Err(Refusal::Absent(*name));
    };
    match element {
        Element::Way { nodes, tags } => Ok((nodes, tags)),
        _ => unreachable!(),
    }
}

/// Returns the changes of a way that gets the nodes `others`.
///
/// # Errors
///
/// - `Nothing`, if these are the nodes that it has
/// - `Memory`, if otherwise an allocation fails
pub fn change_nodes<A: Allocator + Clone>(
    alloc: A,
    name: &Name,
    nodes: &Shared<Nodes<A>, A>,
    tags: &SharedTags<A>,
    others: &Shared<Nodes<A>, A>,
) -> Result<Changes<A>, Refusal<A>>
    ensures changed { MatchResult result
        (λ cs. (are_same_names nodes.now others.now ≡ false)
        × (cs ≡ row_changes name.now (Some (Way nodes.now tags.now)) (Some (Way others.now tags.now))))
        (λ r. ((are_same_names nodes.now others.now ≡ true) × (r ≡ Nothing)) ⊎ (r ≡ OutOfMemory)) }
    ensures named { are_same_names nodes.now others.now ≡ true → result ≡ Err Nothing }
{
    if are_same_names(nodes.names(), others.names()) {
        return Err(Refusal::Nothing);
    }
    let before = Element::Way {
        nodes: nodes.copy()?,
        tags: tags.copy()?,
    };
    let after = Element::Way {
        nodes: others.copy()?,
        tags: tags.copy()?,
    };
    Ok(one_change(alloc, name, Some(before), Some(after))?)
}
