//! The plan that reverses a way.
ghost use Rattle.std.specs.Prelude.{◌≡◌, true, reverse, IfOk};
ghost use Rattle.osm_drafts.specs.Prelude.{are_same_names, is_sound};
ghost use Rattle.edit_simple.specs.Plans.{IsNamed, IsPlan};
ghost use Rattle.edit_simple.specs.Reverse.{reverse_checks, after_reverse};

use crate::kinds::is_way;
use crate::ways::{change_nodes, way_at};
use osm_changes::changes::Changes;
use osm_drafts::draft::Draft;
use osm_elements::Memory;
use osm_elements::name::Name;
use osm_elements::names::is_same;
use osm_elements::nodes::Nodes;
use osm_elements::shared::Shared;
use room_interface::refusal::Refusal;
use std::alloc::Allocator;

/// Plans to reverse a way.
///
/// # Errors
///
/// - `WrongKind`, if the name is not a way's
/// - `Absent`, if the map does not have the name
/// - `Nothing`, if the nodes of the way are the same backwards
#[tactic(auto, using(crate::specs::Facts::Checked::named_if_none))]
pub fn plan_reverse<A: Allocator + Clone>(
    alloc: A,
    rows: &Draft<'_, A>,
    name: &Name,
) -> Result<Changes<A>, Refusal<A>>
    requires { is_sound rows.now ≡ true }
    ensures plan { IsPlan rows.now (reverse_checks rows.now name.now) (after_reverse rows.now name.now) result }
    ensures named { IsNamed (reverse_checks rows.now name.now) result }
{
    if !is_way(name) {
        return Err(Refusal::WrongKind(*name));
    }
    let (nodes, tags) = way_at(rows, name)?;
    if is_palindrome(nodes.names()) {
        return Err(Refusal::Nothing);
    }
    let turned = Shared::new(alloc.clone()?, reversed(nodes)?)?;
    change_nodes(alloc, name, nodes, tags, &turned)
}

// Returns whether the names are the same backwards.
fn is_palindrome(names: &[Name]) -> bool
    ensures { result ≡ are_same_names names.now (reverse names.now) }
{
    for (place, name) in names.iter().enumerate() {
        if !is_same(name, &names[names.len() - 1 - place]) {
            return false;
        }
    }
    true
}

// Returns the nodes of a way in reverse order.
fn reversed<A: Allocator + Clone>(nodes: &Nodes<A>) -> Result<Nodes<A>, Memory>
    ensures { IfOk result (λ turned. turned ≡ reverse nodes.now) }
{
    let mut names = nodes.copy()?.into_vec();
    names.reverse();
    Ok(Nodes::from_vec(names))
}
