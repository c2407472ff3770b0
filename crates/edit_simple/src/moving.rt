//! The plan of a move.
ghost use Rattle.std.specs.Prelude.{◌≡◌, ◌⊎◌, ◌&&◌, ◌||◌, ◌++◌, pos, true, false, Some, length, nat_eq, take, drop, IfOk, OnOk, MatchResult, filter};
ghost use Rattle.osm_drafts.specs.Prelude.{int_eq, is_absent, least, name_set, row_at, is_sound};
ghost use Rattle.room_interface.specs.declared.refusal.Refusal.TheVariants.{OutOfRange as OutsideRange, Memory as OutOfMemory};
ghost use Rattle.edit_simple.specs.Inner.Moving.{moved_with, all_moved, row_leaves, moved_row};
ghost use Rattle.edit_simple.specs.Inner.Moves.{IsMoved, MayMove, is_node_row};
ghost use Rattle.edit_simple.specs.Kinds.{is_relation};
ghost use Rattle.edit_simple.specs.Move.{move_checks, after_move};
ghost use Rattle.edit_simple.specs.Plans.{IsNamed, IsPlan};

use crate::kinds::is_relation;
use crate::lookup::{is_present, lesser};
use osm_changes::changes::Changes;
use osm_drafts::draft::Draft;
use osm_elements::Memory;
use osm_elements::element::Element;
use osm_elements::name::Name;
use osm_refs::name_set::name_set;
use room_interface::refusal::Refusal;
use std::alloc::Allocator;

/// Plans to move each listed node, and each node of each listed way, by `dlat` and `dlon` ten-millionths of a degree.
/// Each node moves once, however often it is listed. The plan sorts the moved nodes and looks up each of them.
///
/// # Errors
///
/// - `WrongKind`, with the least relation in the list
/// - `Absent`, with the least listed name that the map does not have
/// - `OutOfRange`, with the least node that would leave the range of latitudes or longitudes (OpenStreetMap API v0.6)
/// - `Nothing`, if the list is empty or both distances are 0
///
/// Only `OutOfRange` needs memory. `Memory` can replace it, but no other refusal.
#[tactic(auto, using(crate::specs::Facts::Checked::named_if_none))]
pub fn plan_move<A: Allocator + Clone>(
    alloc: A,
    rows: &Draft<'_, A>,
    names: &[Name],
    dlat: i64,
    dlon: i64,
) -> Result<Changes<A>, Refusal<A>>
    requires { is_sound rows.now ≡ true }
    ensures plan { IsPlan rows.now (move_checks rows.now names.now dlat dlon)
        (after_move rows.now names.now dlat dlon) result }

    // `Memory` can replace `OutOfRange` alone.
    ensures named { IsNamed (take 2 (move_checks rows.now names.now dlat dlon)
        ++ drop 3 (move_checks rows.now names.now dlat dlon)) result }
{
    if let Some(relation) = least_relation(names) {
        return Err(Refusal::WrongKind(relation));
    }
    if let Some(absent) = least_absent(rows, names) {
        return Err(Refusal::Absent(absent));
    }
    if moves_nothing(names, dlat, dlon) {
        return Err(Refusal::Nothing);
    }
    let moved = all_moved(alloc.clone()?, rows, names)?;
    move_all(alloc, rows, &moved, dlat, dlon)
}

// Returns whether the list is empty, or both distances are 0.
fn moves_nothing(names: &[Name], dlat: i64, dlon: i64) -> bool
    ensures { result ≡ (nat_eq (length names.now) 0 || (int_eq dlat (pos 0) && int_eq dlon (pos 0))) }
{
    names.is_empty() || (dlat == 0 && dlon == 0)
}

// Returns the least name of a relation.
fn least_relation(names: &[Name]) -> Option<Name>
    ensures { result ≡ least (filter (λ e. is_relation e.kind) names.now) }
{
    let mut least = None;
    for name in names {
        if is_relation(name) {
            least = Some(lesser(least, *name));
        }
    }
    least
}

// Returns the least name that the map does not have.
fn least_absent<A: Allocator>(rows: &Draft<'_, A>, names: &[Name]) -> Option<Name>
    ensures { result ≡ least (filter (is_absent rows.now) names.now) }
{
    let mut least = None;
    for name in names {
        if !is_present(rows, name) {
            least = Some(lesser(least, *name));
        }
    }
    least
}

// Returns the nodes to move, rising, each once.
fn all_moved<A: Allocator>(
    alloc: A,
    rows: &Draft<'_, A>,
    names: &[Name],
) -> Result<Vec<Name, A>, Memory>
    ensures { IfOk result (λ moved. moved.items ≡ name_set (all_moved rows.now names.now)) }
{
    name_set(listed(alloc, rows, names)?)
}

// Returns the listed nodes and the nodes of listed ways, in the order of the list.
fn listed<A: Allocator>(
    alloc: A,
    rows: &Draft<'_, A>,
    names: &[Name],
) -> Result<Vec<Name, A>, Memory>
    ensures { IfOk result (λ moved. moved.items ≡ all_moved rows.now names.now) }
{
    let mut moved = Vec::new(alloc);
    for name in names {
        add_moved(rows, name, &mut moved)?;
    }
    Ok(moved)
}

// Appends the node with this name, or the nodes of the way with this name.
fn add_moved<A: Allocator>(
    rows: &Draft<'_, A>,
    name: &Name,
    moved: &mut Vec<Name, A>,
) -> Result<(), Memory>
    ensures { OnOk result (moved.new.items ≡ moved.old.items ++ moved_with name.now (row_at rows.now name.now)) }
{
    match rows.get(name) {
        Some(Element::Node { .. }) => moved.push(*name)?,
        Some(Element::Way { nodes, .. }) => moved.extend_from_slice(nodes.names())?,
        _ => {}
    }
    Ok(())
}

// Returns the changes of all moved nodes, or the refusal of the first node that would leave the range.
fn move_all<A: Allocator + Clone>(
    alloc: A,
    rows: &Draft<'_, A>,
    moved: &[Name],
    dlat: i64,
    dlon: i64,
) -> Result<Changes<A>, Refusal<A>>
    requires { MayMove rows.now moved.now dlat dlon }
    ensures { IsMoved rows.now moved.now dlat dlon result }
{
    let mut changes = Changes::empty(alloc);
    for name in moved {
        let (before, after) = moved_node(rows, name, dlat, dlon)?;
        changes.push_row(*name, Some(before), Some(after))?;
    }
    Ok(changes)
}

// Returns the element of a moved node before and after, or the refusal if it would leave the range.
fn moved_node<A: Allocator + Clone>(
    rows: &Draft<'_, A>,
    name: &Name,
    dlat: i64,
    dlon: i64,
) -> Result<(Element<A>, Element<A>), Refusal<A>>
    requires { is_node_row (row_at rows.now name.now) ≡ true }
    ensures { MatchResult result
        (λ node. (row_leaves dlat dlon (row_at rows.now name.now) ≡ false)
        × (Some node.0 ≡ row_at rows.now name.now)
        × (Some node.1 ≡ moved_row rows.now dlat dlon name.now))
        (λ r. ((row_leaves dlat dlon (row_at rows.now name.now) ≡ true) × (r ≡ OutsideRange name.now))
        ⊎ (r ≡ OutOfMemory)) }
{
    let Some(element) = rows.get(name) else {
        unreachable!()
    };
    let Element::Node { lat, lon, tags } = element else {
        unreachable!()
    };
    let (Some(new_lat), Some(new_lon)) = (lat.moved(dlat), lon.moved(dlon)) else {
        return Err(Refusal::OutOfRange(*name));
    };
    let after = Element::Node {
        lat: new_lat,
        lon: new_lon,
        tags: tags.copy()?,
    };
    let before = element.copy()?;
    Ok((before, after))
}
