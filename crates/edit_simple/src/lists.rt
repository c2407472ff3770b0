//! Checks of the list of an element: its length, and the names in it.
ghost use Rattle.std.specs.Prelude.{◌≡◌, filter};
ghost use Rattle.osm_drafts.specs.Prelude.{least, references};
ghost use Rattle.edit_simple.specs.Checks.{first_that_holds};
ghost use Rattle.edit_simple.specs.Create.{is_too_short, is_too_long, is_missing, list_checks};

use crate::limits::{FEWEST_NODES, MOST_MEMBERS, MOST_NODES};
use crate::lookup::{least_missing, least_missing_member};
use osm_changes::lookup::Lookup;
use osm_elements::element::Element;
use osm_elements::name::Name;
use room_interface::refusal::Refusal;
use std::alloc::Allocator;

/// Returns the first fault of an element's list, if the element is to have `name` in the map:
/// - `TooFew`, if it is a way of fewer than 2 nodes
/// - `TooMany`, if it is a way of more than 2,000 nodes, or a relation of more than 32,000 members
/// - `Absent`, with the least name that it refers to, other than `name`, that the map does not have
///
/// It looks up each reference.
pub fn list_fault<A: Allocator, R: Lookup<A>>(
    rows: &R,
    name: &Name,
    element: &Element<A>,
) -> Option<Refusal<A>>
    ensures { result ≡ first_that_holds (list_checks (R.rows rows.now) name.now element.now) }
{
    if is_too_short(element) {
        return Some(Refusal::TooFew(*name));
    }
    if is_too_long(element) {
        return Some(Refusal::TooMany(*name));
    }
    match least_missing_reference(rows, name, element) {
        Some(absent) => Some(Refusal::Absent(absent)),
        None => None,
    }
}

// Returns whether the element is a way of fewer than 2 nodes.
fn is_too_short<A: Allocator>(element: &Element<A>) -> bool
    ensures { result ≡ is_too_short element.now }
{
    match element {
        Element::Way { nodes, .. } => nodes.len() < FEWEST_NODES,
        _ => false,
    }
}

// Returns whether the element is a way of more than 2,000 nodes or a relation of more than 32,000 members.
fn is_too_long<A: Allocator>(element: &Element<A>) -> bool
    ensures { result ≡ is_too_long element.now }
{
    match element {
        Element::Node { .. } => false,
        Element::Way { nodes, .. } => nodes.len() > MOST_NODES,
        Element::Relation { members, .. } => members.len() > MOST_MEMBERS,
    }
}

// Returns the least name that the element refers to, other than `name`, that the map does not have.
fn least_missing_reference<A: Allocator, R: Lookup<A>>(
    rows: &R,
    name: &Name,
    element: &Element<A>,
) -> Option<Name>
    ensures { result ≡ least (filter (is_missing (R.rows rows.now) name.now) (references element.now)) }
{
    match element {
        Element::Node { .. } => None,
        Element::Way { nodes, .. } => least_missing(rows, name, nodes.names()),
        Element::Relation { members, .. } => least_missing_member(rows, name, members.as_slice()),
    }
}
