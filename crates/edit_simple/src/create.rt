//! The plan of a create.
ghost use Rattle.std.specs.Prelude.{◌≡◌};
ghost use Rattle.room_interface.specs.Prelude.{kind_of, is_kind};
ghost use Rattle.edit_simple.specs.Checks.{first_that_holds};
ghost use Rattle.edit_simple.specs.Create.{create_checks, after_create};
ghost use Rattle.edit_simple.specs.Passing.{passed};
ghost use Rattle.edit_simple.specs.Plans.{IsNamed, IsPlan};

use crate::changing::one_change;
use crate::lists::list_fault;
use crate::lookup::is_present;
use osm_changes::changes::Changes;
use osm_drafts::draft::Draft;
use osm_elements::element::Element;
use osm_elements::name::Name;
use room_interface::refusal::Refusal;
use std::alloc::Allocator;

/// Plans to create an element with this name. It looks up each name that the element refers to.
///
/// # Errors
///
/// - `WrongKind`, if the element is not of the name's kind
/// - `Present`, if the map has the name
/// - `TooFew`, if it is a way of fewer than 2 nodes
/// - `TooMany`, if it is a way of more than 2,000 nodes or a relation of more than 32,000 members (this project's
///   limits)
/// - `Absent`, with the least name that the element refers to, other than its own, that the map does not have
///   (OpenStreetMap API v0.6: nothing absent is named)
#[tactic(auto, using(crate::specs::Facts::Checked::named_if_none))]
pub fn plan_create<A: Allocator + Clone>(
    alloc: A,
    rows: &Draft<'_, A>,
    name: &Name,
    element: &Element<A>,
) -> Result<Changes<A>, Refusal<A>>
    ensures plan { IsPlan rows.now (create_checks rows.now name.now element.now)
        (after_create rows.now name.now element.now) result }
    ensures named { IsNamed (create_checks rows.now name.now element.now) result }
{
    check(rows, name, element)?;
    let after = element.copy()?;
    Ok(one_change(alloc, name, None, Some(after))?)
}

// Returns the first check that holds, if any.
fn check<A: Allocator>(
    rows: &Draft<'_, A>,
    name: &Name,
    element: &Element<A>,
) -> Result<(), Refusal<A>>
    ensures { result ≡ passed (first_that_holds (create_checks rows.now name.now element.now)) }
{
    if !is_of_kind(element, name) {
        return Err(Refusal::WrongKind(*name));
    }
    if is_present(rows, name) {
        return Err(Refusal::Present(*name));
    }
    match list_fault(rows, name, element) {
        Some(refusal) => Err(refusal),
        None => Ok(()),
    }
}

// Returns whether the element is of the name's kind.
fn is_of_kind<A: Allocator>(element: &Element<A>, name: &Name) -> bool
    ensures { result ≡ is_kind (kind_of element.now) name.now.kind }
{
    element.kind() == name.kind()
}
