//! Enters the references of rows in the users of a map: of all rows of a map, and of changed rows.
ghost use Rattle.std.specs.Prelude.{◌≡◌, [], IfOk, OnErr, OnOk, fold};
ghost use Rattle.osm_refs.specs.Prelude.{name_set, references, references_at, referring, table_of};
ghost use Rattle.osm_changes.specs.Inner.References.{AreChangesOf, gained, given_back, lost};

use osm_elements::Memory;
use osm_elements::element::Element;
use osm_elements::map::OsmMap;
use osm_elements::name::Name;
use osm_refs::change::ReferenceChange;
use osm_refs::refs::refs_of;
use osm_refs::users::Users;
use std::alloc::Allocator;

/// Returns the users of a map, or `Memory`. It goes over the rows once, and takes time for their references, times a
/// logarithm.
pub fn users_of<A: Allocator + Copy>(alloc: A, rows: &OsmMap<A>) -> Result<Users<A>, Memory>
    ensures { IfOk result (λ users. users ≡ table_of rows.now) }
{
    let mut users = Users::new(alloc);
    for (name, element) in rows.iter() {
        enter_row(&alloc, &mut users, name, element)?;
    }
    Ok(users)
}

// Enters the row of a name that did not refer to anything.
fn enter_row<A: Allocator + Clone>(
    alloc: &A,
    users: &mut Users<A>,
    name: &Name,
    element: &Element<A>,
) -> Result<(), Memory>
    requires { references_at users.old name.now ≡ [] }
    ensures { OnOk result (users.new ≡ referring users.old name.now (name_set (references element.now))) }
{
    let names = refs_of(alloc.clone()?, element)?;
    users.gain(alloc, *name, names.as_slice())
}

/// Enters the references that begin, or returns `Memory`.
pub fn gain<A: Allocator + Clone>(
    alloc: &A,
    users: &mut Users<A>,
    changes: &[ReferenceChange<A>],
) -> Result<(), Memory>
    requires { AreChangesOf users.old changes.now }
    ensures ok { OnOk result (users.new ≡ fold gained users.old changes.now) }
    ensures err { OnErr result (users.new ≡ users.old) }
{
    for at in 0..changes.len() {
        let change = &changes[at];
        if let Err(memory) = users.gain(alloc, change.name, change.begun.as_slice()) {
            give_back(users, &changes[..at]);
            return Err(memory);
        }
    }
    Ok(())
}

/// Removes the references that [`gain`] entered.
pub fn give_back<A: Allocator>(users: &mut Users<A>, changes: &[ReferenceChange<A>])
    ensures { users.new ≡ fold given_back users.old changes.now }
{
    for change in changes {
        users.lose(&change.name, change.begun.as_slice());
    }
}

/// Removes the references that cease.
pub fn lose<A: Allocator>(users: &mut Users<A>, changes: &[ReferenceChange<A>])
    ensures { users.new ≡ fold lost users.old changes.now }
{
    for change in changes {
        users.lose(&change.name, change.ceased.as_slice());
    }
}
