//! The subjects of an action, and the users of one of them.
ghost use Rattle.std.specs.Prelude.{◌≡◌, ◌++◌, IfOk};
ghost use Rattle.osm_elements.specs.Maps.{name_set};

use osm_elements::Memory;
use osm_elements::name::Name;
use osm_refs::name_set::name_set;
use std::alloc::Allocator;

/// Returns the subjects of an action and the users of one of them, in rising order, each once.
pub fn subjects_and_users<A: Allocator>(
    alloc: A,
    subjects: &[Name],
    users: &[Name],
) -> Result<Vec<Name, A>, Memory>
    ensures { IfOk result (λ names. names.items ≡ name_set (subjects.now ++ users.now)) }
{
    let mut names = Vec::new(alloc);
    names.extend_from_slice(subjects)?;
    names.extend_from_slice(users)?;
    name_set(names)
}
