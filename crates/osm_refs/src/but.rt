//! The difference of two rising lists of names.
ghost use Rattle.std.specs.Prelude.{◌≡◌, IfOk};
ghost use Rattle.osm_refs.specs.Rising.{IsRising, names_but};

use osm_elements::Memory;
use osm_elements::name::Name;
use osm_elements::names::Names;
use rising_lists::but::but_all;
use std::alloc::Allocator;

/// Returns the names of a rising list that a second rising list does not contain, or `Memory`. It walks over both lists
/// once.
pub fn names_but<A: Allocator>(
    alloc: A,
    names: &[Name],
    others: &[Name],
) -> Result<Names<A>, Memory>
    requires names { IsRising names.now }
    requires others { IsRising others.now }
    ensures { IfOk result (λ kept. kept ≡ names_but names.now others.now) }
{
    let kept = but_all(alloc, names, others)?;
    Ok(Names::from_vec(kept))
}
