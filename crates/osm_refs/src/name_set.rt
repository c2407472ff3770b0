//! Sets of names, as rising lists.
ghost use Rattle.std.specs.Prelude.{◌≡◌, ◌≤◌, IfOk, IsOk, length};
ghost use Rattle.osm_elements.specs.Maps.{name_set};

use osm_elements::Memory;
use osm_elements::name::Name;
use std::alloc::Allocator;

/// Returns the names, rising, each once. It takes time `n log n` for n names. If the list consists of few parts, each of
/// which rises or strictly falls, it takes linear time.
///
/// # Errors
///
/// `Memory`, if an allocation fails. Up to 20 names never get it.
pub fn name_set<A: Allocator>(mut names: Vec<Name, A>) -> Result<Vec<Name, A>, Memory>
    ensures set { IfOk result (λ set. set.items ≡ name_set names.items) }
    ensures few { length names.items ≤ 20 → IsOk result }
{
    names.sort()?;
    names.dedup();
    Ok(names)
}
