//! Lists of nodes that a purge makes too short.
ghost use Rattle.std.specs.Prelude.{◌≡◌, not, count_by};
ghost use Rattle.osm_elements.specs.Maps.{is_same};
ghost use Rattle.edit_simple.specs.Purge.{falls_short};

use crate::limits::FEWEST_NODES;
use osm_elements::name::Name;
use osm_elements::names::is_same;

/// Returns whether the list contains the purged name, and has fewer than 2 names without it.
pub fn is_cut_short(names: &[Name], purged: &Name) -> bool
    ensures { result ≡ falls_short purged.now names.now }
{
    let left = count_others(names, purged);
    left < names.len() && left < FEWEST_NODES
}

// Returns how many names of a list are not `one`.
fn count_others(names: &[Name], one: &Name) -> usize
    ensures { result ≡ count_by (λ n. not (is_same one.now n)) names.now }
{
    names.iter().filter(|name| !is_same(one, *name)).count()
}
