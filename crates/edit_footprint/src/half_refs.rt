//! The names that halves refer to.
ghost use Rattle.std.specs.Prelude.{◌≡◌, [], false, Some, IfOk};
ghost use Rattle.osm_elements.specs.Maps.{name_set};
ghost use Rattle.edit_footprint.specs.Footprints.{half_references};

use osm_changes::half::Half;
use osm_elements::Memory;
use osm_elements::name::Name;
use osm_elements::names::Names;
use osm_refs::name_set::name_set;
use osm_refs::refs::member_names;
use std::alloc::Allocator;

// Returns the names that a half refers to, in rising order, each once. `None` refers to nothing. A change has no whole
// row, so `refs_of` of `osm_refs`, which returns the same for a row, cannot be used.
pub(crate) fn half_refs<A: Allocator>(alloc: A, half: &Option<Half<A>>) -> Result<Names<A>, Memory>
    ensures { IfOk result (λ names. names ≡ name_set (half_references half.now)) }
{
    match half {
        Some(half) => refs_of(alloc, half),
        None => Ok(Names::empty(alloc)),
    }
}

// Returns the names that a present half refers to, in rising order, each once.
fn refs_of<A: Allocator>(alloc: A, half: &Half<A>) -> Result<Names<A>, Memory>
    ensures { IfOk result (λ names. names ≡ name_set (half_references (Some half.now))) }
{
    let names = name_set(named(alloc, half)?)?;
    Ok(Names::from_vec(names))
}

// Returns the names that a half refers to, in the half's own order.
fn named<A: Allocator>(alloc: A, half: &Half<A>) -> Result<Vec<Name, A>, Memory>
    ensures { IfOk result (λ names. names.items ≡ half_references (Some half.now)) }
{
    match half {
        Half::Tags(_) | Half::Place { .. } => Ok(Vec::new(alloc)),
        Half::Nodes(nodes) => Vec::from_slice(alloc, nodes.names()),
        Half::Members(members) => member_names(alloc, members.as_slice()),
    }
}

// Returns whether a half is a list of nodes or of members. No other half refers to a name.
pub(crate) fn may_refer<A: Allocator>(half: &Option<Half<A>>) -> bool
    ensures { result ≡ false → half_references half.now ≡ [] }
{
    matches!(half, Some(Half::Nodes(_) | Half::Members(_)))
}
