//! The halves of rows.
ghost use Rattle.std.specs.Prelude.{◌≡◌, IfOk};
ghost use Rattle.osm_changes.specs.Halves.{is_same_half, are_same_halves};

use crate::same::{are_same_members, are_same_names, are_same_tags};
use osm_coords::{Lat, Lon};
use osm_elements::Memory;
use osm_elements::members::Members;
use osm_elements::nodes::Nodes;
use osm_elements::shared::Shared;
use osm_elements::shared_tags::SharedTags;
use std::alloc::{AllocError, Allocator};

/// The value in a cell: the tags of an element, or the rest of a node, a way or a relation.
#[derive(Drop)]
#[derive_where(Debug)]
pub enum Half<A: Allocator> {
    /// The tags of any element.
    Tags(SharedTags<A>),
    /// The position of a node.
    Place { lat: Lat, lon: Lon },
    /// The nodes of a way.
    Nodes(Shared<Nodes<A>, A>),
    /// The members of a relation.
    Members(Shared<Members<A>, A>),
}

impl<A: Allocator> Half<A> {
    /// Returns a copy, or `Memory`.
    pub fn copy(&self) -> Result<Half<A>, Memory>
    where
        A: Clone,
        ensures { IfOk result (λ h. h ≡ self.now) }
    {
        Ok(self.clone()?)
    }
}

impl<A: Allocator + Clone> Clone for Half<A> {
    ghost is_clone = { λ a b. b ≡ a };

    fn clone(&self) -> Result<Half<A>, AllocError> {
        match self {
            Half::Tags(tags) => Ok(Half::Tags(tags.clone()?)),
            Half::Place { lat, lon } => Ok(Half::Place {
                lat: *lat,
                lon: *lon,
            }),
            Half::Nodes(nodes) => Ok(Half::Nodes(nodes.clone()?)),
            Half::Members(members) => Ok(Half::Members(members.clone()?)),
        }
    }
}

/// Returns a copy of a half if there is one, or `Memory`.
pub(crate) fn copy_of<A: Allocator + Clone>(
    half: &Option<Half<A>>,
) -> Result<Option<Half<A>>, Memory>
    ensures { IfOk result (λ copy. copy ≡ half.now) }
{
    match half {
        Some(half) => Ok(Some(half.copy()?)),
        None => Ok(None),
    }
}

/// Returns whether both halves are there and the same, or neither is there.
pub(crate) fn are_same_halves<A: Allocator>(one: &Option<Half<A>>, other: &Option<Half<A>>) -> bool
    ensures { result ≡ are_same_halves one.now other.now }
{
    match (one, other) {
        (Some(one), Some(other)) => is_same_half(one, other),
        (None, None) => true,
        _ => false,
    }
}

// Returns whether two halves are the same.
fn is_same_half<A: Allocator>(one: &Half<A>, other: &Half<A>) -> bool
    ensures { result ≡ is_same_half one.now other.now }
{
    match (one, other) {
        (Half::Tags(tags), Half::Tags(tags2)) => are_same_tags(tags, tags2),
        (
            Half::Place { lat, lon },
            Half::Place {
                lat: lat2,
                lon: lon2,
            },
        ) => lat.value() == lat2.value() && lon.value() == lon2.value(),
        (Half::Nodes(nodes), Half::Nodes(nodes2)) => are_same_names(nodes.names(), nodes2.names()),
        (Half::Members(members), Half::Members(members2)) => are_same_members(members, members2),
        _ => false,
    }
}
