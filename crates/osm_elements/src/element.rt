//! The elements of a map.
ghost use Rattle.std.specs.Prelude.{◌≡◌, IfOk, true, option_copied};

use crate::Memory;
use crate::members::Members;
use crate::name::Kind;
use crate::nodes::Nodes;
use crate::shared::Shared;
use crate::shared_tags::SharedTags;
use osm_coords::{Lat, Lon};
use std::alloc::{AllocError, Allocator};

/// An element of a map, without its name (OpenStreetMap wiki, "Elements").
#[derive(Drop)]
#[derive_where(Debug)]
pub enum Element<A: Allocator> {
    /// A point with a latitude and a longitude.
    Node {
        lat: Lat,
        lon: Lon,
        tags: SharedTags<A>,
    },
    /// An ordered list of nodes.
    Way {
        nodes: Shared<Nodes<A>, A>,
        tags: SharedTags<A>,
    },
    /// An ordered list of members, each with a role.
    Relation {
        members: Shared<Members<A>, A>,
        tags: SharedTags<A>,
    },
}

impl<A: Allocator> Element<A> {
    ghost use Rattle.osm_elements.specs.Elements.{kind_of, tags_of};
    ghost use Rattle.osm_elements.specs.Made.{is_made};

    /// Returns the kind of the element.
    pub fn kind(&self) -> Kind
        ensures kind { result ≡ kind_of self.now }
        // True of every element.
        ensures made { is_made self.now ≡ true }
    {
        self.keeps();
        match self {
            Element::Node { .. } => Kind::Node,
            Element::Way { .. } => Kind::Way,
            Element::Relation { .. } => Kind::Relation,
        }
    }

    // Does nothing. Its contract states what the types of the element's parts guarantee.
    #[tactic(auto, using(crate::proofs::MadeElements::made_node, crate::proofs::MadeElements::made_way, crate::proofs::MadeElements::made_relation))]
    fn keeps(&self)
        ensures { is_made self.now ≡ true }
    {
        match self {
            Element::Node { lat, lon, tags } => {
                let _ = lat.value();
                let _ = lon.value();
                let _ = tags.rows();
            }
            Element::Way { nodes, tags } => {
                let _ = nodes.names();
                let _ = tags.rows();
            }
            Element::Relation { members, tags } => {
                let _ = members.as_slice();
                let _ = tags.rows();
            }
        }
    }

    /// Returns the tags of the element.
    pub fn tags(&self) -> &SharedTags<A>
        ensures { result.now ≡ tags_of self.now }
    {
        match self {
            Element::Node { tags, .. } => tags,
            Element::Way { tags, .. } => tags,
            Element::Relation { tags, .. } => tags,
        }
    }

    /// Returns a copy that shares the tags and the list of this element. It allocates nothing.
    ///
    /// # Errors
    ///
    /// `Memory`, if the tags or the list have 2^63 owners.
    pub fn copy(&self) -> Result<Element<A>, Memory>
    where
        A: Clone,
        ensures { IfOk result (λ e. e ≡ self.now) }
    {
        Ok(self.clone()?)
    }
}

impl<A: Allocator + Clone> Clone for Element<A> {
    ghost is_clone = { λ a b. b ≡ a };

    fn clone(&self) -> Result<Element<A>, AllocError> {
        match self {
            Element::Node { lat, lon, tags } => {
                let tags = tags.clone()?;
                Ok(Element::Node {
                    lat: *lat,
                    lon: *lon,
                    tags,
                })
            }
            Element::Way { nodes, tags } => {
                let nodes = nodes.clone()?;
                let tags = tags.clone()?;
                Ok(Element::Way { nodes, tags })
            }
            Element::Relation { members, tags } => {
                let members = members.clone()?;
                let tags = tags.clone()?;
                Ok(Element::Relation { members, tags })
            }
        }
    }
}

/// Returns a copy of an element that was looked up, or `Memory`.
pub fn copy_of<A: Allocator + Clone>(
    found: Option<&Element<A>>,
) -> Result<Option<Element<A>>, Memory>
    ensures { IfOk result (λ copy. copy ≡ option_copied found.entry) }
{
    match found {
        Some(element) => Ok(Some(element.copy()?)),
        None => Ok(None),
    }
}
