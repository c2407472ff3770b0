//! The actions that an author can do.
ghost use Rattle.std.specs.Prelude.{◌≡◌, true, IfOk};
ghost use Rattle.room_interface.specs.MadeCalls.{is_made_action};

use crate::each_action;
use crate::retag::Retag;
use osm_elements::Memory;
use osm_elements::element::Element;
use osm_elements::members::Members;
use osm_elements::name::Name;
use osm_elements::names::Names;
use osm_elements::nodes::Nodes;
use osm_elements::shared::Shared;
use std::alloc::{AllocError, Allocator};

// Copies each field of an action into an equal action.
macro_rules! copied {
    (($action:expr) $($variant:ident $word:literal { $($field:ident: $how:ident from $source:ident $(by $name:ident)?),* } by $plan:ident about $part:ident $way:ident [$($subject:ident),*];)*) => {
        match $action {
            $(Action::$variant { $($field),* } => Ok(Action::$variant {
                $($field: $field.clone()?),*
            }),)*
        }
    };
}

/// An action on the map.
#[derive(Drop)]
#[derive_where(Debug)]
pub enum Action<A: Allocator> {
    /// Creates an element under a name that is not in the map.
    Create {
        /// The name of the new element.
        name: Name,
        /// The new element.
        element: Element<A>,
    },
    /// Sets or removes tags of an element.
    Retag {
        /// The name of the element.
        name: Name,
        /// The keys, each with its new value, or with no value to remove the tag.
        tags: Retag<A>,
    },
    /// Moves nodes, and the nodes of ways, by a distance, each once.
    Move {
        /// The names of the nodes and ways.
        names: Names<A>,
        /// The distance to the north, in ten-millionths of a degree.
        dlat: i64,
        /// The distance to the east, in ten-millionths of a degree.
        dlon: i64,
    },
    /// Reverses the nodes of a way.
    Reverse {
        /// The name of the way.
        name: Name,
    },
    /// Replaces the nodes of a way.
    Nodes {
        /// The name of the way.
        name: Name,
        /// The new nodes.
        list: Shared<Nodes<A>, A>,
    },
    /// Replaces the members of a relation.
    Members {
        /// The name of the relation.
        name: Name,
        /// The new members.
        list: Shared<Members<A>, A>,
    },
    /// Deletes an element that nothing refers to.
    Delete {
        /// The name of the element.
        name: Name,
    },
    /// Deletes an element and all references to it.
    Purge {
        /// The name of the element.
        name: Name,
    },
    /// Splits a way in two.
    Split {
        /// The name of the way.
        name: Name,
        /// The position among its nodes, counted from 0, at which to split. It is a `u32`, as `at` of a message is. A
        /// way has far fewer nodes, and a position after the last is refused with `BadPosition`.
        place: u32,
        /// The name of the new way.
        into: Name,
    },
    /// Joins a way to another way that begins where it ends.
    Join {
        /// The name of the way.
        name: Name,
        /// The name of the other way, which is removed.
        other: Name,
    },
    /// Merges another node into a node.
    Merge {
        /// The name of the node.
        name: Name,
        /// The name of the other node, which is removed.
        other: Name,
    },
    /// Unglues a way from a node: replaces the node with a new node at one position of the way.
    Unglue {
        /// The name of the way.
        name: Name,
        /// The position among its nodes, counted from 0, at which to unglue.
        place: u32,
        /// The name of the new node.
        into: Name,
    },
}

impl<A: Allocator + Clone> Clone for Action<A> {
    ghost is_clone = { λ a b. b ≡ a };

    fn clone(&self) -> Result<Action<A>, AllocError> {
        each_action!(copied(self))
    }
}

impl<A: Allocator> Action<A> {
    /// Returns an equal action.
    ///
    /// # Errors
    ///
    /// `Memory`, if an allocation fails.
    pub fn copy(&self) -> Result<Action<A>, Memory>
    where
        A: Clone,
        ensures { IfOk result (λ a. a ≡ self.now) }
    {
        Ok(self.clone()?)
    }
}

/// Proves that the values of an action are made, from the invariants of their types. It does nothing. It is public
/// because a room that is shared by turns needs this fact for each call. It is written by hand because it needs nothing
/// for most actions.
pub fn keeps_values<A: Allocator>(action: &Action<A>)
    ensures { is_made_action action.now ≡ true }
{
    match action {
        Action::Create { element, .. } => {
            let _ = element.kind();
        }
        Action::Retag { tags, .. } => {
            let _ = tags.rows();
        }
        Action::Nodes { list, .. } => {
            let _ = list.names();
        }
        Action::Members { list, .. } => {
            let _ = list.as_slice();
        }
        _ => {}
    }
}
