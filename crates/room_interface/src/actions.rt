//! A group's list of actions.
ghost use Rattle.std.specs.Prelude.{◌≡◌, true, length, IfSome, is_some};
ghost use Rattle.room_interface.specs.Groups.{is_group_length};

use crate::action::Action;
use std::alloc::Allocator;
use std::marker::Model;

/// The greatest number of actions in a group, a limit of this project.
pub const MOST_ACTIONS: usize = 10000;

/// A list of 1 to [`MOST_ACTIONS`] actions.
#[derive(Drop)]
#[derive_where(Debug)]
pub struct Actions<A: Allocator> {
    actions: Vec<Action<A>, A>,
}

// The model of these actions is their list.
impl<A: Allocator> Model for Actions<A> {
    ghost use Rattle.std.specs.Prelude.{◌≡◌, List, length, true};
    ghost use Rattle.room_interface.specs.declared.action.Action.{Action};
    ghost use Rattle.room_interface.specs.Groups.{is_group_length};

    ghost Value = { List (Action A) };

    ghost view = { λ g. g.actions.items };

    ghost invariant = { λ g. is_group_length (length g.actions.items) ≡ true };
}

impl<A: Allocator> Actions<A> {
    /// Returns the actions of a vector, in its order, or `None` if the vector has no action or more than
    /// [`MOST_ACTIONS`]. It allocates nothing.
    pub fn from_vec(actions: Vec<Action<A>, A>) -> Option<Actions<A>>
        ensures some { IfSome result (λ g. g ≡ actions.items) }
        ensures none { is_some result ≡ is_group_length (length actions.items) }
    {
        if 1 <= actions.len() && actions.len() <= MOST_ACTIONS {
            Some(Actions { actions })
        } else {
            None
        }
    }

    /// Returns the actions in their order.
    pub fn as_slice(&self) -> &[Action<A>]
        ensures actions { result.now ≡ self.now }
        // True of every group.
        ensures length { is_group_length (length self.now) ≡ true }
    {
        &self.actions
    }
}
