//! Edits: what an author can do in one entry.
ghost use Rattle.std.specs.Prelude.{◌≡◌, true};
ghost use Rattle.room_interface.specs.MadeCalls.{are_made, is_made_edit};

use crate::action::{Action, keeps_values as action_keeps_values};
use crate::actions::Actions;
use std::alloc::Allocator;

/// One action, or a group of actions that is accepted or refused as a whole.
#[derive(Drop)]
#[derive_where(Debug)]
pub enum Edit<A: Allocator> {
    /// One action.
    One(Action<A>),
    /// A group: its actions in their order, each on the map that the actions before it lead to.
    Group(Actions<A>),
}

/// Proves that the values of an edit are made, from the invariants of their types. It does nothing.
pub fn keeps_values<A: Allocator>(edit: &Edit<A>)
    ensures { is_made_edit edit.now ≡ true }
{
    match edit {
        Edit::One(action) => action_keeps_values(action),
        Edit::Group(actions) => all_keep_values(actions.as_slice()),
    }
}

// Proves that the values of all actions are made. It does nothing.
fn all_keep_values<A: Allocator>(actions: &[Action<A>])
    ensures { are_made actions.now ≡ true }
{
    for action in actions {
        action_keeps_values(action);
    }
}
