//! Reading the actions of a group from a message.
ghost use Rattle.std.specs.Prelude.{◌≡◌, ◌&&◌, true, length, IfOk};
ghost use Rattle.serde_json.specs.Events.{items_len};
ghost use Rattle.room_interface.specs.Prelude.{result_map_both, is_group_length};
ghost use Rattle.json_values.specs.Views.{items_view, view};
ghost use Rattle.room_wire.specs.Reading.{Gives};
ghost use Rattle.room_wire.specs.Spelling.{action_at, actions_at, actions_from, are_objects, at_action, group_at, with_position};

use crate::bad::Fault;
use crate::field::Field;
use crate::fields::items_at;
use crate::read::action_of;
use json_values::{Value, look};
use room_interface::action::Action;
use room_interface::actions::{Actions, MOST_ACTIONS};
use std::alloc::{AllocError, Global};

// Reads the group that a message asks for.
pub fn group_of(alloc: Global, message: &Value<'_>) -> Result<Actions<Global>, Fault>
    ensures { Gives result (actions_at (view message.now)) }
{
    let objects = objects_of(message)?;
    let actions = actions_of(alloc, objects)?;
    Actions::from_vec(actions).ok_or(Fault::BadField(Field::Actions))
}

// Returns the objects under `actions`, one for each action.
fn objects_of<'v, 'a>(message: &'v Value<'a>) -> Result<&'v [Value<'a>], Fault>
    ensures objects { result_map_both (λ v. items_view v.now) (λ f. f) result ≡ group_at (view message.now) }
    ensures length { IfOk result (λ v. is_group_length (length v.now) ≡ true) }
{
    match items_at(message, Field::Actions) {
        Some(items) if is_group(items) => Ok(items),
        _ => Err(Fault::BadField(Field::Actions)),
    }
}

// Returns whether the items are objects, as many as a group may have.
fn is_group(items: &[Value<'_>]) -> bool
    ensures group { result ≡ (is_group_length (items_len (items_view items.now)) && are_objects (items_view items.now)) }
    ensures length { result ≡ true → is_group_length (length items.now) ≡ true }
{
    is_group_length(items.len()) && all_objects(items)
}

// Returns whether a group may have this number of actions.
fn is_group_length(count: usize) -> bool
    ensures { result ≡ is_group_length count }
{
    1 <= count && count <= MOST_ACTIONS
}

// Returns whether all items are objects.
fn all_objects(items: &[Value<'_>]) -> bool
    ensures { result ≡ are_objects (items_view items.now) }
{
    for item in items {
        if !look::is_object(item) {
            return false;
        }
    }
    true
}

// Reads each object as an action, in order.
fn actions_of(alloc: Global, objects: &[Value<'_>]) -> Result<Vec<Action<Global>>, Fault>
    requires { is_group_length (length objects.now) ≡ true }
    ensures read { Gives (result_map_both (λ v. v.items) (λ f. f) result) (actions_from 0 (items_view objects.now)) }
    ensures length { IfOk result (λ v. length v.items ≡ length objects.now) }
{
    let mut actions = Vec::new(alloc);
    let mut position = 0;
    for object in objects {
        let action = action_in(alloc, position, object)?;
        match actions.push(action) {
            Ok(()) => {}
            Err(error) => return Err(AllocError::from(error).into()),
        }
        position += 1;
    }
    Ok(actions)
}

// Reads the object at a position of a group as an action.
fn action_in(alloc: Global, position: u32, object: &Value<'_>) -> Result<Action<Global>, Fault>
    ensures { Gives result (with_position position (action_at (view object.now))) }
{
    match action_of(alloc, object) {
        Ok(action) => Ok(action),
        Err(fault) => Err(at_action(position, fault)),
    }
}

// Adds the position in a group to the fault of an action.
fn at_action(position: u32, fault: Fault) -> Fault
    ensures { result ≡ at_action position fault }
{
    match fault {
        Fault::UnknownDo => Fault::UnknownAction { action: position },
        Fault::BadField(field) => Fault::BadActionField {
            action: position,
            field,
        },
        fault => fault,
    }
}
