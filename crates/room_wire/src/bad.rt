//! Faults of messages.
ghost use Rattle.std.specs.Prelude.{◌≡◌};
ghost use Rattle.json_values.specs.declared.fault.Fault.TheVariants as values;
ghost use Rattle.room_wire.specs.declared.bad.Fault.TheVariants.{Memory, NotJson, NotObject};

use crate::field::Field;
use std::alloc::AllocError;
use thiserror::Error;

/// A fault of a message. The faults are listed in the order in which they are tested.
#[derive(Clone, Copy, Debug, PartialEq, Eq, Error)]
pub enum Fault {
    /// The text is not JSON, nests deeper than 127, or has a number too large for a float.
    #[error("the text is no JSON")]
    NotJson,
    /// The text is JSON, but not an object.
    #[error("the message is no object")]
    NotObject,
    /// `id` is missing, or is not a whole number in `1..=9007199254740991`.
    #[error("the message has no id")]
    BadId,
    /// `do` is missing, not a string, or not a word of the protocol.
    #[error("the message asks for nothing known")]
    UnknownDo,
    /// This is the first field that is missing or malformed.
    #[error("the field `{0}` is bad", .0.as_str())]
    BadField(Field),
    /// An action of a group has no `do`, or its `do` is not a string or not the word of an action.
    #[error("action {action} asks for nothing known")]
    UnknownAction {
        /// The position of the action in its group, from 0.
        action: u32,
    },
    /// This is the first field of an action of a group that is missing or malformed.
    #[error("action {action}: the field `{}` is bad", .field.as_str())]
    BadActionField {
        /// The position of the action in its group, from 0.
        action: u32,
        /// The field.
        field: Field,
    },
    /// An allocation failed.
    #[error("out of memory")]
    Memory,
}

/// A message that was refused: its id, or 0 if the id was not read, and its fault.
#[derive(Clone, Copy, Debug, PartialEq, Eq, Error)]
#[error("message {id}: {fault}")]
pub struct Bad {
    /// The id of the message, or 0.
    pub id: u64,
    /// The fault of the message.
    pub fault: Fault,
}

impl Bad {
    /// Returns a fault of a message whose id was not read, under the id 0.
    pub fn unread(fault: Fault) -> Bad
        ensures { result ≡ record { id = 0; fault = fault } }
    {
        Bad { id: 0, fault }
    }
}

impl From<AllocError> for Fault {
    ghost from_gives = { λ _ f. f ≡ Memory };

    fn from(_error: AllocError) -> Fault {
        Fault::Memory
    }
}

impl From<json_values::Fault> for Fault {
    ghost from_gives = { λ v f. (v ≡ values.Memory → f ≡ Memory) × (v ≡ values.NotJson → f ≡ NotJson)
        × (v ≡ values.NotObject → f ≡ NotObject) };

    fn from(fault: json_values::Fault) -> Fault {
        match fault {
            json_values::Fault::NotJson => Fault::NotJson,
            json_values::Fault::NotObject => Fault::NotObject,
            json_values::Fault::Memory => Fault::Memory,
        }
    }
}
