//! Rooms as values that a desk passes from turn to turn.
ghost use Rattle.std.specs.Prelude.{◌≡◌, true};
ghost use Rattle.room_interface.specs.MadeCalls.{is_made_room_call};

use crate::entry::Entry;
use crate::room::Room;
use osm_elements::map::Rows;
use room_interface::ask::{RoomCall, RoomReply};
use room_interface::call::{Call, Request};
use room_interface::edit::keeps_values;
use std::alloc::Allocator;
use turn_desk::Turned;

/// The parts of a room that no call changes. Only contracts use this type, and no value of it is ever made.
pub struct Opening<A: Allocator> {
    /// The map that the room began with.
    pub base: Rows<A>,
    /// The greatest number of entries in the journal.
    pub limit: u32,
}

// The list of a room is its journal. A turn runs one call or query.
impl<A: Allocator + Copy> Turned for Room<A> {
    type Call = RoomCall<A>;

    type Reply = RoomReply<A>;

    type Entry = Entry<A>;

    type Fixed = Opening<A>;

    ghost use Rattle.room_history.specs.Turns.{IsTurn};

    ghost fixed = { λ r. record { base = r.base; limit = r.limit } };

    ghost list = { λ r. r.journal };

    ghost answers = { IsTurn };

    fn turn(&mut self, call: RoomCall<A>) -> RoomReply<A> {
        keeps(&call);
        self.ask(call)
    }

    fn front(&self) -> u64 {
        Room::front(self)
    }
}

// Proves that the values of a call are made. It does nothing. `IsTurn` needs this fact because the calls in a legal
// history are plain values. Without it, a history could have entries that no program can make.
fn keeps<A: Allocator>(call: &RoomCall<A>)
    ensures { is_made_room_call call.now ≡ true }
{
    match call {
        RoomCall::Take(
            Call {
                request: Request::Do { edit, .. },
                ..
            },
        ) => keeps_values(edit),
        _ => {}
    }
}
