//! The rooms that a session asks.
ghost use Rattle.std.specs.Prelude.{◌≡◌};
ghost use Rattle.room_session.specs.Rooms.{Known, HasRoom, AnswersCall, TellsLength};

use room_interface::ask::{RoomCall, RoomReply};
use std::alloc::Global;
use std::sync::Wait;

/// Rooms with names. Each call to a room takes one turn, in which no other caller can use the room.
pub trait Rooms {
    // what is known of the rooms
    ghost known: { Self → Known };

    // What no call changes, apart from the positions of the names. Over desks, it identifies the seats, so a lender
    // gets back the rooms that it lent to a session. Rooms with nothing to identify use the type with one value.
    ghost Kept: { Type 0 } = { Unit {0} };

    ghost kept: { Self → Self.Kept };

    /// Returns the position of the room of this name, or `None` if there is no such room.
    fn find(&self, name: &str) -> Option<usize>
        ensures { result ≡ (known self.now).place name.now };

    /// Waits for a turn at the room, makes the call in it and returns the room's reply.
    fn turn<W: Wait>(&mut self, rt: &W, room: usize, call: RoomCall<Global>) -> RoomReply<Global>
        requires { HasRoom (known self.old) room }
        ensures answers { AnswersCall (known self.old) room call result (known self.new) }
        ensures kept { Self.kept self.new ≡ Self.kept self.old };

    /// Returns the entry count of the room. It does not wait.
    fn front(&mut self, room: usize) -> u64
        requires { HasRoom (known self.old) room }
        ensures looks { TellsLength (known self.old) room result (known self.new) }
        ensures kept { Self.kept self.new ≡ Self.kept self.old };
}
