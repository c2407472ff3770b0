//! A table with a seat at each desk, as the rooms of a session.
ghost use Rattle.std.specs.Prelude.{◌≡◌, ◌<◌, Some, vec_len, slice_get};
ghost use Rattle.room_socket.specs.Prelude.{HasRoom, AnswersCall, TellsLength};
ghost use Rattle.turn_desk.specs.Desk.{IsAt};
ghost use Rattle.room_server.specs.Tables.{AreAt, DeskView, Kept, SeatView, TurnsThere, LooksThere, kept_of, known_of};

use crate::seats::RoomSeat;
use crate::table::{RoomDesk, RoomTable};
use room_history::laws::legal_histories_hold;
use room_interface::ask::{RoomCall, RoomReply};
use room_session::rooms::Rooms;
use std::alloc::Global;
use std::marker::Model;
use std::sync::Wait;

/// A table of rooms with a seat at each desk.
#[derive(Drop)]
pub struct Seated<'t> {
    table: &'t RoomTable,
    seats: Vec<RoomSeat, Global>,
}

impl<'t> Model for Seated<'t> {
    ghost use Rattle.room_server.specs.Tables.{AreAt, SeatedView};

    ghost Value = { SeatedView };

    ghost view = { λ s. record { table = s.table.now; seats = s.seats.items } };

    ghost invariant = { λ s. AreAt s.table.now s.seats.items };
}

impl<'t> Seated<'t> {
    /// Returns the table with these seats, one for each room in order.
    pub fn new(table: &'t RoomTable, seats: Vec<RoomSeat, Global>) -> Seated<'t>
        requires { AreAt table.now seats.items }
        ensures { result ≡ record { table = table.entry.now; seats = seats.items } }
    {
        Seated { table, seats }
    }

    /// Returns the seats, in order.
    pub fn into_seats(self) -> Vec<RoomSeat, Global>
        ensures seats { result.items ≡ self.entry.seats }
        ensures at { AreAt self.entry.table result.items }
    {
        self.seats
    }
}

impl<'t> Rooms for Seated<'t> {
    ghost known = { known_of };

    ghost Kept = { Kept };

    ghost kept = { kept_of };

    fn find(&self, name: &str) -> Option<usize> {
        self.table.find(name)
    }

    fn turn<W: Wait>(&mut self, rt: &W, room: usize, call: RoomCall<Global>) -> RoomReply<Global>
        requires { HasRoom (known_of self.old) room }
        ensures answers { AnswersCall (known_of self.old) room call result (known_of self.new) }
        // The call is one turn at the room's desk through the room's seat.
        ensures turn { (desk : DeskView) × (slice_get self.old.table.desks room ≡ Some desk)
            × TurnsThere desk room call result self.old.seats self.new.seats }
        ensures kept { kept_of self.new ≡ kept_of self.old }
    {
        legal_histories_hold::<Global>();
        let desk = self.table.desk(room);
        turn_at(rt, desk, &mut self.seats, room, call)
    }

    fn front(&mut self, room: usize) -> u64
        requires { HasRoom (known_of self.old) room }
        ensures looks { TellsLength (known_of self.old) room result (known_of self.new) }
        // The call is one look at the room's desk through the room's seat.
        ensures look { (desk : DeskView) × (slice_get self.old.table.desks room ≡ Some desk)
            × LooksThere desk room result self.old.seats self.new.seats }
        ensures kept { kept_of self.new ≡ kept_of self.old }
    {
        legal_histories_hold::<Global>();
        let desk = self.table.desk(room);
        look_at(desk, &mut self.seats, room)
    }
}

// Takes a turn at a desk through the room's seat.
fn turn_at<W: Wait>(
    rt: &W,
    desk: &RoomDesk,
    seats: &mut Vec<RoomSeat, Global>,
    room: usize,
    call: RoomCall<Global>,
) -> RoomReply<Global>
    requires room { room < vec_len seats.old }
    requires seat { (seat : SeatView) → slice_get seats.old.items room ≡ Some seat → IsAt desk.now seat }
    ensures { TurnsThere desk.now room call result seats.old.items seats.new.items }
{
    desk.turn(rt, &mut seats[room], call)
}

// Looks at the length of a desk's history through the room's seat.
fn look_at(desk: &RoomDesk, seats: &mut Vec<RoomSeat, Global>, room: usize) -> u64
    requires room { room < vec_len seats.old }
    requires seat { (seat : SeatView) → slice_get seats.old.items room ≡ Some seat → IsAt desk.now seat }
    ensures { LooksThere desk.now room result seats.old.items seats.new.items }
{
    desk.front(&mut seats[room])
}
