//! A desk, through which threads share one room.
ghost use Rattle.std.specs.Prelude.{◌≡◌, ◌≤◌, [], IfOk};
ghost use Rattle.turn_desk.specs.History.{AreApart};
ghost use Rattle.turn_desk.specs.Desk.{kin as kin_of, IsAt, IsFirst, IsSameSeat, SplitsInto, MeetsAt, TurnsAt, LooksAt, HasKin, ClosesWith};

use crate::Memory;
use crate::law::InTurns;
use crate::seat::Seat;
use crate::steps::{WORDS, cut, look, take_in, take_last_turn, take_turn};
use crate::turned::Turned;
use crate::view::View;
use atomic_table::Table;
use std::alloc::Allocator;
use std::marker::Model;
use std::snapshot::Snapshot;
use std::sync::Wait;

/// A lock through which threads share one room, each with its own seat.
///
/// Contracts model a desk as the table of words that it shares with its seats, and the room's fixed part. Each call
/// takes one of the desk's own seats.
#[derive(Drop)]
pub struct Desk<R: Turned, A: Allocator> {
    table: Table<Option<R>, View<R::Entry, R::Fixed>, Snapshot<R>, InTurns, A>,
}

impl<R: Turned, A: Allocator> Model for Desk<R, A> {
    ghost use Rattle.turn_desk.specs.Desk.{DeskId};
    ghost use Rattle.turn_desk.specs.Inner.Steps.{IsSized};

    ghost Value = { DeskId R.Fixed };

    ghost view = { λ d. record { table = d.table.shared.table_id; fixed = R.fixed d.table.shared.key.value } };

    ghost invariant = { λ d. IsSized d.table.shared.table_id };
}

impl<R: Turned, A: Allocator> Desk<R, A> {
    /// Opens a desk over `room`, whose list is empty, and returns it with its first seat, whose number is 0.
    ///
    /// The fixed part is the room's. `about` is a snapshot of the room, which exists in proofs alone. The allocator is
    /// cloned for the list of slots, and for nothing else.
    ///
    /// # Errors
    ///
    /// `Memory`, if an allocation or the allocator's clone fails. The room is then dropped.
    pub fn open(alloc: A, room: R) -> Result<(Desk<R, A>, Seat<R>), Memory>
    where
        A: Clone,
        requires { R.list room ≡ [] }
        ensures { IfOk result (λ r. IsAt r.0 r.1 × (r.0.fixed ≡ R.fixed room) × IsFirst r.1) }
    {
        let about = Snapshot::of(&room);
        let mut slots = Vec::new(alloc.clone()?);
        slots.push(Some(room))?;
        let Ok((table, place)) = Table::new(alloc, &[0; WORDS], slots, &about) else {
            return Err(Memory);
        };
        Ok((Desk { table }, Seat { place }))
    }

    /// Splits `seat` into two seats, which have both seen what `seat` had seen.
    ///
    /// The first seat is `seat` with fewer parts. The second seat has made no call, looked at no length and met no
    /// seat. It has a number that no seat of the desk ever had, and a 4096th of the parts, at least one part. So the
    /// first seat of a desk can be split more than two thousand times.
    ///
    /// When a seat is met into another seat, the numbers that it could give to new seats are lost. This costs nothing,
    /// because numbers exist in proofs alone.
    pub fn split(&self, seat: Seat<R>) -> (Seat<R>, Seat<R>)
        requires seat { IsAt self.now seat }
        requires parts { 2 ≤ seat.parts }
        ensures desk { IsAt self.now result.0 × IsAt self.now result.1 }
        ensures split { SplitsInto seat result.0 result.1 }
        ensures kin { HasKin result.0.seen result.0 × HasKin result.1.seen result.1 }
        ensures apart { AreApart (kin_of result.0) × AreApart (kin_of result.1) }
    {
        let mut place = seat.place;
        let other = cut(&self.table.shared, &mut place);
        (Seat { place }, Seat { place: other })
    }

    /// Meets `other` into `seat`, which has then seen all that either seat had seen, and has the kin and the parts of
    /// both.
    ///
    /// The call does not wait. `seat` looks at the length of the history once.
    pub fn meet(&self, seat: &mut Seat<R>, other: Seat<R>)
        requires seat { IsAt self.now seat.old }
        requires other { IsAt self.now other }
        ensures desk { IsAt self.now seat.new }
        ensures meet { MeetsAt R.answers self.now.fixed seat.old other seat.new }
        ensures kin { HasKin seat.new.seen seat.new }
        ensures apart { AreApart (kin_of seat.new) }
    {
        take_in(&self.table.shared, &mut seat.place, other.place);
    }

    /// Waits for a turn, makes the call in it and passes the turn on.
    ///
    /// If it returns, the reply is the one that a single caller would get after some legal history, which begins with
    /// what the seat had seen. The seat has then seen that history, with the call's entry if the call was accepted. It
    /// has drawn one ticket. No contract promises that the turn comes, when it comes, or in which order.
    pub fn turn<W: Wait>(&self, rt: &W, seat: &mut Seat<R>, call: R::Call) -> R::Reply
        requires { IsAt self.now seat.old }
        ensures desk { IsAt self.now seat.new }
        ensures same { IsSameSeat seat.old seat.new }
        ensures turn { TurnsAt R.answers self.now.fixed seat.old call result seat.new }
        ensures kin { HasKin seat.new.seen seat.new }
        ensures apart { AreApart (kin_of seat.new) }
    {
        take_turn(rt, &self.table.shared, &mut seat.place, call)
    }

    /// Returns the length of the history. The seat has then seen the whole history, as it was at one moment of this
    /// call.
    ///
    /// What the seat has then seen begins with what it had seen before. Each later call through this seat is made at a
    /// history that begins with it. The call does not wait. Before it returns, other threads may have made the history
    /// longer.
    pub fn front(&self, seat: &mut Seat<R>) -> u64
        requires { IsAt self.now seat.old }
        ensures desk { IsAt self.now seat.new }
        ensures same { IsSameSeat seat.old seat.new }
        ensures look { LooksAt R.answers self.now.fixed seat.old result seat.new }
        ensures kin { HasKin seat.new.seen seat.new }
        ensures apart { AreApart (kin_of seat.new) }
    {
        look(&self.table.shared, &mut seat.place)
    }

    /// Waits for a last turn, makes no call in it and returns the room.
    ///
    /// If it returns, the room's list is that of a legal history, which begins with what the seat had seen. The history
    /// has the entries of the seat's calls and those of each seat met into it. No contract promises that the turn
    /// comes, or when.
    pub fn close<W: Wait>(self, rt: &W, seat: Seat<R>) -> R
        requires { IsAt self seat }
        ensures { ClosesWith R.fixed R.list R.answers self.fixed seat result }
    {
        let mut place = seat.place;
        take_last_turn(rt, &self.table.shared, &mut place)
    }
}
