//! The steps of a turn, of a look, and of splitting and meeting seats, each in a function of its own.
//!
//! Word 0 is the length of the history. Word 1 is the number of tickets drawn, and word 2 the number of tickets served,
//! both modulo 2^64. The other words are gates, on which threads sleep until their turn. The one slot holds the room
//! while no seat has the turn. The slot is a seat's from the load that gives it the turn until it passes the turn on.
ghost use Rattle.std.specs.Prelude.{◌≡◌, ◌⊎◌, ℕ, ◌%◌, ◌^◌, ◌<◌, ◌≤◌, [], ◌∷◌, length, Some, None};
ghost use Rattle.turn_desk.specs.Inner.Plays.{Draws, Asks, Stores, PassesOn, Looks, TakesTurn};
ghost use Rattle.turn_desk.specs.Inner.Steps.{SitsAt, IsGate, IsSamePlace, IsWaiting, IsTurning, IsAtRest, HoldsRoom, MayEnter, GetsTurn, MakesCall};
ghost use Rattle.turn_desk.specs.Desk.{sitting, IsSameSeat, TurnsAt, LooksAt, SplitsInto, MeetsAt, ClosesWith};
ghost use Rattle.turn_desk.specs.declared.view.Stage.TheVariants.{Idle, Waiting};

use crate::law::{Ask, Board, Cut, Draw, Look, Meeting, PassOn, Place, Ring, Store};
use crate::turned::Turned;
use std::sync::Wait;
use std::thread;

/// The word with the length of the history.
const LENGTH: usize = 0;

/// The word with the number of tickets drawn.
const TICKET: usize = 1;

/// The word with the number of tickets served.
const SERVING: usize = 2;

/// How often a waiting thread yields before it sleeps.
const YIELDS: u32 = 64;

/// A thread yields only if at most so many turns are before its own.
const NEAR: u64 = 8;

/// The first of the gates: words on which waiting threads sleep, each thread on that of its ticket.
const GATES: usize = 3;

/// The number of gates. Threads whose tickets differ by a multiple of it sleep on the same gate.
const GATE_COUNT: u64 = 256;

/// The number of words of a table.
pub(crate) const WORDS: usize = 259;

/// Returns the gate of a ticket.
fn gate_of(ticket: u64) -> usize
    ensures { IsGate result }
{
    GATES + (ticket % GATE_COUNT) as usize
}

/// Loads a gate, of which nothing is known.
fn watch<R: Turned>(board: &Board<R>, place: &mut Place<R>, gate: usize) -> u64
    requires seat { SitsAt board.now.table_id (R.fixed board.now.key.value) place.old }
    requires gate { IsGate gate }
    ensures place { IsSamePlace place.old place.new }
    ensures same { place.new.me ≡ place.old.me }
{
    board.load::<Ring>(place, gate)
}

/// Changes the gate of a ticket, and wakes the threads that sleep on it.
fn ring<R: Turned>(board: &Board<R>, place: &mut Place<R>, ticket: u64)
    requires { SitsAt board.now.table_id (R.fixed board.now.key.value) place.old }
    ensures place { IsSamePlace place.old place.new }
    ensures same { place.new.me ≡ place.old.me }
{
    let gate = gate_of(ticket);
    board.fetch_add::<Ring>(place, gate, 1);
    board.wake_all(gate);
}

/// The part of a word that a sleeping thread watches.
const LOW_BITS: u64 = 0xffff_ffff;

/// Draws a ticket, and returns the number of tickets drawn before it, modulo 2^64.
fn draw_ticket<R: Turned>(board: &Board<R>, place: &mut Place<R>) -> u64
    requires seat { SitsAt board.now.table_id (R.fixed board.now.key.value) place.old }
    requires idle { place.old.me.0.stage ≡ Idle }
    ensures place { IsSamePlace place.old place.new }
    ensures ticket { Draws place.old.me result place.new.me }
{
    board.fetch_add::<Draw>(place, TICKET, 1)
}

/// Loads the ticket that is being served, modulo 2^64. If it is the seat's own, the seat has the turn.
fn ask<R: Turned>(board: &Board<R>, place: &mut Place<R>) -> u64
    requires seat { SitsAt board.now.table_id (R.fixed board.now.key.value) place.old }
    requires waiting { (t : ℕ) × (place.old.me.0.stage ≡ Waiting t) }
    ensures place { IsSamePlace place.old place.new }
    ensures turn { Asks R.fixed R.list R.answers place.old.me result place.new.me }
{
    board.load::<Ask>(place, SERVING)
}

/// Waits until the seat's ticket is served. The thread yields at first, and then sleeps until a turn is passed on.
fn wait_for_turn<R: Turned, W: Wait>(rt: &W, board: &Board<R>, place: &mut Place<R>, ticket: u64)
    requires seat { SitsAt board.now.table_id (R.fixed board.now.key.value) place.old }
    requires waiting { IsWaiting place.old.me.0 ticket }
    ensures place { IsSamePlace place.old place.new }
    ensures turn { (t : ℕ) → place.old.me.0.stage ≡ Waiting t →
        TakesTurn R.fixed R.list R.answers (R.fixed board.now.key.value) t place.old.me place.new.me }
{
    let mut yields = 0;
    let gate = gate_of(ticket);
    'asking: for _ in rt.forever() {
        let rung = watch(board, place, gate);
        let serving = ask(board, place);
        if serving == ticket {
            return;
        }
        if ticket.wrapping_sub(serving) <= NEAR && yields < YIELDS {
            yields += 1;
            thread::yield_now();
        } else {
            // The system compares the low half of the gate with the loaded one and puts the thread to sleep in one
            // step. If they differ, the thread does not sleep. `pass_on` first passes the turn on, then changes the
            // gate of the next ticket, and then wakes all threads that sleep on it. A thread that loaded its gate
            // before this change does not go to sleep, or is woken. A thread that loaded it after the change then finds
            // that it has the turn. The low half is the same again only after 2^32 changes, all of which would have to
            // be made between the load and the sleep.
            board.park(rt, gate, (rung & LOW_BITS) as u32);
        }
    }
    unreachable!()
}

/// Takes the room out of the slot.
fn take_room<R: Turned>(board: &Board<R>, place: &mut Place<R>) -> R
    requires board { place.old.table_id ≡ board.now.table_id }
    requires slot { (room : R) × (place.old.me.1 ≡ (0, Some room) ∷ []) }
    ensures place { IsSamePlace place.old place.new }
    ensures slot { (place.old.me.1 ≡ (0, Some result) ∷ [])
        × (place.new.me ≡ (place.old.me.0, (0, None) ∷ [])) }
{
    let Some(room) = board.exchange(place, 0, None) else {
        unreachable!()
    };
    room
}

/// Puts the room back into the slot.
fn put_room<R: Turned>(board: &Board<R>, place: &mut Place<R>, room: R)
    requires board { place.old.table_id ≡ board.now.table_id }
    requires slot { place.old.me.1 ≡ (0, None) ∷ [] }
    ensures place { IsSamePlace place.old place.new }
    ensures slot { place.new.me ≡ (place.old.me.0, (0, Some room) ∷ []) }
{
    board.exchange(place, 0, Some(room));
}

/// Stores the length of the room's list. This step enters the turn's event into the history.
fn enter_event<R: Turned>(board: &Board<R>, place: &mut Place<R>, count: u64)
    requires seat { SitsAt board.now.table_id (R.fixed board.now.key.value) place.old }
    requires turn { IsTurning place.old.me.0 }
    requires room { MayEnter R.fixed R.list R.answers (R.fixed board.now.key.value)
        place.old.me count }
    ensures place { IsSamePlace place.old place.new }
    ensures event { Stores R.fixed R.list R.answers place.old.me count place.new.me }
{
    board.store::<Store>(place, LENGTH, count);
}

/// Passes the turn on, and wakes the threads that sleep until their turn.
fn pass_on<R: Turned>(board: &Board<R>, place: &mut Place<R>)
    requires seat { SitsAt board.now.table_id (R.fixed board.now.key.value) place.old }
    requires turn { IsTurning place.old.me.0 }
    requires room { HoldsRoom R.fixed R.list (R.fixed board.now.key.value) place.old.me }
    ensures place { IsSamePlace place.old place.new }
    ensures idle { PassesOn place.old.me 0 place.new.me }
{
    // Only the threads at the gates of the next two tickets are woken: if a turn woke all that wait, most would only go
    // to sleep again.
    let served = board.fetch_add::<PassOn>(place, SERVING, 1);
    // The next thread gets its turn, and the one after it may begin to yield.
    ring(board, place, served.wrapping_add(1));
    ring(board, place, served.wrapping_add(2));
}

/// Draws a ticket and waits until the seat has the turn.
fn get_turn<R: Turned, W: Wait>(rt: &W, board: &Board<R>, place: &mut Place<R>)
    requires seat { SitsAt board.now.table_id (R.fixed board.now.key.value) place.old }
    requires idle { IsAtRest place.old.me }
    ensures place { IsSamePlace place.old place.new }
    ensures turn { GetsTurn R.fixed R.list R.answers (R.fixed board.now.key.value)
        place.old.me place.new.me }
{
    let ticket = draw_ticket(board, place);
    wait_for_turn(rt, board, place, ticket);
}

/// Makes the call while the seat has the turn.
fn make_call<R: Turned>(board: &Board<R>, place: &mut Place<R>, call: R::Call) -> R::Reply
    requires seat { SitsAt board.now.table_id (R.fixed board.now.key.value) place.old }
    requires turn { IsTurning place.old.me.0 }
    requires room { HoldsRoom R.fixed R.list (R.fixed board.now.key.value) place.old.me }
    ensures place { IsSamePlace place.old place.new }
    ensures call { MakesCall R.fixed R.list R.answers (R.fixed board.now.key.value)
        place.old.me call result place.new.me }
{
    let mut room = take_room(board, place);
    let reply = room.turn(call);
    let count = room.front();
    put_room(board, place, room);
    enter_event(board, place, count);
    reply
}

/// Takes a turn, makes one call in it and passes the turn on.
pub(crate) fn take_turn<R: Turned, W: Wait>(
    rt: &W,
    board: &Board<R>,
    place: &mut Place<R>,
    call: R::Call,
) -> R::Reply
    requires seat { SitsAt board.now.table_id (R.fixed board.now.key.value) place.old }
    requires idle { IsAtRest place.old.me }
    ensures place { IsSamePlace place.old place.new × IsAtRest place.new.me }
    ensures seat { IsSameSeat (sitting place.old) (sitting place.new) }
    ensures turn { TurnsAt R.answers (R.fixed board.now.key.value)
        (sitting place.old) call result (sitting place.new) }
{
    get_turn(rt, board, place);
    let reply = make_call(board, place, call);
    pass_on(board, place);
    reply
}

/// Takes a last turn, and takes the room out of the slot in it.
pub(crate) fn take_last_turn<R: Turned, W: Wait>(
    rt: &W,
    board: &Board<R>,
    place: &mut Place<R>,
) -> R
    requires seat { SitsAt board.now.table_id (R.fixed board.now.key.value) place.old }
    requires idle { IsAtRest place.old.me }
    ensures { ClosesWith R.fixed R.list R.answers (R.fixed board.now.key.value)
        (sitting place.old) result }
{
    get_turn(rt, board, place);
    take_room(board, place)
}

/// Loads the length of the history.
fn load_length<R: Turned>(board: &Board<R>, place: &mut Place<R>) -> u64
    requires seat { SitsAt board.now.table_id (R.fixed board.now.key.value) place.old }
    requires idle { place.old.me.0.stage ≡ Idle }
    ensures place { IsSamePlace place.old place.new }
    ensures look { Looks R.fixed R.list R.answers place.old.me result place.new.me }
{
    board.load::<Look>(place, LENGTH)
}

/// Looks at the length of the history, and returns it.
pub(crate) fn look<R: Turned>(board: &Board<R>, place: &mut Place<R>) -> u64
    requires seat { SitsAt board.now.table_id (R.fixed board.now.key.value) place.old }
    requires idle { IsAtRest place.old.me }
    ensures place { IsSamePlace place.old place.new × IsAtRest place.new.me }
    ensures seat { IsSameSeat (sitting place.old) (sitting place.new) }
    ensures look { LooksAt R.answers (R.fixed board.now.key.value)
        (sitting place.old) result (sitting place.new) }
{
    load_length(board, place)
}

/// Splits the seat in two and returns the new one. A split needs a step on the table: it makes a load, of which no
/// contract says what was loaded.
pub(crate) fn cut<R: Turned>(board: &Board<R>, place: &mut Place<R>) -> Place<R>
    requires seat { SitsAt board.now.table_id (R.fixed board.now.key.value) place.old }
    requires idle { IsAtRest place.old.me }
    requires parts { 2 ≤ place.old.me.0.parts }
    ensures place { IsSamePlace place.old place.new × IsAtRest place.new.me }
    ensures seats { SitsAt board.now.table_id (R.fixed board.now.key.value) place.new
        × SitsAt board.now.table_id (R.fixed board.now.key.value) result × IsAtRest result.me }
    ensures split { SplitsInto (sitting place.old) (sitting place.new) (sitting result) }
{
    board.split_seat::<Cut>(place)
}

/// Meets the other seat into the seat, by a load of which no contract says what was loaded, and then loads the length
/// of the history.
pub(crate) fn take_in<R: Turned>(board: &Board<R>, place: &mut Place<R>, other: Place<R>)
    requires seat { SitsAt board.now.table_id (R.fixed board.now.key.value) place.old }
    requires other { SitsAt board.now.table_id (R.fixed board.now.key.value) other }
    requires idle { IsAtRest place.old.me × IsAtRest other.me }
    ensures place { IsSamePlace place.old place.new × IsAtRest place.new.me }
    ensures seat { SitsAt board.now.table_id (R.fixed board.now.key.value) place.new }
    ensures meet { MeetsAt R.answers (R.fixed board.now.key.value)
        (sitting place.old) (sitting other) (sitting place.new) }
{
    board.join_seat::<Meeting>(place, other);
    load_length(board, place);
}
