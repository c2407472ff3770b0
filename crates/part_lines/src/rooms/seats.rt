//! Rooms with several seats, on one thread and on two threads.
ghost use Rattle.std.specs.Prelude.{◌≡◌};
ghost use Rattle.turn_desk.specs.Desk.{IsAt};

use crate::rooms::calls::{author, create, take};
use crate::rooms::runs::show_room;
use crate::rooms::turns::{Asked, shared};
use osm_elements::map::Rows;
use room_history::room::Room;
use room_interface::ask::{RoomCall, RoomReply};
use room_interface::call::Request;
use std::alloc::Global;
use std::io;
use std::sync::Wait;
use std::thread::Threads;
use turn_desk::{Desk, Seat};

// The number of nodes that each of two threads creates.
const EACH: u32 = 100;

/// Shows what seats see: after a turn of another seat, in turns of two authors, and after the turns of two threads.
pub fn show<R: Print + Threads + Wait + Sync>(rt: &R, alloc: Global) -> io::Result<()> {
    show_to_all(rt, alloc)?;
    show_two_authors(rt, alloc)?;
    show_two_threads(rt, alloc)
}

// Prints the reply to a call in a turn.
fn show_turn<R: Print + Wait>(
    rt: &R,
    desk: &Desk<Room<Global>, Global>,
    seat: &mut Seat<Room<Global>>,
    call: RoomCall<Global>,
) -> io::Result<()>
    requires { IsAt desk.now seat.old }
    ensures { IsAt desk.now seat.new }
{
    match desk.turn(rt, seat, call) {
        RoomReply::Rows(Ok((front, rows))) => show_rows(rt, front, &rows),
        reply => println!(rt; "{reply:?}"),
    }
}

// Prints the entry count, and the name of each row.
fn show_rows<R: Print>(rt: &R, front: u64, rows: &Rows<Global>) -> io::Result<()> {
    println!(rt; "entries {front}")?;
    for row in rows.as_slice() {
        println!(rt; "{:?}", row.name)?;
    }
    Ok(())
}

// A turn at one seat is seen at two other seats.
fn show_to_all<R: Print + Wait>(rt: &R, alloc: Global) -> io::Result<()> {
    let (desk, first) = Desk::open(alloc, Room::open(alloc, 9))?;
    let (first, mut second) = desk.split(first);
    let (mut first, mut third) = desk.split(first);
    take_and_look(rt, alloc, &desk, &mut first, &mut second, &mut third)
}

// Creates a node in a turn at one seat, looks at the entry count at a second seat, and asks for the rows at a third
// seat.
fn take_and_look<R: Print + Wait>(
    rt: &R,
    alloc: Global,
    desk: &Desk<Room<Global>, Global>,
    first: &mut Seat<Room<Global>>,
    second: &mut Seat<Room<Global>>,
    third: &mut Seat<Room<Global>>,
) -> io::Result<()>
    requires first { IsAt desk.now first.old }
    requires second { IsAt desk.now second.old }
    requires third { IsAt desk.now third.old }
{
    let call = create(alloc, author("anna")?, 1, -5)?;
    show_turn(rt, desk, first, RoomCall::Take(call))?;
    println!(rt; "front {}", desk.front(second))?;
    show_turn(rt, desk, third, RoomCall::Rows)
}

// The worked example of an immediate redo, with a seat for each author.
fn show_two_authors<R: Print + Wait>(rt: &R, alloc: Global) -> io::Result<()> {
    let (desk, seat) = Desk::open(alloc, Room::open(alloc, 9))?;
    let (mut hers, mut his) = desk.split(seat);
    redo_at_once(rt, alloc, &desk, &mut hers, &mut his)
}

// Anna creates a node, and Bob creates another. Anna undoes her own and redoes it.
fn redo_at_once<R: Print + Wait>(
    rt: &R,
    alloc: Global,
    desk: &Desk<Room<Global>, Global>,
    hers: &mut Seat<Room<Global>>,
    his: &mut Seat<Room<Global>>,
) -> io::Result<()>
    requires hers { IsAt desk.now hers.old }
    requires his { IsAt desk.now his.old }
{
    let (anna, bob) = (author("anna")?, author("bob")?);
    let call = create(alloc, anna, 1, -5)?;
    show_turn(rt, desk, hers, RoomCall::Take(call))?;
    let call = create(alloc, bob, 1, -6)?;
    show_turn(rt, desk, his, RoomCall::Take(call))?;
    show_turn(rt, desk, hers, take(anna, 2, Request::Undo(None)))?;
    show_turn(rt, desk, hers, take(anna, 3, Request::Redo))?;
    println!(rt; "front {}", desk.front(his))
}

// Two threads create nodes, each at its own seat. The room has all the nodes at the end.
fn show_two_threads<R: Print + Threads + Wait + Sync>(rt: &R, alloc: Global) -> io::Result<()> {
    let room = shared(rt, alloc, Asked::Create, 2, EACH)?;
    show_room(rt, &room)
}
