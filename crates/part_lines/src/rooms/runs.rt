//! Rooms that are run.
use crate::rooms::bases;
use crate::rooms::calls::{author, call, create, node};
use osm_elements::Memory;
use osm_elements::names::Names;
use room_history::room::Room;
use room_history::run::run;
use room_interface::action::Action;
use room_interface::call::{Call, Calls, Request};
use room_interface::edit::Edit;
use room_interface::reply::{Replies, Reply};
use std::alloc::Global;
use std::io;
use std::sync::Wait;

// The number of calls of the first run.
const CALLS: u32 = 9;

// The number of calls of the long run, and the limit of its room.
const MANY: u32 = 3000;

const LIMIT: u32 = 2999;

/// Shows the replies to a redo that succeeds and a redo that cannot be done, those of rooms that begin with that room's
/// map, and the replies to thousands of calls.
pub fn show<R: Print + Wait>(rt: &R, alloc: Global) -> io::Result<()> {
    show_each(rt, alloc, 0)?;
    show_many(rt, alloc)
}

/// Shows each reply to a few calls, and the room after them; then rooms that begin with its map. The call at position
/// `without` is left out. Positions 1 to 9 are in the first run, and 10 to 12 in the second run, which begins with the
/// map. No call has position 0.
pub fn show_each<R: Print + Wait>(rt: &R, alloc: Global, without: u32) -> io::Result<()> {
    let (room, replies) = ran(alloc, 9, calls(alloc, without)?)?;
    show_replies(rt, &room, &replies)?;
    bases::show(rt, alloc, &room, without)
}

// Shows how many replies to many calls are right, and the room after them.
fn show_many<R: Print>(rt: &R, alloc: Global) -> io::Result<()> {
    let (room, replies) = ran(alloc, LIMIT, creations(alloc)?)?;
    show_count(rt, &room, &replies)
}

// Runs a room.
fn ran(
    alloc: Global,
    limit: u32,
    calls: Calls<Global>,
) -> Result<(Room<Global>, Replies<Global>), Memory> {
    run(alloc, limit, calls)
}

/// Prints each reply, and then the room.
pub fn show_replies<R: Print>(
    rt: &R,
    room: &Room<Global>,
    replies: &Replies<Global>,
) -> io::Result<()> {
    for reply in replies.as_slice() {
        println!(rt; "{reply:?}")?;
    }
    show_room(rt, room)
}

fn show_count<R: Print>(rt: &R, room: &Room<Global>, replies: &Replies<Global>) -> io::Result<()> {
    println!(rt; "{} right replies of {MANY}", right_replies(replies))?;
    show_room(rt, room)
}

/// Prints the entry count of a room, the count of changes applied to its map, and the number of its rows.
pub fn show_room<R: Print>(rt: &R, room: &Room<Global>) -> io::Result<()> {
    let elements = count_elements(room)?;
    println!(rt;
        "entries {}, changes {}, elements {elements}",
        room.front(),
        room.applied()
    )
}

fn count_elements(room: &Room<Global>) -> Result<usize, Memory> {
    let rows = room.map_rows()?;
    Ok(rows.as_slice().len())
}

fn calls(alloc: Global, without: u32) -> io::Result<Calls<Global>> {
    let mut calls = Vec::new(alloc);
    for place in 1..=CALLS {
        if place != without {
            calls.push(call_at(alloc, place)?)?;
        }
    }
    Ok(Calls::from_vec(calls))
}

// Returns the call at a position. Anna creates node -5, and undoes and redoes this. Carl moves the node and undoes the
// move. Anna undoes her redo, so Carl cannot redo the move. His last call repeats an id.
fn call_at(alloc: Global, place: u32) -> io::Result<Call<Global>> {
    let anna = author("anna")?;
    let carl = author("carl")?;
    Ok(match place {
        1 => create(alloc, anna, 1, -5)?,
        2 => create(alloc, author("bob")?, 1, -6)?,
        3 => call(anna, 2, Request::Undo(None)),
        4 => call(anna, 3, Request::Redo),
        5 => call(carl, 1, movement(alloc)?),
        6 => call(carl, 2, Request::Undo(None)),
        7 => call(anna, 4, Request::Undo(Some(4))),
        8 => call(carl, 3, Request::Redo),
        _ => call(carl, 2, Request::Redo),
    })
}

// Returns a move of node -5 by one ten-millionth of a degree to the north.
fn movement(alloc: Global) -> io::Result<Request<Global>> {
    let mut names = Vec::new(alloc);
    names.push(node(-5)?)?;
    let names = Names::from_vec(names);
    let edit = Edit::One(Action::Move {
        names,
        dlat: 1,
        dlon: 0,
    });
    let since = None;
    Ok(Request::Do { edit, since })
}

// Returns creates of an author with a name of the greatest length.
fn creations(alloc: Global) -> io::Result<Calls<Global>> {
    let author = author("a_name_of_thirty_two_characters0")?;
    let mut calls = Vec::new(alloc);
    for id in 1..=MANY {
        calls.push(create(alloc, author, u64::from(id), i64::from(id))?)?;
    }
    Ok(Calls::from_vec(calls))
}

// Returns how many replies are right for creates in a room with this limit.
fn right_replies(replies: &Replies<Global>) -> usize {
    replies
        .as_slice()
        .iter()
        .enumerate()
        .filter(|(place, reply)| is_right(reply, *place as u64))
        .count()
}

fn is_right(reply: &Reply<Global>, place: u64) -> bool {
    match reply {
        Reply::Done { seq } => place < u64::from(LIMIT) && *seq == place.wrapping_add(1),
        Reply::Full => place == u64::from(LIMIT),
        _ => false,
    }
}
