//! Turns of threads at one room.
ghost use Rattle.std.specs.Prelude.{◌≡◌, ◌≤◌, ◌<◌, ◌+◌, ◌*◌, ◌^◌};
ghost use Rattle.turn_desk.specs.Desk.{IsAt};

use crate::rooms::calls::{author, creation};
use osm_elements::name::{Kind, Name};
use room_history::room::Room;
use room_interface::ask::RoomCall;
use room_interface::author::Author;
use std::alloc::Global;
use std::io::{self, ErrorKind};
use std::sync::Wait;
use std::thread::{Threads, join};
use std::time::{Clock, Instant};
use turn_desk::{Desk, Seat};

// The most threads that take turns.
const MOST_THREADS: u32 = 8;

/// The kind of call in each turn.
#[derive(Clone, Copy)]
pub enum Asked {
    /// A request for a node that does not exist.
    Get,
    /// A create of a node.
    Create,
}

impl Asked {
    /// Returns the word for the kind of call.
    pub fn word(self) -> &'static str {
        match self {
            Asked::Get => "get",
            Asked::Create => "create",
        }
    }
}

// The work of a thread: the kind of its calls, the number of its turns, and the number of the thread, counted from 0.
#[derive(Clone, Copy)]
struct Work {
    alloc: Global,
    asked: Asked,
    author: Author,
    turns: u32,
    thread: u32,
}

impl Work {
    // Returns the same work for the next thread.
    fn next(&self) -> Work {
        Work {
            thread: self.thread.wrapping_add(1),
            ..*self
        }
    }

    // Returns the call in the turn with this number. Each thread has nodes and ids of its own.
    fn call(&self, turn: u32) -> Option<RoomCall<Global>> {
        let id = id_of(turn, self.thread);
        let name = Name::new(Kind::Node, i64::try_from(id).ok()?)?;
        match self.asked {
            Asked::Get => Some(RoomCall::Get(name)),
            Asked::Create => {
                let call = creation(self.alloc, self.author, id, name)?;
                Some(RoomCall::Take(call))
            }
        }
    }
}

// Returns the id of a thread's turn. It is not 0, and no other turn of the threads has it.
fn id_of(turn: u32, thread: u32) -> u64 {
    u64::from(turn) * u64::from(MOST_THREADS) + u64::from(thread) + 1
}

/// Returns the turns that 1 to 8 threads take in a second, measured from before their room is opened until it is
/// closed. Returns `None` if an allocation or the clock fails, or for another number of threads.
pub fn rate<R: Clock + Threads + Wait + Sync>(
    rt: &R,
    alloc: Global,
    asked: Asked,
    threads: u32,
    turns: u32,
) -> Option<u128> {
    let each = turns.checked_div(threads)?;
    let start = Instant::now(rt).ok()?;
    let room = shared(rt, alloc, asked, threads, each).ok()?;
    let time = start.elapsed(rt).ok();
    drop(room);
    let taken = u128::from(each) * u128::from(threads);
    (taken * 1_000_000_000).checked_div(time?.as_nanos())
}

/// Returns the room after the turns of 1 to 8 threads, `turns` each.
pub fn shared<R: Threads + Wait + Sync>(
    rt: &R,
    alloc: Global,
    asked: Asked,
    threads: u32,
    turns: u32,
) -> io::Result<Room<Global>> {
    if threads == 0 || threads > MOST_THREADS {
        return Err(ErrorKind::InvalidInput.into());
    }
    let work = Work {
        alloc,
        asked,
        author: author("anna")?,
        turns,
        thread: 0,
    };
    let (desk, seat) = Desk::open(alloc, Room::open(alloc, u32::MAX))?;
    let seat = in_threads(rt, &desk, seat, &work, threads - 1);
    Ok(desk.close(rt, seat))
}

// Takes the turns of `others` + 1 threads, each at a seat of its own.
fn in_threads<R: Threads + Wait + Sync>(
    rt: &R,
    desk: &Desk<Room<Global>, Global>,
    seat: Seat<Room<Global>>,
    work: &Work,
    others: u32,
) -> Seat<Room<Global>>
    requires seat { IsAt desk.now seat }
    requires most { seat.parts < 2 ^ 64 }
    requires least { others * 2 ^ 58 ≤ seat.parts + 1 }
    ensures { IsAt desk.now result }
{
    if others == 0 {
        return take_turns(rt, desk, seat, work);
    }
    let fewer = others - 1;
    let (seat, other) = desk.split(seat);
    let (other, mut seat) = join(
        rt,
        || -> Seat<Room<Global>>
            requires { IsAt desk.now other }
            ensures { IsAt desk.entry.now result }
        { take_turns(rt, desk, other, work) },
        || -> Seat<Room<Global>>
            requires seat { IsAt desk.now seat }
            requires most { seat.parts < 2 ^ 64 }
            requires least { fewer * 2 ^ 58 ≤ seat.parts + 1 }
            ensures { IsAt desk.entry.now result }
        { in_threads(rt, desk, seat, &work.next(), fewer) },
    );
    desk.meet(&mut seat, other);
    seat
}

// Takes the turns of one thread.
fn take_turns<W: Wait>(
    rt: &W,
    desk: &Desk<Room<Global>, Global>,
    mut seat: Seat<Room<Global>>,
    work: &Work,
) -> Seat<Room<Global>>
    requires { IsAt desk.now seat }
    ensures { IsAt desk.now result }
{
    for turn in 0..work.turns {
        if let Some(call) = work.call(turn) {
            desk.turn(rt, &mut seat, call);
        }
    }
    seat
}
