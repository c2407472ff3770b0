//! Workers.
ghost use Rattle.std.specs.Prelude.{◌≡◌, ℕ, map};
ghost use Rattle.room_socket.specs.Prelude.{KeepsKnown, ServesEach, rule_of};
ghost use Rattle.room_server.specs.Tables.{AreAt, known_through, mark};

use crate::job::Job;
use crate::seated::Seated;
use crate::seats::RoomSeat;
use crate::table::RoomTable;
use crossbeam_channel::Receiver;
use log::{Log, info};
use room_socket::{Admission, Gate, serve};
use std::alloc::Global;
use std::io::{Read, Write};
use std::sync::Wait;
use std::time::Clock;

/// Serves sessions sequentially, each over its stream, until it receives a stop or the queue is closed. The log gets
/// `session I open` and `session I end E`, where I is the session's number and E the way in which it ended.
///
/// The worker is lent a seat at each desk of the table, in order, and gives back the same seats. Each has its number
/// and the numbers of its kin, and has seen all that it had seen.
pub fn worker<W: Wait + Clock + Log, G: Gate, S: Read + Write + Drop>(
    rt: &W,
    alloc: Global,
    gate: &G,
    table: &RoomTable,
    seats: Vec<RoomSeat, Global>,
    jobs: &Receiver<Job<S>, Global>,
    turns: u64,
    admission: &Admission,
) -> Vec<RoomSeat, Global>
    requires { AreAt table.now seats.items }
    ensures at { AreAt table.now result.items }
    ensures same { map mark result.items ≡ map mark seats.items }
    ensures keeps { KeepsKnown (known_through table.now seats.items) (known_through table.now result.items) }
    // The rooms were asked what some sessions ask sequentially, and nothing else.
    ensures serves { (sessions : ℕ)
        × ServesEach (rule_of admission.now) turns sessions (known_through table.now seats.items)
        (known_through table.now result.items) }
{
    let mut rooms = Seated::new(table, seats);
    for _ in rt.forever() {
        let Ok(Job::Serve { session, stream }) = jobs.recv(rt) else {
            break;
        };
        info!(rt; "session {session} open");
        let end = serve(
            rt, alloc, stream, &mut rooms, gate, session, turns, admission,
        );
        info!(rt; "session {session} end {end}");
    }
    rooms.into_seats()
}
