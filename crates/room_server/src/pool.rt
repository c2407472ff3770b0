//! A pool of workers.
ghost use Rattle.std.specs.Prelude.{◌≡◌, ◌≤◌, All, IfOk};
ghost use Rattle.turn_desk.specs.Desk.{IsFirst};
ghost use Rattle.room_socket.specs.Prelude.{rule_of};
ghost use Rattle.room_server.specs.Pools.{Pools};
ghost use Rattle.room_server.specs.Seats.{HaveMet};
ghost use Rattle.room_server.specs.Tables.{AreAt};

use crate::seats::{RoomSeat, meet_all};
use crate::sets::split_sets;
use crate::table::RoomTable;
use crate::threads::run_threads;
use crossbeam_channel::bounded;
use log::Log;
use osm_elements::Memory;
use room_socket::{Admission, Gate};
use std::alloc::Global;
use std::net::TcpListener;
use std::sync::Wait;
use std::thread::Threads;
use std::time::Clock;
use thiserror::Error;

/// The limits of a pool.
#[derive(Clone, Copy, Debug)]
pub struct Load {
    /// The number of workers, each in its own thread. So many sessions are served at the same time.
    pub workers: u32,
    /// The number of connections that are accepted, in order. Without it, the pool serves until the process is stopped.
    pub sessions: Option<u32>,
    /// The most messages that a session reads.
    pub turns: u64,
}

/// The reasons for which a pool did not serve, or lost seats.
#[derive(Clone, Copy, Debug, PartialEq, Eq, Error)]
pub enum PoolFault {
    /// The system did not start the thread of a worker.
    #[error("cannot start a worker")]
    Worker,
    /// An allocation failed.
    #[error("no memory")]
    Memory,
}

impl From<Memory> for PoolFault {
    ghost use Rattle.room_server.specs.declared.pool.PoolFault.{PoolFault};

    ghost from_gives = { λ _ fault. fault ≡ PoolFault.Memory };

    fn from(_: Memory) -> PoolFault {
        PoolFault::Memory
    }
}

/// Serves `load.sessions` connections that the listener accepts and `admission` lets in, by `load.workers` workers, at most 1024. Without a
/// number of sessions, it does not return.
///
/// When the last session has ended, it returns a seat at each desk of the table. Each of these seats has met the seats
/// of all workers.
///
/// # Errors
///
/// - `Worker`, if the system does not start a worker's thread. Then no connection was accepted.
/// - `Memory`, if an allocation fails. This is before the first accept, or after the last session has ended.
pub fn serve_rooms<R: Threads + Wait + Clock + Log + Sync, G: Gate + Sync>(
    rt: &R,
    alloc: Global,
    gate: &G,
    listener: &TcpListener,
    table: &RoomTable,
    seats: Vec<RoomSeat, Global>,
    admission: &Admission,
    load: Load,
) -> Result<Vec<RoomSeat, Global>, PoolFault>
    requires at { AreAt table.now seats.items }
    requires first { All IsFirst seats.items }
    requires workers { load.workers ≤ 1024 }
    ensures at { IfOk result (λ back. AreAt table.now back.items) }
    // Each seat has met one seat of each worker: no seat was lost.
    ensures met { IfOk result (λ back. HaveMet load.workers back.items) }
    // Each worker served sessions through seats that were fresh; the calls of these are all that the seats have met.
    ensures pools { IfOk result (λ back. Pools table.now (rule_of admission.now) load.turns load.workers back.items) }
{
    let (mut seats, sets) = split_sets(alloc, table, seats, load.workers)?;
    let (sender, jobs) = bounded(alloc, load.workers as usize)?;
    let joined = run_threads(
        rt,
        alloc,
        gate,
        listener,
        table,
        sets,
        (sender, &jobs),
        admission,
        load,
    );
    if let Some(fault) = joined.fault {
        return Err(fault);
    }
    for others in joined.sets {
        meet_all(table, &mut seats, others);
    }
    Ok(seats)
}
