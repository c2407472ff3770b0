//! The threads of a pool.
ghost use Rattle.std.specs.Prelude.{◌≡◌, ℕ, All, IfNone, None, map, vec_items, vec_len};
ghost use Rattle.room_socket.specs.Prelude.{IsSync, ServesEach, rule_of};
ghost use Rattle.room_server.specs.Pools.{Pairs, Works};
ghost use Rattle.room_server.specs.Seats.{IsFresh, IsSet};
ghost use Rattle.room_server.specs.Tables.{AreAt, known_through, mark};

use crate::accepting::accept_all;
use crate::job::Job;
use crate::pool::{Load, PoolFault};
use crate::seats::RoomSeat;
use crate::table::RoomTable;
use crate::workers::worker;
use crossbeam_channel::{Receiver, Sender};
use log::Log;
use room_socket::{Admission, Gate};
use std::alloc::Global;
use std::net::{TcpListener, TcpStream};
use std::snapshot::Snapshot;
use std::sync::Wait;
use std::thread;
use std::thread::{Promise, PromisedHandle, Threads};
use std::time::Clock;

/// The promise of a worker's thread to return the seats that it was lent, and to ask through them only what sessions ask,
/// each of at most `turns` messages.
#[derive(Drop)]
pub(crate) struct GivesBack<'t> {
    table: &'t RoomTable,
    turns: u64,
    admission: &'t Admission,
    lent: Snapshot<Vec<RoomSeat, Global>>,
}

impl<'t> Promise<Vec<RoomSeat, Global>> for GivesBack<'t> {
    ghost use Rattle.std.specs.Prelude.{◌≡◌, ℕ, map};
    ghost use Rattle.room_server.specs.Tables.{AreAt, known_through, mark};
    ghost use Rattle.room_socket.specs.Prelude.{ServesEach, rule_of};

    ghost kept_by = { λ p back. AreAt p.table.now back.items × (map mark back.items ≡ map mark p.lent.value.items)
        × ((sessions : ℕ) × ServesEach (rule_of p.admission.now) p.turns sessions
        (known_through p.table.now p.lent.value.items)
        (known_through p.table.now back.items)) };
}

/// The thread of a worker.
type WorkerThread<'t> = PromisedHandle<Vec<RoomSeat, Global>, GivesBack<'t>>;

/// The outcome of the threads: the sets of seats that came back, and a fault, if a thread was not started or a set was
/// lost.
#[derive(Drop)]
pub(crate) struct Joined {
    pub(crate) sets: Vec<Vec<RoomSeat, Global>, Global>,
    pub(crate) fault: Option<PoolFault>,
}

/// Runs a worker for each set of seats, each in its own thread, and returns the sets when all threads have ended.
///
/// Meanwhile it sends the accepted connections to the workers. After the last connection it sends each worker a stop.
/// If a thread is not started, it accepts no connection, and returns the sets of the threads that were started. The
/// threads borrow the table and the queue in a scope, so these need no reference counts and no copies.
pub(crate) fn run_threads<R: Threads + Wait + Clock + Log + Sync, G: Gate + Sync>(
    rt: &R,
    alloc: Global,
    gate: &G,
    listener: &TcpListener,
    table: &RoomTable,
    sets: Vec<Vec<RoomSeat, Global>, Global>,
    ends: (
        Sender<Job<TcpStream>, Global>,
        &Receiver<Job<TcpStream>, Global>,
    ),
    admission: &Admission,
    load: Load,
) -> Joined
    requires { All (λ set. IsFresh table.now set.items) sets.items }
    ensures sets { All (λ set. IsSet table.now set.items) result.sets.items }
    // Without a fault, no set is lost.
    ensures all { IfNone result.fault (vec_len result.sets ≡ vec_len sets) }
    // A worker was lent each set, and gave it back.
    ensures works { IfNone result.fault
        (Pairs (Works table.now (rule_of admission.now) load.turns) (map vec_items sets.items)
        (map vec_items result.sets.items)) }
{
    let (sender, jobs) = ends;
    thread::scope(
        thread::scope_env(),
        rt,
        move |scope| -> Joined
            requires sync { IsSync R.row × IsSync G.row }
            requires sets { All (λ set. IsFresh table.now set.items) sets.items }
            ensures sets { All (λ set. IsSet table.entry.now set.items) result.sets.items }
            ensures all { IfNone result.fault (vec_len result.sets ≡ vec_len sets) }
            ensures works { IfNone result.fault
                (Pairs (Works table.entry.now (rule_of admission.entry.now) load.turns) (map vec_items sets.items)
                (map vec_items result.sets.items)) }
        {
            let mut threads = Vec::new(alloc);
            let mut fault = None;
            for seats in sets {
                let lent = Snapshot::of(&seats);
                let promise = GivesBack {
                    table,
                    turns: load.turns,
                    admission,
                    lent,
                };
                let work = move || -> Vec<RoomSeat, Global>
                    requires { AreAt table.now seats.items }
                    ensures at { AreAt table.entry.now result.items }
                    ensures same { map mark result.items ≡ map mark seats.items }
                    ensures serves { (sessions : ℕ) × ServesEach (rule_of admission.entry.now) load.turns sessions
                        (known_through table.entry.now seats.items) (known_through table.entry.now result.items) }
                { worker(rt, alloc, gate, table, seats, jobs, load.turns, admission) };
                // The list gets its memory before the thread starts, so that each started thread is also joined.
                if threads.reserve(1).is_err() {
                    fault = Some(PoolFault::Memory);
                    break;
                }
                match scope.spawn_with(promise, work) {
                    Ok(thread) => threads.push_reserved(thread),
                    Err(_) => {
                        fault = Some(PoolFault::Worker);
                        break;
                    }
                }
            }
            if fault.is_none() {
                accept_all(rt, listener, &sender, load.sessions);
            }
            for _ in 0..threads.len() {
                let _ = sender.send(rt, Job::Stop);
            }
            drop(sender);
            join_all(rt, alloc, table, load.turns, admission, threads, fault)
        },
    )
}

// Waits for the workers' threads, and returns the seats of each.
fn join_all<R: Threads>(
    rt: &R,
    alloc: Global,
    table: &RoomTable,
    turns: u64,
    admission: &Admission,
    threads: Vec<WorkerThread<'_>, Global>,
    fault: Option<PoolFault>,
) -> Joined
    requires { All (λ thread. (thread.promise.table.now ≡ table.now) × (thread.promise.turns ≡ turns)
        × (thread.promise.admission.now ≡ admission.now) × IsFresh table.now thread.promise.lent.value.items) threads.items }
    ensures sets { All (λ set. IsSet table.now set.items) result.sets.items }
    ensures all { IfNone result.fault ((fault ≡ None) × (vec_len result.sets ≡ vec_len threads.entry)) }
    ensures works { IfNone result.fault (Pairs (Works table.now (rule_of admission.now) turns)
        (map (λ thread. thread.promise.lent.value.items) threads.entry.items) (map vec_items result.sets.items)) }
{
    let mut sets = Vec::new(alloc);
    let mut fault = fault;
    for thread in threads {
        if sets.push(thread.join(rt)).is_err() {
            fault = Some(PoolFault::Memory);
        }
    }
    Joined { sets, fault }
}
