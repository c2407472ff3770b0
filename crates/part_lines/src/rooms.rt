//! Rooms that are run, and rooms that are shared by turns: their replies, and the rate of turns.

mod bases;
mod calls;
mod rates;
mod runs;
mod seats;
mod turns;

pub use rates::measure;
use std::alloc::Global;
use std::io;
use std::sync::Wait;
use std::thread::Threads;

/// Prints the replies to runs of calls, and to seats on one thread and on two threads.
pub fn show<R: Print + Threads + Wait + Sync>(rt: &R, alloc: Global) -> io::Result<()> {
    runs::show(rt, alloc)?;
    seats::show(rt, alloc)
}

/// Prints the replies to two runs of a few calls, without the call at position `without`, counted from 1.
pub fn show_runs<R: Print + Wait>(rt: &R, alloc: Global, without: u32) -> io::Result<()> {
    runs::show_each(rt, alloc, without)
}
