//! The number of turns that one, two, four and eight threads take at a room in a second.
use crate::rooms::turns::{Asked, rate};
use std::alloc::Global;
use std::rt::Clock;
use std::sync::Wait;
use std::thread::Threads;

// The number of rounds, of which the fastest counts.
const ROUNDS: u32 = 5;

/// Prints turns per second on standard error, one line for each number of threads and each kind of call.
///
/// A measurement is of `turns` turns, which the threads share evenly, including the opening and the closing of their
/// room. The fastest of five rounds counts. Returns `None` if an allocation or the clock fails.
pub fn measure<R: Clock + Eprint + Threads + Wait + Sync>(
    rt: &R,
    alloc: Global,
    turns: u32,
) -> Option<()> {
    compare(rt, alloc, Asked::Get, turns)?;
    compare(rt, alloc, Asked::Create, turns)
}

// Measures each number of threads and compares it with one thread.
fn compare<R: Clock + Eprint + Threads + Wait + Sync>(
    rt: &R,
    alloc: Global,
    asked: Asked,
    turns: u32,
) -> Option<()> {
    let alone = best_rate(rt, alloc, asked, 1, turns)?;
    report(rt, asked, 1, alone, alone);
    for threads in [2u32, 4, 8] {
        let together = best_rate(rt, alloc, asked, threads, turns)?;
        report(rt, asked, threads, together, alone);
    }
    Some(())
}

// Returns the rate of the fastest round, or `None` if an allocation or the clock fails.
fn best_rate<R: Clock + Threads + Wait + Sync>(
    rt: &R,
    alloc: Global,
    asked: Asked,
    threads: u32,
    turns: u32,
) -> Option<u128> {
    let mut best = 0;
    for _ in 0..ROUNDS {
        best = rate(rt, alloc, asked, threads, turns)?.max(best);
    }
    Some(best)
}

// Prints a measurement, and its percentage of the rate of one thread.
fn report<R: Eprint>(rt: &R, asked: Asked, threads: u32, rate: u128, alone: u128) {
    let word = asked.word();
    let share = rate.saturating_mul(100).checked_div(alone).unwrap_or(0);
    let _ = eprintln!(rt;
        "{word}, threads {threads}: {rate} turns a second, {share} % of one thread's"
    );
}
