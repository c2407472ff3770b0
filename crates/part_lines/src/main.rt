//! Runs parts of maproom, for tests. The first three read lines of standard input, which their modules describe.
//!
//! - `part_lines edits` plans and applies edits.
//! - `part_lines mirrors` keeps a mirror.
//! - `part_lines sessions [LIMIT]` runs sessions with a room whose journal takes at most LIMIT entries, 1,000 by
//!   default.
//! - `part_lines rooms [TURNS]` shows the replies of rooms that are run or shared by turns. With a number it then
//!   measures how fast so many turns are taken.
//! - `part_lines runs [PLACE]` shows two of these runs, of a few calls, without the call at this position, counted from
//!   1.
//! - `part_lines serve ADDR WORKERS SESSIONS TURNS [held]` serves one room with so many workers and for so many
//!   sessions, each of which reads at most TURNS messages.
#![tactic(auto)]

mod edits;
mod mirrors;
mod rooms;
mod serving;
mod sessions;

use crate::serving::Serving;
use std::alloc::Global;
use std::rt::{Clock, Env};
use std::sync::Wait;
use std::thread::Threads;
use std::{env, io};

// The most entries that a journal takes if no number is given.
const LIMIT: u32 = 1_000;

fn main(rt: HostRuntime) -> io::Result<()> {
    let Some(asked) = what_is_asked(&rt) else {
        rt.eprintln(
            "usage: part_lines edits | mirrors | sessions [LIMIT] | rooms [TURNS] | runs [PLACE]",
        )?;
        rt.eprintln("       part_lines serve ADDR WORKERS SESSIONS TURNS [held]")?;
        return Err(io::ErrorKind::InvalidInput.into());
    };
    let alloc = rt.alloc();
    match asked {
        Asked::Edits => edits::run(&rt, alloc, rt.lines(alloc)),
        Asked::Mirrors => mirrors::run(&rt, alloc, rt.lines(alloc)),
        Asked::Sessions(limit) => sessions::run(&rt, alloc, rt.lines(alloc), limit),
        Asked::Rooms(turns) => show_rooms(&rt, alloc, turns),
        Asked::Runs(without) => rooms::show_runs(&rt, alloc, without),
        Asked::Serve(asked) => serving::run(&rt, alloc, &asked),
    }
}

// What the command line asks for.
#[derive(Drop)]
enum Asked {
    Edits,
    Mirrors,
    Sessions(u32),
    Rooms(Option<u32>),
    Runs(u32),
    Serve(Serving),
}

fn what_is_asked<R: Env + AllocGlobal>(rt: &R) -> Option<Asked> {
    let mut words = env::args(rt).ok()?;
    let part = words.nth(1)?;
    if part.as_str() == "serve" {
        let addr = words.next()?;
        let workers = words.next()?.parse().ok()?;
        let sessions = words.next()?.parse().ok()?;
        let turns = words.next()?.parse().ok()?;
        let is_held = words.next().is_some();
        return Some(Asked::Serve(Serving {
            addr,
            workers,
            sessions,
            turns,
            is_held,
        }));
    }
    let number = match words.next() {
        Some(word) => Some(word.parse::<u32>().ok()?),
        None => None,
    };
    match part.as_str() {
        "edits" => Some(Asked::Edits),
        "mirrors" => Some(Asked::Mirrors),
        "sessions" => Some(Asked::Sessions(number.unwrap_or(LIMIT))),
        "rooms" => Some(Asked::Rooms(number)),
        "runs" => Some(Asked::Runs(number.unwrap_or(0))),
        _ => None,
    }
}

// Shows the replies of rooms and, if a number of turns is given, measures how fast they are taken.
fn show_rooms<R: Clock + Print + Eprint + Threads + Wait + Sync>(
    rt: &R,
    alloc: Global,
    turns: Option<u32>,
) -> io::Result<()> {
    rooms::show(rt, alloc)?;
    if let Some(turns) = turns {
        rooms::measure(rt, alloc, turns).ok_or(io::ErrorKind::OutOfMemory)?;
    }
    Ok(())
}
