//! A server of one room, `paris`, with a limit on the messages of a session and a gate that can delay a message.
//!
//! It serves as `maproom serve` does. `listening` is printed once clients can connect, and the entry count of the
//! room's journal at the end.

mod held;

use crate::serving::held::Held;
use log::Log;
use room_server::{Load, RoomTable, close_all, serve_rooms};
use room_socket::{Admission, Gate, OpenGate};
use std::alloc::Global;
use std::io;
use std::net::{Net, TcpListener, TcpStream};
use std::sync::Wait;
use std::thread::Threads;
use std::time::Clock;

// The most entries that the journal takes.
const LIMIT: u32 = 1_000;

// The most workers.
const MOST_WORKERS: u32 = 64;

/// The options of a server.
#[derive(Drop)]
pub struct Serving {
    /// The address at which it listens.
    pub addr: String,
    /// The number of its workers.
    pub workers: u32,
    /// The number of connections that it accepts.
    pub sessions: u32,
    /// The most messages that a session reads.
    pub turns: u64,
    /// Whether the third message of the first session is delayed until the second message of the second session was
    /// answered.
    pub is_held: bool,
}

/// Runs the server.
pub fn run<R>(rt: &R, alloc: Global, asked: &Serving) -> io::Result<()>
where
    R: Net<Listener = TcpListener, Stream = TcpStream>
        + Threads
        + Wait
        + Clock
        + Log
        + Print
        + Sync,
{
    if asked.is_held {
        serve(rt, alloc, &Held::new(), asked)
    } else {
        serve(rt, alloc, &OpenGate, asked)
    }
}

fn serve<R, G: Gate + Sync>(rt: &R, alloc: Global, gate: &G, asked: &Serving) -> io::Result<()>
where
    R: Net<Listener = TcpListener, Stream = TcpStream>
        + Threads
        + Wait
        + Clock
        + Log
        + Print
        + Sync,
{
    let load = Load {
        workers: asked.workers.min(MOST_WORKERS),
        sessions: Some(asked.sessions),
        turns: asked.turns,
    };
    let admission = Admission {
        name_header: None,
        watchers: false,
        origins: Vec::new(alloc),
    };
    let Ok((table, seats)) = RoomTable::open(alloc, &["paris"], LIMIT) else {
        return Err(io::ErrorKind::OutOfMemory.into());
    };
    let listener = TcpListener::bind(rt, asked.addr.as_str())?;
    println!(rt; "listening")?;
    let Ok(seats) = serve_rooms(rt, alloc, gate, &listener, &table, seats, &admission, load) else {
        return Err(io::ErrorKind::OutOfMemory.into());
    };
    for front in close_all(rt, alloc, table, seats)? {
        println!(rt; "paris {front}")?;
    }
    Ok(())
}
