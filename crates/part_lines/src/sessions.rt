//! Runs sessions of two clients with one room, `paris`.
//!
//! A line is the name of a client, `anna` or `bob`, a space, and an event of this client:
//!
//! - `connect`: a new connection, which replaces the earlier one
//! - `quiet`: nothing for a while
//! - `binary`: a message that is not a text
//! - `close`: the end of the connection
//! - any other text: a text message
//!
//! For each line, the output has what goes out to this client, and then an empty line. Each text is on its own line.
//! `close` and the code follow if the connection is closed. If the session was closed before, the output says so.

ghost use Rattle.room_server.specs.Prelude.{IsRunOn, known_of};

mod client;
mod line;

use crate::sessions::client::hear_line;
use room_server::{RoomTable, Seated};
use room_session::caller::Caller;
use room_session::session::Session;
use std::alloc::Global;
use std::io::{self, Lines, StdinLock};
use std::sync::Wait;

/// Runs the sessions that lines describe, with a room whose journal takes at most `limit` entries.
pub fn run<R: Print + Wait>(
    rt: &R,
    alloc: Global,
    lines: Lines<StdinLock<'_>, Global>,
    limit: u32,
) -> io::Result<()> {
    let Ok((table, seats)) = RoomTable::open(alloc, &["paris"], limit) else {
        return Err(io::ErrorKind::OutOfMemory.into());
    };
    let mut rooms = Seated::new(&table, seats);
    let mut anna = Session::new(alloc, Caller::Anyone);
    let mut bob = Session::new(alloc, Caller::Anyone);
    hear_lines(rt, alloc, &mut anna, &mut bob, &mut rooms, lines)
}

// Gives the two sessions the events of the lines.
fn hear_lines<R: Print + Wait>(
    rt: &R,
    alloc: Global,
    anna: &mut Session,
    bob: &mut Session,
    rooms: &mut Seated<'_>,
    lines: Lines<StdinLock<'_>, Global>,
) -> io::Result<()>
    requires anna { IsRunOn anna.old (known_of rooms.old) }
    requires bob { IsRunOn bob.old (known_of rooms.old) }
{
    for line in lines {
        hear_line(rt, alloc, anna, bob, rooms, &line?)?;
    }
    Ok(())
}
