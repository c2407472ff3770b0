//! Rooms that begin with the map of another room.
ghost use Rattle.std.specs.Prelude.{◌≡◌, true};
ghost use Rattle.osm_changes.specs.Sound.{is_sound};

use crate::rooms::calls::{author, call, create};
use crate::rooms::runs::show_replies;
use osm_elements::map::Rows;
use room_history::base::BaseFault;
use room_history::laws::a_sound_map_can_be_a_base;
use room_history::room::Room;
use room_history::run::run_on;
use room_interface::call::{Call, Calls, Request};
use room_server::{RoomTable, TableFault, close_all};
use std::alloc::Global;
use std::io::{self, ErrorKind};
use std::sync::Wait;

/// Shows the replies of a room that begins with the map of `room`, to calls without the call at position `without`.
/// Then shows the number of rooms of a table that begin with this map.
pub fn show<R: Print + Wait>(
    rt: &R,
    alloc: Global,
    room: &Room<Global>,
    without: u32,
) -> io::Result<()> {
    show_run(rt, alloc, room.map_rows()?, without)?;
    show_table(rt, alloc, room.map_rows()?)
}

// Runs a room: nothing can be undone, a node of the base cannot be created, and another node can be created.
fn show_run<R: Print>(rt: &R, alloc: Global, rows: Rows<Global>, without: u32) -> io::Result<()>
    requires { is_sound rows ≡ true }
{
    a_sound_map_can_be_a_base::<Global>();
    let calls = calls(alloc, without)?;
    match run_on(alloc, rows, 9, calls) {
        Ok((room, replies)) => show_replies(rt, &room, &replies),
        Err(BaseFault::Unsound { .. }) => Err(ErrorKind::InvalidData.into()),
        Err(BaseFault::Memory) => Err(ErrorKind::OutOfMemory.into()),
    }
}

// Opens a table of two rooms, and closes it at once.
fn show_table<R: Print + Wait>(rt: &R, alloc: Global, rows: Rows<Global>) -> io::Result<()>
    requires { is_sound rows ≡ true }
{
    a_sound_map_can_be_a_base::<Global>();
    match RoomTable::open_on(alloc, &["paris", "rome"], rows, 9) {
        Ok((table, seats)) => {
            let fronts = close_all(rt, alloc, table, seats)?;
            println!(rt; "rooms {}", fronts.len())
        }
        Err(TableFault::Memory) => Err(ErrorKind::OutOfMemory.into()),
        Err(_) => Err(ErrorKind::InvalidData.into()),
    }
}

fn calls(alloc: Global, without: u32) -> io::Result<Calls<Global>> {
    let mut calls = Vec::new(alloc);
    for place in 10..=12 {
        if place != without {
            calls.push(call_at(alloc, place)?)?;
        }
    }
    Ok(Calls::from_vec(calls))
}

// Returns the call at a position: Anna undoes without having done anything, creates node -6, which the base has, and
// node -7.
fn call_at(alloc: Global, place: u32) -> io::Result<Call<Global>> {
    let anna = author("anna")?;
    Ok(match place {
        10 => call(anna, 1, Request::Undo(None)),
        11 => create(alloc, anna, 1, -6)?,
        _ => create(alloc, anna, 1, -7)?,
    })
}
