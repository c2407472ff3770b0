//! The lines with the entry counts of rooms.
ghost use Rattle.std.specs.Prelude.{◌≡◌, ◌++◌, IfOk, OnOk, length, map};
ghost use Rattle.room_program.specs.Fronts.{front_line, front_lines};

use crate::lines::push_line;
use itoa::Buffer;
use osm_elements::Memory;
use std::alloc::Global;

/// Returns a line for each room: its name, a space, and the entry count of its journal.
///
/// # Errors
///
/// `Memory`, if an allocation fails.
pub fn front_lines(alloc: Global, rooms: &[&str], fronts: &[u64]) -> Result<Vec<u8>, Memory>
    requires { length fronts.now ≡ length rooms.now }
    ensures { IfOk result (λ lines. lines.items ≡ front_lines (map (λ room. room.now) rooms.now) fronts.now) }
{
    let mut lines = Vec::new(alloc);
    for room in 0..rooms.len() {
        push_front(&mut lines, rooms[room], fronts[room])?;
    }
    Ok(lines)
}

// Appends the line of a room.
fn push_front(lines: &mut Vec<u8>, room: &str, front: u64) -> Result<(), Memory>
    ensures { OnOk result (lines.new.items ≡ lines.old.items ++ front_line room.now front) }
{
    let mut digits = Buffer::new();
    lines.extend_from_slice(room.as_bytes())?;
    lines.push(b' ')?;
    push_line(lines, digits.format(front).as_bytes())
}
