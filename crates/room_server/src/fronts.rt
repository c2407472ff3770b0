//! Closing a table.
ghost use Rattle.std.specs.Prelude.{◌≡◌, IfOk, All};
ghost use Rattle.room_server.specs.Tables.{AreAt};
ghost use Rattle.room_server.specs.Fronts.{AreFronts};

use crate::seats::RoomSeat;
use crate::table::RoomTable;
use osm_elements::Memory;
use std::alloc::Global;
use std::sync::Wait;

/// Closes the desk of each room with its seat, and returns the entry counts of the rooms' journals, in the table's
/// order.
///
/// # Errors
///
/// `Memory`, if an allocation fails.
pub fn close_all<W: Wait>(
    rt: &W,
    alloc: Global,
    table: RoomTable,
    seats: Vec<RoomSeat, Global>,
) -> Result<Vec<u64, Global>, Memory>
    requires { AreAt table seats.items }
    ensures { IfOk result (λ fronts. AreFronts table.desks seats.items fronts.items) }
{
    let mut fronts = Vec::with_capacity(alloc, table.len())?;
    let mut seats = seats.into_iter();
    for desk in table.into_desks() {
        let Some(seat) = seats.next() else {
            unreachable!()
        };
        fronts.push(desk.close(rt, seat).front())?;
    }
    Ok(fronts)
}
