//! Seats at the desks of rooms.
ghost use Rattle.std.specs.Prelude.{◌≡◌, ◌≤◌, ◌*◌, ◌+◌, ◌^◌, All, IfOk};
ghost use Rattle.room_server.specs.Tables.{AreAt};
ghost use Rattle.room_server.specs.Seats.{AreMet, AreSplit, HavePartsFor};

use crate::table::RoomTable;
use osm_elements::Memory;
use room_history::room::Room;
use std::alloc::Global;
use turn_desk::Seat;

/// A seat at a room's desk.
pub type RoomSeat = Seat<Room<Global>>;

/// Splits each of a table's seats. Returns the seats that keep their numbers, and the new seats, one for each room.
pub(crate) fn split_all(
    alloc: Global,
    table: &RoomTable,
    seats: Vec<RoomSeat, Global>,
) -> Result<(Vec<RoomSeat, Global>, Vec<RoomSeat, Global>), Memory>
    requires at { AreAt table.now seats.items }
    requires parts { HavePartsFor 1 seats.items }
    ensures at { IfOk result (λ r. AreAt table.now r.0.items × AreAt table.now r.1.items) }
    ensures split { IfOk result (λ r. AreSplit seats.items r.0.items r.1.items) }
{
    let mut kept = Vec::with_capacity(alloc, table.len())?;
    let mut new = Vec::with_capacity(alloc, table.len())?;
    let mut room = 0;
    for seat in seats {
        let (one, other) = table.desk(room).split(seat);
        kept.push(one)?;
        new.push(other)?;
        room += 1;
    }
    Ok((kept, new))
}

/// Meets each of `others` into the seat of its room.
pub(crate) fn meet_all(
    table: &RoomTable,
    seats: &mut Vec<RoomSeat, Global>,
    others: Vec<RoomSeat, Global>,
)
    requires at { AreAt table.now seats.old.items }
    requires others { AreAt table.now others.items }
    ensures at { AreAt table.now seats.new.items }
    ensures met { AreMet table.now seats.old.items others.items seats.new.items }
{
    let mut room = 0;
    for other in others {
        table.desk(room).meet(&mut seats[room], other);
        room += 1;
    }
}
