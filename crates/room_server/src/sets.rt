//! The sets of seats for the workers.
ghost use Rattle.std.specs.Prelude.{◌≡◌, ◌≤◌, ℕ, [], ◌∷◌, All, IfOk, map, vec_items, vec_len};
ghost use Rattle.room_server.specs.Inner.Parts.{parts_in};
ghost use Rattle.room_server.specs.Tables.{AreAt};
ghost use Rattle.room_server.specs.Seats.{HaveMet, HavePartsFor, IsFresh};

use crate::seats::{RoomSeat, split_all};
use crate::table::RoomTable;
use osm_elements::Memory;
use std::alloc::Global;

/// Splits off `count` sets, each with a seat at every desk of the table. Returns the remaining seats and the sets.
pub(crate) fn split_sets(
    alloc: Global,
    table: &RoomTable,
    seats: Vec<RoomSeat, Global>,
    count: u32,
) -> Result<(Vec<RoomSeat, Global>, Vec<Vec<RoomSeat, Global>, Global>), Memory>
    requires at { AreAt table.now seats.items }
    requires first { HaveMet 0 seats.items }
    requires parts { HavePartsFor count seats.items }
    requires own { All (λ seat. seat.mine ≡ []) seats.items }
    ensures left { IfOk result (λ r. AreAt table.now r.0.items × HaveMet 0 r.0.items) }
    ensures own { IfOk result (λ r. All (λ seat. seat.mine ≡ []) r.0.items) }
    ensures sets { IfOk result (λ r. All (λ set. IsFresh table.now set.items) r.1.items) }
    ensures count { IfOk result (λ r. vec_len r.1 ≡ count) }
    // No part is lost.
    ensures parts { IfOk result (λ r. (room : ℕ)
        → parts_in room (r.0.items ∷ map vec_items r.1.items) ≡ parts_in room (seats.items ∷ [])) }
{
    let mut left = seats;
    let mut sets = Vec::new(alloc);
    for _ in 0..count {
        let (kept, set) = split_all(alloc, table, left)?;
        left = kept;
        sets.push(set)?;
    }
    Ok((left, sets))
}
