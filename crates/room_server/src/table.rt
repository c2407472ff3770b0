//! The table of rooms.
ghost use Rattle.std.specs.Prelude.{◌≡◌, ◌<◌, ◌++◌, ◌∷◌, [], Some, true, length, slice_get, map, IfOk, IfErr, OnOk};
ghost use Rattle.room_socket.specs.Prelude.{AreInOrder, are_of_kinds, IsBaseFault, author_of};
ghost use Rattle.turn_desk.specs.Desk.{IsAt, IsFirst};
ghost use Rattle.room_server.specs.Inner.Opened.{AreOpened};
ghost use Rattle.room_server.specs.Openings.{AreFine, IsFirstFault, Opens, opening};
ghost use Rattle.room_server.specs.Tables.{DeskView, SeatView, place_by};

use crate::names::RoomNames;
use crate::seats::RoomSeat;
use indexmap::IndexSet;
use osm_elements::Memory;
use osm_elements::map::Rows;
use osm_elements::name::Name;
use room_history::base::BaseFault;
use room_history::room::Room;
use room_interface::author::Author;
use room_interface::refusal::Refusal;
use std::alloc::Global;
use std::marker::Model;
use thiserror::Error;
use turn_desk::Desk;

/// A desk through which a room is shared.
pub type RoomDesk = Desk<Room<Global>, Global>;

/// The reasons for which a table is not opened.
#[derive(Debug, Drop, Error)]
pub enum TableFault {
    /// The text at this position, counted from 0, is not a name of a room.
    #[error("bad room name")]
    BadName(usize),
    /// An earlier position also has the name at this position, counted from 0.
    #[error("room twice")]
    Twice(usize),
    /// The rooms' base map is not sound.
    #[error("unsound base")]
    Unsound {
        /// The least name whose row is not sound.
        name: Name,
        /// The reason, as in [`BaseFault`].
        why: Refusal<Global>,
    },
    /// An allocation failed.
    #[error("no memory")]
    Memory,
}

impl From<Memory> for TableFault {
    ghost use Rattle.room_server.specs.declared.table.TableFault.{TableFault};

    ghost from_gives = { λ _ fault. fault ≡ TableFault.Memory };

    fn from(_: Memory) -> TableFault {
        TableFault::Memory
    }
}

impl From<BaseFault<Global>> for TableFault {
    ghost use Rattle.room_server.specs.Tables.{base_fault};

    ghost from_gives = { λ base fault. fault ≡ base_fault base };

    fn from(fault: BaseFault<Global>) -> TableFault {
        match fault {
            BaseFault::Unsound { name, why } => TableFault::Unsound { name, why },
            BaseFault::Memory => TableFault::Memory,
        }
    }
}

/// Rooms under names, each at a desk. Names and desks are two lists, so the desks can be taken out without allocation.
#[derive(Drop)]
pub struct RoomTable {
    names: IndexSet<Author>,
    desks: Vec<RoomDesk, Global>,
}

// Contracts model a table as its names and its desks, two lists of the same length.
impl Model for RoomTable {
    ghost use Rattle.std.specs.Prelude.{◌≡◌, length};
    ghost use Rattle.room_server.specs.Tables.{TableView};

    ghost Value = { TableView };

    ghost view = { λ t. record { names = t.names.keys; desks = t.desks.items } };

    ghost invariant = { λ t. length t.desks.items ≡ length t.names.keys };
}

impl RoomTable {
    /// Opens rooms as [`RoomTable::open_on`] does, with the empty map.
    ///
    /// # Errors
    ///
    /// Those of [`RoomTable::open_on`], except `Unsound`.
    pub fn open(
        alloc: Global,
        names: &[&str],
        limit: u32,
    ) -> Result<(RoomTable, Vec<RoomSeat, Global>), TableFault>
        ensures ok { IfOk result (λ r. Opens (map (λ name. name.now) names.now) [] limit r.0 r.1.items) }
        ensures fine { let texts = map (λ name. name.now) names.now in OnOk result (AreFine texts (length texts)) }
        ensures err { IfErr result (λ fault. IsFirstFault (map (λ name. name.now) names.now) [] fault) }
    {
        RoomTable::open_on(alloc, names, Rows::from_vec(Vec::new(alloc)), limit)
    }

    /// Opens a room for each name, with the map of `rows` and a journal of at most `limit` entries.
    ///
    /// Returns the table and the first seat of each desk, in the order of the names. Without names, the table is empty.
    /// `rows` must be as [`Room::open_on`] requires. Each room but the last gets a copy of them.
    ///
    /// # Errors
    ///
    /// If the call fails, no room is made.
    ///
    /// - `BadName` and `Twice` as in [`RoomNames::read`], before any other fault of the arguments.
    /// - `Unsound`, if the map is not sound.
    /// - `Memory`, if an allocation fails.
    pub fn open_on(
        alloc: Global,
        names: &[&str],
        rows: Rows<Global>,
        limit: u32,
    ) -> Result<(RoomTable, Vec<RoomSeat, Global>), TableFault>
        requires order { AreInOrder rows }
        requires kinds { are_of_kinds rows ≡ true }
        ensures ok { IfOk result (λ r. Opens (map (λ name. name.now) names.now) rows limit r.0 r.1.items) }
        ensures fine { let texts = map (λ name. name.now) names.now in OnOk result (AreFine texts (length texts)) }
        ensures err { IfErr result (λ fault. IsFirstFault (map (λ name. name.now) names.now) rows fault) }
    {
        let names = RoomNames::read(alloc, names)?;
        let opened = RoomTable::begin(alloc, names, rows, limit)?;
        Ok(opened)
    }

    /// Opens rooms as [`RoomTable::open_on`] does, under names that were read before.
    ///
    /// # Errors
    ///
    /// - `Unsound`, if the map is not sound. The map is tested even if there are no names, so the faults do not depend
    ///   on the number of names.
    /// - `Memory`, if an allocation fails.
    pub fn begin(
        alloc: Global,
        names: RoomNames,
        rows: Rows<Global>,
        limit: u32,
    ) -> Result<(RoomTable, Vec<RoomSeat, Global>), BaseFault<Global>>
        requires order { AreInOrder rows }
        requires kinds { are_of_kinds rows ≡ true }
        ensures ok { IfOk result (λ r. Opens names rows limit r.0 r.1.items) }
        ensures err { IfErr result (λ fault. IsBaseFault rows fault) }
    {
        let count = names.len();
        let (mut desks, mut seats) = open_copies(alloc, &rows, limit, count.saturating_sub(1))?;
        let last = Room::open_on(alloc, rows, limit)?;
        if count > 0 {
            seat_room(alloc, last, &mut desks, &mut seats)?;
        }
        let RoomNames { names } = names;
        Ok((RoomTable { names, desks }, seats))
    }

    /// Returns the position of the room of this name, or `None` if there is no such room.
    pub fn find(&self, name: &str) -> Option<usize>
        ensures { result ≡ place_by self.now.names (author_of name.now) }
    {
        let name = Author::read(name)?;
        self.names.get_index_of(&name)
    }

    /// Returns the number of rooms.
    pub fn len(&self) -> usize
        ensures names { result ≡ length self.now.names }
        ensures desks { result ≡ length self.now.desks }
    {
        self.desks.len()
    }

    /// Returns the desk at a position.
    pub fn desk(&self, room: usize) -> &RoomDesk
        requires { room < length self.now.names }
        ensures { slice_get self.now.desks room ≡ Some result.now }
    {
        &self.desks[room]
    }

    /// Returns the desks in order, without allocation.
    pub fn into_desks(self) -> Vec<RoomDesk, Global>
        ensures { result.items ≡ self.desks }
    {
        self.desks
    }
}

// Opens `count` rooms on copies of the rows, each at a desk, and returns the desks with their first seats.
fn open_copies(
    alloc: Global,
    rows: &Rows<Global>,
    limit: u32,
    count: usize,
) -> Result<(Vec<RoomDesk, Global>, Vec<RoomSeat, Global>), BaseFault<Global>>
    requires order { AreInOrder rows.now }
    requires kinds { are_of_kinds rows.now ≡ true }
    ensures ok { IfOk result (λ r. AreOpened rows.now limit count r.0.items r.1.items) }
    ensures err { IfErr result (λ fault. IsBaseFault rows.now fault) }
{
    let mut desks = Vec::new(alloc);
    let mut seats = Vec::new(alloc);
    for _ in 0..count {
        let room = Room::open_on(alloc, rows.copy()?, limit)?;
        seat_room(alloc, room, &mut desks, &mut seats)?;
    }
    Ok((desks, seats))
}

// Opens a desk over a room with an empty journal, and appends the desk and its first seat.
fn seat_room(
    alloc: Global,
    room: Room<Global>,
    desks: &mut Vec<RoomDesk, Global>,
    seats: &mut Vec<RoomSeat, Global>,
) -> Result<(), Memory>
    requires { room.journal ≡ [] }
    ensures { OnOk result ((desk : DeskView) × (seat : SeatView) × (desks.new.items ≡ desks.old.items ++ desk ∷ [])
        × (seats.new.items ≡ seats.old.items ++ seat ∷ []) × (desk.fixed ≡ opening room.base room.limit)
        × IsAt desk seat × IsFirst seat) }
{
    let (desk, seat) = Desk::open(alloc, room)?;
    desks.push(desk)?;
    seats.push(seat)?;
    Ok(())
}
