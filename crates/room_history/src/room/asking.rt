//! Calls and queries of a room.
ghost use Rattle.std.specs.Prelude.{◌≡◌, length, IfOk};

use crate::room::Room;
use osm_elements::Memory;
use osm_elements::element::copy_of;
use osm_elements::map::Rows;
use room_interface::ask::{Numbers, RoomCall, RoomReply, Undoable};
use room_interface::author::Author;
use std::alloc::Allocator;

impl<A: Allocator + Copy> Room<A> {
    ghost use Rattle.osm_elements.specs.Rows.{row_at};
    ghost use Rattle.room_history.specs.Asking.{IsAnswered};
    ghost use Rattle.room_history.specs.Journals.{undos, redos};
    ghost use Rattle.room_history.specs.Replays.{mapof};

    /// Runs a call as [`Room::take`] does, or replies to a query with copies of the map's content.
    ///
    /// If an allocation fails, the reply says so, and the room is unchanged. `replay` does not use this function for
    /// queries: it reads the room directly, because no other client waits for the room.
    pub fn ask(&mut self, call: RoomCall<A>) -> RoomReply<A>
        ensures answer { IsAnswered self.old.base self.old.limit self.old.journal call result self.new.journal }
        ensures base { self.new.base ≡ self.old.base }
        ensures limit { self.new.limit ≡ self.old.limit }
    {
        match call {
            RoomCall::Take(call) => RoomReply::Take(self.take(call)),
            RoomCall::Get(name) => RoomReply::Get(name, copy_of(self.get(&name))),
            RoomCall::Rows => RoomReply::Rows(self.front_and_rows()),
            RoomCall::Undos(author) => RoomReply::Undos(self.undoable_by(&author)),
            RoomCall::News(from) => RoomReply::News(self.news(from)),
        }
    }

    // Returns the entry count of the journal, and copies of the rows.
    fn front_and_rows(&self) -> Result<(u64, Rows<A>), Memory>
        ensures { IfOk result (λ rows. rows ≡ (length self.now.journal, mapof self.now.base self.now.journal)) }
    {
        Ok((self.front(), self.map_rows()?))
    }

    // Returns copies of the numbers of an author's active entries, and of the entries that it can redo.
    fn undoable_by(&self, author: &Author) -> Result<Undoable<A>, Memory>
        ensures { IfOk result (λ lists. lists ≡ record {
          undos = undos self.now.journal author.now;
          redos = redos self.now.journal author.now;
        }) }
    {
        let alloc = *self.entries.allocator();
        let undos = Numbers::from_vec(Vec::from_slice(alloc, self.undos(author))?);
        let redos = Numbers::from_vec(Vec::from_slice(alloc, self.redos(author))?);
        Ok(Undoable { undos, redos })
    }
}
