//! Calls of authors.
use crate::author::Author;
use crate::edit::Edit;
use osm_elements::items::Items;
use std::alloc::Allocator;

/// A request to a room.
#[derive(Drop)]
#[derive_where(Debug)]
pub enum Request<A: Allocator> {
    /// An edit of the map: one action, or a group.
    Do {
        /// The edit.
        edit: Edit<A>,
        /// How many entries of the room the author had seen, if the author says it. Then the edit is refused if an entry
        /// of another author after these changed what the edit would change.
        since: Option<u64>,
    },
    /// The undo of the entry with this number, or of the author's last active entry if there is no number.
    Undo(Option<u64>),
    /// The redo of the entry that the author undid last and has not redone. Its action is done on the map at that time.
    Redo,
}

/// A call of a room.
#[derive(Drop)]
#[derive_where(Debug)]
pub struct Call<A: Allocator> {
    /// The author.
    pub author: Author,
    /// The message's id, which an accepted call spends for its author.
    pub id: u64,
    /// The request.
    pub request: Request<A>,
}

/// A list of calls, in the order in which a room takes them.
pub type Calls<A> = Items<Call<A>, A>;
