//! Entries of a room's journal.
use room_interface::author::Author;
use room_interface::edit::Edit;
use std::alloc::Allocator;

/// What an entry did.
#[derive(Drop)]
#[derive_where(Debug)]
pub enum EntryKind<A: Allocator> {
    /// Did an action or a group.
    Do(Edit<A>),
    /// Undid the entry with this number.
    Undo(u64),
    /// Redid the action of the entry with this number.
    Redo(u64),
}

/// An entry of the journal. Entries are numbered from 1.
#[derive(Drop)]
#[derive_where(Debug)]
pub struct Entry<A: Allocator> {
    /// The author of the call.
    pub author: Author,
    /// The id that the call spent.
    pub id: u64,
    /// The kind of the entry.
    pub kind: EntryKind<A>,
}
