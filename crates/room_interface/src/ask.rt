//! All calls and queries of a room.
use crate::author::Author;
use crate::call::Call;
use crate::news::NewsList;
use crate::reply::Reply;
use osm_elements::Memory;
use osm_elements::element::Element;
use osm_elements::items::Items;
use osm_elements::map::Rows;
use osm_elements::name::Name;
use std::alloc::Allocator;

/// A call or a query of a room.
#[derive(Drop)]
#[derive_where(Debug)]
pub enum RoomCall<A: Allocator> {
    /// A call.
    Take(Call<A>),
    /// A query for the element of a name.
    Get(Name),
    /// A query for the rows of the map and the entry count of the journal.
    Rows,
    /// A query for the entries that an author can undo and redo.
    Undos(Author),
    /// A query for the news of the entries whose numbers are greater than this number.
    News(u64),
}

/// The reply of a room, with the same variant as its call or query. It borrows nothing from the room. A query's only
/// refusal is `Memory`, if an allocation fails.
#[derive(Drop)]
#[derive_where(Debug)]
pub enum RoomReply<A: Allocator> {
    /// The reply to a call.
    Take(Reply<A>),
    /// The name that was asked for, and its element, or `None` if the map does not have the name.
    Get(Name, Result<Option<Element<A>>, Memory>),
    /// The entry count of the journal, and the rows in name order.
    Rows(Result<(u64, Rows<A>), Memory>),
    /// The entries that the author can undo and redo.
    Undos(Result<Undoable<A>, Memory>),
    /// The news, in the order of their entries.
    News(Result<NewsList<A>, Memory>),
}

/// A list of entry numbers.
pub type Numbers<A> = Items<u64, A>;

/// The entries that an author can undo and redo.
#[derive(Drop)]
#[derive_where(Debug)]
pub struct Undoable<A: Allocator> {
    /// The numbers of its active entries, in rising order.
    pub undos: Numbers<A>,
    /// The numbers of the entries that it can redo, bottom first.
    pub redos: Numbers<A>,
}
