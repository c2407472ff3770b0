//! Messages to a room.
use osm_elements::name::Name;
use room_interface::author::Author;
use room_interface::call::Request;
use std::alloc::Global;

/// What a message asks for.
#[derive(Debug, Drop)]
pub enum Body {
    /// A hello: the client wants to begin a session.
    Hello {
        /// The name of the room, which has the form of an author's name.
        room: Author,
        /// The author of the session's calls.
        name: Author,
    },
    /// A change of the room.
    Change(Request<Global>),
    /// The element of this name.
    Get(Name),
    /// The whole map.
    Map,
    /// The entries that the author may undo or redo.
    Undos,
}

/// A message to a room.
#[derive(Debug, Drop)]
pub struct Incoming {
    /// The id that the client gave to the message, in `1..=9007199254740991`.
    pub id: u64,
    /// What the message asks for.
    pub body: Body,
}
