//! The answers to messages.
use crate::bad::Fault;
use osm_elements::element::Element;
use osm_elements::map::Rows;
use osm_elements::name::Name;
use room_interface::reply::Reply;
use std::alloc::Global;

/// The answer to a message, with the values that its reply shows.
#[derive(Clone, Copy, Debug)]
pub enum Answer<'a> {
    /// The room's reply to a change, an undo or a redo.
    Reply(&'a Reply<Global>),
    /// The element that was asked for.
    Is {
        /// Its name.
        name: Name,
        /// The element.
        element: &'a Element<Global>,
    },
    /// The map has no element of the name that was asked for.
    Absent(Name),
    /// The whole map.
    Map {
        /// Its rows.
        rows: &'a Rows<Global>,
        /// The entry count of the journal.
        front: u64,
    },
    /// The entries that the author may undo or redo.
    Undos {
        /// The numbers of the author's active entries, rising.
        undos: &'a [u64],
        /// The numbers of the entries that the author can redo, the next to redo last.
        redos: &'a [u64],
    },
    /// An allocation failed.
    Memory,
    /// The message has a fault.
    Fault(Fault),
    /// The line is not an author, a space and a message.
    BadLine,
    /// The session has not begun: its first message must be a hello.
    NoHello,
    /// There is no room with the name in the hello.
    NoRoom,
    /// The session has begun already.
    HelloTwice,
    /// The handshake named the author with this name, and the hello has another name.
    WrongName(&'a str),
    /// The handshake named no author.
    NoName,
}
