//! The ways in which a session ends.
use std::fmt;

/// The way in which a session ended.
#[derive(Clone, Copy, Debug, PartialEq, Eq)]
pub enum End {
    /// The client closed the connection.
    Left,
    /// The client sent a message that is not a text, and the connection was closed with code 1003.
    Binary,
    /// An allocation of the session's core for a reply or for the news failed, and the connection was closed with code
    /// 1011.
    Memory,
    /// The client is a page of an origin that the server does not let in. Nothing more was sent than the refusal.
    Origin,
    /// The handshake, the stream, the protocol or an allocation for the socket failed. Nothing more was sent.
    Fault,
    /// The session used up its turns, and the connection was closed with code 1000.
    Bound,
}

impl fmt::Display for End {
    fn fmt<W: fmt::Write>(&self, f: &mut fmt::Formatter<W>) -> fmt::Result {
        f.write_str(match self {
            End::Left => "left",
            End::Binary => "binary",
            End::Memory => "memory",
            End::Origin => "origin",
            End::Fault => "fault",
            End::Bound => "bound",
        })
    }
}
