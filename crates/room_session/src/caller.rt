//! Who may speak in a session.
ghost use Rattle.std.specs.Prelude.{◌≡◌};
ghost use Rattle.room_session.specs.Callers.{greeted};

use room_interface::author::Author;

/// Who is at the other end of a connection. The handshake decides it, and no message changes it.
#[derive(Clone, Copy, Debug)]
pub enum Caller {
    /// Anyone: the server asks for no name in the handshake, and believes the hello.
    Anyone,
    /// The author whom the handshake named.
    Only(Author),
    /// Somebody whom the handshake did not name, and who may watch.
    Watcher,
    /// Somebody whom the handshake did not name, and who may do nothing.
    Nobody,
}

/// Who speaks in an open session.
#[derive(Clone, Copy, Debug)]
pub enum Speaker {
    /// The author of the session's changes.
    Author(Author),
    /// Somebody without a name, who sees the map and changes nothing.
    Watcher,
}

/// Why a caller may not begin a session under a name.
#[derive(Clone, Copy, Debug)]
pub enum Barred {
    /// The handshake named this author, and the hello has another name.
    WrongName(Author),
    /// The handshake named nobody, and nobody may watch.
    NoName,
}

impl Caller {
    /// Returns as whom the caller speaks after a hello under the name `author`.
    ///
    /// # Errors
    ///
    /// - `WrongName`, if the handshake named another author.
    /// - `NoName`, if the handshake named nobody, and nobody may watch.
    pub(crate) fn greet(&self, author: &Author) -> Result<Speaker, Barred>
        ensures { result ≡ greeted self.now author.now }
    {
        match self {
            Caller::Anyone => Ok(Speaker::Author(*author)),
            Caller::Only(own) if own.is(author) => Ok(Speaker::Author(*own)),
            Caller::Only(own) => Err(Barred::WrongName(*own)),
            Caller::Watcher => Ok(Speaker::Watcher),
            Caller::Nobody => Err(Barred::NoName),
        }
    }
}
