//! The texts and closes that go out to a client.
ghost use Rattle.std.specs.Prelude.{◌≡◌, []};
ghost use Rattle.room_session.specs.Events.{closing, only};

use osm_elements::items::Items;
use room_wire::json_text::Json;
use std::alloc::Global;

/// A list of texts, in the order in which they go out.
pub type Texts = Items<Json, Global>;

/// What goes out to a client: texts, and then possibly a close of the connection.
#[derive(Debug, Drop)]
pub struct Sent {
    /// The texts that go out, in order.
    pub texts: Texts,
    /// The code with which the connection is closed after the texts (RFC 6455, section 7.4.1), or `None` if it stays
    /// open.
    pub close: Option<u16>,
}

impl Sent {
    /// Sends nothing, and keeps the connection open.
    pub(crate) fn nothing(alloc: Global) -> Sent
        ensures { result ≡ only [] }
    {
        Sent {
            texts: Texts::empty(alloc),
            close: None,
        }
    }

    /// Sends no text, and closes the connection with this code.
    pub(crate) fn closing(alloc: Global, code: u16) -> Sent
        ensures { result ≡ closing code }
    {
        Sent {
            texts: Texts::empty(alloc),
            close: Some(code),
        }
    }
}
