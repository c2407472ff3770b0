//! Reading from a client.
ghost use Rattle.std.specs.Prelude.{◌≡◌};
ghost use Rattle.room_socket.specs.Hearing.{Hears, is_silent};
ghost use Rattle.room_socket.specs.Timely.{remaining_of};

use crate::timely::{Timely, is_quiet};
use std::io::{Read, Write};
use tungstenite::{Error, Message, NoMask, Utf8Bytes, WebSocket};

/// A server's WebSocket over a timely stream.
pub(crate) type Socket<S> = WebSocket<Timely<S>, NoMask>;

/// What a read from the client can yield.
#[derive(Drop)]
pub(crate) enum Heard {
    /// A text.
    Text(Utf8Bytes),
    /// A message that is not a text.
    Binary,
    /// A ping or a pong, which the socket answers itself.
    Other,
    /// Nothing came for a while.
    Quiet,
    /// The client closed the connection.
    Close,
    /// The stream, the protocol or an allocation failed.
    Fault,
}

/// Reads the next message.
pub(crate) fn hear<S: Read + Write + Drop>(socket: &mut Socket<S>) -> Heard
    ensures { Hears (remaining_of S.remaining) socket.old result socket.new }
{
    match socket.read() {
        Ok(Message::Text(text)) => Heard::Text(text),
        Ok(Message::Binary(_)) => Heard::Binary,
        Ok(Message::Ping(_)) | Ok(Message::Pong(_)) => Heard::Other,
        Ok(Message::Close(_)) => Heard::Close,
        Err(error) => {
            if is_silent(&error) {
                Heard::Quiet
            } else {
                Heard::Fault
            }
        }
    }
}

// Returns whether a read failed only because the stream gave nothing in time or a signal interrupted it.
fn is_silent(error: &Error) -> bool
    ensures { result ≡ is_silent error.now }
{
    match error {
        Error::Io(cause) => is_quiet(cause),
        _ => false,
    }
}
