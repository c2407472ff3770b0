//! Closing a connection.
ghost use Rattle.room_socket.specs.Timely.{remaining_of, contents_of};
ghost use Rattle.room_socket.specs.Sending.{Closes};

use crate::hearing::Socket;
use std::io::{Read, Write};
use tungstenite::{CloseCode, CloseFrame, Message, Utf8Bytes};

// The most reads of a stream for the answer to a close. They are not turns: at the end `Bound`, they are additional.
const CLOSING_READS: u32 = 64;

/// Sends a close (RFC 6455, section 5.5.1) as far as the stream takes it, and then reads until a read is quiet or
/// fails.
///
/// The reads await the client's answer. If the stream were dropped before, it would be reset. The client might then see
/// no clean end, which a browser reports to its page.
pub(crate) fn close<S: Read + Write + Drop>(socket: &mut Socket<S>, code: CloseCode)
    ensures { Closes (remaining_of S.remaining) (contents_of S.contents) code socket.old socket.new }
{
    let reason = Utf8Bytes::from_static("");
    // The contract of `send` also covers an output that is full, which that of the socket's `close` leaves open.
    let message = Message::Close(Some(CloseFrame { code, reason }));
    if socket.send(message).is_err() {
        return;
    }
    for _ in 0..CLOSING_READS {
        if socket.read().is_err() {
            return;
        }
    }
}
