//! Sending to a client.
ghost use Rattle.std.specs.Prelude.{◌≡◌, ◌≢◌, [], OnErr, OnOk};
ghost use Rattle.room_socket.specs.Timely.{remaining_of, contents_of};
ghost use Rattle.room_socket.specs.Sending.{Closes, Sends, SendsTexts, code_of, end_of};

use crate::closing::close;
use crate::end::End;
use crate::hearing::Socket;
use room_session::sent::Sent;
use room_session::session::Ended;
use std::alloc::Global;
use std::io::{Read, Write};
use tungstenite::{CloseCode, Error, Message};

// RFC 6455, section 7.4.1: data of a type that is not accepted.
const UNSUPPORTED_DATA: u16 = 1003;

/// Sends what the core of a session returned, and closes the connection if it says so. Returns an end if the session is
/// over.
pub(crate) fn send<S: Read + Write + Drop>(
    alloc: Global,
    socket: &mut Socket<S>,
    sent: Result<Sent, Ended>,
) -> Option<End>
    ensures { Sends (remaining_of S.remaining) (contents_of S.contents) sent socket.old result socket.new }
{
    let Ok(sent) = sent else {
        return Some(End::Fault);
    };
    if send_texts(alloc, socket, &sent).is_err() {
        return Some(End::Fault);
    }
    match sent.close {
        None => None,
        Some(code) => Some(send_close(socket, code)),
    }
}

// Closes the connection with one of the two codes of a session's core, and returns the end that this is.
fn send_close<S: Read + Write + Drop>(socket: &mut Socket<S>, code: u16) -> End
    ensures end { result ≡ end_of code }
    ensures closes { Closes (remaining_of S.remaining) (contents_of S.contents) (code_of code) socket.old socket.new }
{
    if code == UNSUPPORTED_DATA {
        close(socket, CloseCode::Unsupported);
        End::Binary
    } else {
        close(socket, CloseCode::Error);
        End::Memory
    }
}

// Writes all texts to the output buffer and then sends them at once, so that a reply and the news after it go out
// together.
fn send_texts<S: Read + Write + Drop>(
    alloc: Global,
    socket: &mut Socket<S>,
    sent: &Sent,
) -> Result<(), Error>
    ensures ok { OnOk result (SendsTexts (contents_of S.contents) sent.now.texts socket.old socket.new) }
    ensures err { OnErr result (sent.now.texts ≢ []) }
{
    let texts = sent.texts.as_slice();
    if texts.is_empty() {
        return Ok(());
    }
    for text in texts {
        socket.write(Message::text(alloc, text.as_str())?)?;
    }
    socket.flush()
}
