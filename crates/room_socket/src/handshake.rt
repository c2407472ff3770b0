//! The handshake of a session (RFC 6455, section 4.2).
ghost use Rattle.std.specs.Prelude.{◌≡◌, ◌⊎◌, IfErr, IfOk};
ghost use Rattle.room_socket.specs.Admitting.{Admits, rule_of};
ghost use Rattle.room_socket.specs.Prelude.{IsRefused};

use crate::admission::Admission;
use crate::end::End;
use crate::hearing::Socket;
use crate::timely::{Timely, is_quiet};
use httparse::Status;
use httparse::spans::{EMPTY_HEADER_SPAN, parse_request};
use room_session::caller::Caller;
use std::alloc::Global;
use std::io::{Read, Write};
use std::sync::Wait;
use std::time::{Clock, Duration, Instant};
use tungstenite::{NoMask, Role, WebSocket};
use websocket::handshake::server::{check_request, write_response};

// The longest that a client may take to send its head, in seconds.
const PATIENCE: u64 = 10;

// The most bytes of a head, and the most fields.
const MOST_BYTES: usize = 65536;

const MOST_FIELDS: usize = 124;

// The bytes that one read asks for.
const CHUNK: usize = 4096;

// The answer to a handshake from an origin that is not let in (RFC 6455, section 10.2).
const FORBIDDEN: &str = "HTTP/1.1 403 Forbidden\r\nconnection: close\r\ncontent-length: 0\r\n\r\n";

/// Reads the head of a client's handshake, and answers it. Returns the socket, and who is at its other end.
///
/// # Errors
///
/// - `Origin`, if the client is a page of an origin that is not let in. The answer is 403.
/// - `Fault`, if the head does not come within 10 seconds, if it asks for no WebSocket, if the stream fails, or if an
///   allocation fails. Nothing is answered.
pub(crate) fn shake_hands<S: Read + Write + Drop, W: Wait + Clock>(
    rt: &W,
    alloc: Global,
    mut stream: S,
    admission: &Admission,
) -> Result<(Socket<S>, Caller), End>
    ensures ok { IfOk result (λ r. Admits (rule_of admission.now) r.1 r.0) }
    ensures err { IfErr result IsRefused }
{
    let Some(head) = read_head(rt, alloc, &mut stream) else {
        return Err(End::Fault);
    };
    let mut spans = [EMPTY_HEADER_SPAN; MOST_FIELDS];
    let Ok(Status::Complete(found)) = parse_request(&head, &mut spans) else {
        return Err(End::Fault);
    };
    if found.len != head.len() {
        return Err(End::Fault);
    }
    let Ok(accept) = check_request(&head, &found, &spans) else {
        return Err(End::Fault);
    };
    let fields = &spans[..found.headers];
    if !admission.lets_in(&head, fields) {
        let _ = stream.write_all(FORBIDDEN.as_bytes());
        return Err(End::Origin);
    }
    let caller = admission.caller(&head, fields);
    if !answer(alloc, &mut stream, &accept) {
        return Err(End::Fault);
    }
    let stream = Timely::new(stream);
    let socket = WebSocket::from_raw_socket(alloc, stream, NoMask, Role::Server, None);
    Ok((socket, caller))
}

// Reads up to the end of a head. Returns `None` if the head is late or too long, or if the stream or an allocation
// fails.
fn read_head<S: Read, W: Wait + Clock>(rt: &W, alloc: Global, stream: &mut S) -> Option<Vec<u8>> {
    let begun = Instant::now(rt).ok()?;
    let mut head = Vec::new(alloc);
    let mut line = Line::Begun;
    for _ in rt.forever() {
        let mut chunk = [0; CHUNK];
        match stream.read(&mut chunk) {
            Ok(0) => return None,
            Ok(count) => {
                let bytes = &chunk[..count];
                head.extend_from_slice(bytes).ok()?;
                if line.ends_head(bytes) {
                    return Some(head);
                }
            }
            Err(error) if is_quiet(&error) => {}
            Err(_) => return None,
        }
        if head.len() > MOST_BYTES || begun.elapsed(rt).ok()? > Duration::from_secs(PATIENCE) {
            return None;
        }
    }
    None
}

// Sends the answer to a request with this accept key. Returns whether the stream took it.
fn answer<S: Write>(alloc: Global, stream: &mut S, accept: &[u8; 28]) -> bool {
    let mut text = Vec::new(alloc);
    write_response(accept, &[], &mut text).is_ok()
        && stream.write_all(&text).is_ok()
        && stream.flush().is_ok()
}

// The state of the line that is arriving.
#[derive(Clone, Copy)]
enum Line {
    // The line has some other content, or it is the first line.
    Begun,
    // The line is empty so far, and is not the first.
    Empty,
    // The line is a carriage return so far, and is not the first.
    Returned,
}

impl Line {
    // Moves on by these bytes, and returns whether they end an empty line, which ends a head (RFC 9112, section 2.1).
    // An empty line may end in LF alone, which section 2.2 permits a recipient to accept.
    fn ends_head(&mut self, bytes: &[u8]) -> bool {
        let mut ended = false;
        for byte in bytes {
            ended |= *byte == b'\n' && !matches!(*self, Line::Begun);
            *self = self.after(*byte);
        }
        ended
    }

    // Returns the state after a byte.
    fn after(self, byte: u8) -> Line {
        match (self, byte) {
            (_, b'\n') => Line::Empty,
            (Line::Empty, b'\r') => Line::Returned,
            _ => Line::Begun,
        }
    }
}
