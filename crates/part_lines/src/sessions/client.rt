//! The events of a client, and what goes out to it.
ghost use Rattle.room_server.specs.Prelude.{KeepsKnown, IsRunOn, known_of};

use crate::sessions::line::{Client, Event, read};
use room_server::Seated;
use room_session::caller::Caller;
use room_session::sent::Sent;
use room_session::session::{Ended, Session};
use std::alloc::Global;
use std::io;
use std::sync::Wait;

/// Gives the event of a line to its client's session, and prints what goes out.
#[tactic(auto, using(room_session::specs::Facts::Running::still_runs))]
pub fn hear_line<R: Print + Wait>(
    rt: &R,
    alloc: Global,
    anna: &mut Session,
    bob: &mut Session,
    rooms: &mut Seated<'_>,
    line: &str,
) -> io::Result<()>
    requires anna { IsRunOn anna.old (known_of rooms.old) }
    requires bob { IsRunOn bob.old (known_of rooms.old) }
    ensures anna { IsRunOn anna.new (known_of rooms.new) }
    ensures bob { IsRunOn bob.new (known_of rooms.new) }
{
    match read(line) {
        Some((Client::Anna, event)) => hear(rt, alloc, anna, rooms, event),
        Some((Client::Bob, event)) => hear(rt, alloc, bob, rooms, event),
        None => Err(io::ErrorKind::InvalidInput.into()),
    }
}

// Gives an event to a session, and prints what goes out.
fn hear<R: Print + Wait>(
    rt: &R,
    alloc: Global,
    session: &mut Session,
    rooms: &mut Seated<'_>,
    event: Event<'_>,
) -> io::Result<()>
    requires { IsRunOn session.old (known_of rooms.old) }
    ensures keeps { KeepsKnown (known_of rooms.old) (known_of rooms.new) }
    ensures runs { IsRunOn session.new (known_of rooms.new) }
{
    match event {
        Event::Connect => {
            *session = Session::new(alloc, Caller::Anyone);
            println!(rt;)
        }
        Event::Quiet => show(rt, session.on_quiet(alloc, rt, rooms)),
        Event::Binary => show(rt, session.on_binary(alloc)),
        Event::Close => show(rt, session.on_close(alloc)),
        Event::Text(text) => show(rt, session.on_text(alloc, rt, rooms, text)),
    }
}

// Prints what goes out to a client.
fn show<R: Print>(rt: &R, sent: Result<Sent, Ended>) -> io::Result<()> {
    match sent {
        Ok(sent) => {
            for text in sent.texts.as_slice() {
                println!(rt; "{}", text.as_str())?;
            }
            if let Some(code) = sent.close {
                println!(rt; "close {code}")?;
            }
        }
        Err(ended) => println!(rt; "{ended}")?,
    }
    println!(rt;)
}
