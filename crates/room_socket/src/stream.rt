//! A session over a stream.
ghost use Rattle.std.specs.Prelude.{◌≡◌, ◌≤◌, ◌∷◌, [], List, length};
ghost use Rattle.room_session.specs.Prelude.{KeepsKnown, IsRunOn};
ghost use Rattle.room_session.specs.declared.session.State.{State};
ghost use Rattle.room_session.specs.declared.session.State.TheVariants.{BeforeHello};
ghost use Rattle.room_socket.specs.Admitting.{rule_of};
ghost use Rattle.room_socket.specs.Conversing.{Converses, Talks, TakesQuiet, TakesText, TakesTurn};
ghost use Rattle.room_socket.specs.Timely.{remaining_of, contents_of};
ghost use Rattle.room_socket.specs.Serving.{Serves, Follows, InTurns, Event};

use crate::admission::Admission;
use crate::closing::close;
use crate::end::End;
use crate::gate::Gate;
use crate::handshake::shake_hands;
use crate::hearing::{Heard, Socket, hear};
use crate::passage::Passage;
use crate::sending::send;
use room_session::caller::Caller;
use room_session::rooms::Rooms;
use room_session::sent::Sent;
use room_session::session::{Ended, Session};
use std::alloc::Global;
use std::io::{Read, Write};
use std::sync::Wait;
use std::time::Clock;
use tungstenite::CloseCode;

/// Shakes hands with a client over a stream (RFC 6455, section 4.2), and runs the session with this number to its end.
///
/// The core of a session gets each text that comes. What it returns goes out, a reply and its news in one write. If
/// nothing comes for as long as the stream's reads wait, the news go out. The session ends:
///
/// - if the client closes the connection: the close is answered
/// - if the client sends a message that is not a text: a close with code 1003 goes out
/// - if an allocation of the core for a reply or for the news fails: a close with code 1011 goes out
/// - if the client is a page of an origin that `admission` does not let in: the answer to the handshake is 403
/// - if the handshake, the stream, the protocol or an allocation for the socket fails: nothing more goes out
/// - after `turns` reads of a message: a close with code 1000 goes out
///
/// The stream's reads have to end: a read that waits forever keeps the session waiting. The call leaves unchanged what
/// no call of the rooms changes.
///
/// The WebSocket library decides how often it reads the stream for a message. A client gets no news while it sends
/// pieces of a frame, or pings, each sooner than a read waits.
pub fn serve<S: Read + Write + Drop, R: Rooms, G: Gate, W: Wait + Clock>(
    rt: &W,
    alloc: Global,
    stream: S,
    rooms: &mut R,
    gate: &G,
    session: u64,
    turns: u64,
    admission: &Admission,
) -> End
    // The rooms were asked what the core of one session asks for at most `turns` texts and quiet waits, and nothing
    // else. Each entry is by an author as whom the caller may make changes.
    ensures serves { Serves (rule_of admission.now) turns (R.known rooms.old) (R.known rooms.new) }
    // What the core got is what the socket read, what went out is what the core returned, and the end is for its cause.
    ensures talks { Talks S.remaining S.contents (rule_of admission.now) turns (R.known rooms.old) result (R.known rooms.new) }
    ensures keeps { KeepsKnown (R.known rooms.old) (R.known rooms.new) }
    ensures kept { R.kept rooms.new ≡ R.kept rooms.old }
{
    match shake_hands(rt, alloc, stream, admission) {
        Ok((mut socket, caller)) => {
            let mut passage = Passage::new(gate, session);
            run(rt, alloc, &mut socket, rooms, &mut passage, turns, &caller)
        }
        Err(end) => end,
    }
}

// Runs a session over a socket to its end.
fn run<S: Read + Write + Drop, R: Rooms, G: Gate, W: Wait + Clock>(
    rt: &W,
    alloc: Global,
    socket: &mut Socket<S>,
    rooms: &mut R,
    passage: &mut Passage<'_, G>,
    turns: u64,
    caller: &Caller,
) -> End
    ensures follows { (state : State) × InTurns turns (BeforeHello caller.now) (R.known rooms.old) state (R.known rooms.new) }
    ensures converses { (state : State) × Converses (remaining_of S.remaining) (contents_of S.contents) turns
        socket.old (BeforeHello caller.now) (R.known rooms.old) result socket.new state (R.known rooms.new) }
    ensures keeps { KeepsKnown (R.known rooms.old) (R.known rooms.new) }
    ensures kept { R.kept rooms.new ≡ R.kept rooms.old }
{
    let mut core = Session::new(alloc, *caller);
    for _ in 0..turns {
        let step = turn(rt, alloc, socket, rooms, passage, &mut core);
        if let Some(end) = step {
            return end;
        }
    }
    close(socket, CloseCode::Normal);
    End::Bound
}

// Takes one turn: reads a message and sends what goes out for it. Returns an end if the turn is the last.
fn turn<S: Read + Write + Drop, R: Rooms, G: Gate, W: Wait + Clock>(
    rt: &W,
    alloc: Global,
    socket: &mut Socket<S>,
    rooms: &mut R,
    passage: &mut Passage<'_, G>,
    core: &mut Session,
) -> Option<End>
    requires { IsRunOn core.old (R.known rooms.old) }
    ensures follows { (events : List Event) × (length events ≤ 1)
        × Follows events core.old (R.known rooms.old) core.new (R.known rooms.new) }
    ensures takes { TakesTurn (remaining_of S.remaining) (contents_of S.contents)
        socket.old core.old (R.known rooms.old) result socket.new core.new (R.known rooms.new) }
    ensures keeps { KeepsKnown (R.known rooms.old) (R.known rooms.new) }
    ensures runs { IsRunOn core.new (R.known rooms.new) }
    ensures kept { R.kept rooms.new ≡ R.kept rooms.old }
{
    match hear(socket) {
        Heard::Text(text) => {
            passage.pass(rt);
            let sent = take_text(rt, alloc, core, rooms, text.as_str());
            let end = send(alloc, socket, sent);
            passage.answered(rt);
            end
        }
        Heard::Quiet => {
            let sent = take_quiet(rt, alloc, core, rooms);
            send(alloc, socket, sent)
        }
        Heard::Other => None,
        Heard::Binary => {
            let sent = core.on_binary(alloc);
            send(alloc, socket, sent)
        }
        Heard::Close => {
            let _ = core.on_close(alloc);
            let _ = socket.flush();
            Some(End::Left)
        }
        Heard::Fault => {
            let _ = core.on_close(alloc);
            Some(End::Fault)
        }
    }
}

// Gives a text to the core.
fn take_text<R: Rooms, W: Wait>(
    rt: &W,
    alloc: Global,
    core: &mut Session,
    rooms: &mut R,
    text: &str,
) -> Result<Sent, Ended>
    requires { IsRunOn core.old (R.known rooms.old) }
    ensures follows { (event : Event) × Follows (event ∷ []) core.old (R.known rooms.old) core.new (R.known rooms.new) }
    ensures takes { TakesText text.now result core.old (R.known rooms.old) core.new (R.known rooms.new) }
    ensures keeps { KeepsKnown (R.known rooms.old) (R.known rooms.new) }
    ensures runs { IsRunOn core.new (R.known rooms.new) }
    ensures kept { R.kept rooms.new ≡ R.kept rooms.old }
{
    core.on_text(alloc, rt, rooms, text)
}

// Reports to the core that nothing came for a while.
fn take_quiet<R: Rooms, W: Wait>(
    rt: &W,
    alloc: Global,
    core: &mut Session,
    rooms: &mut R,
) -> Result<Sent, Ended>
    requires { IsRunOn core.old (R.known rooms.old) }
    ensures follows { (event : Event) × Follows (event ∷ []) core.old (R.known rooms.old) core.new (R.known rooms.new) }
    ensures takes { TakesQuiet result core.old (R.known rooms.old) core.new (R.known rooms.new) }
    ensures keeps { KeepsKnown (R.known rooms.old) (R.known rooms.new) }
    ensures runs { IsRunOn core.new (R.known rooms.new) }
    ensures kept { R.kept rooms.new ≡ R.kept rooms.old }
{
    core.on_quiet(alloc, rt, rooms)
}
