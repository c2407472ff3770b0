//! The beginning of a session: texts before a hello is accepted.
ghost use Rattle.std.specs.Prelude.{◌≡◌, [], ◌∷◌, IfOk, MatchResult, OnErr, Result};
ghost use Rattle.room_wire.specs.Prelude.{Global, answer_text, GivesMessage, spells};
ghost use Rattle.room_interface.specs.declared.ask.RoomReply.{RoomReply};
ghost use Rattle.room_session.specs.declared.sent.Sent.{Sent};
ghost use Rattle.room_session.specs.declared.session.State.{State};
ghost use Rattle.room_session.specs.Callers.{barred_text};
ghost use Rattle.room_session.specs.Events.{only, Begins, BeginsBy, EndsFirst, Greets, Refuses};
ghost use Rattle.room_session.specs.Rooms.{AnswersCall, KeepsKnown, HasRoom};
ghost use Rattle.room_session.specs.Running.{IsRunOn};
ghost use Rattle.room_wire.specs.declared.bad.Bad.{Bad};
ghost use Rattle.room_wire.specs.declared.incoming.Incoming.{Incoming};
ghost use Rattle.room_interface.specs.declared.ask.RoomCall.TheVariants as calls;

use crate::caller::{Barred, Caller, Speaker};
use crate::next::Next;
use crate::rooms::Rooms;
use crate::sent::Texts;
use crate::session::State;
use osm_elements::Memory;
use room_interface::ask::{RoomCall, RoomReply};
use room_wire::answer::Answer;
use room_wire::incoming::{Body, Incoming};
use room_wire::{Scratch, read_request, reply_text};
use std::alloc::Global;
use std::sync::Wait;

// Replies to a text before a hello.
pub(crate) fn greet<R: Rooms, W: Wait>(
    alloc: Global,
    rt: &W,
    rooms: &mut R,
    caller: &Caller,
    text: &str,
    scratch: &mut Scratch,
) -> Result<Next, Memory>
    ensures text { (said : Result Incoming Bad) × GivesMessage said (spells text.now) × MatchResult result
        (λ next. Begins caller.now (R.known rooms.old) (only next.texts) next.state (R.known rooms.new) said)
        (λ _. EndsFirst caller.now (R.known rooms.old) (R.known rooms.new) said) }
    ensures keeps { KeepsKnown (R.known rooms.old) (R.known rooms.new) }
    ensures kept { R.kept rooms.new ≡ R.kept rooms.old }
    ensures runs { IfOk result (λ next. IsRunOn next.state (R.known rooms.new)) }
{
    match read_request(alloc, text, scratch) {
        Ok(message) => begin(alloc, rt, rooms, caller, message),
        Err(bad) => refuse(alloc, caller, bad.id, &Answer::Fault(bad.fault)),
    }
}

// Replies to a message before a hello.
fn begin<R: Rooms, W: Wait>(
    alloc: Global,
    rt: &W,
    rooms: &mut R,
    caller: &Caller,
    message: Incoming,
) -> Result<Next, Memory>
    ensures message { MatchResult result
        (λ next. BeginsBy caller.now (R.known rooms.old) (only next.texts) next.state (R.known rooms.new)
        message.id message.body)
        (λ _. (due : Sent) × (next : State)
        × BeginsBy caller.now (R.known rooms.old) due next (R.known rooms.new) message.id message.body) }
    ensures keeps { KeepsKnown (R.known rooms.old) (R.known rooms.new) }
    ensures kept { R.kept rooms.new ≡ R.kept rooms.old }
    ensures runs { IfOk result (λ next. IsRunOn next.state (R.known rooms.new)) }
{
    let id = message.id;
    match &message.body {
        Body::Hello { room, name } => match caller.greet(name) {
            Ok(speaker) => match rooms.find(room.as_str()) {
                Some(room) => welcome(alloc, rt, rooms, caller, id, room, &speaker),
                None => refuse(alloc, caller, id, &Answer::NoRoom),
            },
            Err(barred) => bar(alloc, caller, id, &barred),
        },
        Body::Change(_) | Body::Get(_) | Body::Map | Body::Undos => {
            refuse(alloc, caller, id, &Answer::NoHello)
        }
    }
}

// Replies to a hello to the room at position `room`.
fn welcome<R: Rooms, W: Wait>(
    alloc: Global,
    rt: &W,
    rooms: &mut R,
    caller: &Caller,
    id: u64,
    room: usize,
    speaker: &Speaker,
) -> Result<Next, Memory>
    requires { HasRoom (R.known rooms.old) room }
    ensures ok { IfOk result
        (λ next. Greets caller.now (R.known rooms.old) (only next.texts) next.state (R.known rooms.new)
        id speaker.now (Some room)) }
    ensures err { OnErr result ((reply : RoomReply Global)
        × AnswersCall (R.known rooms.old) room calls.Rows reply (R.known rooms.new)) }
    ensures keeps { KeepsKnown (R.known rooms.old) (R.known rooms.new) }
    ensures kept { R.kept rooms.new ≡ R.kept rooms.old }
    ensures runs { IfOk result (λ next. IsRunOn next.state (R.known rooms.new)) }
{
    match rooms.turn(rt, room, RoomCall::Rows) {
        RoomReply::Rows(Ok((front, rows))) => {
            let rows = &rows;
            let texts = one(alloc, id, &Answer::Map { rows, front })?;
            let told = front;
            let state = State::Open {
                room,
                speaker: *speaker,
                told,
            };
            Ok(Next { texts, state })
        }
        _ => refuse(alloc, caller, id, &Answer::Memory),
    }
}

// Refuses a hello, and leaves the session before its hello.
fn bar(alloc: Global, caller: &Caller, id: u64, barred: &Barred) -> Result<Next, Memory>
    ensures { IfOk result (λ next. Refuses caller.now (only next.texts) next.state (barred_text id barred.now)) }
{
    match barred {
        Barred::WrongName(name) => refuse(alloc, caller, id, &Answer::WrongName(name.as_str())),
        Barred::NoName => refuse(alloc, caller, id, &Answer::NoName),
    }
}

// Sends an answer, and leaves the session before its hello.
fn refuse(alloc: Global, caller: &Caller, id: u64, answer: &Answer<'_>) -> Result<Next, Memory>
    ensures { IfOk result (λ next. Refuses caller.now (only next.texts) next.state (answer_text id answer.now)) }
{
    let texts = one(alloc, id, answer)?;
    let state = State::BeforeHello(*caller);
    Ok(Next { texts, state })
}

// Returns a list of one text, the answer's.
fn one(alloc: Global, id: u64, answer: &Answer<'_>) -> Result<Texts, Memory>
    ensures { IfOk result (λ texts. texts ≡ answer_text id answer.now ∷ []) }
{
    let mut texts = Texts::empty(alloc);
    texts.push(reply_text(alloc, id, answer)?)?;
    Ok(texts)
}
