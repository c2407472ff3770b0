//! Replies in an open session.
ghost use Rattle.std.specs.Prelude.{◌≡◌, ◌≤◌, ℕ, List, IfOk, MatchResult, Result, length};
ghost use Rattle.room_wire.specs.Prelude.{asked, GivesMessage, spells};
ghost use Rattle.room_session.specs.Events.{only, Asks, AsksIfAny, BreaksOff, GoesOn, Replies, RepliesTo, RepliesToWatcher};
ghost use Rattle.room_session.specs.Rooms.{KeepsKnown, HasRoom};
ghost use Rattle.room_session.specs.Running.{IsRunOn};
ghost use Rattle.room_wire.specs.declared.bad.Bad.{Bad};
ghost use Rattle.room_wire.specs.declared.incoming.Incoming.{Incoming};

use crate::caller::Speaker;
use crate::news::catch_up;
use crate::next::Next;
use crate::rooms::Rooms;
use crate::sent::Texts;
use osm_elements::Memory;
use room_interface::ask::RoomCall;
use room_interface::author::Author;
use room_wire::answer::Answer;
use room_wire::incoming::{Body, Incoming};
use room_wire::json_text::Json;
use room_wire::{Scratch, read_request, reply_text};
use std::alloc::Global;
use std::sync::Wait;

// Replies to a text in an open session, and sends the news.
pub(crate) fn reply_and_news<R: Rooms, W: Wait>(
    alloc: Global,
    rt: &W,
    rooms: &mut R,
    room: usize,
    speaker: &Speaker,
    told: u64,
    text: &str,
    scratch: &mut Scratch,
) -> Result<Next, Memory>
    requires room { HasRoom (R.known rooms.old) room }
    requires told { told ≤ length ((R.known rooms.old).at room).seen }
    ensures text { (said : Result Incoming Bad) × GivesMessage said (spells text.now) × MatchResult result
        (λ next. GoesOn (R.known rooms.old) (only next.texts) next.state (R.known rooms.new) room speaker.now told said)
        (λ _. BreaksOff (R.known rooms.old) (R.known rooms.new) room speaker.now told said) }
    ensures keeps { KeepsKnown (R.known rooms.old) (R.known rooms.new) }
    ensures kept { R.kept rooms.new ≡ R.kept rooms.old }
    ensures runs { IfOk result (λ next. IsRunOn next.state (R.known rooms.new)) }
{
    let reply = reply(alloc, rt, rooms, room, speaker, text, scratch)?;
    let mut texts = Texts::empty(alloc);
    texts.push(reply)?;
    catch_up(alloc, rt, rooms, room, speaker, told, texts)
}

// Returns the reply to a text. If the reply's allocation fails, the room may already have been asked.
fn reply<R: Rooms, W: Wait>(
    alloc: Global,
    rt: &W,
    rooms: &mut R,
    room: usize,
    speaker: &Speaker,
    text: &str,
    scratch: &mut Scratch,
) -> Result<Json, Memory>
    requires { HasRoom (R.known rooms.old) room }
    ensures text { (said : Result Incoming Bad) × GivesMessage said (spells text.now) × (due : List ℕ)
        × Replies (R.known rooms.old) room speaker.now said due (R.known rooms.new) × IfOk result (λ json. json ≡ due) }
    ensures keeps { KeepsKnown (R.known rooms.old) (R.known rooms.new) }
    ensures kept { R.kept rooms.new ≡ R.kept rooms.old }
{
    match read_request(alloc, text, scratch) {
        Ok(Incoming { id, body }) => reply_to(alloc, rt, rooms, room, speaker, id, body),
        Err(bad) => reply_text(alloc, bad.id, &Answer::Fault(bad.fault)),
    }
}

// Returns the reply to a message, after asking the room in one turn if the message asks it anything.
fn reply_to<R: Rooms, W: Wait>(
    alloc: Global,
    rt: &W,
    rooms: &mut R,
    room: usize,
    speaker: &Speaker,
    id: u64,
    body: Body,
) -> Result<Json, Memory>
    requires { HasRoom (R.known rooms.old) room }
    ensures body { (due : List ℕ) × RepliesTo (R.known rooms.old) room speaker.now id body due (R.known rooms.new)
        × IfOk result (λ json. json ≡ due) }
    ensures keeps { KeepsKnown (R.known rooms.old) (R.known rooms.new) }
    ensures kept { R.kept rooms.new ≡ R.kept rooms.old }
{
    match speaker {
        Speaker::Author(author) => reply_to_author(alloc, rt, rooms, room, author, id, body),
        Speaker::Watcher => reply_to_watcher(alloc, rt, rooms, room, id, &body),
    }
}

// Returns the reply to a message of an author.
fn reply_to_author<R: Rooms, W: Wait>(
    alloc: Global,
    rt: &W,
    rooms: &mut R,
    room: usize,
    author: &Author,
    id: u64,
    body: Body,
) -> Result<Json, Memory>
    requires { HasRoom (R.known rooms.old) room }
    ensures body { (due : List ℕ)
        × AsksIfAny (R.known rooms.old) room id (asked author.now id body) due (R.known rooms.new)
        × IfOk result (λ json. json ≡ due) }
    ensures keeps { KeepsKnown (R.known rooms.old) (R.known rooms.new) }
    ensures kept { R.kept rooms.new ≡ R.kept rooms.old }
{
    let Some(call) = body.into_call(*author, id) else {
        return reply_text(alloc, id, &Answer::HelloTwice);
    };
    ask(alloc, rt, rooms, room, id, call)
}

// Returns the reply to a message of a watcher.
fn reply_to_watcher<R: Rooms, W: Wait>(
    alloc: Global,
    rt: &W,
    rooms: &mut R,
    room: usize,
    id: u64,
    body: &Body,
) -> Result<Json, Memory>
    requires { HasRoom (R.known rooms.old) room }
    ensures body { (due : List ℕ) × RepliesToWatcher (R.known rooms.old) room id body.now due (R.known rooms.new)
        × IfOk result (λ json. json ≡ due) }
    ensures keeps { KeepsKnown (R.known rooms.old) (R.known rooms.new) }
    ensures kept { R.kept rooms.new ≡ R.kept rooms.old }
{
    match body {
        Body::Get(name) => ask(alloc, rt, rooms, room, id, RoomCall::Get(*name)),
        Body::Map => ask(alloc, rt, rooms, room, id, RoomCall::Rows),
        Body::Hello { .. } => reply_text(alloc, id, &Answer::HelloTwice),
        Body::Change(_) => reply_text(alloc, id, &Answer::NoName),
        Body::Undos => reply_text(alloc, id, &Answer::NoName),
    }
}

// Asks the room in one turn, and returns the reply to the message.
fn ask<R: Rooms, W: Wait>(
    alloc: Global,
    rt: &W,
    rooms: &mut R,
    room: usize,
    id: u64,
    call: RoomCall<Global>,
) -> Result<Json, Memory>
    requires { HasRoom (R.known rooms.old) room }
    ensures asks { (due : List ℕ) × Asks (R.known rooms.old) room id call due (R.known rooms.new)
        × IfOk result (λ json. json ≡ due) }
    ensures keeps { KeepsKnown (R.known rooms.old) (R.known rooms.new) }
    ensures kept { R.kept rooms.new ≡ R.kept rooms.old }
{
    let reply = rooms.turn(rt, room, call);
    reply_text(alloc, id, &Answer::to(&reply))
}
