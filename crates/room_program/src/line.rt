//! Answering a line by a room.
ghost use Rattle.std.specs.Prelude.{◌≡◌, ◌⊎◌, ℕ, Some, None, IfOk, MatchOption, length};
ghost use Rattle.room_server.specs.Prelude.{author_of, undos, redos, mapof, found_answer, answer_text, to_value, GivesMessage, id_told};
ghost use Rattle.room_wire.specs.declared.incoming.Body.TheVariants.{Change, Get, Map, Undos};
ghost use Rattle.osm_elements.specs.Rows.{row_at};
ghost use Rattle.room_program.specs.LineAnswers.{said, spelled, body_answer, message_answer, answered};
ghost use Rattle.room_program.specs.LineReplies.{IsReply};
ghost use Rattle.room_wire.specs.declared.answer.Answer.TheVariants as answers;

use crate::answerer::Answerer;
use memchr::memchr;
use osm_elements::Memory;
use osm_elements::name::Name;
use room_history::room::Room;
use room_interface::author::Author;
use room_interface::call::{Call, Request};
use room_wire::answer::Answer;
use room_wire::bad::{Bad, Fault};
use room_wire::incoming::{Body, Incoming};
use room_wire::json_text::Json;
use room_wire::{Scratch, map_text, read_request, reply_text};
use std::alloc::Global;
use std::str;

impl Answerer for Room<Global> {
    ghost answered = { answered };

    fn answer(
        &mut self,
        alloc: Global,
        line: &[u8],
        scratch: &mut Scratch,
    ) -> Result<Json, Memory> {
        match split_author(line) {
            Some(said) => answer_message(alloc, self, said.author, said.message, scratch),
            None => reply_text(alloc, 0, &Answer::BadLine),
        }
    }
}

// A line of an author.
#[derive(Clone, Copy)]
struct Said<'a> {
    author: Author,
    message: &'a [u8],
}

// Splits a line into the author's name before the first space, and the message after it.
fn split_author(line: &[u8]) -> Option<Said<'_>>
    ensures { MatchOption result (said line.now ≡ None)
        (λ parts. said line.now ≡ Some (parts.author, parts.message.now)) }
{
    let space = memchr(b' ', line)?;
    let author = read_author(&line[..space])?;
    let message = &line[space + 1..];
    Some(Said { author, message })
}

// Reads bytes as an author's name.
fn read_author(name: &[u8]) -> Option<Author>
    ensures { result ≡ author_of name.now }
{
    match str::from_utf8(name) {
        Ok(name) => Author::read(name),
        Err(_) => None,
    }
}

// Reads bytes as a message.
fn read_message(alloc: Global, bytes: &[u8], scratch: &mut Scratch) -> Result<Incoming, Bad>
    ensures { GivesMessage result (spelled bytes.now) }
{
    match str::from_utf8(bytes) {
        Ok(text) => read_request(alloc, text, scratch),
        Err(_) => Err(Bad::unread(Fault::NotJson)),
    }
}

// Answers an author's message.
fn answer_message(
    alloc: Global,
    room: &mut Room<Global>,
    author: Author,
    message: &[u8],
    scratch: &mut Scratch,
) -> Result<Json, Memory>
    ensures { IfOk result (λ text. IsReply (message_answer room.old author (spelled message.now))
        (id_told (spelled message.now)) room.old text room.new) }
{
    match read_message(alloc, message, scratch) {
        Ok(Incoming { id, body }) => answer_body(alloc, room, author, id, body),
        Err(bad) => reply_text(alloc, bad.id, &Answer::Fault(bad.fault)),
    }
}

// Answers what a message asks for.
fn answer_body(
    alloc: Global,
    room: &mut Room<Global>,
    author: Author,
    id: u64,
    body: Body,
) -> Result<Json, Memory>
    ensures { IfOk result (λ text. IsReply (body_answer room.old author id body)
        id room.old text room.new) }
{
    match body {
        Body::Change(request) => answer_change(alloc, room, author, id, request),
        Body::Get(name) => answer_get(alloc, room, id, name),
        Body::Map => answer_map(alloc, room, id),
        Body::Undos => answer_undos(alloc, room, author, id),
        Body::Hello { .. } => reply_text(alloc, id, &Answer::HelloTwice),
    }
}

fn answer_change(
    alloc: Global,
    room: &mut Room<Global>,
    author: Author,
    id: u64,
    request: Request<Global>,
) -> Result<Json, Memory>
    ensures { IfOk result (λ text. IsReply (body_answer room.old author id (Change request))
        id room.old text room.new) }
{
    let reply = room.take(Call {
        author,
        id,
        request,
    });
    reply_text(alloc, id, &Answer::Reply(&reply))
}

fn answer_get(alloc: Global, room: &Room<Global>, id: u64, name: Name) -> Result<Json, Memory>
    ensures { IfOk result (λ text. text ≡ answer_text id (found_answer name
        (row_at (mapof room.now.base room.now.journal) name))) }
{
    reply_text(alloc, id, &Answer::found(name, room.get(&name)))
}

fn answer_map(alloc: Global, room: &Room<Global>, id: u64) -> Result<Json, Memory>
    ensures { IfOk result (λ text. text ≡ answer_text id (answers.Map
        (to_value (mapof room.now.base room.now.journal)) (length room.now.journal))) }
{
    map_text(alloc, id, room.map(), room.front())
}

fn answer_undos(alloc: Global, room: &Room<Global>, author: Author, id: u64) -> Result<Json, Memory>
    ensures { IfOk result (λ text. text ≡ answer_text id (answers.Undos
        (to_value (undos room.now.journal author)) (to_value (redos room.now.journal author)))) }
{
    let undos = room.undos(&author);
    let redos = room.redos(&author);
    reply_text(alloc, id, &Answer::Undos { undos, redos })
}
