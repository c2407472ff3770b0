//! What a message asks of its room, and the answer to it.
ghost use Rattle.std.specs.Prelude.{◌≡◌, option_copied};
ghost use Rattle.room_wire.specs.Asked.{answer_to, asked, found_answer};
ghost use Rattle.room_wire.specs.Trees.{AreToldAlike};

use crate::answer::Answer;
use crate::incoming::Body;
use osm_elements::element::Element;
use osm_elements::name::Name;
use room_interface::ask::{RoomCall, RoomReply};
use room_interface::author::Author;
use room_interface::call::Call;
use std::alloc::Global;

impl Body {
    /// Returns the call that an author's message under this id makes to its room, or `None` for a hello.
    pub fn into_call(self, author: Author, id: u64) -> Option<RoomCall<Global>>
        ensures { result ≡ asked author id self }
    {
        match self {
            Body::Hello { .. } => None,
            Body::Change(request) => Some(RoomCall::Take(Call {
                author,
                id,
                request,
            })),
            Body::Get(name) => Some(RoomCall::Get(name)),
            Body::Map => Some(RoomCall::Rows),
            Body::Undos => Some(RoomCall::Undos(author)),
        }
    }
}

impl<'a> Answer<'a> {
    /// Returns the answer to a request for the element of a name, whether it was found or not.
    pub fn found(name: Name, element: Option<&'a Element<Global>>) -> Answer<'a>
        ensures { AreToldAlike result (found_answer name (option_copied element.entry)) }
    {
        match element {
            Some(element) => Answer::Is { name, element },
            None => Answer::Absent(name),
        }
    }

    /// Returns the answer to a message, from the room's reply to the message's call. It is `Memory` if the room ran out
    /// of memory, or if the reply has news, which no message asks for.
    pub fn to(reply: &'a RoomReply<Global>) -> Answer<'a>
        ensures { AreToldAlike result (answer_to reply.now) }
    {
        match reply {
            RoomReply::Take(reply) => Answer::Reply(reply),
            RoomReply::Get(name, Ok(found)) => Answer::found(*name, found.as_ref()),
            RoomReply::Rows(Ok((front, rows))) => Answer::Map {
                rows,
                front: *front,
            },
            RoomReply::Undos(Ok(lists)) => Answer::Undos {
                undos: lists.undos.as_slice(),
                redos: lists.redos.as_slice(),
            },
            _ => Answer::Memory,
        }
    }
}
