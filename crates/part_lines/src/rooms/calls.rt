//! The calls that are made to rooms here.
use osm_coords::{Lat, Lon};
use osm_elements::element::Element;
use osm_elements::name::{Kind, Name};
use osm_elements::shared_tags::SharedTags;
use room_interface::action::Action;
use room_interface::ask::RoomCall;
use room_interface::author::Author;
use room_interface::call::{Call, Request};
use room_interface::edit::Edit;
use std::alloc::Global;
use std::io::{self, ErrorKind};

/// Returns the author with a name.
pub fn author(name: &str) -> io::Result<Author> {
    Author::read(name).ok_or(ErrorKind::InvalidInput.into())
}

/// Returns the name of a node.
pub fn node(id: i64) -> io::Result<Name> {
    Name::new(Kind::Node, id).ok_or(ErrorKind::InvalidInput.into())
}

/// Returns the call of an author to create a node with this name at the coordinates 0 and 0.
pub fn creation(alloc: Global, author: Author, id: u64, name: Name) -> Option<Call<Global>> {
    let lat = Lat::new(0)?;
    let lon = Lon::new(0)?;
    let tags = SharedTags::empty();
    let element = Element::Node { lat, lon, tags };
    let edit = Edit::One(Action::Create { name, element });
    let since = None;
    Some(call(author, id, Request::Do { edit, since }))
}

/// Returns the same call for a node id, which is not 0.
pub fn create(alloc: Global, author: Author, id: u64, name: i64) -> io::Result<Call<Global>> {
    creation(alloc, author, id, node(name)?).ok_or(ErrorKind::InvalidInput.into())
}

/// Returns a call of an author.
pub fn call(author: Author, id: u64, request: Request<Global>) -> Call<Global> {
    Call {
        author,
        id,
        request,
    }
}

/// Returns a call of an author as a call to a room.
pub fn take(author: Author, id: u64, request: Request<Global>) -> RoomCall<Global> {
    RoomCall::Take(call(author, id, request))
}
