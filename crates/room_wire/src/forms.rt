//! The fields of a message, each read by its form.
ghost use Rattle.std.specs.Prelude.{◌≡◌, IfSome, option_map};
ghost use Rattle.room_interface.specs.Prelude.{result_map_both, name_with};
ghost use Rattle.json_values.specs.Views.{items_view, view};
ghost use Rattle.room_wire.specs.News.{object_at};
ghost use Rattle.room_wire.specs.Reading.{Gives, or_fault};
ghost use Rattle.room_wire.specs.Spelling.{text_at, name_at, author_at, el_at, place_of, place_at, name_item, names_in, els_at, distance_at, lat_at, lon_at, node_of, nodes_in, nodes_at, member_with, member_in, member_of, members_in, members_at, text_of, seq_at, since_at, fault_in};
ghost use Rattle.room_wire.specs.declared.bad.Fault.TheVariants.{BadField};
ghost use Rattle.osm_elements.specs.declared.name.Kind.TheVariants as kind;
ghost use Rattle.room_wire.specs.declared.field.Field.TheVariants as field;

use crate::bad::Fault;
use crate::field::Field;
use crate::fields::{items_at, text_at, value_at};
use crate::numbers::{count_in, ordinal};
use json_values::{Value, look};
use osm_coords::{Lat, Lon};
use osm_elements::fault::TextFault;
use osm_elements::member::Member;
use osm_elements::members::Members;
use osm_elements::name::{Kind, Name};
use osm_elements::names::Names;
use osm_elements::nodes::Nodes;
use osm_elements::shared::Shared;
use osm_elements::text::Text;
use room_interface::author::Author;
use std::alloc::Global;

// Reads the name of the element that a message is about.
pub fn el_of(message: &Value<'_>) -> Result<Name, Fault>
    ensures { result ≡ el_at (view message.now) }
{
    name_at(message, Field::El)
}

// Reads the name of an element.
pub fn name_at(message: &Value<'_>, field: Field) -> Result<Name, Fault>
    ensures { result ≡ name_at field (view message.now) }
{
    text_at(message, field)
        .and_then(Name::read)
        .ok_or(Fault::BadField(field))
}

// Reads the name of an author or of a room, which have the same form.
pub fn author_at(message: &Value<'_>, field: Field) -> Result<Author, Fault>
    ensures { result ≡ author_at field (view message.now) }
{
    text_at(message, field)
        .and_then(Author::read)
        .ok_or(Fault::BadField(field))
}

// Reads the position at which a way is split or unglued.
pub fn place_at(message: &Value<'_>) -> Result<u32, Fault>
    ensures { result ≡ place_at (view message.now) }
{
    value_at(message, Field::At)
        .and_then(place_of)
        .ok_or(Fault::BadField(Field::At))
}

// Returns a whole number in `0..=4294967295`.
fn place_of(value: &Value<'_>) -> Option<u32>
    ensures { result ≡ place_of (view value.now) }
{
    let place = look::unsigned(value)?;
    if place <= u32::MAX as u64 {
        Some(place as u32)
    } else {
        None
    }
}

// Reads the names of elements.
pub fn els_of(alloc: Global, message: &Value<'_>) -> Result<Names<Global>, Fault>
    ensures { Gives result (els_at (view message.now)) }
{
    let items = items_at(message, Field::Els).ok_or(Fault::BadField(Field::Els))?;
    names_in(alloc, items)
}

// Reads each item as a name.
fn names_in(alloc: Global, items: &[Value<'_>]) -> Result<Names<Global>, Fault>
    ensures { Gives result (or_fault (BadField field.Els) (names_in (items_view items.now))) }
{
    let mut names = Names::with_capacity(alloc, items.len())?;
    for item in items {
        match name_item(item) {
            Some(name) => names.push(name)?,
            None => return Err(Fault::BadField(Field::Els)),
        }
    }
    Ok(names)
}

// Reads a string as a name.
fn name_item(item: &Value<'_>) -> Option<Name>
    ensures { result ≡ name_item (view item.now) }
{
    look::text(item).and_then(Name::read)
}

// Reads the distance of a move to the north or to the east.
pub fn distance_of(message: &Value<'_>, field: Field) -> Result<i64, Fault>
    ensures { result ≡ distance_at field (view message.now) }
{
    value_at(message, field)
        .and_then(look::signed)
        .ok_or(Fault::BadField(field))
}

// Reads a node's latitude.
pub fn lat_of(message: &Value<'_>) -> Result<Lat, Fault>
    ensures { result ≡ lat_at (view message.now) }
{
    text_at(message, Field::Lat)
        .and_then(Lat::read)
        .ok_or(Fault::BadField(Field::Lat))
}

// Reads a node's longitude.
pub fn lon_of(message: &Value<'_>) -> Result<Lon, Fault>
    ensures { result ≡ lon_at (view message.now) }
{
    text_at(message, Field::Lon)
        .and_then(Lon::read)
        .ok_or(Fault::BadField(Field::Lon))
}

// Reads the nodes of a way.
pub fn nodes_of(alloc: Global, message: &Value<'_>) -> Result<Shared<Nodes<Global>, Global>, Fault>
    ensures { Gives result (nodes_at (view message.now)) }
{
    let items = items_at(message, Field::Nodes).ok_or(Fault::BadField(Field::Nodes))?;
    Ok(Shared::new(alloc, nodes_in(alloc, items)?)?)
}

// Reads each item as the id of a node.
fn nodes_in(alloc: Global, items: &[Value<'_>]) -> Result<Nodes<Global>, Fault>
    ensures { Gives result (or_fault (BadField field.Nodes) (nodes_in (items_view items.now))) }
{
    let mut nodes = Nodes::with_capacity(alloc, items.len())?;
    for item in items {
        match node_of(item) {
            Some(node) => nodes.push(node)?,
            None => return Err(Fault::BadField(Field::Nodes)),
        }
    }
    Ok(nodes)
}

// Reads a number as the id of a node.
fn node_of(item: &Value<'_>) -> Option<Name>
    ensures value { result ≡ node_of (view item.now) }
    ensures kind { IfSome result (λ n. n.kind ≡ kind.Node) }
{
    look::signed(item).and_then(node_with)
}

// Returns the node with this id, unless the id is 0.
fn node_with(id: i64) -> Option<Name>
    ensures value { result ≡ name_with kind.Node id }
    ensures kind { IfSome result (λ n. n.kind ≡ kind.Node) }
{
    Name::new(Kind::Node, id)
}

// Reads the members of a relation.
pub fn members_of(
    alloc: Global,
    message: &Value<'_>,
) -> Result<Shared<Members<Global>, Global>, Fault>
    ensures { Gives result (members_at (view message.now)) }
{
    let items = items_at(message, Field::Members).ok_or(Fault::BadField(Field::Members))?;
    Ok(Shared::new(alloc, members_in(alloc, items)?)?)
}

// Reads each item as a member, which has a name and a role.
fn members_in(alloc: Global, items: &[Value<'_>]) -> Result<Members<Global>, Fault>
    ensures { Gives result (or_fault (BadField field.Members) (members_in (items_view items.now))) }
{
    let mut members = Members::with_capacity(alloc, items.len())?;
    for item in items {
        let (name, role) = member_of(alloc, item)?;
        members.push(Member::new(name, role))?;
    }
    Ok(members)
}

// Reads the name and the role of a member.
fn member_of(alloc: Global, item: &Value<'_>) -> Result<(Name, Text<Global>), Fault>
    ensures { Gives result (or_fault (BadField field.Members) (member_of (view item.now))) }
{
    let items = look::items(item).ok_or(Fault::BadField(Field::Members))?;
    member_in(alloc, items)
}

// Reads two items as a name and a role.
fn member_in(alloc: Global, items: &[Value<'_>]) -> Result<(Name, Text<Global>), Fault>
    ensures { Gives result (or_fault (BadField field.Members) (member_in (items_view items.now))) }
{
    if items.len() != 2 {
        return Err(Fault::BadField(Field::Members));
    }
    member_with(alloc, &items[0], &items[1])
}

// Reads two strings as a name and a role.
fn member_with(
    alloc: Global,
    name: &Value<'_>,
    role: &Value<'_>,
) -> Result<(Name, Text<Global>), Fault>
    ensures { Gives result (or_fault (BadField field.Members) (member_with (view name.now) (view role.now))) }
{
    let name = name_item(name).ok_or(Fault::BadField(Field::Members))?;
    let role = look::text(role).ok_or(Fault::BadField(Field::Members))?;
    let role = text_of(alloc, Field::Members, role)?;
    Ok((name, role))
}

// Reads the number of an entry, which may be missing.
pub fn seq_of(message: &Value<'_>) -> Result<Option<u64>, Fault>
    ensures { result ≡ seq_at (view message.now) }
{
    match value_at(message, Field::Seq) {
        None => Ok(None),
        Some(value) => match ordinal(value) {
            Some(seq) => Ok(Some(seq)),
            None => Err(Fault::BadField(Field::Seq)),
        },
    }
}

// Reads how many entries the author of an edit had seen, which may be missing.
pub fn since_of(message: &Value<'_>) -> Result<Option<u64>, Fault>
    ensures { result ≡ since_at (view message.now) }
{
    match value_at(message, Field::Since) {
        None => Ok(None),
        Some(value) => match count_in(value) {
            Some(since) => Ok(Some(since)),
            None => Err(Fault::BadField(Field::Since)),
        },
    }
}

// Copies a role.
pub fn text_of(alloc: Global, field: Field, text: &str) -> Result<Text<Global>, Fault>
    ensures { Gives result (or_fault (BadField field) (text_of text.now)) }
{
    Text::new(alloc, text).map_err(|fault| fault_in(field, fault))
}

// Returns the message's fault for a fault of a text or a tag in a field.
pub fn fault_in(field: Field, fault: TextFault) -> Fault
    ensures { result ≡ fault_in field fault }
{
    match fault {
        TextFault::Memory => Fault::Memory,
        TextFault::TextTooLong | TextFault::EmptyKey | TextFault::TooManyTags => {
            Fault::BadField(field)
        }
    }
}

// Returns a field that must be an object.
pub fn object_at<'v, 'a>(message: &'v Value<'a>, field: Field) -> Result<&'v Value<'a>, Fault>
    ensures { result_map_both (λ v. view v.now) (λ f. f) result ≡ object_at field (view message.now) }
{
    match value_at(message, field) {
        Some(value) if look::is_object(value) => Ok(value),
        _ => Err(Fault::BadField(field)),
    }
}
