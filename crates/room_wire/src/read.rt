//! Reading messages from their texts.
ghost use Rattle.std.specs.Prelude.{◌≡◌, ◌⊎◌, ◌<◌, length, Some, None, Err, IfOk, OnOk, IfErr, is_some, true};
ghost use Rattle.serde_json.specs.Data.{Data};
ghost use Rattle.serde_json.specs.Find.{as_object};
ghost use Rattle.serde_json.specs.Read.{read};
ghost use Rattle.room_interface.specs.Prelude.{result_map_both};
ghost use Rattle.json_values.specs.Views.{view};
ghost use Rattle.room_wire.specs.declared.bad.Fault.TheVariants.{Memory, NotJson, NotObject};
ghost use Rattle.room_wire.specs.Reading.{Gives, GivesMessage, under};
ghost use Rattle.room_wire.specs.Spelling.{spells, incoming, id_at, body_at, body_by, change_by, edit_by, is_edit_word, hello_at, word_at, action_at, action_by, element_at};

use crate::bad::{Bad, Fault};
use crate::field::Field;
use crate::forms::{
    author_at, distance_of, el_of, els_of, lat_of, lon_of, members_of, name_at, nodes_of, place_at,
    seq_of, since_of,
};
use crate::group::group_of;
use crate::incoming::{Body, Incoming};
use crate::numbers::ordinal;
use crate::tag_forms::{given_tags_of, tags_of};
use json_values::{Scratch, Value, look, read_object};
use osm_elements::element::Element;
use osm_elements::name::Kind;
use room_interface::action::Action;
use room_interface::call::Request;
use room_interface::each_action;
use room_interface::edit::Edit;
use std::alloc::Global;

// Reads the action of a word, with the action's fields.
macro_rules! read_by {
    (($alloc:expr, $word:expr, $message:expr) $($variant:ident $text:literal { $($field:ident: $how:ident from $source:ident $(by $name:ident)?),* } by $plan:ident about $part:ident $way:ident [$($subject:ident),*];)*) => {
        match $word {
            $($text => {
                $(let $field = field!($source ($alloc, $message) $($name)?)?;)*
                Ok(Action::$variant { $($field),* })
            })*
            _ => Err(Fault::UnknownDo),
        }
    };
}

// Returns whether a word is `group` or the word of an action.
macro_rules! is_one_of {
    (($word:expr) $($variant:ident $text:literal { $($field:ident: $how:ident from $source:ident $(by $name:ident)?),* } by $plan:ident about $part:ident $way:ident [$($subject:ident),*];)*) => {
        match $word {
            "group" $(| $text)* => true,
            _ => false,
        }
    };
}

// Reads a field of an action.
macro_rules! field {
    (el ($alloc:expr, $message:expr)) => { el_of($message) };
    (els ($alloc:expr, $message:expr)) => { els_of($alloc, $message) };
    (element ($alloc:expr, $message:expr) $name:ident) => { element_of($alloc, $name.kind(), $message) };
    (given_tags ($alloc:expr, $message:expr)) => { given_tags_of($alloc, $message) };
    (nodes ($alloc:expr, $message:expr)) => { nodes_of($alloc, $message) };
    (members ($alloc:expr, $message:expr)) => { members_of($alloc, $message) };
    (dlat ($alloc:expr, $message:expr)) => { distance_of($message, Field::Dlat) };
    (dlon ($alloc:expr, $message:expr)) => { distance_of($message, Field::Dlon) };
    (at ($alloc:expr, $message:expr)) => { place_at($message) };
    (into ($alloc:expr, $message:expr)) => { name_at($message, Field::Into) };
    (with ($alloc:expr, $message:expr)) => { name_at($message, Field::With) };
}

/// Reads a JSON text as a message (RFC 8259), or returns its first fault.
///
/// The text is an object. Its `id` is a whole number in `1..=9007199254740991`, and its `do` a word of this project's
/// protocol:
///
/// | `do` | Fields, in the order in which they are read |
/// |---|---|
/// | `create` | `el`; for a node `lat` and `lon`, for a way `nodes`, for a relation `members`; then `tags`, if any |
/// | `retag` | `el`, `tags` |
/// | `move` | `els`, `dlat`, `dlon` |
/// | `nodes` | `el`, `nodes` |
/// | `members` | `el`, `members` |
/// | `reverse`, `delete`, `purge`, `get` | `el` |
/// | `split`, `unglue` | `el`, `at`, `into` |
/// | `join`, `merge` | `el`, `with` |
/// | `group` | `actions`; then of each action its `do`, one of the twelve above, and that word's fields |
/// | `undo` | `seq`, which may be missing |
/// | `redo`, `undos`, `map` | none |
/// | `hello` | `room`, `name` |
///
/// The first field of a message with an action or a group is `since`, which may be missing.
///
/// - `el`, `into` and `with`: the name of an element
/// - `els`: an array of names of elements, which may be empty
/// - `at`: a whole number in `0..=4294967295`
/// - `lat` and `lon`: strings that [`osm_coords`] reads
/// - `nodes`: an array of whole numbers, each an `i64` other than 0
/// - `members`: an array of arrays of two strings, the name of an element and a role of at most 255 characters, which
///   may be empty
/// - `tags`: an object of keys of 1 to 255 characters, whose values are strings of at most 255 characters
///   (OpenStreetMap wiki, "Elements"), at most 1,000 keys (a limit of this project). In a `retag`, a value may also be
///   `null`, which removes the key
/// - `dlat` and `dlon`: whole numbers, each an `i64`, in ten-millionths of a degree
/// - `seq`: a number of the form of `id`
/// - `since`: a whole number in `0..=9007199254740991`
/// - `room` and `name`: strings of 1 to 32 characters of `a-z`, `0-9` and `_`
/// - `actions`: an array of 1 to 10,000 objects
///
/// A whole number is written without a point and an exponent, fits 64 bits, and is not `-0`. If several members have
/// the same key, the last one counts. `null` is a value. Members that no message has are ignored.
///
/// The time is linear in the length of the text, except that tags are sorted by their keys. `scratch` is reusable memory,
/// which grows to the length of the longest text.
///
/// # Errors
///
/// `NotJson`, `NotObject` and `BadId` come under the id 0, and the later faults under the id of the message.
///
/// - `NotJson`, if the text is not JSON that nests at most 127 deep.
/// - `NotObject`, if it is not an object.
/// - `BadId`, if `id` is missing or malformed.
/// - `UnknownDo`, if `do` is missing or not a word of the protocol.
/// - `BadField` with the first field that is missing or malformed.
/// - `UnknownAction` or `BadActionField`, for the first fault of an action of a group, with its position from 0.
/// - `Memory` instead of any other result, if an allocation fails. The id is that of the message if it was read before,
///   and otherwise 0.
pub fn read_request(alloc: Global, text: &str, scratch: &mut Scratch) -> Result<Incoming, Bad>
    ensures exact { GivesMessage result (spells text.now) }
    ensures memory { IfErr result (λ bad. bad.fault ≡ Memory → 0 < length text.now) }
{
    let message = parse(alloc, text, scratch).map_err(Bad::unread)?;
    let id = id_of(&message).map_err(Bad::unread)?;
    incoming_of(alloc, id, &message)
}

// Reads a text as an object.
#[tactic(auto, using(crate::proofs::Empty::read_is_filled))]
pub fn parse<'a>(alloc: Global, text: &'a str, scratch: &'a mut Scratch) -> Result<Value<'a>, Fault>
    ensures ok { IfOk result (λ o. read text.now ≡ Some (view o)) }
    ensures object { IfOk result (λ o. is_some (as_object (view o)) ≡ true) }
    ensures filled { OnOk result (0 < length text.now) }
    ensures err { IfErr result (λ f. (f ≡ Memory) ⊎ ((f ≡ NotJson) × (read text.now ≡ None))
        ⊎ ((f ≡ NotObject) × (d : Data) × (read text.now ≡ Some d) × (as_object d ≡ None))) }
    ensures memory { IfErr result (λ f. f ≡ Memory → 0 < length text.now) }
{
    Ok(read_object(alloc, text, scratch)?)
}

// Reads the id of a message, which is an object.
pub fn id_of(message: &Value<'_>) -> Result<u64, Fault>
    requires { is_some (as_object (view message.now)) ≡ true }
    ensures { result ≡ id_at (view message.now) }
{
    look::field(message, "id")
        .and_then(ordinal)
        .ok_or(Fault::BadId)
}

// Reads what a message asks for, under its id.
fn incoming_of(alloc: Global, id: u64, message: &Value<'_>) -> Result<Incoming, Bad>
    ensures exact { GivesMessage result (under incoming id (body_at (view message.now))) }
{
    match body_of(alloc, message) {
        Ok(body) => Ok(Incoming { id, body }),
        Err(fault) => Err(Bad { id, fault }),
    }
}

// Reads what a message asks for.
fn body_of(alloc: Global, message: &Value<'_>) -> Result<Body, Fault>
    ensures { Gives result (body_at (view message.now)) }
{
    body_by(alloc, word_of(message)?, message)
}

// Returns the word of a message.
fn word_of<'a>(message: &Value<'a>) -> Result<&'a str, Fault>
    ensures { result_map_both (λ w. w.now) (λ f. f) result ≡ word_at (view message.now) }
{
    look::field(message, "do")
        .and_then(look::text)
        .ok_or(Fault::UnknownDo)
}

// Reads what a message with this word asks for.
fn body_by(alloc: Global, word: &str, message: &Value<'_>) -> Result<Body, Fault>
    ensures { Gives result (body_by word.now (view message.now)) }
{
    match word {
        "hello" => hello_of(message),
        "undo" => Ok(Body::Change(Request::Undo(seq_of(message)?))),
        "redo" => Ok(Body::Change(Request::Redo)),
        "undos" => Ok(Body::Undos),
        "get" => Ok(Body::Get(el_of(message)?)),
        "map" => Ok(Body::Map),
        _ if is_edit_word(word) => change_by(alloc, word, message),
        _ => Err(Fault::UnknownDo),
    }
}

// Returns whether a word is that of an edit.
fn is_edit_word(word: &str) -> bool
    ensures { result ≡ is_edit_word word.now }
{
    each_action!(is_one_of(word))
}

// Reads the change that a message with the word of an edit asks for.
fn change_by(alloc: Global, word: &str, message: &Value<'_>) -> Result<Body, Fault>
    ensures { Gives result (change_by word.now (view message.now)) }
{
    let since = since_of(message)?;
    let edit = edit_by(alloc, word, message)?;
    Ok(Body::Change(Request::Do { edit, since }))
}

// Reads the edit that a message with this word asks for.
fn edit_by(alloc: Global, word: &str, message: &Value<'_>) -> Result<Edit<Global>, Fault>
    ensures { Gives result (edit_by word.now (view message.now)) }
{
    match word {
        "group" => Ok(Edit::Group(group_of(alloc, message)?)),
        _ => Ok(Edit::One(action_by(alloc, word, message)?)),
    }
}

// Reads the room and the author of a hello.
fn hello_of(message: &Value<'_>) -> Result<Body, Fault>
    ensures { Gives result (hello_at (view message.now)) }
{
    let room = author_at(message, Field::Room)?;
    let name = author_at(message, Field::Name)?;
    Ok(Body::Hello { room, name })
}

// Reads the action that an object asks for.
pub fn action_of(alloc: Global, object: &Value<'_>) -> Result<Action<Global>, Fault>
    ensures { Gives result (action_at (view object.now)) }
{
    action_by(alloc, word_of(object)?, object)
}

// Reads the action that a message with this word asks for. Its fields are read in the order of the list of actions, up
// to the first fault.
fn action_by(alloc: Global, word: &str, message: &Value<'_>) -> Result<Action<Global>, Fault>
    ensures { Gives result (action_by word.now (view message.now)) }
{
    each_action!(read_by(alloc, word, message))
}

// Reads the element of a `create`, by the kind of its name.
pub fn element_of(alloc: Global, kind: Kind, message: &Value<'_>) -> Result<Element<Global>, Fault>
    ensures { Gives result (element_at kind (view message.now)) }
{
    match kind {
        Kind::Node => {
            let lat = lat_of(message)?;
            let lon = lon_of(message)?;
            let tags = tags_of(alloc, message)?;
            Ok(Element::Node { lat, lon, tags })
        }
        Kind::Way => {
            let nodes = nodes_of(alloc, message)?;
            let tags = tags_of(alloc, message)?;
            Ok(Element::Way { nodes, tags })
        }
        Kind::Relation => {
            let members = members_of(alloc, message)?;
            let tags = tags_of(alloc, message)?;
            Ok(Element::Relation { members, tags })
        }
    }
}
