//! Facts that types keep, and that the premises of laws require of plain values.
//!
//! Each function proves such a fact of a value that a program has. It only looks at the value.
ghost use Rattle.std.specs.Prelude.{◌≡◌, All, IfSome, true};
ghost use Rattle.room_wire.specs.Prelude.{names_of, is_made_request, HasId};
ghost use Rattle.room_history.specs.Journals.{numbered};
ghost use Rattle.room_mirror.specs.Clients.{HasEditIds, HasIds, HasRequestIds, IsBrought, IsBroughtCall};

use osm_elements::map::{OsmMap, Row, Rows};
use osm_elements::name::Name;
use room_history::entry::{Entry, EntryKind};
use room_history::room::Room;
use room_interface::action::Action;
use room_interface::call::{Call, Request};
use room_interface::each_action;
use room_interface::edit::{Edit, keeps_values};
use std::alloc::Global;

// Proves that the subjects of an action have ids that fit, from the list of the actions.
macro_rules! subjects_have_ids {
    (($action:expr) $($variant:ident $word:literal { $($field:ident: $how:ident from $source:ident $(by $name:ident)?),* } by $plan:ident about $part:ident $way:ident [$($subject:ident),*];)*) => {
        match $action {
            $(Action::$variant { $($subject,)* .. } => {
                $(have_ids!($way $subject);)*
            })*
        }
    };
}

// Proves that a subject has an id that fits, or each subject of a list.
macro_rules! have_ids {
    (names $name:ident) => { name_has_id($name) };
    (each $names:ident) => { names_have_ids($names.as_slice()) };
}

/// Proves that the id of a name fits an `i64`.
pub fn name_has_id(name: &Name)
    ensures { HasId name.now }
{
    let _ = name.id();
}

/// Proves that the ids of names fit an `i64`.
pub fn names_have_ids(names: &[Name])
    ensures { All HasId names.now }
{
    for name in names {
        name_has_id(name);
    }
}

/// Proves that the ids of a map's names fit an `i64`.
pub fn map_has_ids(map: &OsmMap<Global>)
    ensures { All HasId (names_of map.now) }
{
    for (name, _) in map.iter() {
        name_has_id(name);
    }
}

/// Proves that the ids of the names of rows fit an `i64`. A room can begin with such rows.
pub fn rows_have_ids(rows: &Rows<Global>)
    ensures { All HasId (names_of rows.now) }
{
    each_has_id(rows.as_slice());
}

// Proves it of each row.
fn each_has_id(rows: &[Row<Global>])
    ensures { All (λ r. HasId r.name) rows.now }
{
    for row in rows {
        name_has_id(&row.name);
    }
}

/// Proves that the ids of an action's subjects fit an `i64`.
pub fn action_has_ids(action: &Action<Global>)
    ensures { HasIds action.now }
{
    each_action!(subjects_have_ids(action))
}

// Proves it of each action.
fn actions_have_ids(actions: &[Action<Global>])
    ensures { All HasIds actions.now }
{
    for action in actions {
        action_has_ids(action);
    }
}

/// Proves that the ids of the subjects of an edit's actions fit an `i64`.
pub fn edit_has_ids(edit: &Edit<Global>)
    ensures { HasEditIds edit.now }
{
    match edit {
        Edit::One(action) => action_has_ids(action),
        Edit::Group(actions) => actions_have_ids(actions.as_slice()),
    }
}

// Proves that a request's values are made, and that the ids of its actions' subjects fit an `i64`.
fn request_has_ids(request: &Request<Global>)
    ensures made { is_made_request request.now ≡ true }
    ensures ids { HasRequestIds request.now }
{
    if let Request::Do { edit, .. } = request {
        keeps_values(edit);
        edit_has_ids(edit);
    }
}

/// Proves that a call can come from a message: its author has an author's name, its values are made, and the ids of its
/// actions' subjects fit an `i64`.
pub fn call_is_brought(call: &Call<Global>)
    ensures { IsBroughtCall call.now }
{
    let _ = call.author.as_bytes();
    request_has_ids(&call.request);
}

/// Proves that an entry can come from a message: its author has an author's name, and the ids of its actions' subjects
/// fit an `i64`.
pub fn entry_is_brought(entry: &Entry<Global>)
    ensures { IsBrought entry.now }
{
    let _ = entry.author.as_bytes();
    if let EntryKind::Do(edit) = &entry.kind {
        edit_has_ids(edit);
    }
}

/// Proves that all entries of a room can come from messages.
pub fn entries_are_brought(room: &Room<Global>)
    ensures { All IsBrought room.now.journal }
{
    for place in 0..room.front() {
        numbered_is_brought(room, place + 1);
    }
}

// Proves it of the entry with a number, if there is one.
fn numbered_is_brought(room: &Room<Global>, seq: u64)
    ensures { IfSome (numbered room.now.journal seq) IsBrought }
{
    if let Some(entry) = room.entry(seq) {
        entry_is_brought(entry);
    }
}
