//! Reading welcomes.
ghost use Rattle.std.specs.Prelude.{◌≡◌, ◌<◌, length, true, IfErr, IfOk};
ghost use Rattle.room_interface.specs.Prelude.{AreInOrder, are_of_kinds};
ghost use Rattle.json_values.specs.Views.{view};
ghost use Rattle.room_wire.specs.declared.bad.Fault.TheVariants.{Memory};
ghost use Rattle.room_wire.specs.Reading.{Gives, GivesUnder, under};
ghost use Rattle.room_wire.specs.Welcomes.{count_at, map_at, spells_welcome, told_at, welcome};

use crate::bad::{Bad, Fault};
use crate::field::Field;
use crate::fields::value_at;
use crate::forms::object_at;
use crate::listed::rows_of;
use crate::numbers::count_in;
use crate::read::{id_of, parse};
use json_values::{Scratch, Value};
use osm_elements::map::{Row, Rows};
use std::alloc::Global;

/// The reply to a hello to an existing room: the room's map, and the entry count of its journal.
#[derive(Debug, Drop)]
pub struct Welcome {
    /// The id of the hello.
    pub id: u64,
    /// The entry count of the journal, which is also the number of its last entry.
    pub seq: u64,
    /// The elements of the map after that entry, in name order.
    pub rows: Rows<Global>,
}

/// Reads a JSON text as a welcome (RFC 8259), or returns its first fault.
///
/// The text is an object. Its `id` is a whole number in `1..=9007199254740991`, and its `ok` an object with these
/// members:
///
/// - `map`: an array of elements whose names rise, each with the fields of a `create`, of which `tags` may be missing
/// - `seq`: a whole number in `0..=9007199254740991`
///
/// Other members are ignored.
///
/// # Errors
///
/// - `NotJson` under the id 0, if the text is not JSON that nests at most 127 deep.
/// - `NotObject` under the id 0, if it is not an object.
/// - `BadId` under the id 0, if `id` is missing or malformed.
/// - `BadField` under the id that was read, with the first of `ok`, `map` and `seq` that is missing or malformed. A
///   fault inside an element is a fault of `map`.
/// - `Memory` instead of any other result, if an allocation fails. The id is that of the text if it was read before,
///   and otherwise 0.
pub fn read_welcome(alloc: Global, text: &str) -> Result<Welcome, Bad>
    ensures exact { GivesUnder (λ w. w.id) result (spells_welcome text.now) }
    ensures memory { IfErr result (λ bad. bad.fault ≡ Memory → 0 < length text.now) }
    // A mirror can be made of these rows, and a room can begin with them.
    ensures in_order { IfOk result (λ w. AreInOrder w.rows) }
    ensures kinds { IfOk result (λ w. are_of_kinds w.rows ≡ true) }
{
    let mut scratch = Scratch::new(alloc);
    let reply = parse(alloc, text, &mut scratch).map_err(Bad::unread)?;
    let id = id_of(&reply).map_err(Bad::unread)?;
    welcomed(alloc, id, &reply)
}

// Reads a reply as a welcome, under its id.
fn welcomed(alloc: Global, id: u64, reply: &Value<'_>) -> Result<Welcome, Bad>
    ensures exact { GivesUnder (λ w. w.id) result (under welcome id (told_at (view reply.now))) }
    ensures in_order { IfOk result (λ w. AreInOrder w.rows) }
    ensures kinds { IfOk result (λ w. are_of_kinds w.rows ≡ true) }
{
    match told_of(alloc, reply) {
        Ok((rows, seq)) => Ok(Welcome { id, seq, rows }),
        Err(fault) => Err(Bad { id, fault }),
    }
}

// Reads the elements and the number of a reply.
fn told_of(alloc: Global, reply: &Value<'_>) -> Result<(Rows<Global>, u64), Fault>
    ensures exact { Gives result (told_at (view reply.now)) }
    ensures in_order { IfOk result (λ told. AreInOrder told.0) }
{
    let told = object_at(reply, Field::Ok)?;
    let rows = map_of(alloc, told)?;
    let seq = count_of(told)?;
    Ok((rows, seq))
}

// Reads the elements of a map.
#[tactic(auto, using(crate::proofs::RowsInOrder::rising_is_in_order))]
fn map_of(alloc: Global, told: &Value<'_>) -> Result<Rows<Global>, Fault>
    ensures exact { Gives result (map_at (view told.now)) }
    ensures in_order { IfOk result (λ rows. AreInOrder rows) }
{
    let rows = rows_of::<Row<Global>>(alloc, Field::Map, told)?;
    Ok(Rows::from_vec(rows))
}

// Reads the entry count.
fn count_of(told: &Value<'_>) -> Result<u64, Fault>
    ensures { result ≡ count_at (view told.now) }
{
    value_at(told, Field::Seq)
        .and_then(count_in)
        .ok_or(Fault::BadField(Field::Seq))
}
