//! Reading an array of rows whose names rise.
ghost use Rattle.std.specs.Prelude.{◌≡◌, true, map, IfOk, option_and_then, option_map};
ghost use Rattle.serde_json.specs.Find.{as_array, get};
ghost use Rattle.room_interface.specs.Prelude.{result_map_both, result_ok, are_rising};
ghost use Rattle.json_values.specs.Views.{items_view, view};
ghost use Rattle.room_wire.specs.declared.bad.Fault.TheVariants.{BadField};
ghost use Rattle.room_wire.specs.Fields.{field_text};
ghost use Rattle.room_wire.specs.Lists.{in_list, row_at, rows_at, rows_in};
ghost use Rattle.room_wire.specs.Reading.{Gives, or_fault};

use crate::bad::Fault;
use crate::field::Field;
use crate::fields::items_at;
use crate::forms::el_of;
use crate::read::element_of;
use crate::rising::{Named, are_rising};
use json_values::Value;
use osm_elements::map::Row;
use std::alloc::{AllocError, Global};

// A row that is read from an item of an array.
pub trait Listed: Named + Drop {
    ghost use Rattle.std.specs.Prelude.{Result};
    ghost use Rattle.serde_json.specs.Data.{Data};
    ghost use Rattle.room_wire.specs.declared.bad.Fault.{Fault};

    ghost reads: { Data → Result Self Fault };

    fn read(alloc: Global, item: &Value<'_>) -> Result<Self, Fault>
        ensures { Gives result (reads (view item.now)) };
}

// A row of a map is an element with its name.
impl Listed for Row<Global> {
    ghost reads = { row_at };

    fn read(alloc: Global, item: &Value<'_>) -> Result<Row<Global>, Fault> {
        let name = el_of(item)?;
        let element = element_of(alloc, name.kind(), item)?;
        Ok(Row { name, element })
    }
}

// Reads a field of rows whose names rise.
pub fn rows_of<T: Listed>(alloc: Global, field: Field, message: &Value<'_>) -> Result<Vec<T>, Fault>
    ensures read { Gives (result_map_both (λ v. v.items) (λ f. f) result)
        (rows_at T.reads T.named field (view message.now)) }
    ensures rising { IfOk result (λ v. are_rising (map T.named v.items) ≡ true) }
{
    let items = items_at(message, field).ok_or(Fault::BadField(field))?;
    let rows = rows_in::<T>(alloc, field, items)?;
    if are_rising(&rows) {
        Ok(rows)
    } else {
        Err(Fault::BadField(field))
    }
}

// Reads each item as a row.
fn rows_in<T: Listed>(alloc: Global, field: Field, items: &[Value<'_>]) -> Result<Vec<T>, Fault>
    ensures { Gives (result_map_both (λ v. v.items) (λ f. f) result)
        (or_fault (BadField field) (rows_in T.reads T.named (items_view items.now))) }
{
    let mut rows = Vec::new(alloc);
    for item in items {
        let row = row_in::<T>(alloc, field, item)?;
        match rows.push(row) {
            Ok(()) => {}
            Err(error) => return Err(AllocError::from(error).into()),
        }
    }
    Ok(rows)
}

// Reads an item as a row. A fault of the row is a fault of its list.
fn row_in<T: Listed>(alloc: Global, field: Field, item: &Value<'_>) -> Result<T, Fault>
    ensures { Gives result (or_fault (BadField field) (result_ok (T.reads (view item.now)))) }
{
    match T::read(alloc, item) {
        Ok(row) => Ok(row),
        Err(fault) => Err(in_list(field, fault)),
    }
}

// Returns the fault of a list for a fault inside the list.
fn in_list(field: Field, fault: Fault) -> Fault
    ensures { result ≡ in_list field fault }
{
    match fault {
        Fault::Memory => Fault::Memory,
        _ => Fault::BadField(field),
    }
}
