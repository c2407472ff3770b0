//! The value of a whole JSON text.
ghost use Rattle.std.specs.Prelude.{◌≡◌, ◌<◌, Err, IfOk, None, Some, is_some, length, true};
ghost use Rattle.json_values.specs.Views.{view};
ghost use Rattle.json_values.specs.declared.fault.Fault.TheVariants.{Memory, NotJson, NotObject};
ghost use Rattle.serde_json.specs.Data.{Data};
ghost use Rattle.serde_json.specs.Find.{as_object};
ghost use Rattle.serde_json.specs.Read.{read};

use crate::fault::Fault;
use crate::look::is_object;
use crate::range::is_in_range;
use json::{Reader, Scratch, Value};
use std::alloc::Global;

// The deepest nesting of arrays and objects.
const MAX_DEPTH: usize = 127;

/// Reads a JSON text as an object (RFC 8259).
///
/// Strings are borrowed from the text, or from `scratch` if they have escapes. `scratch` grows to the length in bytes of
/// the longest text that is read with it.
///
/// # Errors
///
/// - `NotJson`, if the text is not JSON, nests deeper than 127, or has a number that is too large for a float
/// - `NotObject`, if it is JSON and not an object
/// - `Memory`, if an allocation fails
pub fn read_object<'a>(
    alloc: Global,
    text: &'a str,
    scratch: &'a mut Scratch,
) -> Result<Value<'a>, Fault>
    ensures ok { IfOk result (λ v. read text.now ≡ Some (view v)) }
    ensures object { IfOk result (λ v. is_some (as_object (view v)) ≡ true) }
    ensures not_json { result ≡ Err NotJson → read text.now ≡ None }
    ensures not_object { result ≡ Err NotObject → (d : Data) × (read text.now ≡ Some d) × (as_object d ≡ None) }
    ensures memory { result ≡ Err Memory → 0 < length text.now }
{
    let mut reader = Reader::new(text, scratch)?;
    let value = Value::read(alloc, &mut reader, MAX_DEPTH)?;
    if reader.next().is_some() || !is_in_range(&value) {
        return Err(Fault::NotJson);
    }
    if !is_object(&value) {
        return Err(Fault::NotObject);
    }
    Ok(value)
}
