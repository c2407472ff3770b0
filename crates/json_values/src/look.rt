//! Looks into a value that was read. A value that is of another kind than asked gives `None`.
ghost use Rattle.std.specs.Prelude.{◌≡◌, IfOk, is_some, option_and_then, option_map};
ghost use Rattle.json_values.specs.Views.{items_view, members_view, view};
ghost use Rattle.serde_json.specs.Find.{as_array, as_bool, as_i64, as_null, as_number, as_object, as_str, as_u64, get};

use crate::number::number_of;
use json::Value;
use std::alloc::{AllocError, Global};
use std::collections::BTreeMap;

/// Returns the value of a key, if the value is an object that has the key. The time is linear in the number of members.
pub fn field<'v, 'a>(value: &'v Value<'a>, key: &str) -> Option<&'v Value<'a>>
    ensures { option_map (λ v. view v.now) result ≡ get key.now (view value.now) }
{
    value.get(key)
}

/// Returns the text of a string.
pub fn text<'a>(value: &Value<'a>) -> Option<&'a str>
    ensures { option_map (λ t. t.now) result ≡ as_str (view value.now) }
{
    value.as_str()
}

/// Returns a whole number that fits a `u64`.
pub fn unsigned(value: &Value<'_>) -> Option<u64>
    ensures { result ≡ option_and_then as_u64 (as_number (view value.now)) }
{
    number_of(value.as_number()?)?.as_u64()
}

/// Returns a whole number that fits an `i64`.
pub fn signed(value: &Value<'_>) -> Option<i64>
    ensures { result ≡ option_and_then as_i64 (as_number (view value.now)) }
{
    number_of(value.as_number()?)?.as_i64()
}

/// Returns a truth value.
pub fn boolean(value: &Value<'_>) -> Option<bool>
    ensures { result ≡ as_bool (view value.now) }
{
    value.as_bool()
}

/// Returns whether the value is `null`.
pub fn is_null(value: &Value<'_>) -> bool
    ensures { result ≡ is_some (as_null (view value.now)) }
{
    value.is_null()
}

/// Returns whether the value is an object.
pub fn is_object(value: &Value<'_>) -> bool
    ensures { result ≡ is_some (as_object (view value.now)) }
{
    match value {
        Value::Object(_) => true,
        _ => false,
    }
}

/// Returns the items of an array.
pub fn items<'v, 'a>(value: &'v Value<'a>) -> Option<&'v [Value<'a>]>
    ensures { option_map (λ items. items_view items.now) result ≡ as_array (view value.now) }
{
    match value {
        Value::Array(items) => Some(items),
        _ => None,
    }
}

/// The members of an object, each key once, in the order of the keys' bytes.
pub type Members<'v, 'a> = BTreeMap<&'a str, &'v Value<'a>>;

/// Returns the members of an object. If members have the same key, the last one counts. The time is linear in the
/// number of members, times a logarithm.
///
/// # Errors
///
/// `AllocError`, if an allocation fails.
pub fn members<'v, 'a>(
    alloc: Global,
    value: &'v Value<'a>,
) -> Result<Option<Members<'v, 'a>>, AllocError>
    ensures { IfOk result (λ ms. option_map (λ m. members_view m.entries) ms ≡ as_object (view value.now)) }
{
    let Value::Object(members) = value else {
        return Ok(None);
    };
    let mut found = BTreeMap::new(alloc);
    'members: for member in members {
        let _ = found.insert(member.0, &member.1)?;
    }
    Ok(Some(found))
}
