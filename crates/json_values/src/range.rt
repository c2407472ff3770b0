//! Whether the numbers of a value are in range.
ghost use Rattle.std.specs.Prelude.{◌≡◌, is_some};
ghost use Rattle.json.specs.Value.{items_view, members_view, value_view};
ghost use Rattle.serde_json.specs.Data.{no_members};
ghost use Rattle.serde_json.specs.Read.{of_items, of_json, of_members};

use crate::number::number_of;
use json::Value;

// Returns whether each number is an integer of 64 bits or not too large for a float.
#[cycle(in_range)]
pub fn is_in_range(value: &Value<'_>) -> bool
    ensures { result ≡ is_some (of_json (value_view value.now)) }
{
    match value {
        Value::Null | Value::Bool(_) | Value::String(_) => true,
        Value::Number(token) => number_of(token).is_some(),
        Value::Array(items) => items_are_in_range(items),
        Value::Object(members) => members_are_in_range(members),
    }
}

#[cycle(in_range)]
fn items_are_in_range(items: &Vec<Value<'_>>) -> bool
    ensures { result ≡ is_some (of_items (items_view items.now.items)) }
{
    for item in items {
        if !is_in_range(item) {
            return false;
        }
    }
    true
}

#[cycle(in_range)]
fn members_are_in_range(members: &Vec<(&str, Value<'_>)>) -> bool
    ensures { result ≡ is_some (of_members (members_view members.now.items) no_members) }
{
    for member in members {
        if !is_in_range(&member.1) {
            return false;
        }
    }
    true
}
