//! The fields of messages.
ghost use Rattle.std.specs.Prelude.{◌≡◌, option_and_then, option_map};
ghost use Rattle.serde_json.specs.Find.{as_array, get};
ghost use Rattle.json_values.specs.Views.{items_view, view};
ghost use Rattle.room_wire.specs.Fields.{field_text};
ghost use Rattle.room_wire.specs.Spelling.{text_at};

use crate::field::Field;
use json_values::{Value, look};

// Returns the value of a field. Only an object has fields.
pub fn value_at<'v, 'a>(message: &'v Value<'a>, field: Field) -> Option<&'v Value<'a>>
    ensures { option_map (λ v. view v.now) result ≡ get (field_text field) (view message.now) }
{
    look::field(message, field.as_str())
}

// Returns the text of a field, if the field is there and is a string.
pub fn text_at<'a>(message: &Value<'a>, field: Field) -> Option<&'a str>
    ensures { option_map (λ t. t.now) result ≡ text_at field (view message.now) }
{
    value_at(message, field).and_then(look::text)
}

// Returns the items of a field, if the field is there and is an array.
pub fn items_at<'v, 'a>(message: &'v Value<'a>, field: Field) -> Option<&'v [Value<'a>]>
    ensures { option_map (λ items. items_view items.now) result
        ≡ option_and_then as_array (get (field_text field) (view message.now)) }
{
    value_at(message, field).and_then(look::items)
}
