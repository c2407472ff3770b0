//! The whole numbers in messages.
ghost use Rattle.std.specs.Prelude.{◌≡◌};
ghost use Rattle.json_values.specs.Views.{view};
ghost use Rattle.room_wire.specs.Spelling.{count_of, ordinal};

use json_values::{Value, look};

// The greatest whole number that has the same value for every reader of JSON: 2^53 - 1.
const GREATEST_NUMBER: u64 = 9_007_199_254_740_991;

// Returns a whole number in `1..=9007199254740991`.
pub fn ordinal(value: &Value<'_>) -> Option<u64>
    ensures { result ≡ ordinal (view value.now) }
{
    let number = look::unsigned(value)?;
    if 1 <= number && number <= GREATEST_NUMBER {
        Some(number)
    } else {
        None
    }
}

// Returns a whole number in `0..=9007199254740991`.
pub fn count_in(value: &Value<'_>) -> Option<u64>
    ensures { result ≡ count_of (view value.now) }
{
    let count = look::unsigned(value)?;
    if count <= GREATEST_NUMBER {
        Some(count)
    } else {
        None
    }
}
