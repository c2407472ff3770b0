//! Numbers in JSON texts.
ghost use Rattle.std.specs.Prelude.{◌≡◌, ◌<◌, ◌==◌, IsTrue, false, length, option_map, slice_index, true};
ghost use Rattle.serde_json.specs.Read.{float_of, number_from, number_of};
ghost use Rattle.serde_json.specs.View.{number_view};

use fast_float::Numeral;
use serde_json::Number;

// Returns the number of a token if it is in range: an integer if it fits 64 bits, otherwise the nearest float.
pub fn number_of(token: &str) -> Option<Number>
    ensures { option_map number_view result ≡ number_of token.now }
{
    let bytes = token.as_bytes();
    if begins_with_minus(bytes) {
        negative(&Numeral::scan(&bytes[1..]))
    } else {
        unsigned(&Numeral::scan(bytes))
    }
}

fn begins_with_minus(bytes: &[u8]) -> bool
    ensures value { result ≡ (slice_index bytes.now 0 == 45) }
    ensures filled { IsTrue result → 0 < length bytes.now }
{
    !bytes.is_empty() && bytes[0] == b'-'
}

// Returns the number with these digits and no sign.
fn unsigned(digits: &Numeral<'_>) -> Option<Number>
    ensures { option_map number_view result ≡ number_from false digits.now }
{
    match digits.to_u64() {
        Some(number) => Some(Number::from(number)),
        None => nearest(false, digits),
    }
}

// Returns the number with these digits and a minus sign. `-0` is a float.
fn negative(digits: &Numeral<'_>) -> Option<Number>
    ensures { option_map number_view result ≡ number_from true digits.now }
{
    match digits.to_i64(true) {
        Some(number) if number < 0 => Some(Number::from(number)),
        _ => nearest(true, digits),
    }
}

// Returns the nearest float if it is finite.
fn nearest(is_negative: bool, digits: &Numeral<'_>) -> Option<Number>
    ensures { option_map number_view result ≡ float_of is_negative digits.now }
{
    Number::from_f64(digits.to_float::<f64>(is_negative))
}
