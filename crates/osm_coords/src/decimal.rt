//! Degrees as decimal texts, on plain numbers of ten-millionths.
ghost use Rattle.std.specs.Prelude.{◌≡◌, ◌≤◌, pos, unsigned_abs, length, take, drop};
ghost use Rattle.std.specs.Option.{option_map};
ghost use Rattle.osm_coords.specs.Coordinate.{numeral, fraction, magnitude, coordinate};
ghost use Rattle.osm_coords.specs.Written.{last_digits, digit_count, written};

/// The number of ten-millionths in a degree.
const UNITS_PER_DEGREE: u32 = 10_000_000;

/// The most digits in front of the point.
const WHOLE_DIGITS: usize = 3;

/// The most digits after the point.
const DECIMALS: usize = 7;

/// The length in bytes of the longest text of a coordinate, for example `-180.0000000`.
pub const COORDINATE_LENGTH: usize = 12;

/// Reads a text as ten-millionths of a degree. Returns `None` if the text does not have a coordinate's form.
#[tactic(auto, using(crate::proofs::Numerals::coordinate_without_minus))]
pub fn read(text: &str) -> Option<i64>
    ensures { result ≡ coordinate text.now }
{
    match text.strip_prefix('-') {
        Some(unsigned) => Some(-magnitude(unsigned)?),
        None => magnitude(text),
    }
}

/// Reads a text without a sign.
fn magnitude(text: &str) -> Option<i64>
    ensures { result ≡ option_map pos (magnitude text.now) }
{
    let (whole, part) = match text.split_once('.') {
        Some((whole, digits)) => (whole, fraction(digits)?),
        None => (text, 0),
    };
    let degrees = numeral(whole, WHOLE_DIGITS)?;
    Some(i64::from(degrees) * i64::from(UNITS_PER_DEGREE) + i64::from(part))
}

/// Reads the digits after the point.
#[tactic(auto, using(crate::proofs::Numerals::fraction_by_numeral))]
fn fraction(digits: &str) -> Option<u32>
    ensures { result ≡ fraction digits.now }
{
    let value = numeral(digits, DECIMALS)?;
    let missing = DECIMALS - digits.len();
    Some(value * 10_u32.pow(missing as u32))
}

/// Reads a text of one to `most` ASCII digits as a number. Returns `None` for any other text.
#[tactic(auto, using(crate::proofs::Numerals::numeral_parsed, crate::proofs::Numerals::numeral_of_plus, crate::proofs::Numerals::numeral_of_long))]
fn numeral(text: &str, most: usize) -> Option<u32>
    requires { most ≤ 9 }
    ensures { result ≡ numeral most text.now }
{
    // `parse` would accept a plus sign.
    if text.len() > most || text.starts_with('+') {
        return None;
    }
    text.parse().ok()
}

/// Writes the text of a coordinate to the start of the buffer, and returns its length in bytes.
pub fn write(units: i32, buffer: &mut [u8; COORDINATE_LENGTH]) -> usize
    requires { unsigned_abs units ≤ 1800000000 }
    ensures fits { result ≤ 12 }
    ensures text { take result buffer.new ≡ written units }
    ensures rest { drop result buffer.new ≡ drop result buffer.old }
{
    let magnitude = units.unsigned_abs();
    let degrees = magnitude / UNITS_PER_DEGREE;
    let start = usize::from(units < 0);
    let point = start + digit_count(degrees);
    let end = point + 1 + DECIMALS;
    if units < 0 {
        buffer[0] = b'-';
    }
    write_digits(&mut buffer[start..point], degrees);
    buffer[point] = b'.';
    write_digits(&mut buffer[point + 1..end], magnitude % UNITS_PER_DEGREE);
    end
}

/// Returns how many digits a whole number of degrees below 1000 has.
fn digit_count(degrees: u32) -> usize
    ensures { result ≡ digit_count degrees }
{
    match degrees {
        0..=9 => 1,
        10..=99 => 2,
        _ => 3,
    }
}

/// Fills the whole slice with the last digits of `number`.
fn write_digits(digits: &mut [u8], mut number: u32)
    ensures { digits.new ≡ last_digits (length digits.old) number }
{
    for i in (0..digits.len()).rev() {
        digits[i] = b'0' + (number % 10) as u8;
        number /= 10;
    }
}
