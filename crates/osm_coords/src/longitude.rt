//! Longitudes.
ghost use Rattle.std.specs.Prelude.{◌≡◌, ◌≤◌, ◌+ℤ◌, take, drop};
ghost use Rattle.std.specs.Str.{IsAscii};
ghost use Rattle.osm_coords.specs.Longitude.{longitude, longitude_of, IsLongitude};
ghost use Rattle.osm_coords.specs.Written.{written};

use crate::{COORDINATE_LENGTH, decimal, range};
use std::marker::Model;

/// 180 degrees, in ten-millionths of a degree.
const LIMIT: u32 = 1_800_000_000;

/// A longitude: whole ten-millionths of a degree, from -180 to 180 degrees.
///
/// Contracts model it as that whole number. Longitudes do not wrap: 180 and -180 are different values, and a move past
/// either end gives `None` ([`Lon::moved`]).
#[derive(Clone, Copy, Debug, PartialEq, Eq, PartialOrd, Ord, Hash)]
pub struct Lon {
    ten_millionths: i32,
}

impl Model for Lon {
    ghost use Rattle.std.specs.Prelude.{ℤ};
    ghost use Rattle.osm_coords.specs.Longitude.{IsLongitude};

    ghost Value = { ℤ };

    ghost view = { λ a. a.ten_millionths };

    ghost invariant = { λ a. IsLongitude a.ten_millionths };

    ghost inverse = { λ z. record { ten_millionths = z } };
}

impl Lon {
    /// Returns the longitude of `ten_millionths` of a degree, or `None` if the number is out of range.
    pub fn new(ten_millionths: i32) -> Option<Lon>
        ensures { result ≡ longitude ten_millionths }
    {
        let ten_millionths = range::value_within(LIMIT, i64::from(ten_millionths))?;
        Some(Lon { ten_millionths })
    }

    /// Returns the longitude in ten-millionths of a degree.
    pub fn value(self) -> i32
        ensures value { result ≡ self }
        ensures range { IsLongitude result }
    {
        self.ten_millionths
    }

    /// Reads a longitude from a text, for example `51.5`, `-0.0000001` or `007.5`.
    ///
    /// Returns `None` if the value is out of range, or if the text does not have a coordinate's form. For example,
    /// `+5`, `.5`, `5.`, ` 5` and texts with eight decimals do not have this form.
    pub fn read(text: &str) -> Option<Lon>
        ensures { result ≡ longitude_of text.now }
    {
        let ten_millionths = range::value_within(LIMIT, decimal::read(text)?)?;
        Some(Lon { ten_millionths })
    }

    /// Writes the longitude as a text to the start of the buffer, and returns the text's length in bytes, at most 12.
    ///
    /// The text is a `-` if the value is negative, the degrees without a needless leading zero, a point, and exactly
    /// seven digits. The rest of the buffer is unchanged.
    #[tactic(auto, using(crate::proofs::ReadBack::written_is_ascii))]
    pub fn write(&self, buffer: &mut [u8; COORDINATE_LENGTH]) -> usize
        ensures fits { result ≤ 12 }
        ensures text { take result buffer.new ≡ written self.now }
        ensures ascii { IsAscii (take result buffer.new) }
        ensures rest { drop result buffer.new ≡ drop result buffer.old }
    {
        decimal::write(self.ten_millionths, buffer)
    }

    /// Returns the sum of the longitude and `by` ten-millionths of a degree, or `None` if the sum is out of range.
    pub fn moved(self, by: i64) -> Option<Lon>
        ensures { result ≡ longitude (self +ℤ by) }
    {
        let ten_millionths = range::moved(LIMIT, self.ten_millionths, by)?;
        Some(Lon { ten_millionths })
    }
}
