//! Latitudes.
ghost use Rattle.std.specs.Prelude.{◌≡◌, ◌≤◌, ◌+ℤ◌, take, drop};
ghost use Rattle.std.specs.Str.{IsAscii};
ghost use Rattle.osm_coords.specs.Latitude.{latitude, latitude_of, IsLatitude};
ghost use Rattle.osm_coords.specs.Written.{written};

use crate::{COORDINATE_LENGTH, decimal, range};
use std::marker::Model;

/// 90 degrees, in ten-millionths of a degree.
const LIMIT: u32 = 900_000_000;

/// A latitude: whole ten-millionths of a degree, from -90 to 90 degrees.
///
/// Contracts model it as that whole number.
#[derive(Clone, Copy, Debug, PartialEq, Eq, PartialOrd, Ord, Hash)]
pub struct Lat {
    ten_millionths: i32,
}

impl Model for Lat {
    ghost use Rattle.std.specs.Prelude.{ℤ};
    ghost use Rattle.osm_coords.specs.Latitude.{IsLatitude};

    ghost Value = { ℤ };

    ghost view = { λ a. a.ten_millionths };

    ghost invariant = { λ a. IsLatitude a.ten_millionths };

    ghost inverse = { λ z. record { ten_millionths = z } };
}

impl Lat {
    /// Returns the latitude of `ten_millionths` of a degree, or `None` if the number is out of range.
    pub fn new(ten_millionths: i32) -> Option<Lat>
        ensures { result ≡ latitude ten_millionths }
    {
        let ten_millionths = range::value_within(LIMIT, i64::from(ten_millionths))?;
        Some(Lat { ten_millionths })
    }

    /// Returns the latitude in ten-millionths of a degree.
    pub fn value(self) -> i32
        ensures value { result ≡ self }
        ensures range { IsLatitude result }
    {
        self.ten_millionths
    }

    /// Reads a latitude from a text, for example `51.5`, `-0.0000001` or `007.5`.
    ///
    /// Returns `None` if the value is out of range, or if the text does not have a coordinate's form. For example,
    /// `+5`, `.5`, `5.`, ` 5` and texts with eight decimals do not have this form.
    pub fn read(text: &str) -> Option<Lat>
        ensures { result ≡ latitude_of text.now }
    {
        let ten_millionths = range::value_within(LIMIT, decimal::read(text)?)?;
        Some(Lat { ten_millionths })
    }

    /// Writes the latitude as a text to the start of the buffer, and returns the text's length in bytes, at most 12.
    ///
    /// The text is a `-` if the value is negative, the degrees without a needless leading zero, a point, and exactly
    /// seven digits. The rest of the buffer is unchanged.
    #[tactic(auto, using(crate::proofs::ReadBack::written_is_ascii))]
    pub fn write(&self, buffer: &mut [u8; COORDINATE_LENGTH]) -> usize
        ensures fits { result ≤ 12 }
        ensures text { take result buffer.new ≡ written self.now }
        ensures ascii { IsAscii (take result buffer.new) }
        ensures rest { drop result buffer.new ≡ drop result buffer.old }
    {
        decimal::write(self.ten_millionths, buffer)
    }

    /// Returns the sum of the latitude and `by` ten-millionths of a degree, or `None` if the sum is out of range.
    pub fn moved(self, by: i64) -> Option<Lat>
        ensures { result ≡ latitude (self +ℤ by) }
    {
        let ten_millionths = range::moved(LIMIT, self.ten_millionths, by)?;
        Some(Lat { ten_millionths })
    }
}
