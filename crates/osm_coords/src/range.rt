//! The range of a coordinate, on plain numbers.
ghost use Rattle.std.specs.Prelude.{◌≡◌, ◌<◌, ◌^◌, ◌+ℤ◌};
ghost use Rattle.osm_coords.specs.Range.{value_within};

/// Returns `units` if they lie in `-limit..=limit`, otherwise `None`.
pub fn value_within(limit: u32, units: i64) -> Option<i32>
    requires { limit < 2 ^ 31 }
    ensures { result ≡ value_within limit units }
{
    if units.unsigned_abs() <= u64::from(limit) {
        Some(units as i32)
    } else {
        None
    }
}

/// Returns the sum of `units` and `by` if it lies in `-limit..=limit`, otherwise `None`.
pub fn moved(limit: u32, units: i32, by: i64) -> Option<i32>
    requires { limit < 2 ^ 31 }
    ensures { result ≡ value_within limit (units +ℤ by) }
{
    value_within(limit, i64::from(units).checked_add(by)?)
}
