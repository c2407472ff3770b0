//! Laws of the texts of coordinates. Each is the contract of a function that does nothing.
ghost use Rattle.std.specs.Prelude.{◌≡◌, ◌≤◌, ◌↔◌, ℕ, ℤ, List, length};
ghost use Rattle.osm_coords.specs.Coordinate.{coordinate};
ghost use Rattle.osm_coords.specs.Examples.{texts_read, texts_refused, ranges_kept, texts_written};
ghost use Rattle.osm_coords.specs.Form.{SaysCoordinate};
ghost use Rattle.osm_coords.specs.Latitude.{latitude_of, IsLatitude};
ghost use Rattle.osm_coords.specs.Longitude.{longitude_of, IsLongitude};
ghost use Rattle.osm_coords.specs.Written.{written};

/// A text is read as a value if and only if it has a coordinate's form and its parts denote that value. The law ties
/// the definition that computes the value to a relation on the text's parts, so the definition does not merely repeat
/// the code.
pub fn exactly_the_form_is_read()
    ensures { (text : List ℕ) (z : ℤ) → (coordinate text ≡ Some z) ↔ SaysCoordinate text z }
{}

/// The text written for a latitude is read back as that latitude.
#[tactic(auto, using(crate::proofs::ReadBack::latitude_read_back))]
pub fn latitude_is_read_back()
    ensures { (z : ℤ) → IsLatitude z → latitude_of (written z) ≡ Some z }
{}

/// The text written for a longitude is read back as that longitude.
#[tactic(auto, using(crate::proofs::ReadBack::longitude_read_back))]
pub fn longitude_is_read_back()
    ensures { (z : ℤ) → IsLongitude z → longitude_of (written z) ≡ Some z }
{}

/// The text of a longitude has at most 12 bytes. So has the text of a latitude, whose range is smaller.
#[tactic(auto, using(crate::proofs::ReadBack::written_fits))]
pub fn written_fits()
    ensures { (z : ℤ) → IsLongitude z → length (written z) ≤ 12 }
{}

/// The definitions agree with examples that were worked out by hand.
pub fn examples_are_as_worked()
    ensures texts_read { texts_read }
    ensures texts_refused { texts_refused }
    ensures ranges_kept { ranges_kept }
    ensures texts_written { texts_written }
{}
