//! The latitude and the longitude of an OpenStreetMap node.
//!
//! A latitude lies in -90 to 90 degrees and a longitude in -180 to 180, both kept to seven decimals (OpenStreetMap
//! wiki, "Node"). So a coordinate is a whole number of ten-millionths of a degree: [`Lat`] holds a number in
//! `-900000000..=900000000`, and [`Lon`] a number in `-1800000000..=1800000000`.
//!
//! The text of a coordinate is an optional `-`, one to three ASCII digits, and optionally a `.` and one to seven
//! digits, and nothing else.
//!
//! No function of this crate allocates, rounds, wraps or clamps. A value out of range, or a text without this form,
//! gives `None`. There is no `FromStr`, because its error would say no more than `None`, and no `Display`.
#![tactic(auto)]

mod decimal;
mod latitude;
pub mod laws;
mod longitude;
mod range;

pub use decimal::COORDINATE_LENGTH;
pub use latitude::Lat;
pub use longitude::Lon;
