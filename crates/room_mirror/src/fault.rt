//! Refusals of news.
use thiserror::Error;

/// The reason why a mirror refuses news.
#[derive(Clone, Copy, Debug, PartialEq, Eq, Error)]
pub enum MirrorFault {
    /// The news do not have the next number.
    #[error("news {got} came where {want} were due")]
    Gap {
        /// The expected number: one more than the mirror's, or the mirror's own if that is the greatest `u64`.
        want: u64,
        /// The number of the news.
        got: u64,
    },
    /// The names of the news do not rise, or the mirror already has one of their rows: the same element, or no element
    /// for a removed row.
    #[error("the news do not fit the map")]
    Mismatch,
    /// An allocation failed.
    #[error("out of memory")]
    Memory,
}
