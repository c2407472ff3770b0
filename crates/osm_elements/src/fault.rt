//! Refusals of texts and tags.
ghost use Rattle.std.specs.Prelude.{◌≡◌};
ghost use Rattle.osm_elements.specs.declared.fault.TextFault.TheVariants.{Memory};

use std::alloc::{AllocError, AllocFailed};
use thiserror::Error;

/// The reason why a text was not made or a tag was not set.
#[derive(Clone, Copy, Debug, PartialEq, Eq, Error)]
pub enum TextFault {
    /// The text has more than 255 Unicode characters, this project's limit.
    #[error("a text has at most 255 characters")]
    TextTooLong,
    /// The key is empty, which this project does not allow.
    #[error("a key has at least one character")]
    EmptyKey,
    /// The key is new, and there are already 1,000 tags, this project's limit.
    #[error("an element has at most 1,000 tags")]
    TooManyTags,
    /// An allocation failed.
    #[error("out of memory")]
    Memory,
}

impl From<AllocError> for TextFault {
    ghost from_gives = { λ _ e. e ≡ Memory };

    fn from(_error: AllocError) -> TextFault {
        TextFault::Memory
    }
}

impl<T: Drop> From<AllocFailed<T>> for TextFault {
    ghost from_gives = { λ _ e. e ≡ Memory };

    fn from(_error: AllocFailed<T>) -> TextFault {
        TextFault::Memory
    }
}
