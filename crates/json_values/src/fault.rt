//! Refusals of a text.
ghost use Rattle.std.specs.Prelude.{◌≡◌, ◌≢◌};
ghost use Rattle.json.specs.declared.error.Error.TheVariants as errors;
ghost use Rattle.json_values.specs.declared.fault.Fault.TheVariants as faults;

use json::Error as JsonError;
use std::alloc::{AllocError, AllocFailed};
use thiserror::Error;

/// The reason why a text could not be read.
#[derive(Clone, Copy, Debug, PartialEq, Eq, Error)]
pub enum Fault {
    /// The text is not JSON, nests deeper than 127, or has a number that is too large for a float.
    #[error("the text is no JSON")]
    NotJson,
    /// The text is JSON, but not an object.
    #[error("the text is no object")]
    NotObject,
    /// An allocation failed.
    #[error("out of memory")]
    Memory,
}

impl From<AllocError> for Fault {
    ghost from_gives = { λ _ fault. fault ≡ faults.Memory };

    fn from(_error: AllocError) -> Fault {
        Fault::Memory
    }
}

impl<T: Drop> From<AllocFailed<T>> for Fault {
    ghost from_gives = { λ _ fault. fault ≡ faults.Memory };

    fn from(_error: AllocFailed<T>) -> Fault {
        Fault::Memory
    }
}

impl From<JsonError> for Fault {
    ghost from_gives = { λ e fault. (e ≡ errors.OutOfMemory → fault ≡ faults.Memory)
        × (e ≢ errors.OutOfMemory → fault ≡ faults.NotJson) };

    fn from(error: JsonError) -> Fault {
        match error {
            JsonError::OutOfMemory => Fault::Memory,
            _ => Fault::NotJson,
        }
    }
}
