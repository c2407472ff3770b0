//! The failure of a stream.
use thiserror::Error;

/// A stream failed. The reason is not reported.
#[derive(Clone, Copy, Debug, PartialEq, Eq, Error)]
#[error("the stream failed")]
pub struct Failed;
