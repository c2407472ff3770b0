//! Reads JSON texts that are objects (RFC 8259), with working memory that the caller keeps.
//!
//! [`read_object`] reads a text as a [`json::Value`], which borrows its strings from the text. The functions of
//! [`look`] look into such a value. Their contracts say what is found by the data that `serde_json` reads from the same
//! text: a number has a value, and of members with the same key the last one counts.
#![tactic(auto)]

mod fault;
pub mod laws;
pub mod look;
mod number;
mod range;
mod read;

pub use fault::Fault;
pub use json::{Scratch, Value};
pub use read::read_object;
