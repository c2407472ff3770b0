//! The messages to a room and its replies, as JSON texts (RFC 8259).
//!
//! [`read_request`] reads a message as an [`Incoming`](incoming::Incoming), or returns its first fault
//! ([`Bad`](bad::Bad)). [`reply_text`] writes the reply for an [`Answer`](answer::Answer), and [`map_text`] a reply
//! with a whole map. [`welcome_text`] and [`news_text`] write welcomes and news, and [`read_welcome`] and [`read_news`]
//! read them. The rows of both have rising names, which [`are_rising`](rising::are_rising) tests.
//!
//! The definitions give each text exactly one meaning or one fault. A reader may return `Memory` instead, if an
//! allocation fails. A function that cannot return `Memory` allocates nothing.
#![tactic(auto)]

pub mod answer;
pub mod asked;
pub mod bad;
mod element;
pub mod field;
mod fields;
mod forms;
mod group;
pub mod incoming;
pub mod json_text;
pub mod laws;
mod listed;
mod news;
mod numbers;
mod read;
pub mod rising;
mod shown;
mod tag_forms;
mod told;
pub mod welcome;
mod write;
mod write_map;
mod write_news;

pub use json_values::Scratch;
pub use news::read_news;
pub use read::read_request;
pub use welcome::read_welcome;
pub use write::reply_text;
pub use write_map::map_text;
pub use write_news::{news_text, welcome_text};
