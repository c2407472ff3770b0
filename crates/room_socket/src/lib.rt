//! A session over a stream: the WebSocket (RFC 6455) around the core of a session.
//!
//! [`serve`] shakes hands with a client over any stream that can be read and written. It gives the client's texts to
//! the core of a session, sends what the core returns, and returns the way in which the session ended ([`End`]). A test
//! can order the sessions' calls by a [`Gate`].
#![tactic(auto)]

mod admission;
mod closing;
mod end;
mod gate;
mod handshake;
mod hearing;
mod passage;
mod sending;
mod stream;
mod timely;

pub use admission::Admission;
pub use end::End;
pub use gate::{Gate, OpenGate};
pub use stream::serve;
