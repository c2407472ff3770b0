//! The core of a session: it computes what the server sends to one client.
//!
//! A [`Session`](session::Session) takes each text that comes from its client, and returns what goes out
//! ([`Sent`](sent::Sent)). It has no socket. It asks rooms through the trait [`Rooms`](rooms::Rooms), so it is the same
//! for one room and for many, and for one client and for several clients that share rooms.
//!
//! Only `Session::on_text` and `Session::on_quiet` allocate. If an allocation for a text that goes out or for the news
//! fails, no text goes out, the connection is closed with code 1011, and the session is closed. If an allocation for
//! reading the client's text or for the room's call fails, the reply is `memory`.
#![tactic(auto)]

pub mod caller;
mod hello;
mod news;
mod next;
mod replies;
pub mod rooms;
pub mod sent;
pub mod session;
