//! The program: a room that is run from a stream of lines (`replay`), and rooms that are served to clients (`serve`).
//!
//! The program's `main` calls [`command::command`] with its arguments and the standard streams. The functions here take
//! any streams: a [`Source`](source::Source) to read and a [`Sink`](sink::Sink) to write. [`io::Io`] makes such a
//! stream of a reader or a writer of the system.
//!
//! A stream may report its bytes to contracts. The clauses on what was read and written then say which bytes these
//! were.
#![tactic(auto)]

pub mod answerer;
pub mod asked;
pub mod base;
mod blocks;
pub mod command;
pub mod command_line;
pub mod failed;
pub mod fault;
pub mod fronts;
pub mod io;
pub mod laws;
pub mod line;
pub mod lines;
pub mod noted;
pub mod replay;
mod replies;
pub mod serve;
pub mod sink;
pub mod source;
mod tell;
