//! A turn lock: threads share one value, the *room*, and take turns at it.
//!
//! A [`Desk`] holds the room, which is any [`Turned`] value. Each thread makes its calls through its own [`Seat`] at
//! the desk.
//!
//! All calls make one history. Each reply is the one that a single caller would get after the calls before it. The
//! history that a seat sees begins with the history that it saw before.
//!
//! A seat can be split in two, to give one seat to another thread. A seat can also be met into another seat, which then
//! has seen what both had seen.
//!
//! A turn begins with a ticket. Tickets are counted modulo 2^64 and served in order. A waiting thread yields at first,
//! and then sleeps until a turn is passed on.
//!
//! No contract promises that a turn comes, when it comes, or in which order callers get their turns. A call that gets
//! no turn does not return. If the room's own call does not return, no later call returns either.
#![tactic(auto)]

mod desk;
mod law;
mod seat;
mod steps;
mod turned;
mod view;

pub use desk::Desk;
pub use seat::Seat;
pub use std::alloc::AllocError as Memory;
pub use turned::Turned;
