//! Mirrors: copies of a room's map that follow the room's news.
//!
//! Make a `Mirror` from the rows of a room, or from a `Welcome`. Then pass it the room's news in order with
//! `Mirror::take`. It refuses news that are out of order or do not fit its map, and returns a `MirrorFault`. `laws`
//! states when a mirror has the room's map. `brought` has facts that types keep and `laws` requires.
//!
//! A public function that cannot return `Memory` allocates nothing. After a refusal, the mirror is unchanged.
#![tactic(auto)]

pub mod brought;
pub mod fault;
mod fitting;
pub mod laws;
pub mod mirror;
mod replacing;
