//! Rooms: one map, and the journal of the entries by which its authors did, undid and redid edits.
//!
//! `Room` begins with the empty map, or with a given sound map, its base. `Room::take` runs a `Call` of an author and
//! returns a `Reply`. An accepted call appends one `Entry` to the journal, and its changes are `News` for clients.
//! `laws` has the theorem: every journal that calls lead to from a sound base holds.
//!
//! An entry is active if it did or redid an edit and no later entry undoes it; names in the code say that it is
//! `standing`.
//!
//! A public function whose result cannot be `Memory` allocates nothing. If a method of a room returns `Memory`, an
//! allocation failed, and the room is unchanged.
#![tactic(auto)]

pub mod base;
mod changers;
mod effects;
pub mod entry;
mod journal;
mod kept;
pub mod laws;
mod news;
pub mod room;
pub mod run;
mod standing;
pub mod turned;
mod undo;
