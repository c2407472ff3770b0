//! Footprints: what an action reads and writes.
//!
//! `footprint` finds the `Footprint` of an action from its changes. It consists of touches, each an access to an
//! element: to its presence, its tags, or the rest. Two footprints meet if both have an access to the same, and one of
//! the two writes. Otherwise their actions commute (law `commutation`). `Holders` finds the active entries that a
//! footprint meets. An entry is active if it did or redid an action and is not undone.
//!
//! A public function that cannot return `Memory` allocates nothing. If a call returns `Memory`, an allocation failed,
//! and its arguments are unchanged.
#![tactic(auto)]

pub mod access;
pub mod footprint;
mod half_refs;
pub mod holders;
pub mod laws;
pub mod touch;
pub mod touching;
