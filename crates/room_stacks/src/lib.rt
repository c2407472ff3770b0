//! What each author of a room can still use: unspent ids, active entries to undo, and undone entries to redo.
//!
//! `Stacks` records the deeds of a room's authors. A deed is one entry of an author: an action, an undo or a redo. An
//! entry is active if it did or redid an action and no later entry undoes it; names in the code say that it is
//! `standing`. Call `ready` before a deed, to reserve its memory. Then `did`, `undid` or `redid` cannot fail.
//!
//! A function that cannot return `Memory` allocates nothing. If `ready` returns `Memory`, an allocation failed, and the
//! stacks are unchanged.
#![tactic(auto)]

mod author_lists;
mod author_stacks;
pub mod deed;
pub mod laws;
mod spent_ids;
pub mod stacks;
