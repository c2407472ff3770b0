//! Plans the actions that change how elements meet: split, join, merge and unglue.
//!
//! A plan reads a draft of a sound map and changes nothing. It returns the changes that lead to the map after the
//! action, or the first of the action's checks that holds. If an allocation fails, it returns `Memory`, but not in
//! place of a refusal that needs no memory.
//!
//! `plans` has a function for each action, and `laws` states what is true of all of them. Both sides of a join or a
//! merge have a name: the element that stays is `name`, and the element that goes is `other`.
#![tactic(auto)]

mod both_tags;
mod join;
pub mod laws;
mod merge;
pub mod plans;
mod renaming;
mod split;
mod subjects;
mod unglue;
