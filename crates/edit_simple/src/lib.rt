//! The actions on single elements: create, retag, move, reverse, nodes, members, delete and purge.
//!
//! [`plans`] has a function for each action. A plan returns the changes that lead to the map after the action, or the
//! first of the action's checks that holds (a [`Refusal`](room_interface::refusal::Refusal)). If an allocation fails, it returns `Memory`, but not
//! in place of a refusal that needs no memory. A plan leaves its draft unchanged. [`laws`] has the laws of the actions.
//!
//! A function that cannot return `Memory` allocates nothing. `Memory` is also returned if a shared value of an element
//! has 2^63 owners. [`lookup`], [`ways`], [`kinds`] and [`row_change`] are public because the plans of `edit_topology` use them.
//! [`soundness`] finds the first row of a map that is not sound.
#![tactic(auto)]

mod changing;
mod create;
mod cut_short;
mod delete;
pub mod kinds;
pub mod laws;
pub mod limits;
pub mod lists;
pub mod lookup;
mod members;
mod moving;
mod nodes;
pub mod plans;
mod purge;
mod retagging;
mod reverse;
pub mod row_change;
pub mod soundness;
pub mod ways;
