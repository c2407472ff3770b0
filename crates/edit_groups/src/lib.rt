//! The plan of an edit: of one action, or of a group of actions that is accepted or refused as a whole.
//!
//! An edit becomes one entry of a room's journal. `plan_edit` returns the changes and the footprint that an edit has
//! on a store, or its refusal. The actions of a group are planned in order, each on the map that the previous actions
//! lead to. `laws` states for edits what `edit_footprint` states for actions.
//!
//! If a public call returns `Memory`, an allocation failed, and what it borrows is unchanged.
#![tactic(auto)]

mod differing;
pub mod laws;
pub mod plan;
mod step;
