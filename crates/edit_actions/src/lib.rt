//! The plan of any of the twelve actions.
//!
//! `plan` returns the changes that an action makes on a draft of a sound map, or its refusal. It leaves the draft
//! unchanged, and returns `Memory` if an allocation fails. `laws` states what is true of every accepted action.
#![tactic(auto)]

pub mod laws;
pub mod plan;
