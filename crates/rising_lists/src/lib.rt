//! A sorted multimap: for each key, a list of values that strictly rises.
//!
//! [`lists::RisingLists`] is the multimap, and [`but::but_all`] finds the difference of two rising lists. Keys and
//! values must be `Ord` and `Copy`. Values are equal if their order says so, and contracts speak of the orders alone.
//!
//! A function that cannot return `AllocError` allocates nothing. If a call returns `AllocError`, an allocation failed,
//! and each list that the call borrows has the same values as before.
#![tactic(auto)]

pub mod but;
pub mod laws;
mod list;
pub mod lists;
