//! The references between the elements of a map, in both directions.
//!
//! [`refs::refs_of`] finds the names that an element refers to. [`users::Users`] finds the users of a name, which are
//! the names that refer to it. [`change::ReferenceChange`] is the difference that a change of an element makes to its
//! references, and `Users` is kept up to date by such differences.
//!
//! A function that cannot return `Memory` allocates nothing. If a call returns `Memory`, an allocation failed, and the
//! objects that the call borrows are unchanged.
#![tactic(auto)]

pub mod but;
pub mod change;
pub mod laws;
pub mod name_set;
pub mod refs;
pub mod users;
