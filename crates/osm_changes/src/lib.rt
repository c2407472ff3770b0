//! Changes of a map, and the store that they are applied to.
//!
//! A row of a map has two halves: its tags, and the rest ([`half::Half`]). A [`cell::Cell`] is a name and a part of its
//! row. [`changes::Changes`] list the cells that change, each with its half before and its half after. A
//! [`store::Store`] is a sound map with its users and the number of changes applied to it.
//!
//! A function that cannot return `Memory` allocates nothing. If a call returns `Memory`, an allocation failed or a
//! shared value has 2^63 owners, and the objects that the call borrows are unchanged. A copy of a half or of a row
//! shares its tags and its list.
#![tactic(auto)]

mod apply;
pub mod cell;
pub mod change;
pub mod changed_row;
pub mod changes;
mod division;
mod entering;
pub mod half;
mod halving;
pub mod laws;
pub mod lookup;
pub mod part;
mod row_after;
pub mod rows;
pub mod same;
pub mod store;
