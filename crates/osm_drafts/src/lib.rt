//! Drafts. The plan of a group's later action looks at a draft, which has the rows that the earlier actions lead to.
//!
//! A [`draft::Draft`] borrows a store and has rows written over it. The store itself is unchanged. A function that
//! cannot return `Memory` allocates nothing. If a call returns `Memory`, an allocation failed, or a shared value of an
//! element has 2^63 owners.
#![tactic(auto)]

pub mod draft;
