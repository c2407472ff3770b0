//! The elements of an OpenStreetMap map, their names, texts and tags, and the map itself.
//!
//! A [`name::Name`] is a kind and an id. An [`element::Element`] is a node, a way or a relation with its
//! [`tags::Tags`]. A [`map::OsmMap`] has at most one element for each name. Elements share their tags and lists
//! ([`shared::Shared`]), so a copy of an element is cheap.
//!
//! Types that allocate are generic in their allocator. A function that cannot return [`Memory`] allocates nothing. If a
//! call returns `Memory`, an allocation failed, and the objects that the call borrows are unchanged. A copy of a shared
//! value allocates nothing, and returns `Memory` only if the value has 2^63 owners. `copy` returns an equal value.
//!
//! Texts, tags and elements have no `==`. Code that compares them uses a function whose contract states the comparison
//! in terms of the modelled values. Two of these functions are here: [`names::is_same`] and [`text::is_same_text`].
#![tactic(auto)]

pub mod element;
pub mod fault;
pub mod items;
pub mod keyed;
pub mod keyed_value;
pub mod laws;
pub mod map;
pub mod member;
pub mod members;
pub mod name;
pub mod names;
pub mod nodes;
pub mod shared;
pub mod shared_tags;
pub mod tags;
pub mod text;

/// An allocation failed.
pub use std::alloc::AllocError as Memory;
