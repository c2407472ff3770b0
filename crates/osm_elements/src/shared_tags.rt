//! Tags that several owners share.
ghost use Rattle.std.specs.Prelude.{◌≡◌, ◌↔◌, [], Ok, IfOk, map, length, IsTrue, option_copied};
ghost use Rattle.osm_elements.specs.KeyedRows.{value_at};
ghost use Rattle.osm_elements.specs.TagRows.{AreTagRows, tag_pair};

use crate::Memory;
use crate::shared::Shared;
use crate::tags::{Tag, Tags};
use crate::text::Text;
use std::alloc::{AllocError, Allocator};
use std::marker::Model;

/// The tags of an element, which their owners share. An empty list of tags uses no memory.
#[derive(Drop)]
#[derive_where(Debug)]
pub struct SharedTags<A: Allocator> {
    some: Option<Shared<Tags<A>, A>>,
}

// Contracts model shared tags as the tags.
impl<A: Allocator> Model for SharedTags<A> {
    ghost use Rattle.std.specs.Prelude.{List, ℕ, [], unwrap_or};

    ghost Value = { List (List ℕ × List ℕ) };

    ghost view = { λ t. unwrap_or t.some [] };
}

impl<A: Allocator> SharedTags<A> {
    /// Returns an empty list of tags.
    pub fn empty() -> SharedTags<A>
        ensures { result ≡ [] }
    {
        SharedTags { some: None }
    }

    /// Returns these tags with their first owner, or `Memory`. If there are no tags, it allocates nothing.
    pub fn new(alloc: A, tags: Tags<A>) -> Result<SharedTags<A>, Memory>
        ensures exact { IfOk result (λ t. t ≡ tags) }
        ensures named { tags ≡ [] → result ≡ Ok [] }
    {
        if tags.is_empty() {
            return Ok(SharedTags { some: None });
        }
        let tags = Shared::new(alloc, tags)?;
        Ok(SharedTags { some: Some(tags) })
    }

    /// Returns the tags in the order of the bytes of their keys.
    pub fn rows(&self) -> &[Tag<A>]
        ensures rows { map tag_pair result.now ≡ self.now }
        ensures sound { AreTagRows self.now }
    {
        match &self.some {
            Some(tags) => tags.rows(),
            None => &[],
        }
    }

    /// Returns the number of tags, at most 1,000.
    pub fn len(&self) -> usize
        ensures { result ≡ length self.now }
    {
        match &self.some {
            Some(tags) => tags.len(),
            None => 0,
        }
    }

    /// Returns the value at a key, if a tag has the key. Takes time logarithmic in the number of tags.
    pub fn get(&self, key: &str) -> Option<&Text<A>>
        ensures { option_copied result ≡ value_at self.now key.now }
    {
        match &self.some {
            Some(tags) => tags.get(key),
            None => None,
        }
    }

    /// Returns a copy of the tags that is not shared, or `Memory`.
    pub fn own(&self, alloc: A) -> Result<Tags<A>, Memory>
    where
        A: Clone,
        ensures { IfOk result (λ t. t ≡ self.now) }
    {
        match &self.some {
            Some(tags) => (**tags).copy(),
            None => Ok(Tags::empty(alloc)),
        }
    }

    /// Returns the same tags with one more owner. It allocates nothing.
    ///
    /// # Errors
    ///
    /// `Memory`, if the tags have 2^63 owners.
    pub fn copy(&self) -> Result<SharedTags<A>, Memory>
        ensures { IfOk result (λ t. t ≡ self.now) }
    {
        Ok(self.clone()?)
    }
}

impl<A: Allocator> Clone for SharedTags<A> {
    ghost is_clone = { λ a b. b ≡ a };

    fn clone(&self) -> Result<SharedTags<A>, AllocError> {
        match &self.some {
            Some(tags) => {
                let tags = tags.clone()?;
                Ok(SharedTags { some: Some(tags) })
            }
            None => Ok(SharedTags { some: None }),
        }
    }
}
