//! The tags of an element.
ghost use Rattle.std.specs.Prelude.{◌≡◌, ◌↔◌, [], IfOk, OnOk, IfErr, None, map, length, is_some, IsTrue, option_copied};
ghost use Rattle.std.specs.FinMap.Entries.{put};
ghost use Rattle.osm_elements.specs.Refused.{refuses};
ghost use Rattle.osm_elements.specs.declared.fault.TextFault.{TextFault};
ghost use Rattle.osm_elements.specs.KeyedRows.{text_cmp, set_refusal, value_at, without_key};
ghost use Rattle.osm_elements.specs.TagRows.{AreTagRows, tag_pair};

use crate::Memory;
use crate::fault::TextFault;
use crate::keyed::{Keyed, KeyedRows, MOST_ROWS};
use crate::text::Text;
use std::alloc::{AllocError, Allocator};
use std::marker::Model;

/// The most tags of an element, a limit of this project.
pub const MOST_TAGS: usize = MOST_ROWS;

/// A tag: a key and its value (OpenStreetMap wiki, "Elements").
pub type Tag<A> = Keyed<Text<A>, A>;

/// The tags of an element: at most 1,000 (this project's limit), in the order of the bytes of their keys. No key is
/// empty, and no two tags of an element have the same key.
#[derive(Drop)]
#[derive_where(Debug)]
pub struct Tags<A: Allocator> {
    rows: KeyedRows<Text<A>, A>,
}

// Contracts model tags as pairs of the bytes of a key and of its value.
impl<A: Allocator> Model for Tags<A> {
    ghost use Rattle.std.specs.Prelude.{List, ℕ};

    ghost Value = { List (List ℕ × List ℕ) };

    ghost view = { λ t. t.rows };
}

impl<A: Allocator> Tags<A> {
    /// Returns an empty list of tags.
    pub fn empty(alloc: A) -> Tags<A>
        ensures { result ≡ [] }
    {
        Tags {
            rows: KeyedRows::empty(alloc),
        }
    }

    /// Returns an empty list with room for `count` tags, or `Memory`.
    pub fn with_capacity(alloc: A, count: usize) -> Result<Tags<A>, Memory>
        ensures { IfOk result (λ t. t ≡ []) }
    {
        let rows = KeyedRows::with_capacity(alloc, count)?;
        Ok(Tags { rows })
    }

    /// Returns the number of tags, at most 1,000.
    pub fn len(&self) -> usize
        ensures { result ≡ length self.now }
    {
        self.rows().len()
    }

    /// Returns whether there is no tag.
    pub fn is_empty(&self) -> bool
        ensures { IsTrue result ↔ (self.now ≡ []) }
    {
        self.rows().is_empty()
    }

    /// Returns the value at a key, if a tag has the key. Takes time logarithmic in the number of tags.
    pub fn get(&self, key: &str) -> Option<&Text<A>>
        ensures { option_copied result ≡ value_at self.now key.now }
    {
        self.rows.get(key)
    }

    /// Returns the tags in the order of the bytes of their keys.
    pub fn rows(&self) -> &[Tag<A>]
        ensures rows { map tag_pair result.now ≡ self.now }
        ensures sound { AreTagRows self.now }
    {
        self.rows.rows()
    }

    /// Sets the value of a key: adds a tag, or replaces the value of the tag that has the key.
    ///
    /// Finding the key takes time logarithmic in the number of tags. The tags after a new tag are moved, so keys that
    /// come in order move no tag. A new value of an existing tag allocates nothing.
    ///
    /// # Errors
    ///
    /// The first of these that applies. The tags are then unchanged.
    /// - `EmptyKey`, if the key is empty
    /// - `TooManyTags`, if the key is new and there are 1,000 tags
    /// - `Memory`, if the key is new and an allocation fails
    pub fn set(&mut self, key: Text<A>, value: Text<A>) -> Result<(), TextFault>
        ensures ok { OnOk result ((set_refusal self.old key ≡ None) × (self.new ≡ put text_cmp key value self.old)) }
        ensures err { IfErr result (λ e. (self.new ≡ self.old) × refuses (set_refusal self.old key) e) }

        // `Memory` never replaces a refusal of `set_refusal`.
        ensures named { (e : TextFault) → set_refusal self.old key ≡ Some e → result ≡ Err e }
        ensures memory_only_for_new { result ≡ Err TextFault.Memory → value_at self.old key ≡ None }
    {
        self.rows.set(key, value)
    }

    /// Removes the tag with this key, and returns whether there was one. The tags after it are moved.
    pub fn clear(&mut self, key: &str) -> bool
        ensures there { result ≡ is_some (value_at self.old key.now) }
        ensures rest { self.new ≡ without_key self.old key.now }
    {
        self.rows.clear(key)
    }

    /// Returns a copy, or `Memory`.
    pub fn copy(&self) -> Result<Tags<A>, Memory>
    where
        A: Clone,
        ensures { IfOk result (λ t. t ≡ self.now) }
    {
        Ok(self.clone()?)
    }
}

impl<A: Allocator + Clone> Clone for Tags<A> {
    ghost is_clone = { λ a b. b ≡ a };

    fn clone(&self) -> Result<Tags<A>, AllocError> {
        let rows = self.rows.clone()?;
        Ok(Tags { rows })
    }
}
