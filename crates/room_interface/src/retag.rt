//! New tags for an element.
ghost use Rattle.std.specs.Prelude.{◌≡◌, [], IfOk, OnOk, IfErr, None, map};
ghost use Rattle.osm_elements.specs.Prelude.{put, refuses, text_cmp, set_refusal, value_at};
ghost use Rattle.osm_elements.specs.declared.fault.TextFault.{TextFault};
ghost use Rattle.room_interface.specs.GivenTags.{AreGiven, given_pair};

use osm_elements::Memory;
use osm_elements::fault::TextFault;
use osm_elements::keyed::{Keyed, KeyedRows};
use osm_elements::text::Text;
use std::alloc::{AllocError, Allocator};
use std::marker::Model;

/// A key and its new value. `None` removes the key's tag.
pub type Given<A> = Keyed<Option<Text<A>>, A>;

/// The values that a retag gives: at most 1,000 keys (this project's limit), in the order of their bytes, each with its
/// new value, or with `None` to remove its tag. No key is empty, and no key occurs twice.
#[derive(Drop)]
#[derive_where(Debug)]
pub struct Retag<A: Allocator> {
    rows: KeyedRows<Option<Text<A>>, A>,
}

// Contracts model a retag as pairs of the bytes of a key and of its value, if it has one.
impl<A: Allocator> Model for Retag<A> {
    ghost use Rattle.room_interface.specs.GivenTags.{GivenTags};

    ghost Value = { GivenTags };

    ghost view = { λ t. t.rows };
}

impl<A: Allocator> Retag<A> {
    /// Returns a retag without keys.
    pub fn empty(alloc: A) -> Retag<A>
        ensures { result ≡ [] }
    {
        Retag {
            rows: KeyedRows::empty(alloc),
        }
    }

    /// Returns a retag without keys, with room for `count` keys, or `Memory`.
    pub fn with_capacity(alloc: A, count: usize) -> Result<Retag<A>, Memory>
        ensures { IfOk result (λ t. t ≡ []) }
    {
        let rows = KeyedRows::with_capacity(alloc, count)?;
        Ok(Retag { rows })
    }

    /// Returns the keys in the order of their bytes, each with its new value.
    pub fn rows(&self) -> &[Given<A>]
        ensures rows { map given_pair result.now ≡ self.now }
        // True of every retag.
        ensures sound { AreGiven self.now }
    {
        self.rows.rows()
    }

    /// Sets the value of a key, or sets `None` to remove its tag: adds a row, or replaces the value of the row that has
    /// the key.
    ///
    /// Finding the key takes time logarithmic in the number of rows. The rows after a new row are moved, so keys that
    /// come in order move no row. A new value of an existing row allocates nothing.
    ///
    /// # Errors
    ///
    /// The first of these that applies. The rows are then unchanged.
    /// - `EmptyKey`, if the key is empty
    /// - `TooManyTags`, if the key is new and there are 1,000 keys
    /// - `Memory`, if the key is new and an allocation fails
    pub fn set(&mut self, key: Text<A>, value: Option<Text<A>>) -> Result<(), TextFault>
        ensures ok { OnOk result ((set_refusal self.old key ≡ None) × (self.new ≡ put text_cmp key value self.old)) }
        ensures err { IfErr result (λ e. (self.new ≡ self.old) × refuses (set_refusal self.old key) e) }

        // `Memory` never replaces a refusal of `set_refusal`.
        ensures named { (e : TextFault) → set_refusal self.old key ≡ Some e → result ≡ Err e }
        ensures memory_only_for_new { result ≡ Err TextFault.Memory → value_at self.old key ≡ None }
    {
        self.rows.set(key, value)
    }

    /// Returns a copy, or `Memory`.
    pub fn copy(&self) -> Result<Retag<A>, Memory>
    where
        A: Clone,
        ensures { IfOk result (λ t. t ≡ self.now) }
    {
        Ok(self.clone()?)
    }
}

impl<A: Allocator + Clone> Clone for Retag<A> {
    ghost is_clone = { λ a b. b ≡ a };

    fn clone(&self) -> Result<Retag<A>, AllocError> {
        let rows = self.rows.clone()?;
        Ok(Retag { rows })
    }
}
