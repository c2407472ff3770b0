//! Rows under keys, of which tags and retags consist.
ghost use Rattle.std.specs.Prelude.{◌≡◌, [], IfOk, OnOk, IfErr, None, map, is_some, option_copied};
ghost use Rattle.std.specs.FinMap.Entries.{put};
ghost use Rattle.osm_elements.specs.Refused.{refuses};
ghost use Rattle.osm_elements.specs.declared.fault.TextFault.{TextFault};
ghost use Rattle.osm_elements.specs.KeyedRows.{AreRows, keyed_pair, text_cmp, set_refusal, place, value_at, without_key};

use crate::Memory;
use crate::fault::TextFault;
use crate::keyed_value::{CopiedValue, KeyedValue};
use crate::text::Text;
use std::alloc::{AllocError, Allocator};
use std::marker::Model;

/// The most rows in a list, a limit of this project.
pub const MOST_ROWS: usize = 1000;

/// A key and its value.
#[derive(Drop)]
#[derive_where(Debug; V)]
pub struct Keyed<V: KeyedValue, A: Allocator> {
    pub key: Text<A>,
    pub value: V,
}

/// A list of at most 1,000 rows (this project's limit), in the order of the bytes of their keys. No key is empty, and
/// no two rows have the same key.
#[derive(Drop)]
#[derive_where(Debug; V)]
pub struct KeyedRows<V: KeyedValue, A: Allocator> {
    rows: Vec<Keyed<V, A>, A>,
}

// Contracts model rows as pairs of the bytes of a key and its value.
impl<V: KeyedValue, A: Allocator> Model for KeyedRows<V, A> {
    ghost use Rattle.std.specs.Prelude.{List, ℕ, map};

    ghost Value = { List (List ℕ × V) };

    ghost use Rattle.osm_elements.specs.KeyedRows.{AreRows, keyed_pair};

    ghost view = { λ t. map keyed_pair t.rows.items };

    ghost invariant = { λ t. AreRows V.is_kept (map keyed_pair t.rows.items) };
}

impl<V: KeyedValue, A: Allocator> Keyed<V, A> {
    /// Returns a copy, or `Memory`.
    pub fn copy(&self) -> Result<Keyed<V, A>, Memory>
    where
        V: CopiedValue,
        A: Clone,
        ensures { IfOk result (λ r. r ≡ self.now) }
    {
        Ok(self.clone()?)
    }
}

impl<V: KeyedValue, A: Allocator> KeyedRows<V, A> {
    /// Returns a list without rows.
    pub fn empty(alloc: A) -> KeyedRows<V, A>
        ensures { result ≡ [] }
    {
        KeyedRows {
            rows: Vec::new(alloc),
        }
    }

    /// Returns a list without rows, with room for `count` rows, or `Memory`.
    pub fn with_capacity(alloc: A, count: usize) -> Result<KeyedRows<V, A>, Memory>
        ensures { IfOk result (λ t. t ≡ []) }
    {
        let rows = Vec::with_capacity(alloc, count)?;
        Ok(KeyedRows { rows })
    }

    /// Returns the value at a key, if a row has the key. Takes time logarithmic in the number of rows.
    pub fn get(&self, key: &str) -> Option<&V>
        ensures { option_copied result ≡ value_at self.now key.now }
    {
        match place_of(&self.rows, key) {
            Ok(at) => Some(&self.rows[at].value),
            Err(_) => None,
        }
    }

    /// Returns the rows in the order of the bytes of their keys.
    pub fn rows(&self) -> &[Keyed<V, A>]
        ensures rows { map keyed_pair result.now ≡ self.now }
        // True of every list of rows.
        ensures sound { AreRows V.is_kept self.now }
    {
        &self.rows
    }

    /// Sets the value of a key: adds a row, or replaces the value of the row that has the key.
    ///
    /// Finding the key takes time logarithmic in the number of rows. The rows after a new row are moved, so keys that
    /// come in order move no row. A new value of an existing row allocates nothing.
    ///
    /// # Errors
    ///
    /// The first of these that applies. The rows are then unchanged.
    /// - `EmptyKey`, if the key is empty
    /// - `TooManyTags`, if the key is new and there are 1,000 rows
    /// - `Memory`, if the key is new and an allocation fails
    pub fn set(&mut self, key: Text<A>, value: V) -> Result<(), TextFault>
        ensures ok { OnOk result ((set_refusal self.old key ≡ None) × (self.new ≡ put text_cmp key value self.old)) }
        ensures err { IfErr result (λ e. (self.new ≡ self.old) × refuses (set_refusal self.old key) e) }

        // `Memory` never replaces a refusal of `set_refusal`.
        ensures named { (e : TextFault) → set_refusal self.old key ≡ Some e → result ≡ Err e }
        ensures memory_only_for_new { result ≡ Err TextFault.Memory → value_at self.old key ≡ None }
    {
        value.keeps();
        if key.as_str().is_empty() {
            return Err(TextFault::EmptyKey);
        }
        match place_of(&self.rows, key.as_str()) {
            Ok(at) => {
                self.rows[at].value = value;
                Ok(())
            }
            Err(at) => {
                if self.rows.len() >= MOST_ROWS {
                    return Err(TextFault::TooManyTags);
                }
                self.rows.insert(at, Keyed { key, value })?;
                Ok(())
            }
        }
    }

    /// Removes the row with this key, and returns whether there was one. The rows after it are moved.
    pub fn clear(&mut self, key: &str) -> bool
        ensures there { result ≡ is_some (value_at self.old key.now) }
        ensures rest { self.new ≡ without_key self.old key.now }
    {
        match place_of(&self.rows, key) {
            Ok(at) => {
                let _ = self.rows.remove(at);
                true
            }
            Err(_) => false,
        }
    }

    /// Returns a copy, or `Memory`.
    pub fn copy(&self) -> Result<KeyedRows<V, A>, Memory>
    where
        V: CopiedValue,
        A: Clone,
        ensures { IfOk result (λ r. r ≡ self.now) }
    {
        Ok(self.clone()?)
    }
}

impl<V: CopiedValue, A: Allocator + Clone> Clone for Keyed<V, A> {
    ghost is_clone = { λ a b. b ≡ a };

    fn clone(&self) -> Result<Keyed<V, A>, AllocError> {
        Ok(Keyed {
            key: self.key.clone()?,
            value: self.value.clone()?,
        })
    }
}

impl<V: CopiedValue, A: Allocator + Clone> Clone for KeyedRows<V, A> {
    ghost is_clone = { λ a b. b ≡ a };

    fn clone(&self) -> Result<KeyedRows<V, A>, AllocError> {
        let rows = self.rows.clone()?;
        Ok(KeyedRows { rows })
    }
}

// Returns the position of the row with this key, or as `Err` the position where it would be inserted.
fn place_of<V: KeyedValue, A: Allocator>(rows: &[Keyed<V, A>], key: &str) -> Result<usize, usize>
    requires { AreRows V.is_kept (map keyed_pair rows.now) }
    ensures { result ≡ place key.now (map keyed_pair rows.now) }
{
    rows.binary_search_by(|row| row.key.as_str().cmp(key))
}
