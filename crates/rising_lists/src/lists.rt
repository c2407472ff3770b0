//! The lists of all keys.
ghost use Rattle.std.specs.Prelude.{◌≡◌, [], ◌∷◌, IfOk, OnErr, OnOk};
ghost use Rattle.std.specs.Mem.{FitsInMemory};
ghost use Rattle.rising_lists.specs.Lists.{AreLists, Gains, Lacks, Loses, SameLists, listed};

use crate::list::RisingList;
use std::alloc::{AllocError, Allocator};
use std::collections::BTreeMap;
use std::collections::btree_map::Entry;

/// A sorted multimap: each key that has values, with its list of values. A look-up takes time logarithmic in the number
/// of keys.
#[derive(Drop)]
#[derive_where(Debug; K, V)]
pub struct RisingLists<K: Ord + Copy, V: Ord + Copy, A: Allocator> {
    lists: BTreeMap<K, RisingList<V, A>, A>,
    ghost kept: { AreLists K.cmp V.cmp lists.entries },
}

impl<K: Ord + Copy, V: Ord + Copy, A: Allocator> RisingLists<K, V, A> {
    /// Returns a multimap without keys.
    pub fn new(alloc: A) -> RisingLists<K, V, A>
        ensures { result.lists.entries ≡ [] }
    {
        RisingLists {
            lists: BTreeMap::new(alloc),
        }
    }

    /// Returns the values of a key, rising. `V` must have fewer than 2^63 bytes, which no trait bound can state.
    pub fn of(&self, key: &K) -> &[V]
        requires { FitsInMemory V.row }
        ensures { result.now ≡ listed K.cmp self.now.lists.entries key.now }
    {
        match self.lists.get(key) {
            Some(list) => list.as_slice(),
            None => &[],
        }
    }

    /// Adds a value to the list of each of `keys`, none of which may have the value.
    ///
    /// # Errors
    ///
    /// `AllocError`, if an allocation fails. Then all lists have the same values as before.
    pub fn add_all(&mut self, alloc: &A, keys: &[K], value: V) -> Result<(), AllocError>
    where
        A: Clone,
        requires { Lacks K.cmp V.cmp self.old.lists.entries keys.now value }
        ensures ok { OnOk result (Gains K.cmp V.cmp self.old.lists.entries self.new.lists.entries keys.now value) }
        ensures err { OnErr result (SameLists K.cmp V.cmp self.old.lists.entries self.new.lists.entries) }
    {
        for at in 0..keys.len() {
            if let Err(refused) = self.add(alloc, &keys[at], value) {
                self.take_out_all(&keys[..at], &value);
                return Err(refused);
            }
        }
        Ok(())
    }

    /// Removes the value that is equal to `value` from the list of each of `keys`. A key whose list becomes empty is
    /// removed.
    pub fn take_out_all(&mut self, keys: &[K], value: &V)
        ensures { Loses K.cmp V.cmp self.old.lists.entries self.new.lists.entries keys.now value.now }
    {
        for key in keys {
            self.take_out(key, value);
        }
    }

    /// Returns a copy. This is a function with a precondition instead of `Clone`, because no trait bound states that a
    /// clone of a key is equal to the key.
    ///
    /// # Errors
    ///
    /// `AllocError`, if an allocation fails.
    pub fn copy(&self) -> Result<RisingLists<K, V, A>, AllocError>
    where
        A: Clone,
        requires { (k c : K) → K.is_clone k c → c ≡ k }
        ensures { IfOk result (λ l. l.lists.entries ≡ self.now.lists.entries) }
    {
        let lists = self.lists.clone()?;
        Ok(RisingLists { lists })
    }

    // Adds a value to the list of a key.
    fn add(&mut self, alloc: &A, key: &K, value: V) -> Result<(), AllocError>
    where
        A: Clone,
        ensures ok { OnOk result (Gains K.cmp V.cmp self.old.lists.entries self.new.lists.entries (key.now ∷ []) value) }
        ensures err { OnErr result (SameLists K.cmp V.cmp self.old.lists.entries self.new.lists.entries) }
    {
        match self.lists.entry(*key)? {
            Entry::Occupied(entry) => entry.into_mut().add(alloc, value),
            Entry::Vacant(entry) => {
                entry.insert(RisingList::one(value));
                Ok(())
            }
        }
    }

    // Removes a value from the list of a key, if the list has the value.
    fn take_out(&mut self, key: &K, value: &V)
        ensures { Loses K.cmp V.cmp self.old.lists.entries self.new.lists.entries (key.now ∷ []) value.now }
    {
        match self.lists.get_mut(key) {
            Some(list) => {
                list.take_out(value);
                if list.is_empty() {
                    let _ = self.lists.remove(key);
                }
            }
            None => {}
        }
    }
}
