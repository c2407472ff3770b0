//! Lists of items, which contracts see as lists.
ghost use Rattle.std.specs.Prelude.{◌≡◌, ◌↔◌, [], ◌∷◌, ◌++◌, OnOk, OnErr, IfOk, length, IsTrue};

use crate::Memory;
use std::alloc::{AllocError, Allocator};
use std::marker::Model;

/// A list of items, in which equal items may occur.
#[derive(Drop)]
#[derive_where(Debug; T)]
pub struct Items<T, A: Allocator> {
    items: Vec<T, A>,
}

// Contracts model items as a plain list.
impl<T, A: Allocator> Model for Items<T, A> {
    ghost use Rattle.std.specs.Prelude.{List};

    ghost Value = { List T };

    ghost view = { λ i. i.items.items };
}

/// An item that can be copied.
pub trait Copied: Clone + Drop {
    // A clone is equal to its original.
    ghost copies: { (x y : Self) → Self.is_clone x y → y ≡ x };
}

impl<T, A: Allocator> Items<T, A> {
    /// Returns an empty list.
    pub fn empty(alloc: A) -> Items<T, A>
        ensures { result ≡ [] }
    {
        Items {
            items: Vec::new(alloc),
        }
    }

    /// Returns an empty list with room for `count` items, or `Memory`.
    pub fn with_capacity(alloc: A, count: usize) -> Result<Items<T, A>, Memory>
        ensures { IfOk result (λ i. i ≡ []) }
    {
        let items = Vec::with_capacity(alloc, count)?;
        Ok(Items { items })
    }

    /// Makes a list of the items of a vector, in their order.
    pub fn from_vec(items: Vec<T, A>) -> Items<T, A>
        ensures { result ≡ items.items }
    {
        Items { items }
    }

    /// Returns the items as a vector, in their order.
    pub fn into_vec(self) -> Vec<T, A>
        ensures { result.items ≡ self }
    {
        let Items { items } = self;
        items
    }

    /// Returns the number of items.
    pub fn len(&self) -> usize
        ensures { result ≡ length self.now }
    {
        self.items.len()
    }

    /// Returns whether there is no item.
    pub fn is_empty(&self) -> bool
        ensures { IsTrue result ↔ (self.now ≡ []) }
    {
        self.items.is_empty()
    }

    /// Returns the items as a slice, in their order.
    pub fn as_slice(&self) -> &[T]
        ensures { result.now ≡ self.now }
    {
        &self.items
    }

    /// Appends an item, or returns `Memory`.
    pub fn push(&mut self, item: T) -> Result<(), Memory>
    where
        T: Drop,
        ensures ok { OnOk result (self.new ≡ self.old ++ item ∷ []) }
        ensures err { OnErr result (self.new ≡ self.old) }
    {
        self.items.push(item)?;
        Ok(())
    }

    /// Returns a copy, or `Memory`.
    pub fn copy(&self) -> Result<Items<T, A>, Memory>
    where
        T: Copied,
        A: Clone,
        ensures { IfOk result (λ i. i ≡ self.now) }
    {
        Ok(self.clone()?)
    }
}

impl<T: Copied, A: Allocator + Clone> Clone for Items<T, A> {
    ghost is_clone = { λ a b. b ≡ a };

    fn clone(&self) -> Result<Items<T, A>, AllocError> {
        let items = self.items.clone()?;
        Ok(Items { items })
    }
}
