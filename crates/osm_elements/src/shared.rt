//! Values that several owners share.
ghost use Rattle.std.specs.Prelude.{◌≡◌, IfOk};

use crate::Memory;
use std::alloc::{AllocError, Allocator};
use std::marker::Model;
use std::ops::Deref;
use std::sync::Arc;

/// A value that several owners share, also across threads. It is never changed in place. Another owner allocates
/// nothing, whatever the value is.
#[derive(Drop)]
#[derive_where(Debug; T)]
pub struct Shared<T: Drop, A: Allocator> {
    inside: Arc<T, A>,
}

// Contracts model a shared value as the value.
impl<T: Drop, A: Allocator> Model for Shared<T, A> {
    ghost use Rattle.std.specs.Arc.{arc_value};

    ghost Value = { T };

    ghost view = { λ s. arc_value s.inside };
}

impl<T: Drop, A: Allocator> Shared<T, A> {
    /// Returns a value with its first owner, or `Memory`.
    pub fn new(alloc: A, value: T) -> Result<Shared<T, A>, Memory>
        ensures { IfOk result (λ s. s ≡ value) }
    {
        match Arc::new(alloc, value) {
            Ok(inside) => Ok(Shared { inside }),
            Err(refused) => {
                drop(refused);
                Err(Memory)
            }
        }
    }

    /// Returns the value with one more owner. It allocates nothing.
    ///
    /// # Errors
    ///
    /// `Memory`, if the value has 2^63 owners.
    pub fn copy(&self) -> Result<Shared<T, A>, Memory>
        ensures { IfOk result (λ s. s ≡ self.now) }
    {
        Ok(self.clone()?)
    }
}

impl<T: Drop, A: Allocator> Deref for Shared<T, A> {
    type Target = T;

    ghost deref_gives = { λ s x. x ≡ s };

    fn deref(&self) -> &T
        ensures { result.now ≡ self.now }
    {
        &self.inside
    }
}

impl<T: Drop, A: Allocator> Clone for Shared<T, A> {
    ghost is_clone = { λ a b. b ≡ a };

    fn clone(&self) -> Result<Shared<T, A>, AllocError> {
        let inside = self.inside.clone()?;
        Ok(Shared { inside })
    }
}
