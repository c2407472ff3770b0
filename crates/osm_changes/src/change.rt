//! The change of one cell.
ghost use Rattle.std.specs.Prelude.{◌≡◌, IfOk};
ghost use Rattle.osm_changes.specs.Changes.{cell_of, taken_back};

use crate::cell::Cell;
use crate::half::{Half, copy_of};
use crate::part::Part;
use osm_elements::Memory;
use osm_elements::name::Name;
use std::alloc::{AllocError, Allocator};
use std::mem::swap;

/// The change of a half of a name's row. A half is none if the map has no element with the name.
#[derive(Drop)]
#[derive_where(Debug)]
pub struct Change<A: Allocator> {
    pub name: Name,
    pub part: Part,
    pub before: Option<Half<A>>,
    pub after: Option<Half<A>>,
}

impl<A: Allocator> Change<A> {
    /// Returns the cell that changes.
    pub fn cell(&self) -> Cell
        ensures { result ≡ cell_of self.now }
    {
        Cell::of(self.name, self.part)
    }

    // Exchanges the halves before and after.
    pub(crate) fn take_back(&mut self)
        ensures { self.new ≡ taken_back self.old }
    {
        swap(&mut self.before, &mut self.after);
    }

    /// Returns a copy, or `Memory`.
    pub fn copy(&self) -> Result<Change<A>, Memory>
    where
        A: Clone,
        ensures { IfOk result (λ c. c ≡ self.now) }
    {
        Ok(self.clone()?)
    }
}

impl<A: Allocator + Clone> Clone for Change<A> {
    ghost is_clone = { λ a b. b ≡ a };

    fn clone(&self) -> Result<Change<A>, AllocError> {
        let before = copy_of(&self.before)?;
        let after = copy_of(&self.after)?;
        Ok(Change {
            name: self.name,
            part: self.part,
            before,
            after,
        })
    }
}
