//! Rows to put.
ghost use Rattle.std.specs.Prelude.{◌≡◌, IfOk};
ghost use Rattle.osm_changes.specs.Inner.Applying.{after_of};

use crate::changed_row::ChangedRow;
use osm_elements::Memory;
use osm_elements::element::{Element, copy_of};
use osm_elements::name::Name;
use std::alloc::Allocator;

/// A changed name with its element after the changes, or `None` if the row is removed.
#[derive(Drop)]
#[derive_where(Debug)]
pub struct RowAfter<A: Allocator> {
    pub name: Name,
    pub element: Option<Element<A>>,
}

impl<A: Allocator> RowAfter<A> {
    /// Returns a copy of what a changed row is after the changes, or `Memory`.
    pub fn of(row: &ChangedRow<A>) -> Result<RowAfter<A>, Memory>
    where
        A: Clone,
        ensures { IfOk result (λ r. r ≡ after_of row.now) }
    {
        Ok(RowAfter {
            name: row.name,
            element: copy_of(row.after.as_ref())?,
        })
    }
}
