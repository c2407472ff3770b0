//! What changed rows mean for a map: which rows are new, and which references begin and cease.
ghost use Rattle.std.specs.Prelude.{◌≡◌, not, IfOk, map, filter};
ghost use Rattle.osm_changes.specs.Inner.Applying.{after_of, begins};
ghost use Rattle.osm_changes.specs.Inner.References.{row_reference_change};

use crate::changed_row::ChangedRow;
use crate::row_after::RowAfter;
use osm_elements::Memory;
use osm_refs::change::ReferenceChange;
use std::alloc::Allocator;

/// Copies of changed rows as they are after the changes, in two lists, each in order, and the references that change
/// with each row.
#[derive(Drop)]
pub struct Division<A: Allocator> {
    /// The rows that are there only after the changes.
    pub new: Vec<RowAfter<A>, A>,
    /// All other rows.
    pub others: Vec<RowAfter<A>, A>,
    /// The references that begin and cease with each row, new or not.
    pub changes: Vec<ReferenceChange<A>, A>,
}

/// Divides changed rows, or returns `Memory`.
pub fn divide<A: Allocator + Clone>(
    alloc: &A,
    rows: &[ChangedRow<A>],
) -> Result<Division<A>, Memory>
    ensures new { IfOk result (λ d. d.new.items ≡ map after_of (filter begins rows.now)) }
    ensures others { IfOk result (λ d. d.others.items ≡ map after_of (filter (λ r. not (begins r)) rows.now)) }
    ensures changes { IfOk result (λ d. d.changes.items ≡ map row_reference_change rows.now) }
{
    let mut new = Vec::new(alloc.clone()?);
    let mut others = Vec::new(alloc.clone()?);
    let mut changes = Vec::with_capacity(alloc.clone()?, rows.len())?;
    for row in rows {
        let change = ReferenceChange::of(alloc, row.name, row.before.as_ref(), row.after.as_ref())?;
        changes.push(change)?;
        if begins(row) {
            new.push(RowAfter::of(row)?)?;
        } else {
            others.push(RowAfter::of(row)?)?;
        }
    }
    Ok(Division {
        new,
        others,
        changes,
    })
}

// Returns whether a row is there only after the changes.
fn begins<A: Allocator>(row: &ChangedRow<A>) -> bool
    ensures { result ≡ begins row.now }
{
    row.before.is_none() && row.after.is_some()
}
