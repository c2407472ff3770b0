//! Lists of changes.
ghost use Rattle.std.specs.Prelude.{◌≡◌, ◌↔◌, ◌+◌, ◌<◌, ◌≤◌, [], ◌∷◌, ◌++◌, OnOk, OnErr, IfOk, length, IsTrue, vec_len, vec_capacity, filter};
ghost use Rattle.osm_changes.specs.Changes.{differs, row_changes, inverse, AreChanges};

use crate::change::Change;
use crate::half::are_same_halves;
use crate::halving::halves;
use crate::part::Part;
use osm_elements::Memory;
use osm_elements::element::Element;
use osm_elements::name::Name;
use std::alloc::{AllocError, Allocator};
use std::marker::Model;

/// The cells of a map that change, rising, each with its half before and its half after, which differ. An absent row
/// has no halves, so a row that is added or removed has a change in both of its cells.
#[derive(Drop)]
#[derive_where(Debug)]
pub struct Changes<A: Allocator> {
    changes: Vec<Change<A>, A>,
}

// Contracts model changes as a plain list.
impl<A: Allocator> Model for Changes<A> {
    ghost use Rattle.std.specs.Prelude.{List};
    ghost use Rattle.osm_changes.specs.declared.change.Change.{Change};
    ghost use Rattle.osm_changes.specs.Changes.{AreChanges};

    ghost Value = { List (Change A) };

    ghost view = { λ c. c.changes.items };

    ghost invariant = { λ c. AreChanges c.changes.items };
}

impl<A: Allocator> Changes<A> {
    /// Returns an empty list of changes.
    pub fn empty(alloc: A) -> Changes<A>
        ensures { result ≡ [] }
    {
        Changes {
            changes: Vec::new(alloc),
        }
    }

    /// Returns the number of changed cells.
    pub fn len(&self) -> usize
        ensures { result ≡ length self.now }
    {
        self.changes.len()
    }

    /// Returns whether nothing changes.
    pub fn is_empty(&self) -> bool
        ensures { IsTrue result ↔ (self.now ≡ []) }
    {
        self.changes.is_empty()
    }

    /// Returns the changes in the order of their cells.
    pub fn rows(&self) -> &[Change<A>]
        ensures rows { result.now ≡ self.now }
        // True of every list of changes.
        ensures changes { AreChanges self.now }
    {
        &self.changes
    }

    /// Appends the changes of a name whose element changes from `before` to `after`: a change for each half that
    /// differs. `None` is an absent element. The name must come after all names in the list. The elements are taken
    /// apart and not copied.
    ///
    /// # Errors
    ///
    /// `Memory`, if an allocation fails. The changes are then unchanged.
    pub fn push_row(
        &mut self,
        name: Name,
        before: Option<Element<A>>,
        after: Option<Element<A>>,
    ) -> Result<(), Memory>
        requires { AreChanges (self.old ++ row_changes name before after) }
        ensures ok { OnOk result (self.new ≡ self.old ++ row_changes name before after) }
        ensures err { OnErr result (self.new ≡ self.old) }
    {
        reserve_row(&mut self.changes)?;
        let (tags_before, rest_before) = halves(before);
        let (tags_after, rest_after) = halves(after);
        push_if_other(
            &mut self.changes,
            Change {
                name,
                part: Part::Tags,
                before: tags_before,
                after: tags_after,
            },
        );
        push_if_other(
            &mut self.changes,
            Change {
                name,
                part: Part::Rest,
                before: rest_before,
                after: rest_after,
            },
        );
        Ok(())
    }

    /// Returns the changes that take these back: each has its halves before and after exchanged.
    pub fn inverse(self) -> Changes<A>
        ensures { result ≡ inverse self }
    {
        let Changes { mut changes } = self;
        for change in changes.iter_mut() {
            change.take_back();
        }
        Changes { changes }
    }

    /// Returns a copy, or `Memory`.
    pub fn copy(&self) -> Result<Changes<A>, Memory>
    where
        A: Clone,
        ensures { IfOk result (λ c. c ≡ self.now) }
    {
        Ok(self.clone()?)
    }
}

impl<A: Allocator + Clone> Clone for Changes<A> {
    ghost is_clone = { λ a b. b ≡ a };

    fn clone(&self) -> Result<Changes<A>, AllocError> {
        let changes = self.changes.clone()?;
        Ok(Changes { changes })
    }
}

// Reserves room for the changes of one more row. An empty list gets room for exactly these.
fn reserve_row<A: Allocator>(changes: &mut Vec<Change<A>, A>) -> Result<(), Memory>
    ensures items { changes.new.items ≡ changes.old.items }
    ensures len { vec_len changes.new ≡ vec_len changes.old }
    ensures room { OnOk result (vec_len changes.new + 2 ≤ vec_capacity changes.new) }
{
    if changes.is_empty() {
        changes.try_reserve_exact(2)?;
    } else {
        changes.try_reserve(2)?;
    }
    Ok(())
}

// Appends a change if its halves differ. The list must have room for it.
fn push_if_other<A: Allocator>(changes: &mut Vec<Change<A>, A>, change: Change<A>)
    requires room { vec_len changes.old < vec_capacity changes.old }
    ensures items { changes.new.items ≡ changes.old.items ++ filter differs (change ∷ []) }
    ensures len { vec_len changes.new ≤ vec_len changes.old + 1 }
    ensures capacity { vec_capacity changes.old ≤ vec_capacity changes.new }
{
    if are_same_halves(&change.before, &change.after) {
        return;
    }
    match changes.push(change) {
        Ok(()) => {}
        Err(_) => unreachable!(),
    }
}
