//! Changed rows, each with its element before and after the changes.
ghost use Rattle.std.specs.Prelude.{◌≡◌, ◌≢◌, ◌++◌, [], ◌∷◌, IfOk, IfErr, OnOk, T, length, map};
ghost use Rattle.osm_elements.specs.Maps.{are_rising};
ghost use Rattle.osm_changes.specs.Changes.{changes_of, row_changes, AreChanges};
ghost use Rattle.osm_changes.specs.declared.changed_row.ChangedRow.{ChangedRow as Row};

use crate::changes::Changes;
use osm_elements::Memory;
use osm_elements::element::{Element, copy_of};
use osm_elements::name::Name;
use std::alloc::Allocator;
use std::marker::Model;

/// A name with its element before and after changes. An element is `None` if the map does not have the name.
#[derive(Drop)]
#[derive_where(Debug)]
pub struct ChangedRow<A: Allocator> {
    pub name: Name,
    pub before: Option<Element<A>>,
    pub after: Option<Element<A>>,
}

impl<A: Allocator> ChangedRow<A> {
    /// Returns the changes of the halves of the row, or `Memory`.
    pub fn changes(&self, alloc: A) -> Result<Changes<A>, Memory>
    where
        A: Clone,
        ensures { IfOk result (λ cs. cs ≡ row_changes self.now.name self.now.before self.now.after) }
    {
        let mut changes = Changes::empty(alloc);
        self.push_changes(&mut changes)?;
        Ok(changes)
    }

    // Appends the changes of the halves of the row.
    fn push_changes(&self, changes: &mut Changes<A>) -> Result<(), Memory>
    where
        A: Clone,
        requires { AreChanges (changes.old ++ row_changes self.now.name self.now.before self.now.after) }
        ensures { OnOk result (changes.new ≡ changes.old ++ row_changes self.now.name self.now.before self.now.after) }
    {
        let before = copy_of(self.before.as_ref())?;
        let after = copy_of(self.after.as_ref())?;
        changes.push_row(self.name, before, after)
    }
}

/// The rows of all changed names, in name order.
#[derive(Drop)]
#[derive_where(Debug)]
pub struct ChangedRows<A: Allocator> {
    rows: Vec<ChangedRow<A>, A>,
}

// Contracts model changed rows as a plain list.
impl<A: Allocator> Model for ChangedRows<A> {
    ghost use Rattle.std.specs.Prelude.{List, T, map};
    ghost use Rattle.osm_changes.specs.declared.changed_row.ChangedRow.{ChangedRow};
    ghost use Rattle.osm_elements.specs.Maps.{are_rising};

    ghost Value = { List (ChangedRow A) };

    ghost view = { λ r. r.rows.items };

    ghost invariant = { λ r. T (are_rising (map (λ (row : ChangedRow A). row.name) r.rows.items)) };
}

impl<A: Allocator> ChangedRows<A> {
    /// Makes a list of the rows of a vector, in their order. Their names must rise.
    pub fn from_vec(rows: Vec<ChangedRow<A>, A>) -> ChangedRows<A>
        requires { T (are_rising (map (λ (row : Row A). row.name) rows.items)) }
        ensures { result ≡ rows.items }
    {
        ChangedRows { rows }
    }

    /// Returns the rows as a vector, in their order.
    pub fn into_vec(self) -> Vec<ChangedRow<A>, A>
        ensures { result.items ≡ self }
    {
        let ChangedRows { rows } = self;
        rows
    }

    /// Returns the row if there is just one, and otherwise all rows.
    pub fn into_sole(self) -> Result<ChangedRow<A>, ChangedRows<A>>
        ensures sole { IfOk result (λ row. self ≡ row ∷ []) }
        ensures all { IfErr result (λ rows. (rows ≡ self) × (length self ≢ 1)) }
    {
        if self.rows.len() != 1 {
            return Err(self);
        }
        let ChangedRows { mut rows } = self;
        match rows.pop() {
            Some(row) => Ok(row),
            None => unreachable!(),
        }
    }

    /// Returns the rows as a slice, in their order.
    pub fn as_slice(&self) -> &[ChangedRow<A>]
        ensures { result.now ≡ self.now }
    {
        &self.rows
    }

    /// Returns the changes of the halves of the rows, or `Memory`.
    pub fn changes(&self, alloc: A) -> Result<Changes<A>, Memory>
    where
        A: Clone,
        ensures { IfOk result (λ cs. cs ≡ changes_of self.now) }
    {
        let mut changes = Changes::empty(alloc);
        for row in &self.rows {
            row.push_changes(&mut changes)?;
        }
        Ok(changes)
    }
}
