//! The store of a room: a sound map with its users.
ghost use Rattle.std.specs.Prelude.{◌≡◌, [], T, true, not, map, IfOk, OnOk, OnErr, fold, filter};
ghost use Rattle.osm_refs.specs.Prelude.{AreInOrder, table_of, are_rising};
ghost use Rattle.osm_changes.specs.Changes.{changed, changed_rows, AreFrom};
ghost use Rattle.osm_changes.specs.Sound.{is_sound};
ghost use Rattle.osm_changes.specs.Stores.{applied_to};
ghost use Rattle.osm_changes.specs.declared.row_after.RowAfter.{RowAfter as Row};
ghost use Rattle.osm_changes.specs.Inner.Applying.{after_of, is_new, with_entered, AreBefore};
ghost use Rattle.osm_changes.specs.Inner.References.{gained, reference_change_of};

use crate::apply::{put_new, replace};
use crate::changed_row::{ChangedRow, ChangedRows};
use crate::changes::Changes;
use crate::division::{Division, divide};
use crate::entering::{gain, give_back, lose, users_of};
use crate::row_after::RowAfter;
use crate::rows::changed_rows;
use osm_elements::Memory;
use osm_elements::map::OsmMap;
use osm_refs::change::ReferenceChange;
use osm_refs::users::Users;
use std::alloc::{AllocError, Allocator};
use std::marker::Model;

/// A sound map, the users of each name, and the number of changes that were applied.
///
/// A map is sound if each element is of its name's kind and keeps the limits of its type, each way has 2 to 2,000
/// nodes, each relation has at most 32,000 members, and the map has every element that an element refers to
/// (OpenStreetMap API v0.6: nothing absent is named; the greatest lengths are this project's).
#[derive(Drop)]
#[derive_where(Debug)]
pub struct Store<A: Allocator> {
    map: OsmMap<A>,
    users: Users<A>,
    applied: u128,
}

// Contracts model a store as its rows and its count.
impl<A: Allocator> Model for Store<A> {
    ghost use Rattle.osm_changes.specs.Stores.{StoreState};
    ghost use Rattle.osm_changes.specs.Inner.Stores.{IsStore};

    ghost Value = { StoreState A };

    ghost view = { λ s. record { rows = s.map; applied = s.applied } };

    ghost invariant = { λ s. IsStore s.map s.users };
}

impl<A: Allocator> Store<A> {
    /// Returns a store of the empty map. `A` is `Copy` because two allocators are needed, and a `Clone` may fail.
    pub fn new(alloc: A) -> Store<A>
    where
        A: Copy,
        ensures { result ≡ record { rows = []; applied = 0 } }
    {
        Store {
            map: OsmMap::new(alloc),
            users: Users::new(alloc),
            applied: 0,
        }
    }

    /// Makes a store of a sound map, with a count of 0. It takes time for the references of the map, times a logarithm,
    /// and copies no element.
    ///
    /// # Errors
    ///
    /// `Memory`, if an allocation fails.
    pub fn from_map(alloc: A, map: OsmMap<A>) -> Result<Store<A>, Memory>
    where
        A: Copy,
        requires { is_sound map ≡ true }
        ensures { IfOk result (λ s. s ≡ record { rows = map; applied = 0 }) }
    {
        let users = users_of(alloc, &map)?;
        let applied = 0;
        Ok(Store {
            map,
            users,
            applied,
        })
    }

    /// Returns the map, which is sound.
    pub fn map(&self) -> &OsmMap<A>
        ensures map { result.now ≡ self.now.rows }
        ensures sound { is_sound self.now.rows ≡ true }
    {
        &self.map
    }

    /// Returns the users of the map.
    pub fn users(&self) -> &Users<A>
        ensures { result.now ≡ table_of self.now.rows }
    {
        &self.users
    }

    /// Returns the number of changes that were applied to the store, at most 2^128 - 1.
    pub fn applied(&self) -> u128
        ensures { result ≡ self.now.applied }
    {
        self.applied
    }

    /// Returns the changed names in order, each with its row in the map before and after the changes. The store is
    /// unchanged. It copies these rows, and looks up each row in the map.
    ///
    /// # Errors
    ///
    /// `Memory`, if an allocation fails.
    pub fn changed_rows(&self, alloc: A, changes: &Changes<A>) -> Result<ChangedRows<A>, Memory>
    where
        A: Clone,
        ensures { IfOk result (λ rows. rows ≡ changed_rows self.now.rows changes.now) }
    {
        let rows = changed_rows(alloc, &self.map, changes.rows())?;
        Ok(ChangedRows::from_vec(rows))
    }

    /// Applies changes and adds their number to the count. They must be from the store's map: each half before is the
    /// map's, and each name afterwards has both halves or none. The map must stay sound.
    ///
    /// It takes time for the changed rows and for the references that begin or cease, times a logarithm. It does not go
    /// over the whole map.
    ///
    /// # Errors
    ///
    /// `Memory`, if an allocation fails. The store is then unchanged: all allocations come before the first step that
    /// cannot be taken back.
    pub fn apply(&mut self, alloc: A, changes: &Changes<A>) -> Result<(), Memory>
    where
        A: Clone,
        requires from { AreFrom self.old.rows changes.now }
        requires sound { is_sound (changed self.old.rows changes.now) ≡ true }
        ensures ok { OnOk result (self.new ≡ applied_to self.old changes.now) }
        ensures err { OnErr result (self.new ≡ self.old) }
    {
        let rows = self.changed_rows(alloc.clone()?, changes)?;
        self.apply_rows(alloc, changes, &rows)
    }

    /// Applies changes as [`apply`](Store::apply) does, given the result of [`changed_rows`](Store::changed_rows) for
    /// them.
    ///
    /// # Errors
    ///
    /// `Memory`, if an allocation fails. The store is then unchanged.
    pub fn apply_rows(
        &mut self,
        alloc: A,
        changes: &Changes<A>,
        rows: &ChangedRows<A>,
    ) -> Result<(), Memory>
    where
        A: Clone,
        requires from { AreFrom self.old.rows changes.now }
        requires sound { is_sound (changed self.old.rows changes.now) ≡ true }
        requires rows { rows.now ≡ changed_rows self.old.rows changes.now }
        ensures ok { OnOk result (self.new ≡ applied_to self.old changes.now) }
        ensures err { OnErr result (self.new ≡ self.old) }
    {
        let prepared = prepare(alloc, &mut self.map, &mut self.users, rows.as_slice())?;
        replace(&mut self.map, prepared.others);
        lose(&mut self.users, &prepared.changes);
        self.applied = self.applied.saturating_add(changes.len() as u128);
        Ok(())
    }
}

impl<A: Allocator> Store<A> {
    /// Returns a copy, or `Memory`.
    pub fn copy(&self) -> Result<Store<A>, Memory>
    where
        A: Clone,
        ensures { IfOk result (λ s. s ≡ self.now) }
    {
        Ok(self.clone()?)
    }
}

impl<A: Allocator + Clone> Clone for Store<A> {
    ghost is_clone = { λ a b. b ≡ a };

    fn clone(&self) -> Result<Store<A>, AllocError> {
        let map = self.map.clone()?;
        let users = self.users.clone()?;
        Ok(Store {
            map,
            users,
            applied: self.applied,
        })
    }
}

// The work that remains after all allocations: rows of names that were there or are removed, and references that cease.
#[derive(Drop)]
struct Prepared<A: Allocator> {
    others: Vec<RowAfter<A>, A>,
    changes: Vec<ReferenceChange<A>, A>,
}

// Does all that allocates: enters the references that begin, and puts the rows of new names.
fn prepare<A: Allocator + Clone>(
    alloc: A,
    rows: &mut OsmMap<A>,
    users: &mut Users<A>,
    entered: &[ChangedRow<A>],
) -> Result<Prepared<A>, Memory>
    requires order { AreInOrder rows.old }
    requires before { AreBefore rows.old entered.now }
    requires rising { T (are_rising (map (λ (r : Row A). r.name) (map after_of entered.now))) }
    requires users { users.old ≡ table_of rows.old }
    ensures ok { IfOk result
        (λ p. (p.others.items ≡ filter (λ r. not (is_new rows.old r)) (map after_of entered.now))
        × (p.changes.items ≡ map (reference_change_of rows.old) (map after_of entered.now))
        × (rows.new ≡ fold with_entered rows.old (filter (is_new rows.old) (map after_of entered.now)))
        × (users.new ≡ fold gained (table_of rows.old)
        (map (reference_change_of rows.old) (map after_of entered.now)))) }
    ensures err { OnErr result ((rows.new ≡ rows.old) × (users.new ≡ users.old)) }
{
    let Division {
        new,
        others,
        changes,
    } = divide(&alloc, entered)?;
    gain(&alloc, users, &changes)?;
    if let Err(memory) = put_new(rows, new) {
        give_back(users, &changes);
        return Err(memory);
    }
    Ok(Prepared { others, changes })
}
