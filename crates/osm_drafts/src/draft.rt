//! Drafts: a borrowed store with rows written over it.
ghost use Rattle.std.specs.Prelude.{◌≡◌, ◌++◌, not, true, IfOk, OnOk, find, flat_map, fold, option_copied};
ghost use Rattle.osm_changes.specs.Prelude.{is_among, least, row_at, AreInOrder, users, changed, with_row};
ghost use Rattle.osm_drafts.specs.Drafts.{unwritten};

use osm_changes::changed_row::ChangedRow;
use osm_changes::changes::Changes;
use osm_changes::lookup::Lookup;
use osm_changes::rows::changed_rows;
use osm_changes::store::Store;
use osm_elements::Memory;
use osm_elements::element::Element;
use osm_elements::map::OsmMap;
use osm_elements::name::Name;
use osm_elements::names::Names;
use osm_refs::change::ReferenceChange;
use osm_refs::name_set::name_set;
use osm_refs::users::Users;
use std::alloc::Allocator;
use std::collections::BTreeSet;
use std::marker::Model;

/// A borrowed store with rows written over it. Look-ups see the written rows in place of the store's rows. The store is
/// unchanged, and a draft needs memory only for the written rows.
#[derive(Drop)]
pub struct Draft<'s, A: Allocator> {
    alloc: A,
    store: &'s Store<A>,
    // Each name that was written, whether it has a row or not.
    written: BTreeSet<Name, A>,
    // The written rows that are there, and the users of names among these rows.
    here: OsmMap<A>,
    users: Users<A>,
}

// Contracts model a draft as its rows.
impl<'s, A: Allocator> Model for Draft<'s, A> {
    ghost use Rattle.std.specs.Prelude.{List};
    ghost use Rattle.osm_elements.specs.declared.element.Element.{Element};
    ghost use Rattle.osm_elements.specs.declared.name.Name.{Name};
    ghost use Rattle.osm_drafts.specs.Drafts.{drafted, IsDraft};

    ghost Value = { List (Name × Element A) };

    ghost view = { λ d. drafted d.store.now.rows d.written.keys d.here };

    ghost invariant = { λ d. IsDraft d.written.keys d.here d.users };
}

impl<'s, A: Allocator> Draft<'s, A> {
    /// Returns a draft of a store, with nothing written.
    pub fn of(alloc: A, store: &'s Store<A>) -> Draft<'s, A>
    where
        A: Copy,
        ensures { result ≡ store.now.rows }
    {
        let _ = store.map();
        Draft {
            alloc,
            store,
            written: BTreeSet::new(alloc),
            here: OsmMap::new(alloc),
            users: Users::new(alloc),
        }
    }

    /// Returns the element with this name, if any.
    pub fn get(&self, name: &Name) -> Option<&Element<A>>
        ensures { option_copied result ≡ row_at self.now name.now }
    {
        let store = self.store;
        let rows = store.map();
        if is_written(&self.written, name) {
            self.here.get(name)
        } else {
            rows.get(name)
        }
    }

    /// Returns the names that refer to a name, in name order, or `Memory`.
    pub fn users_of(&self, alloc: A, name: &Name) -> Result<Names<A>, Memory>
        ensures { IfOk result (λ names. names ≡ users self.now name.now) }
    {
        let store = self.store;
        let _ = store.map();
        let its_users = store.users().of(name);
        let mut names = Vec::new(alloc);
        push_all_unwritten(&mut names, its_users, &self.written)?;
        names.extend_from_slice(self.users.of(name))?;
        let names = name_set(names)?;
        Ok(Names::from_vec(names))
    }

    /// Returns the least name that refers to a name, if any.
    pub fn first_user(&self, name: &Name) -> Option<Name>
        ensures { result ≡ least (users self.now name.now) }
    {
        let store = self.store;
        let _ = store.map();
        let stored = first_unwritten(store.users().of(name), &self.written);
        let own = self.users.of(name).first().copied();
        match (stored, own) {
            (Some(stored), Some(own)) => Some(stored.min(own)),
            (Some(stored), None) => Some(stored),
            (None, own) => own,
        }
    }

    /// Returns the draft in which a name has this row, or no row if `element` is `None`.
    ///
    /// # Errors
    ///
    /// `Memory`. The draft is then dropped.
    pub fn with(self, name: Name, element: Option<Element<A>>) -> Result<Draft<'s, A>, Memory>
    where
        A: Clone,
        ensures { IfOk result (λ d. d ≡ with_row self.entry name element) }
    {
        let Draft {
            alloc,
            store,
            mut written,
            mut here,
            mut users,
        } = self;
        let _ = store.map();
        let change = ReferenceChange::of(&alloc, name, here.get(&name), element.as_ref())?;
        users.gain(&alloc, name, change.begun.as_slice())?;
        written.insert(name)?;
        put(&mut here, name, element)?;
        users.lose(&name, change.ceased.as_slice());
        Ok(Draft {
            alloc,
            store,
            written,
            here,
            users,
        })
    }
}

impl<'s, A: Allocator + Clone> Draft<'s, A> {
    /// Returns the draft after changes. It copies the rows of the changed names, and looks up each of them.
    ///
    /// # Errors
    ///
    /// `Memory`. The draft is then dropped.
    pub fn with_changes(self, alloc: A, changes: &Changes<A>) -> Result<Draft<'s, A>, Memory>
        ensures { IfOk result (λ d. d ≡ changed self.entry changes.now) }
    {
        let rows = changed_rows(alloc, &self, changes.rows())?;
        Ok(with_rows(self, rows)?)
    }
}

impl<'s, A: Allocator> Lookup<A> for Draft<'s, A> {
    ghost use Rattle.std.specs.Prelude.{List};
    ghost use Rattle.osm_elements.specs.declared.element.Element.{Element};
    ghost use Rattle.osm_elements.specs.declared.name.Name.{Name};

    ghost rows = { λ d. d };

    fn element(&self, name: &Name) -> Option<&Element<A>> {
        self.get(name)
    }
}

// Writes these rows to a draft, in their order.
fn with_rows<'s, A: Allocator + Clone>(
    draft: Draft<'s, A>,
    rows: Vec<ChangedRow<A>, A>,
) -> Result<Draft<'s, A>, Memory>
    ensures { IfOk result (λ d. d ≡ fold (λ n r. with_row n r.name r.after) draft.entry rows.items) }
{
    let mut draft = draft;
    for row in rows {
        draft = draft.with(row.name, row.after)?;
    }
    Ok(draft)
}

// Returns the first of these names that was not written.
fn first_unwritten<A: Allocator>(names: &[Name], written: &BTreeSet<Name, A>) -> Option<Name>
    ensures { result ≡ find (λ name. not (is_among written.now.keys name)) names.now }
{
    names
        .iter()
        .find(|name| !is_written(written, *name))
        .copied()
}

// Gives a name this row, or removes its row if `element` is `None`.
fn put<A: Allocator + Clone>(
    rows: &mut OsmMap<A>,
    name: Name,
    element: Option<Element<A>>,
) -> Result<(), Memory>
    ensures ok { OnOk result (rows.new ≡ with_row rows.old name element) }
    ensures order { AreInOrder rows.old }
{
    let _ = rows.len();
    match element {
        Some(element) => match rows.put(name, element) {
            Ok(_) => Ok(()),
            Err((_, memory)) => Err(memory),
        },
        None => {
            let _ = rows.take_out(&name);
            Ok(())
        }
    }
}

// Returns whether a name was written.
fn is_written<A: Allocator>(written: &BTreeSet<Name, A>, name: &Name) -> bool
    ensures { result ≡ is_among written.now.keys name.now }
{
    written.contains(name)
}

// Appends those of the users that were not written.
fn push_all_unwritten<A: Allocator>(
    names: &mut Vec<Name, A>,
    users: &[Name],
    written: &BTreeSet<Name, A>,
) -> Result<(), Memory>
    ensures { OnOk result (names.new.items ≡ names.old.items ++ flat_map (unwritten written.now.keys) users.now) }
{
    for user in users {
        push_unwritten(names, user, written)?;
    }
    Ok(())
}

// Appends a user, unless it was written.
fn push_unwritten<A: Allocator>(
    names: &mut Vec<Name, A>,
    user: &Name,
    written: &BTreeSet<Name, A>,
) -> Result<(), Memory>
    ensures { OnOk result (names.new.items ≡ names.old.items ++ unwritten written.now.keys user.now) }
{
    if !is_written(written, user) {
        names.push(*user)?;
    }
    Ok(())
}
