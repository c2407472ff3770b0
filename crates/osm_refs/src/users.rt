//! The users of all names of a map, updated row by row.
ghost use Rattle.std.specs.Prelude.{◌≡◌, ◌++◌, [], IfOk, OnErr, OnOk};
ghost use Rattle.osm_elements.specs.Maps.{name_set};
ghost use Rattle.osm_refs.specs.Rising.{IsRising, names_but};
ghost use Rattle.osm_refs.specs.Tables.{references_at, referring, users_in};

use osm_elements::Memory;
use osm_elements::name::Name;
use rising_lists::lists::RisingLists;
use std::alloc::{AllocError, Allocator};
use std::marker::Model;

/// The users of each name, which are the names that refer to it (OpenStreetMap wiki, "Elements": a way refers to its
/// nodes, a relation to its members).
///
/// If an element changes, first [`Users::gain`] enters the references that begin, which allocates and can fail. Then
/// [`Users::lose`] removes the references that cease, which cannot fail.
#[derive(Drop)]
#[derive_where(Debug)]
pub struct Users<A: Allocator> {
    // The inverse of the table that contracts see: each used name, with the rising list of its users. Names without
    // users are not there.
    lists: RisingLists<Name, Name, A>,
}

// Contracts model users as the table of the references of each name.
impl<A: Allocator> Model for Users<A> {
    ghost use Rattle.osm_refs.specs.Inner.Turned.{references_of};
    ghost use Rattle.osm_refs.specs.Tables.{Table};

    ghost Value = { Table };

    ghost view = { λ u. references_of u.lists.lists.entries };
}

impl<A: Allocator> Users<A> {
    /// Returns the users of an empty map.
    pub fn new(alloc: A) -> Users<A>
        ensures { result ≡ [] }
    {
        Users {
            lists: RisingLists::new(alloc),
        }
    }

    /// Returns the users of a name, in name order. Takes time logarithmic in the number of used names.
    pub fn of(&self, name: &Name) -> &[Name]
        ensures users { result.now ≡ users_in self.now name.now }
        ensures rising { IsRising result.now }
    {
        self.lists.of(name)
    }

    /// Enters that `name` now also refers to `names`. These must rise, and `name` must not refer to any of them yet.
    /// For each of them, it takes time logarithmic in the number of used names, and moves the later users of that name.
    ///
    /// # Errors
    ///
    /// `Memory`, if an allocation fails. The users are then unchanged.
    pub fn gain(&mut self, alloc: &A, name: Name, names: &[Name]) -> Result<(), Memory>
    where
        A: Clone,
        requires rising { IsRising names.now }
        requires new { names_but names.now (references_at self.old name) ≡ names.now }
        ensures ok { OnOk result
            (self.new ≡ referring self.old name (name_set (references_at self.old name ++ names.now))) }
        ensures err { OnErr result (self.new ≡ self.old) }
    {
        self.lists.add_all(alloc, names, name)?;
        Ok(())
    }

    /// Enters that `name` no longer refers to `names`. It takes as long as to gain them.
    pub fn lose(&mut self, name: &Name, names: &[Name])
        ensures { self.new
            ≡ referring self.old name.now (names_but (references_at self.old name.now) names.now) }
    {
        self.lists.take_out_all(names, name);
    }

    /// Returns a copy, or `Memory`.
    pub fn copy(&self) -> Result<Users<A>, Memory>
    where
        A: Clone,
        ensures { IfOk result (λ u. u ≡ self.now) }
    {
        Ok(self.clone()?)
    }
}

impl<A: Allocator + Clone> Clone for Users<A> {
    ghost is_clone = { λ a b. b ≡ a };

    fn clone(&self) -> Result<Users<A>, AllocError> {
        let lists = self.lists.copy()?;
        Ok(Users { lists })
    }
}
