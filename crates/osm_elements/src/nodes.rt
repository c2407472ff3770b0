//! The nodes of a way.
ghost use Rattle.std.specs.Prelude.{◌≡◌, ◌↔◌, [], ◌∷◌, ◌++◌, OnOk, OnErr, IfOk, length, IsTrue};
ghost use Rattle.osm_elements.specs.declared.name.Kind.TheVariants.{Node};
ghost use Rattle.osm_elements.specs.Nodes.{AreNodes};

use crate::Memory;
use crate::name::Name;
use std::alloc::{AllocError, Allocator};
use std::marker::Model;

/// A list of names of nodes, in which a name may occur more than once (OpenStreetMap wiki, "Elements": a way is an
/// ordered list of nodes).
#[derive(Drop)]
#[derive_where(Debug)]
pub struct Nodes<A: Allocator> {
    names: Vec<Name, A>,
}

// Contracts model nodes as the list of their names.
impl<A: Allocator> Model for Nodes<A> {
    ghost use Rattle.std.specs.Prelude.{List};
    ghost use Rattle.osm_elements.specs.declared.name.Name.{Name};
    ghost use Rattle.osm_elements.specs.Nodes.{AreNodes};

    ghost Value = { List Name };

    ghost view = { λ n. n.names.items };

    ghost invariant = { λ n. AreNodes n.names.items };
}

impl<A: Allocator> Nodes<A> {
    /// Returns an empty list.
    pub fn empty(alloc: A) -> Nodes<A>
        ensures { result ≡ [] }
    {
        Nodes {
            names: Vec::new(alloc),
        }
    }

    /// Returns an empty list with room for `count` names, or `Memory`.
    pub fn with_capacity(alloc: A, count: usize) -> Result<Nodes<A>, Memory>
        ensures { IfOk result (λ n. n ≡ []) }
    {
        let names = Vec::with_capacity(alloc, count)?;
        Ok(Nodes { names })
    }

    /// Makes a list of the names of a vector, in their order. Each must be of kind node.
    pub fn from_vec(names: Vec<Name, A>) -> Nodes<A>
        requires { AreNodes names.items }
        ensures { result ≡ names.items }
    {
        Nodes { names }
    }

    /// Returns the names as a vector, in their order. Each is of kind node.
    pub fn into_vec(self) -> Vec<Name, A>
        ensures names { result.items ≡ self }
        ensures nodes { AreNodes self }
    {
        let Nodes { names } = self;
        names
    }

    /// Returns the number of names.
    pub fn len(&self) -> usize
        ensures { result ≡ length self.now }
    {
        self.names.len()
    }

    /// Returns whether there is no name.
    pub fn is_empty(&self) -> bool
        ensures { IsTrue result ↔ (self.now ≡ []) }
    {
        self.names.is_empty()
    }

    /// Returns the names as a slice, in their order. Each is of kind node.
    pub fn names(&self) -> &[Name]
        ensures names { result.now ≡ self.now }
        ensures nodes { AreNodes self.now }
    {
        &self.names
    }

    /// Appends a name, which must be of kind node, or returns `Memory`.
    pub fn push(&mut self, name: Name) -> Result<(), Memory>
        requires { name.kind ≡ Node }
        ensures ok { OnOk result (self.new ≡ self.old ++ name ∷ []) }
        ensures err { OnErr result (self.new ≡ self.old) }
    {
        self.names.push(name)?;
        Ok(())
    }

    /// Returns a copy, or `Memory`.
    pub fn copy(&self) -> Result<Nodes<A>, Memory>
    where
        A: Clone,
        ensures { IfOk result (λ n. n ≡ self.now) }
    {
        Ok(self.clone()?)
    }
}

impl<A: Allocator + Clone> Clone for Nodes<A> {
    ghost is_clone = { λ a b. b ≡ a };

    fn clone(&self) -> Result<Nodes<A>, AllocError> {
        let names = self.names.clone()?;
        Ok(Nodes { names })
    }
}
