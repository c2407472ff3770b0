//! The members of a relation.
ghost use Rattle.std.specs.Prelude.{◌≡◌, ◌↔◌, [], ◌∷◌, ◌++◌, OnOk, OnErr, IfOk, length, map, IsTrue};
ghost use Rattle.osm_elements.specs.Members.{AreMembers, member_pair};

use crate::Memory;
use crate::member::Member;
use std::alloc::{AllocError, Allocator};
use std::marker::Model;

/// An ordered list of members, in which a name may occur more than once (OpenStreetMap wiki, "Elements").
#[derive(Drop)]
#[derive_where(Debug)]
pub struct Members<A: Allocator> {
    members: Vec<Member<A>, A>,
}

// Contracts model members as pairs of a name and the bytes of its role.
impl<A: Allocator> Model for Members<A> {
    ghost use Rattle.std.specs.Prelude.{List, ℕ, map};
    ghost use Rattle.osm_elements.specs.declared.name.Name.{Name};
    ghost use Rattle.osm_elements.specs.Members.{member_pair};

    ghost Value = { List (Name × List ℕ) };

    ghost view = { λ m. map member_pair m.members.items };
}

impl<A: Allocator> Members<A> {
    /// Returns an empty list.
    pub fn empty(alloc: A) -> Members<A>
        ensures { result ≡ [] }
    {
        Members {
            members: Vec::new(alloc),
        }
    }

    /// Returns an empty list with room for `count` members, or `Memory`.
    pub fn with_capacity(alloc: A, count: usize) -> Result<Members<A>, Memory>
        ensures { IfOk result (λ m. m ≡ []) }
    {
        let members = Vec::with_capacity(alloc, count)?;
        Ok(Members { members })
    }

    /// Makes a list of the members of a vector, in their order.
    pub fn from_vec(members: Vec<Member<A>, A>) -> Members<A>
        ensures { result ≡ map member_pair members.items }
    {
        Members { members }
    }

    /// Returns the members as a vector, in their order.
    pub fn into_vec(self) -> Vec<Member<A>, A>
        ensures { map member_pair result.items ≡ self }
    {
        let Members { members } = self;
        members
    }

    /// Returns the number of members.
    pub fn len(&self) -> usize
        ensures { result ≡ length self.now }
    {
        self.members.len()
    }

    /// Returns whether there is no member.
    pub fn is_empty(&self) -> bool
        ensures { IsTrue result ↔ (self.now ≡ []) }
    {
        self.members.is_empty()
    }

    /// Returns the members as a slice, in their order.
    pub fn as_slice(&self) -> &[Member<A>]
        ensures members { map member_pair result.now ≡ self.now }
        // True of every list of members.
        ensures short { AreMembers self.now }
    {
        &self.members
    }

    /// Appends a member, or returns `Memory`.
    pub fn push(&mut self, member: Member<A>) -> Result<(), Memory>
        ensures ok { OnOk result (self.new ≡ self.old ++ member_pair member ∷ []) }
        ensures err { OnErr result (self.new ≡ self.old) }
    {
        self.members.push(member)?;
        Ok(())
    }

    /// Returns a copy, or `Memory`.
    pub fn copy(&self) -> Result<Members<A>, Memory>
    where
        A: Clone,
        ensures { IfOk result (λ m. m ≡ self.now) }
    {
        Ok(self.clone()?)
    }
}

impl<A: Allocator + Clone> Clone for Members<A> {
    ghost is_clone = { λ a b. b ≡ a };

    fn clone(&self) -> Result<Members<A>, AllocError> {
        let members = self.members.clone()?;
        Ok(Members { members })
    }
}
