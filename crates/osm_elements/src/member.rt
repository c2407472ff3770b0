//! A member of a relation.
ghost use Rattle.std.specs.Prelude.{◌≡◌, IfOk, false};
ghost use Rattle.osm_elements.specs.Texts.{is_long};

use crate::Memory;
use crate::name::Name;
use crate::text::Text;
use std::alloc::{AllocError, Allocator};

/// A member of a relation: the name of an element, and its role there, which may be empty (OpenStreetMap wiki,
/// "Elements").
#[derive(Drop)]
#[derive_where(Debug)]
pub struct Member<A: Allocator> {
    pub name: Name,
    pub role: Text<A>,
    ghost short: { is_long role ≡ false },
}

impl<A: Allocator> Member<A> {
    /// Makes a member with this name and role.
    pub fn new(name: Name, role: Text<A>) -> Member<A>
        ensures name { result.name ≡ name }
        ensures role { result.role ≡ role }
    {
        let _ = role.as_str();
        Member { name, role }
    }

    /// Returns a copy, or `Memory`.
    pub fn copy(&self) -> Result<Member<A>, Memory>
    where
        A: Clone,
        ensures { IfOk result (λ m. m ≡ self.now) }
    {
        Ok(self.clone()?)
    }
}

impl<A: Allocator + Clone> Clone for Member<A> {
    ghost is_clone = { λ a b. b ≡ a };

    fn clone(&self) -> Result<Member<A>, AllocError> {
        let role = self.role.clone()?;
        Ok(Member {
            name: self.name,
            role,
        })
    }
}
