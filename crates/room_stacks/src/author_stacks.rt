//! The entries that one author can undo and redo.
ghost use Rattle.std.specs.Prelude.{◌≡◌, ◌<◌, ◌++◌, [], ◌∷◌, true, IfOk, OnOk, vec_len, vec_capacity};
ghost use Rattle.room_stacks.specs.Stacks.{below_top};
ghost use Rattle.room_stacks.specs.Inner.Lists.{without, IsRising};

use osm_elements::Memory;
use std::alloc::Allocator;
use std::marker::Model;

/// The numbers of an author's active entries, in rising order, and of the entries that it can redo, bottom first.
#[derive(Drop)]
#[derive_where(Debug)]
pub struct AuthorStacks<A: Allocator> {
    standing: Vec<u64, A>,
    redo: Vec<u64, A>,
}

// The model has both lists, and whether each has capacity for one more number.
impl<A: Allocator> Model for AuthorStacks<A> {
    ghost use Rattle.std.specs.Prelude.{◌&&◌, nat_lt, vec_len, vec_capacity};
    ghost use Rattle.room_stacks.specs.Inner.Lists.{Usable};

    ghost Value = { Usable };

    ghost view = { λ s. record {
      standing = s.standing.items;
      redo = s.redo.items;
      has_room = nat_lt (vec_len s.standing) (vec_capacity s.standing) && nat_lt (vec_len s.redo) (vec_capacity s.redo);
    } };
}

impl<A: Allocator> AuthorStacks<A> {
    /// Returns empty stacks, or `Memory` if the allocator cannot be cloned.
    pub fn new(alloc: &A) -> Result<AuthorStacks<A>, Memory>
    where
        A: Clone,
        ensures { IfOk result (λ s. (s.standing ≡ []) × (s.redo ≡ [])) }
    {
        Ok(AuthorStacks {
            standing: Vec::new(alloc.clone()?),
            redo: Vec::new(alloc.clone()?),
        })
    }

    /// Returns the active entries, in rising order.
    pub fn standing(&self) -> &[u64]
        ensures { result.now ≡ self.now.standing }
    {
        &self.standing
    }

    /// Returns the entries that can be redone, bottom first.
    pub fn redo(&self) -> &[u64]
        ensures { result.now ≡ self.now.redo }
    {
        &self.redo
    }

    /// Reserves capacity for one more number in each list. If it returns `Memory`, earlier capacity is kept.
    pub fn reserve(&mut self) -> Result<(), Memory>
        ensures standing { self.new.standing ≡ self.old.standing }
        ensures redo { self.new.redo ≡ self.old.redo }
        ensures ok { OnOk result (self.new.has_room ≡ true) }
        ensures kept { self.old.has_room ≡ true → self.new.has_room ≡ true }
    {
        self.standing.try_reserve(1)?;
        self.redo.try_reserve(1)?;
        Ok(())
    }

    /// Adds the number of an action to the active entries, and empties the redo stack.
    pub fn did(&mut self, seq: u64)
        requires { self.old.has_room ≡ true }
        ensures standing { self.new.standing ≡ self.old.standing ++ seq ∷ [] }
        ensures redo { self.new.redo ≡ [] }
    {
        push_reserved(&mut self.standing, seq);
        self.redo.clear();
    }

    /// Moves the number of an active entry to the redo stack. It finds the number in time logarithmic in the number of
    /// active entries, and moves the numbers above it.
    pub fn undid(&mut self, of: u64)
        requires room { self.old.has_room ≡ true }
        requires rising { IsRising self.old.standing }
        ensures standing { self.new.standing ≡ without of self.old.standing }
        ensures redo { self.new.redo ≡ self.old.redo ++ of ∷ [] }
    {
        take_out(&mut self.standing, of);
        push_reserved(&mut self.redo, of);
    }

    /// Adds the number of a redo to the active entries, and pops the redo stack.
    pub fn redid(&mut self, seq: u64)
        requires { self.old.has_room ≡ true }
        ensures standing { self.new.standing ≡ self.old.standing ++ seq ∷ [] }
        ensures redo { self.new.redo ≡ below_top self.old.redo }
    {
        push_reserved(&mut self.standing, seq);
        let _ = self.redo.pop();
    }
}

// Removes a number from rising numbers, if it is there.
fn take_out<A: Allocator>(numbers: &mut Vec<u64, A>, number: u64)
    requires { IsRising numbers.old.items }
    ensures { numbers.new.items ≡ without number numbers.old.items }
{
    match numbers.binary_search(&number) {
        Ok(at) => {
            let _ = numbers.remove(at);
        }
        Err(_) => {}
    }
}

// Appends a number to a list that has capacity for it.
fn push_reserved<A: Allocator>(numbers: &mut Vec<u64, A>, number: u64)
    requires { vec_len numbers.old < vec_capacity numbers.old }
    ensures { numbers.new.items ≡ numbers.old.items ++ number ∷ [] }
{
    match numbers.push(number) {
        Ok(()) => {}
        Err(_) => unreachable!(),
    }
}
