//! The entries that each author can undo and redo.
ghost use Rattle.std.specs.Prelude.{◌≡◌, ◌<◌, ◌++◌, [], ◌∷◌, true, IfOk, OnOk, length, position};
ghost use Rattle.room_interface.specs.Prelude.{IsDistinct, is_same_author};
ghost use Rattle.room_stacks.specs.Stacks.{below_top};
ghost use Rattle.room_stacks.specs.Inner.Lists.{author_at, authors_of, standing_at, redo_at, has_room_at, without, IsRising, KeepsNumbers, SameStacks, KeepsRooms, IsRewritten};

use crate::author_stacks::AuthorStacks;
use indexmap::IndexMap;
use osm_elements::Memory;
use room_interface::author::Author;
use std::alloc::Allocator;
use std::hash::{BuildHasherDefault, FoldHasher};
use std::marker::Model;

/// The known authors, each with its stacks: an author becomes known when memory is first reserved for its next deed.
/// Authors are numbered from 0, in the order in which they became known. A look-up is that of a hash table, whose hash
/// has a fixed seed.
#[derive(Drop)]
#[derive_where(Debug)]
pub struct AuthorLists<A: Allocator> {
    by_author: IndexMap<Author, AuthorStacks<A>, BuildHasherDefault<FoldHasher>, A>,
}

impl<A: Allocator> Model for AuthorLists<A> {
    ghost use Rattle.room_stacks.specs.Inner.Lists.{Lists};

    ghost Value = { Lists };

    ghost view = { λ l. l.by_author.entries };
}

impl<A: Allocator> AuthorLists<A> {
    /// Returns empty lists.
    pub fn new(alloc: A) -> AuthorLists<A>
    where
        A: Copy,
        ensures { result ≡ [] }
    {
        AuthorLists {
            by_author: IndexMap::new(alloc),
        }
    }

    /// Returns an author's active entries, in rising order.
    pub fn standing(&self, author: &Author) -> &[u64]
        ensures { result.now ≡ standing_at self.now author.now }
    {
        match self.by_author.get(author) {
            Some(stacks) => stacks.standing(),
            None => &[],
        }
    }

    /// Returns the entries that an author can redo, bottom first.
    pub fn redo(&self, author: &Author) -> &[u64]
        ensures { result.now ≡ redo_at self.now author.now }
    {
        match self.by_author.get(author) {
            Some(stacks) => stacks.redo(),
            None => &[],
        }
    }

    /// Returns the number of an author, or `None` if the author is not known. It takes a look-up.
    pub fn number(&self, author: &Author) -> Option<usize>
        ensures { result ≡ position (is_same_author author.now) (authors_of self.now) }
    {
        self.by_author.get_index_of(author)
    }

    /// Reserves the memory for an author's next number, and returns the author's number. The author is known
    /// afterwards. It takes a look-up, and another one for a new author. If it returns `Memory`, all stacks and earlier
    /// reservations are unchanged.
    pub fn reserve(&mut self, alloc: &A, author: &Author) -> Result<usize, Memory>
    where
        A: Clone,
        ensures numbers { KeepsNumbers (authors_of self.old) (authors_of self.new) }
        ensures distinct { IsDistinct is_same_author (authors_of self.new) }
        ensures same { SameStacks self.old self.new }
        ensures kept { KeepsRooms self.old self.new }
        ensures number { IfOk result (λ n. (n < length self.new) × (author_at (authors_of self.new) n ≡ author.now)) }
        ensures room { OnOk result (has_room_at self.new author.now ≡ true) }
    {
        match self.by_author.get_index_of(author) {
            Some(number) => {
                self.reserve_at(number)?;
                Ok(number)
            }
            None => {
                let mut stacks = AuthorStacks::new(alloc)?;
                stacks.reserve()?;
                let (number, _) = self.by_author.insert_full(*author, stacks)?;
                Ok(number)
            }
        }
    }

    // Reserves the memory for the next number of the author with this number.
    fn reserve_at(&mut self, author: usize) -> Result<(), Memory>
        requires { author < length self.old }
        ensures authors { authors_of self.new ≡ authors_of self.old }
        ensures same { SameStacks self.old self.new }
        ensures kept { KeepsRooms self.old self.new }
        ensures ok { OnOk result (has_room_at self.new (author_at (authors_of self.old) author) ≡ true) }
    {
        match self.by_author.get_index_mut(author) {
            Some(stacks) => stacks.reserve(),
            None => unreachable!(),
        }
    }

    /// Adds the number of an action to the active entries of the author with this number, and empties its redo stack.
    pub fn did(&mut self, author: usize, seq: u64)
        requires known { author < length self.old }
        requires room { has_room_at self.old (author_at (authors_of self.old) author) ≡ true }
        ensures authors { authors_of self.new ≡ authors_of self.old }
        ensures stacks { IsRewritten self.old self.new (author_at (authors_of self.old) author)
            (standing_at self.old (author_at (authors_of self.old) author) ++ seq ∷ []) [] }
    {
        match self.by_author.get_index_mut(author) {
            Some(stacks) => stacks.did(seq),
            None => unreachable!(),
        }
    }

    /// Moves the number of an active entry of the author with this number to its redo stack.
    pub fn undid(&mut self, author: usize, of: u64)
        requires known { author < length self.old }
        requires room { has_room_at self.old (author_at (authors_of self.old) author) ≡ true }
        requires rising { IsRising (standing_at self.old (author_at (authors_of self.old) author)) }
        ensures authors { authors_of self.new ≡ authors_of self.old }
        ensures stacks { IsRewritten self.old self.new (author_at (authors_of self.old) author)
            (without of (standing_at self.old (author_at (authors_of self.old) author)))
            (redo_at self.old (author_at (authors_of self.old) author) ++ of ∷ []) }
    {
        match self.by_author.get_index_mut(author) {
            Some(stacks) => stacks.undid(of),
            None => unreachable!(),
        }
    }

    /// Adds the number of a redo to the active entries of the author with this number, and pops its redo stack.
    pub fn redid(&mut self, author: usize, seq: u64)
        requires known { author < length self.old }
        requires room { has_room_at self.old (author_at (authors_of self.old) author) ≡ true }
        ensures authors { authors_of self.new ≡ authors_of self.old }
        ensures stacks { IsRewritten self.old self.new (author_at (authors_of self.old) author)
            (standing_at self.old (author_at (authors_of self.old) author) ++ seq ∷ [])
            (below_top (redo_at self.old (author_at (authors_of self.old) author))) }
    {
        match self.by_author.get_index_mut(author) {
            Some(stacks) => stacks.redid(seq),
            None => unreachable!(),
        }
    }
}
