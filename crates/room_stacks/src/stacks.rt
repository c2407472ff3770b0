//! The stacks of a room.
ghost use Rattle.std.specs.Prelude.{◌≡◌, ◌++◌, [], ◌∷◌, true, None, Some, OnOk, OnErr};
ghost use Rattle.std.specs.List.Sorted.{IsStrictlyIncreasing};
ghost use Rattle.room_stacks.specs.declared.deed.Deed.TheVariants.{Did, Undid, Redid};
ghost use Rattle.room_stacks.specs.Stacks.{IsAboveAll, spent, standing, is_standing, redo, top};

use crate::author_lists::AuthorLists;
use crate::spent_ids::{SpentIds, Work};
use osm_elements::Memory;
use room_interface::author::Author;
use std::alloc::Allocator;
use std::marker::Model;

/// What each author of a room can still use. A deed is recorded in two steps: [`Stacks::ready`] allocates, and can
/// refuse. Then [`Stacks::did`], [`Stacks::undid`] or [`Stacks::redid`] records the deed.
#[derive(Drop)]
#[derive_where(Debug)]
pub struct Stacks<A: Allocator> {
    lists: AuthorLists<A>,
    ids: SpentIds<A>,
    // The number of the author who is ready.
    ready: Option<usize>,
}

// The model has the deeds of the authors, and the author who is ready for the next deed.
impl<A: Allocator> Model for Stacks<A> {
    ghost use Rattle.room_stacks.specs.Stacks.{StacksState};

    ghost Value = { StacksState };

    ghost use Rattle.std.specs.Option.{option_map};
    ghost use Rattle.room_stacks.specs.Inner.Kept.{IsKept};
    ghost use Rattle.room_stacks.specs.Inner.Lists.{author_at, authors_of};
    ghost use Rattle.room_stacks.specs.Inner.SpentIds.{deeds_of};

    ghost view = { λ s. record {
      deeds = deeds_of (authors_of s.lists) s.ids.works;
      ready = option_map (author_at (authors_of s.lists)) s.ready;
    } };

    ghost invariant = { λ s. IsKept s.ready s.ids s.lists };
}

impl<A: Allocator> Stacks<A> {
    /// Returns the stacks of a room without deeds. `A` is `Copy` because several collections are made, and a `Clone`
    /// may fail.
    pub fn new(alloc: A) -> Stacks<A>
    where
        A: Copy,
        ensures { result ≡ record { deeds = []; ready = None } }
    {
        Stacks {
            lists: AuthorLists::new(alloc),
            ids: SpentIds::new(alloc),
            ready: None,
        }
    }

    /// Returns the number of the deed that spent an author's id, or `None`. It takes two hash look-ups, of the author
    /// and of the id. Their time is constant on average. It grows with the number of authors or of spent ids if these
    /// were chosen to have equal hashes.
    pub fn spent(&self, author: &Author, id: u64) -> Option<u64>
        ensures { result ≡ spent self.now.deeds author.now id }
    {
        let Some(author) = self.lists.number(author) else {
            return None;
        };
        self.ids.spent(author, id)
    }

    /// Returns the numbers of an author's active entries, in rising order. It takes a hash look-up of the author.
    pub fn standing(&self, author: &Author) -> &[u64]
        ensures numbers { result.now ≡ standing self.now.deeds author.now }
        ensures rising { IsStrictlyIncreasing result.now }
    {
        self.lists.standing(author)
    }

    /// Returns the numbers of the entries that an author undid since its last new action and did not redo, in the order
    /// of their undos. It takes a hash look-up of the author.
    pub fn redo(&self, author: &Author) -> &[u64]
        ensures { result.now ≡ redo self.now.deeds author.now }
    {
        self.lists.redo(author)
    }

    /// Reserves the memory for the next deed of an author, who then replaces the author who was ready. It takes a hash
    /// look-up of the author. This is an average over many deeds: a call may move all spent ids, all authors or all
    /// numbers of the author.
    ///
    /// # Errors
    ///
    /// `Memory`, if an allocation fails.
    pub fn ready(&mut self, author: &Author) -> Result<(), Memory>
    where
        A: Clone,
        ensures ok { OnOk result (self.new ≡ record self.old { ready = Some author.now }) }
        ensures err { OnErr result (self.new ≡ self.old) }
    {
        let alloc = self.ids.allocator().clone()?;
        self.ids.reserve()?;
        self.ready = Some(self.lists.reserve(&alloc, author)?);
        Ok(())
    }

    /// Records that the ready author did an action under the id `id`, in the entry `seq`. It takes a hash look-up of
    /// the id.
    pub fn did(&mut self, author: Author, id: u64, seq: u64)
        requires ready { self.old.ready ≡ Some author }
        requires unspent { spent self.old.deeds author id ≡ None }
        requires last { IsAboveAll seq self.old.deeds }
        ensures { self.new ≡ record { deeds = self.old.deeds ++ Did author id seq ∷ []; ready = None } }
    {
        let Some(ready) = self.ready else {
            unreachable!()
        };
        self.ids.spend(ready, id, Work::Did { seq });
        self.lists.did(ready, seq);
        self.ready = None;
    }

    /// Records that the ready author undid its active entry `of` under the id `id`, in the entry `seq`. It costs what
    /// [`Stacks::did`] costs, and time logarithmic in the number of the author's active entries. The numbers after `of`
    /// are moved.
    pub fn undid(&mut self, author: Author, id: u64, of: u64, seq: u64)
        requires ready { self.old.ready ≡ Some author }
        requires unspent { spent self.old.deeds author id ≡ None }
        requires stands { is_standing self.old.deeds author of ≡ true }
        requires last { IsAboveAll seq self.old.deeds }
        ensures { self.new ≡ record { deeds = self.old.deeds ++ Undid author id of seq ∷ []; ready = None } }
    {
        let Some(ready) = self.ready else {
            unreachable!()
        };
        self.ids.spend(ready, id, Work::Undid { of, seq });
        self.lists.undid(ready, of);
        self.ready = None;
    }

    /// Records that the ready author redid the action of the entry `of` under the id `id`, in the entry `seq`, which is
    /// then active. `of` must be the last number of [`Stacks::redo`]. It costs what [`Stacks::did`] costs. It pops the
    /// top without reading `of`; clause `on_top` ensures that each recorded redo was possible. A later undo of this
    /// entry pushes `seq`.
    pub fn redid(&mut self, author: Author, id: u64, of: u64, seq: u64)
        requires ready { self.old.ready ≡ Some author }
        requires unspent { spent self.old.deeds author id ≡ None }
        requires on_top { top (redo self.old.deeds author) ≡ Some of }
        requires last { IsAboveAll seq self.old.deeds }
        ensures { self.new ≡ record { deeds = self.old.deeds ++ Redid author id of seq ∷ []; ready = None } }
    {
        let Some(ready) = self.ready else {
            unreachable!()
        };
        self.ids.spend(ready, id, Work::Redid { of, seq });
        self.lists.redid(ready, seq);
        self.ready = None;
    }
}
