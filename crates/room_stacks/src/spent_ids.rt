//! The ids that authors spent.
ghost use Rattle.std.specs.Prelude.{◌≡◌, ◌<◌, ◌≤◌, ◌++◌, [], ◌∷◌, None, OnOk, option_map};
ghost use Rattle.std.specs.Map.{lookup};
ghost use Rattle.room_stacks.specs.Inner.SpentIds.{is_key, work_number};

use indexmap::IndexMap;
use osm_elements::Memory;
use std::alloc::Allocator;
use std::hash::{BuildHasherDefault, FoldHasher};
use std::marker::Model;

// An id of an author, who is given by its number. Each author has ids of its own.
#[derive(Clone, Copy, Debug, PartialEq, Eq, Hash)]
struct Spending {
    id: u64,
    author: usize,
}

/// The work for which an id was spent, with the entry number `seq`.
#[derive(Clone, Copy, Debug, Drop)]
pub enum Work {
    /// Did an action.
    Did { seq: u64 },
    /// Undid the entry with the number `of`.
    Undid { of: u64, seq: u64 },
    /// Redid the action of the entry with the number `of`.
    Redid { of: u64, seq: u64 },
}

impl Work {
    ghost use Rattle.room_stacks.specs.Inner.SpentIds.{work_number};

    /// Returns the number of the entry.
    fn seq(&self) -> u64
        ensures { result ≡ work_number self.now }
    {
        match self {
            Work::Did { seq } | Work::Undid { seq, .. } | Work::Redid { seq, .. } => *seq,
        }
    }
}

/// The spent ids in the order of their entries, each with its work. An author is given by its number, so a spent id
/// needs no name.
#[derive(Drop)]
#[derive_where(Debug)]
pub struct SpentIds<A: Allocator> {
    // An `IndexMap` keeps its entries in the order of insertion, so that they list the deeds. Its hash has a fixed
    // seed.
    works: IndexMap<Spending, Work, BuildHasherDefault<FoldHasher>, A>,
}

// The model has the works, and the capacity for more.
impl<A: Allocator> Model for SpentIds<A> {
    ghost use Rattle.indexmap.specs.IndexMap.{spare};
    ghost use Rattle.room_stacks.specs.Inner.SpentIds.{Spent};

    ghost Value = { Spent };

    ghost view = { λ s. record { works = s.works.entries; room = spare s.works } };
}

impl<A: Allocator> SpentIds<A> {
    /// Returns no ids.
    pub fn new(alloc: A) -> SpentIds<A>
    where
        A: Copy,
        ensures { result.works ≡ [] }
    {
        SpentIds {
            works: IndexMap::new(alloc),
        }
    }

    /// Returns the allocator.
    pub fn allocator(&self) -> &A {
        self.works.allocator()
    }

    /// Returns the number of the entry for which an author spent an id, or `None`. It takes a look-up of the id.
    pub fn spent(&self, author: usize, id: u64) -> Option<u64>
        ensures { result ≡ option_map work_number (lookup (is_key author id) self.now.works) }
    {
        match self.works.get(&Spending { id, author }) {
            Some(work) => Some(work.seq()),
            None => None,
        }
    }

    /// Reserves the memory for one more id.
    pub fn reserve(&mut self) -> Result<(), Memory>
        ensures works { self.new.works ≡ self.old.works }
        ensures ok { OnOk result (0 < self.new.room) }
        ensures room { self.old.room ≤ self.new.room }
    {
        self.works.reserve(1)?;
        Ok(())
    }

    /// Spends an id. There must be capacity. It takes a look-up of the id.
    pub fn spend(&mut self, author: usize, id: u64, work: Work)
        requires unspent { lookup (is_key author id) self.old.works ≡ None }
        requires room { 0 < self.old.room }
        ensures { self.new.works ≡ self.old.works ++ (record { id = id; author = author }, work) ∷ [] }
    {
        match self.works.insert(Spending { id, author }, work) {
            Ok(_) => {}
            Err(_) => unreachable!(),
        }
    }
}
