//! The active entries by the touches of their footprints.
ghost use Rattle.std.specs.Prelude.{◌≡◌, [], nat_lt, OnOk, OnErr, find};
ghost use Rattle.edit_actions.specs.Prelude.{nat_cmp};
ghost use Rattle.rising_lists.specs.Rising.{IsRising};
ghost use Rattle.edit_footprint.specs.Holding.{AreHeld, IsNext, HoldsOnly, IsFirstAfter, holding, standing, fallen};
ghost use Rattle.edit_footprint.specs.Touches.{Touch};
ghost use Rattle.edit_footprint.specs.Inner.Searching as inner;

use crate::footprint::Footprint;
use crate::touch::Touch;
use osm_elements::Memory;
use osm_elements::name::Name;
use rising_lists::lists::RisingLists;
use std::alloc::Allocator;
use std::marker::Model;

/// The numbers of the active entries, by the touches of their footprints. Each touch has its numbers in rising order.
/// The caller keeps the footprints, and lends an entry's footprint when the entry ceases to be active.
#[derive(Drop)]
#[derive_where(Debug)]
pub struct Holders<A: Allocator> {
    #[derive_where(skip)]
    alloc: A,
    lists: RisingLists<Touch, u64, A>,
}

// The model of holders is the list of the held touches in their order, each with the numbers of the entries that hold
// it.
impl<A: Allocator> Model for Holders<A> {
    ghost use Rattle.edit_footprint.specs.Holding.{Held};

    ghost Value = { Held };

    ghost view = { λ h. h.lists.lists.entries };
}

impl<A: Allocator> Holders<A> {
    /// Returns holders without entries. `A` is `Copy` because it is kept next to the lists too, and a `Clone` may fail.
    pub fn new(alloc: A) -> Holders<A>
    where
        A: Copy,
        ensures { result ≡ [] }
    {
        Holders {
            alloc,
            lists: RisingLists::new(alloc),
        }
    }

    /// Adds an active entry. Its number must be greater than those of all active entries. For each touch of
    /// the footprint, it takes time logarithmic in the number of held touches. An entry can be added before the store
    /// changes, and removed again if the store refuses the change (law `a_fall_restores`). Clause `held` is true of all
    /// holders, and a premise of that law.
    ///
    /// # Errors
    ///
    /// `Memory`, if an allocation fails.
    pub fn stand(&mut self, footprint: &Footprint<A>, seq: u64) -> Result<(), Memory>
    where
        A: Clone,
        requires { IsNext self.old seq }
        ensures held { AreHeld self.old }
        ensures ok { OnOk result (self.new ≡ standing self.old footprint.now seq) }
        ensures err { OnErr result (self.new ≡ self.old) }
    {
        let touches = footprint.touches();
        self.lists.add_all(&self.alloc, touches, seq)?;
        Ok(())
    }

    /// Removes an entry, which must hold no touches outside the given footprint. A touch that no other entry holds is
    /// removed too. For each touch of the footprint, it takes time logarithmic in the number of held touches, and the
    /// time to move the later numbers of that touch.
    pub fn fall(&mut self, footprint: &Footprint<A>, seq: u64)
        requires { HoldsOnly self.old footprint.now seq }
        ensures { self.new ≡ fallen self.old seq }
    {
        self.lists.take_out_all(footprint.touches(), &seq);
    }

    /// Returns the first entry after the number `seq` whose footprint meets the given one, with the least name at which
    /// it does. Returns `None` if there is no such entry. For each touch of the footprint, it takes time logarithmic in
    /// the number of held touches and in the number of entries that hold a conflicting one. There is exactly one such
    /// result (`just_one` of `specs/Facts/Holding.antt`).
    pub fn first_after(&self, footprint: &Footprint<A>, seq: u64) -> Option<(u64, Name)>
        ensures { IsFirstAfter self.now footprint.now seq result }
    {
        let touches = footprint.touches();
        let mut first = None;
        for touch in touches {
            first = self.sooner_rival(first, touch, seq);
        }
        first
    }

    // Returns the sooner of an entry and of the entries after `seq` that hold a touch which conflicts with the given
    // one.
    fn sooner_rival(
        &self,
        first: Option<(u64, Name)>,
        touch: &Touch,
        seq: u64,
    ) -> Option<(u64, Name)>
        ensures sooner { result ≡ inner.sooner_rival self.now first touch.now seq }
        ensures rising { (t : Touch) → IsRising nat_cmp (holding self.now t) }
    {
        let first = sooner(first, self.next_of(&touch.writer(), seq), touch.name());
        if touch.access().is_write() {
            return sooner(first, self.next_of(&touch.reader(), seq), touch.name());
        }
        first
    }

    // Returns the first entry after `seq` that holds a touch.
    fn next_of(&self, touch: &Touch, seq: u64) -> Option<u64>
        ensures first { result ≡ find (nat_lt seq) (holding self.now touch.now) }
        ensures rising { (t : Touch) → IsRising nat_cmp (holding self.now t) }
    {
        next(self.lists.of(touch), seq)
    }
}

// Returns the least of rising numbers that is greater than `seq`, in time logarithmic in their number.
fn next(numbers: &[u64], seq: u64) -> Option<u64>
    requires { IsRising nat_cmp numbers.now }
    ensures { result ≡ find (nat_lt seq) numbers.now }
{
    let after = numbers.partition_point(|number| *number <= seq);
    numbers.get(after).copied()
}

// Returns the sooner of two entries with their names. If both are the same entry, it keeps the first name.
fn sooner(first: Option<(u64, Name)>, number: Option<u64>, name: Name) -> Option<(u64, Name)>
    ensures { result ≡ inner.sooner first number name }
{
    match (first, number) {
        (_, None) => first,
        (Some((sooner, _)), Some(number)) if sooner <= number => first,
        (_, Some(number)) => Some((number, name)),
    }
}
