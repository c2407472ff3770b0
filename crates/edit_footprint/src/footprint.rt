//! Footprints: lists of the touches of an action.
ghost use Rattle.std.specs.Prelude.{◌≡◌, IfOk, find, option_copied};
ghost use Rattle.edit_actions.specs.Prelude.{list_any};
ghost use Rattle.edit_footprint.specs.Touches.{does, rivals, touch_set, IsFootprint};
ghost use Rattle.edit_footprint.specs.Footprints.{meets};

use crate::touch::Touch;
use osm_elements::Memory;
use osm_elements::name::Name;
use std::alloc::{AllocError, Allocator};
use std::marker::Model;

/// Touches in their order, each once.
#[derive(Drop)]
#[derive_where(Debug)]
pub struct Footprint<A: Allocator> {
    touches: Vec<Touch, A>,
}

// The model of a footprint is the list of its touches.
impl<A: Allocator> Model for Footprint<A> {
    ghost use Rattle.std.specs.Prelude.{List};
    ghost use Rattle.edit_footprint.specs.Touches.{Touch, IsFootprint};

    ghost Value = { List Touch };

    ghost view = { λ f. f.touches.items };

    ghost invariant = { λ f. IsFootprint f.touches.items };
}

impl<A: Allocator> Footprint<A> {
    /// Returns the footprint of the given touches, which can have any order and repetitions. For `n` touches it takes
    /// time `n log n`. If they consist of few parts that each rise, it takes linear time.
    ///
    /// # Errors
    ///
    /// `Memory`, if an allocation fails.
    pub fn of(mut touches: Vec<Touch, A>) -> Result<Footprint<A>, Memory>
        ensures { IfOk result (λ f. f ≡ touch_set touches.items) }
    {
        touches.sort()?;
        touches.dedup();
        Ok(Footprint { touches })
    }

    /// Returns the touches in their order.
    pub fn touches(&self) -> &[Touch]
        ensures touches { result.now ≡ self.now }
        // True of every footprint.
        ensures rising { IsFootprint self.now }
    {
        &self.touches
    }

    /// Returns the least name at which the footprints meet: a touch of one conflicts with one of the other. Returns
    /// `None` if they do not meet. For a footprint of `n` touches and another of `m`, it takes time `n log m`.
    pub fn meets(&self, other: &Footprint<A>) -> Option<Name>
        ensures { result ≡ meets self.now other.now }
    {
        match self.conflict_with(other) {
            Some(touch) => Some(touch.name()),
            None => None,
        }
    }

    // Returns the first touch that conflicts with one of another footprint.
    fn conflict_with(&self, other: &Footprint<A>) -> Option<&Touch>
        ensures { option_copied result ≡ find (λ t. list_any (does other.now) (rivals t)) self.now }
    {
        self.touches
            .iter()
            .find(|touch| other.conflicts_with(touch))
    }

    // Returns whether a touch of this footprint conflicts with the given touch.
    fn conflicts_with(&self, touch: &Touch) -> bool
        ensures { result ≡ list_any (does self.now) (rivals touch.now) }
    {
        if self.has(&touch.writer()) {
            return true;
        }
        touch.access().is_write() && self.has(&touch.reader())
    }

    // Returns whether this footprint has a touch.
    fn has(&self, touch: &Touch) -> bool
        ensures { result ≡ does self.now touch.now }
    {
        self.touches.binary_search(touch).is_ok()
    }

    /// Returns an equal footprint.
    ///
    /// # Errors
    ///
    /// `Memory`, if an allocation fails.
    pub fn copy(&self) -> Result<Footprint<A>, Memory>
    where
        A: Clone,
        ensures { IfOk result (λ f. f ≡ self.now) }
    {
        Ok(self.clone()?)
    }
}

impl<A: Allocator + Clone> Clone for Footprint<A> {
    ghost is_clone = { λ a b. b ≡ a };

    fn clone(&self) -> Result<Footprint<A>, AllocError> {
        let touches = self.touches.clone()?;
        Ok(Footprint { touches })
    }
}
