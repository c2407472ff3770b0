//! Refusals of edits.
ghost use Rattle.std.specs.Prelude.{◌≡◌};
ghost use Rattle.room_interface.specs.declared.refusal.Refusal.TheVariants.{Memory as OutOfMemory};
ghost use Rattle.room_interface.specs.Groups.{alone};

use crate::refusal::Refusal;
use osm_elements::Memory;
use std::alloc::Allocator;

/// The refusal of an edit.
#[derive(Drop)]
#[derive_where(Debug)]
pub struct EditRefusal<A: Allocator> {
    /// The position of the refused action in its group, from 0. It is `None` if the edit is one action, if the whole
    /// group changes nothing, or if an allocation failed.
    pub action: Option<u32>,
    /// The reason.
    pub why: Refusal<A>,
}

impl<A: Allocator> From<Memory> for EditRefusal<A> {
    ghost from_gives = { λ _ r. r ≡ alone OutOfMemory };

    fn from(_refused: Memory) -> EditRefusal<A> {
        EditRefusal {
            action: None,
            why: Refusal::Memory,
        }
    }
}
