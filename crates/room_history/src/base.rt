//! Base maps: the maps that rooms begin with.
ghost use Rattle.std.specs.Prelude.{◌≡◌};
ghost use Rattle.room_history.specs.declared.base.BaseFault.TheVariants.{Memory as OutOfMemory};

use osm_elements::Memory;
use osm_elements::name::Name;
use room_interface::refusal::Refusal;
use std::alloc::Allocator;

/// The reason why a room cannot begin with a map.
#[derive(Drop)]
#[derive_where(Debug)]
pub enum BaseFault<A: Allocator> {
    /// The map is not sound.
    Unsound {
        /// The least name whose row is not sound.
        name: Name,
        /// The fault of this row, the first of these: `TooFew` for a way of fewer than 2 nodes, `TooMany` for a way of
        /// more than 2,000 nodes or a relation of more than 32,000 members, `Absent` with the least name that the row
        /// refers to and the map does not have.
        why: Refusal<A>,
    },
    /// An allocation failed.
    Memory,
}

impl<A: Allocator> From<Memory> for BaseFault<A> {
    ghost from_gives = { λ _ fault. fault ≡ OutOfMemory };

    fn from(_refused: Memory) -> BaseFault<A> {
        BaseFault::Memory
    }
}
