//! Refusals of actions.
ghost use Rattle.std.specs.Prelude.{◌≡◌};
ghost use Rattle.room_interface.specs.declared.refusal.Refusal.TheVariants.{Memory as OutOfMemory};

use osm_elements::Memory;
use osm_elements::name::Name;
use osm_elements::text::Text;
use std::alloc::Allocator;

/// The reason why an action is refused on a map. If several names fail a check, the refusal has the least of them in
/// name order.
#[derive(Drop)]
#[derive_where(Debug)]
pub enum Refusal<A: Allocator> {
    /// The map has no element with this name.
    Absent(Name),
    /// The map already has an element with this name.
    Present(Name),
    /// The name is of another kind than the element or the action requires.
    WrongKind(Name),
    /// The action needs two elements, and this name was given for both.
    Same(Name),
    /// A split of the way at this position would not leave two parts, or an unglued way has no node at this position.
    BadPosition,
    /// The first of two ways to join does not end where the second begins.
    NotEndToEnd,
    /// Two elements to unite have different values at this key.
    TagConflict(Text<A>),
    /// This node would leave the range of latitudes or longitudes.
    OutOfRange(Name),
    /// This way would have fewer than 2 nodes.
    TooFew(Name),
    /// This way would have more than 2,000 nodes, this relation more than 32,000 members, or this element more than
    /// 1,000 tags.
    TooMany(Name),
    /// An element refers to the first name. The second name is the least that refers to it, which can be the first name
    /// itself.
    InUse(Name, Name),
    /// The action would not change the map.
    Nothing,
    /// An allocation failed.
    Memory,
}

impl<A: Allocator> From<Memory> for Refusal<A> {
    ghost from_gives = { λ _ r. r ≡ OutOfMemory };

    fn from(_refused: Memory) -> Refusal<A> {
        Refusal::Memory
    }
}
