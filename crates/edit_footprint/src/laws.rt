//! Laws of footprints. Each law is the contract of an empty function.
ghost use Rattle.std.specs.Prelude.{◌≡◌, ℕ, true, false, List, Some, None};
ghost use Rattle.edit_actions.specs.Prelude.{is_lt, name_cmp, Rows, is_sound, after, is_made_action, refusal};
ghost use Rattle.osm_elements.specs.declared.name.Name.{Name};
ghost use Rattle.room_interface.specs.declared.action.Action.{Action};
ghost use Rattle.edit_footprint.specs.Agreement.{Agree};
ghost use Rattle.edit_footprint.specs.Commutation.{ChangePlaces};
ghost use Rattle.edit_footprint.specs.Examples.{created, retagged, moved, reversed, nodes_given, members_given, deleted, purged, split, joined, merged, unglued, ceased, by_parts, readers};
ghost use Rattle.edit_footprint.specs.Footprints.{footprint, meets, Shares};
ghost use Rattle.edit_footprint.specs.Holding.{Held, AreHeld, HoldsOnly, IsNext, standing, fallen};
ghost use Rattle.edit_footprint.specs.Touches.{Touch, does, rivals, IsFootprint};
ghost use Rattle.edit_footprint.specs.Locality.{LeavesTheRest, AcceptedAlike};

use std::alloc::Allocator;

/// An action, accepted or not, changes nothing that its footprint does not write: no half of a cell, and no element's
/// presence. It changes no users of a name whose presence it does not touch.
pub fn leaves_the_rest<A: Allocator>()
    ensures { (m : Rows A) (a : Action A) → is_sound m ≡ true → LeavesTheRest m a }
{}

/// An action looks only at its footprint. If a sound map accepts it, so does every sound map that agrees with it at the
/// footprint. The changes and the footprint are the same. The action's own values need not be made.
pub fn locality<A: Allocator>()
    ensures { (m n : Rows A) (a : Action A) → is_sound m ≡ true → is_sound n ≡ true → refusal m a ≡ None
        → Agree m n (footprint m a)
        → AcceptedAlike m n a }
{}

/// Two actions, accepted in sequence, commute if their footprints do not meet. The second is accepted before the
/// first, both with the same changes and footprints, and both orders lead to the same map. The values of both actions
/// must be made, so that the map after the first is sound.
pub fn commutation<A: Allocator>()
    ensures { (m : Rows A) (a b : Action A) → is_sound m ≡ true → is_made_action a ≡ true → is_made_action b ≡ true
        → refusal m a ≡ None → refusal (after m a) b ≡ None
        → meets (footprint m a) (footprint (after m a) b) ≡ None → ChangePlaces m a b }
{}

/// Two footprints meet at the least name at which a touch of one conflicts with one of the other, and do not meet
/// exactly if no touches conflict. The order of the two does not matter.
pub fn footprints_meet_in_their_least()
    ensures shared { (one two : List Touch) (x : Name) → meets one two ≡ Some x → Shares one two x }
    ensures least { (one two : List Touch) (x : Name) (t u : Touch) → IsFootprint one → meets one two ≡ Some x
        → does one t ≡ true → does (rivals t) u ≡ true → does two u ≡ true
        → is_lt (name_cmp t.name x) ≡ false }
    ensures none { (one two : List Touch) (t u : Touch) → meets one two ≡ None
        → does one t ≡ true → does (rivals t) u ≡ true → does two u ≡ true → ⊥ }
    ensures either_way { (one two : List Touch) → IsFootprint one → IsFootprint two → meets one two ≡ meets two one }
{}

/// If an entry with the next number becomes active with a footprint, it holds only the touches of this footprint. If
/// it then ceases to be active, each touch is held as before.
pub fn a_fall_restores()
    ensures only { (held : Held) (touches : List Touch) (seq : ℕ) → IsFootprint touches → IsNext held seq
        → HoldsOnly (standing held touches seq) touches seq }
    ensures restored { (held : Held) (touches : List Touch) (seq : ℕ) → AreHeld held → IsFootprint touches
        → IsNext held seq → fallen (standing held touches seq) seq ≡ held }
{}

/// The definitions give the results that were worked out by hand: at least one footprint of each action, and whether
/// two footprints meet.
pub fn examples_are_as_worked()
    ensures created { created }
    ensures retagged { retagged }
    ensures moved { moved }
    ensures reversed { reversed }
    ensures nodes_given { nodes_given }
    ensures members_given { members_given }
    ensures deleted { deleted }
    ensures purged { purged }
    ensures split { split }
    ensures joined { joined }
    ensures merged { merged }
    ensures unglued { unglued }
    ensures ceased { ceased }
    ensures by_parts { by_parts }
    ensures readers { readers }
{}
