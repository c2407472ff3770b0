//! Laws of the definitions. Each law is the contract of an empty function.
ghost use Rattle.std.specs.Prelude.{◌≡◌, ◌++◌, ℕ, true, false, List, [], ◌∷◌, All, take};
ghost use Rattle.edit_groups.specs.Prelude.{AreInOrder, IsFirstUnsound, are_of_kinds, Rows, half_at, cell_of, differences, inverse, AreChanges, AreFrom, counted, is_sound};
ghost use Rattle.osm_changes.specs.Changes.{changed};
ghost use Rattle.turn_desk.specs.History.{History, entries, IsLegal};
ghost use Rattle.room_interface.specs.declared.refusal.Refusal.{Refusal};
ghost use Rattle.osm_elements.specs.declared.name.Name.{Name};
ghost use Rattle.room_history.specs.declared.base.BaseFault.{BaseFault};
ghost use Rattle.room_history.specs.declared.base.BaseFault.TheVariants.{Memory as OutOfMemory};
ghost use Rattle.room_history.specs.Bases.{IsBaseFault};
ghost use Rattle.room_history.specs.declared.entry.Entry.{Entry};
ghost use Rattle.room_history.specs.declared.turned.Opening.{Opening};
ghost use Rattle.osm_changes.specs.declared.change.Change.{Change};
ghost use Rattle.room_history.specs.Applied.{applied};
ghost use Rattle.room_history.specs.Headline.{Holds};
ghost use Rattle.room_history.specs.Replays.{past, mapof, recorded_next};
ghost use Rattle.room_history.specs.LegalJournals.{IsJournal};
ghost use Rattle.room_history.specs.Turns.{IsTurn};
ghost use Rattle.room_history.specs.Examples.{first_run, range_ends, limit_one, limit_zero, strangers, in_use, taken_back_way, refusals_in_turn, relations_in_turn, redo_at_once, redo_refused, redo_order, redo_again, unglued_node, blocker_goes_by_parts, both_moved, two_blockers_by_parts, split_over_retag, over_one_node, drawn_as_one, joined_street, seen_since};

use osm_changes::laws::{an_inverse_restores, differences_are_changes};
use std::alloc::Allocator;

/// The theorem: every journal that calls lead to from a sound base holds.
pub fn journals_hold<A: Allocator>()
    ensures { (base : Rows A) (limit : ℕ) (j : List (Entry A)) → is_sound base ≡ true → IsJournal base limit j
        → Holds base limit j }
{
    leads_back::<A>();
}

/// If calls lead to a journal, they also lead to its first `n` entries.
pub fn journals_begin<A: Allocator>()
    ensures { (base : Rows A) (limit : ℕ) (j : List (Entry A)) (n : ℕ) → IsJournal base limit j
        → IsJournal base limit (take n j) }
{}

/// Every legal history of a room's desk is a journal that calls lead to. If the base is sound, it holds. The law is in
/// this crate because the desk knows nothing of rooms, and anyone with a seat at a room's desk uses both crates.
pub fn legal_histories_hold<A: Allocator>()
    ensures journal { (opening : Opening A) (h : History (Entry A)) → IsLegal IsTurn opening h
        → IsJournal opening.base opening.limit (entries h) }
    ensures holds { (opening : Opening A) (h : History (Entry A)) → is_sound opening.base ≡ true
        → IsLegal IsTurn opening h → Holds opening.base opening.limit (entries h) }
{
    leads_back::<A>();
}

/// A room can begin with every sound map. The names of its rows rise, each element is of its name's kind, and the only
/// refusal is `Memory`.
pub fn a_sound_map_can_be_a_base<A: Allocator>()
    ensures order { (m : Rows A) → is_sound m ≡ true → AreInOrder m }
    ensures kinds { (m : Rows A) → is_sound m ≡ true → are_of_kinds m ≡ true }
    ensures memory { (m : Rows A) (fault : BaseFault A) → is_sound m ≡ true → IsBaseFault m fault
        → fault ≡ OutOfMemory }
{}

/// If the definitions give a map a first row that is not sound, the map is not sound. There is only one such row, with
/// only one reason.
pub fn an_unsound_map_has_one_fault<A: Allocator>()
    ensures unsound { (m : Rows A) (x : Name) (why : Refusal A) → IsFirstUnsound m x why → is_sound m ≡ false }
    ensures one { (m : Rows A) (x y : Name) (why other : Refusal A) → IsFirstUnsound m x why → IsFirstUnsound m y other
        → (x ≡ y) × (why ≡ other) }
{}

/// An entry counts as many changes as it made: an action its changes, an undo the changes that it took back.
pub fn entries_are_counted<A: Allocator>()
    ensures { (base : Rows A) (j : List (Entry A)) (e : Entry A)
        → applied base (j ++ e ∷ []) ≡ counted (applied base j) (recorded_next (past base j) e.kind).changes }
{}

/// An entry's changes are from the map before it, and lead to halves of the map after it. Their cells rise, and the
/// halves before and after a change differ.
pub fn entries_change_their_maps<A: Allocator>()
    ensures changes { (base : Rows A) (limit : ℕ) (i k : List (Entry A)) (e : Entry A) → is_sound base ≡ true
        → IsJournal base limit (i ++ e ∷ k)
        → AreChanges (recorded_next (past base i) e.kind).changes }
    ensures from { (base : Rows A) (limit : ℕ) (i k : List (Entry A)) (e : Entry A) → is_sound base ≡ true
        → IsJournal base limit (i ++ e ∷ k)
        → AreFrom (mapof base i) (recorded_next (past base i) e.kind).changes }
    ensures leads { (base : Rows A) (limit : ℕ) (i k : List (Entry A)) (e : Entry A) → is_sound base ≡ true
        → IsJournal base limit (i ++ e ∷ k)
        → All (λ (c : Change A). c.after ≡ half_at (mapof base (i ++ e ∷ [])) (cell_of c))
        (recorded_next (past base i) e.kind).changes }
{
    differences_are_changes::<A>();
    an_inverse_restores::<A>();
}

/// The definitions give the replies that were worked out by hand for each example.
pub fn replies_are_as_worked()
    ensures first_run { first_run }
    ensures range_ends { range_ends }
    ensures limit_one { limit_one }
    ensures limit_zero { limit_zero }
    ensures strangers { strangers }
    ensures in_use { in_use }
    ensures taken_back_way { taken_back_way }
    ensures refusals_in_turn { refusals_in_turn }
    ensures relations_in_turn { relations_in_turn }
    ensures redo_at_once { redo_at_once }
    ensures redo_refused { redo_refused }
    ensures redo_order { redo_order }
    ensures redo_again { redo_again }
    ensures unglued_node { unglued_node }
    ensures blocker_goes_by_parts { blocker_goes_by_parts }
    ensures both_moved { both_moved }
    ensures two_blockers_by_parts { two_blockers_by_parts }
    ensures split_over_retag { split_over_retag }
    ensures over_one_node { over_one_node }
    ensures drawn_as_one { drawn_as_one }
    ensures joined_street { joined_street }
    ensures seen_since { seen_since }
{}

// Proves facts about changes and their inverses. It does nothing.
pub(crate) fn leads_back<A: Allocator>()
    ensures differ { (m n : Rows A) → AreChanges (differences m n) }
    ensures from { (m n : Rows A) → AreFrom m (differences m n) }
    ensures back { (m : Rows A) (cs : List (Change A)) → AreInOrder m → AreChanges cs → AreFrom m cs
        → AreFrom (changed m cs) (inverse cs) }
{
    differences_are_changes::<A>();
    an_inverse_restores::<A>();
}
