//! Laws of changes. Each is the contract of a function that does nothing.
ghost use Rattle.std.specs.Prelude.{◌≡◌, List};
ghost use Rattle.osm_refs.specs.Prelude.{Rows, AreInOrder, row_at};
ghost use Rattle.osm_elements.specs.declared.name.Name.{Name};
ghost use Rattle.osm_changes.specs.declared.change.Change.{Change};
ghost use Rattle.osm_changes.specs.Changes.{changed, changed_rows, changes_of, differences, inverse, row_after, AreChanges, AreFrom};
ghost use Rattle.osm_changes.specs.Examples.{retagged, come_and_gone, moved, both_parts};

use std::alloc::Allocator;

/// The changes between two maps lead from the first to the second, and their inverse leads back.
pub fn changes_lead_there_and_back<A: Allocator>()
    ensures there { (m n : Rows A) → AreInOrder m → AreInOrder n → changed m (differences m n) ≡ n }
    ensures back { (m n : Rows A) → AreInOrder m → AreInOrder n → changed n (inverse (differences m n)) ≡ m }
{}

/// Changes from a map are those of the rows that they change.
pub fn changes_are_those_of_rows<A: Allocator>()
    ensures { (m : Rows A) (cs : List (Change A)) → AreChanges cs → AreFrom m cs → changes_of (changed_rows m cs) ≡ cs }
{}

/// The changes between two maps are changes from the first map. Their cells rise, and their halves before and after
/// differ.
pub fn differences_are_changes<A: Allocator>()
    ensures changes { (m n : Rows A) → AreChanges (differences m n) }
    ensures from { (m n : Rows A) → AreFrom m (differences m n) }
{}

/// Changes from a map, applied and then taken back, lead back to that map: their inverse is from the map after them,
/// and leads to the map before.
pub fn an_inverse_restores<A: Allocator>()
    ensures from { (m : Rows A) (cs : List (Change A)) → AreInOrder m → AreChanges cs → AreFrom m cs
        → AreFrom (changed m cs) (inverse cs) }
    ensures map { (m : Rows A) (cs : List (Change A)) → AreInOrder m → AreChanges cs → AreFrom m cs
        → changed (changed m cs) (inverse cs) ≡ m }
{}

/// After changes, the row of a name consists of its two halves after them, whatever else they change.
pub fn a_row_is_made_of_its_halves<A: Allocator>()
    ensures { (m : Rows A) (cs : List (Change A)) (x : Name) → row_at (changed m cs) x ≡ row_after cs x (row_at m x) }
{}

/// The definitions agree with examples that were worked out by hand.
pub fn examples_are_as_worked()
    ensures retagged { retagged }
    ensures come_and_gone { come_and_gone }
    ensures moved { moved }
    ensures both_parts { both_parts }
{}
