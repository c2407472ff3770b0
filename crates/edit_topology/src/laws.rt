//! Laws of the actions. Each law is the contract of an empty function.
ghost use Rattle.std.specs.Prelude.{◌≡◌, ◌≢◌, ℕ, true, false, List, Some, None};
ghost use Rattle.edit_simple.specs.Prelude.{option_or, Less, Rows, is_same, is_among, row_at, text_cmp, value_at, Pairs, are_tags, row_references, is_sound, first_that_holds};
ghost use Rattle.osm_elements.specs.declared.name.Name.{Name};
ghost use Rattle.edit_topology.specs.BothTags.{both_tags, conflict, HasTwo};
ghost use Rattle.edit_topology.specs.Examples.{closed_way_split, members_split, split_refusals, ends_joined, members_joined, tags_joined, join_refusals, neighbours_merged, doubles_merged, members_merged, tags_merged, merge_refusals, map_unglued, closed_way_unglued, doubles_unglued, node_copied, unglue_refusals};
ghost use Rattle.edit_topology.specs.Join.{join_checks, after_join};
ghost use Rattle.edit_topology.specs.Merge.{merge_checks, after_merge};
ghost use Rattle.edit_topology.specs.Split.{split_checks, after_split};
ghost use Rattle.edit_topology.specs.Unglue.{unglue_checks, after_unglue};

use std::alloc::Allocator;

/// If a sound map accepts an action, the map after it is sound too, and is a different map.
#[tactic(auto, using(crate::specs::Facts::Splitting::split_accepted, crate::specs::Facts::Joining::join_accepted, crate::specs::Facts::Merging::merge_accepted, crate::specs::Facts::Ungluing::unglue_accepted,))]
pub fn accepted_keeps_sound<A: Allocator>()
    ensures split { (m : Rows A) (w : Name) (i : ℕ) (v : Name) → is_sound m ≡ true
        → first_that_holds (split_checks m w i v) ≡ None
        → (is_sound (after_split m w i v) ≡ true) × (after_split m w i v ≢ m) }
    ensures join { (m : Rows A) (w v : Name) → is_sound m ≡ true → first_that_holds (join_checks m w v) ≡ None
        → (is_sound (after_join m w v) ≡ true) × (after_join m w v ≢ m) }
    ensures merge { (m : Rows A) (k g : Name) → is_sound m ≡ true → first_that_holds (merge_checks m k g) ≡ None
        → (is_sound (after_merge m k g) ≡ true) × (after_merge m k g ≢ m) }
    ensures unglue { (m : Rows A) (w : Name) (i : ℕ) (v : Name) → is_sound m ≡ true
        → first_that_holds (unglue_checks m w i v) ≡ None
        → (is_sound (after_unglue m w i v) ≡ true) × (after_unglue m w i v ≢ m) }
{}

/// An action changes no rows except those of its subjects and of some users. A split changes users of the split way, a
/// join users of the way that it removes, and a merge users of the node that it removes. An unglue changes only its
/// subjects' rows.
#[tactic(auto, using(crate::specs::Facts::Staying::split_leaves, crate::specs::Facts::Staying::join_leaves, crate::specs::Facts::Staying::merge_leaves, crate::specs::Facts::Staying::unglue_leaves,))]
pub fn the_rest_stays<A: Allocator>()
    ensures split { (m : Rows A) (w : Name) (i : ℕ) (v y : Name) → is_same y w ≡ false → is_same y v ≡ false
        → is_among (row_references (row_at m y)) w ≡ false
        → row_at (after_split m w i v) y ≡ row_at m y }
    ensures join { (m : Rows A) (w v y : Name) → is_same y w ≡ false → is_same y v ≡ false
        → is_among (row_references (row_at m y)) v ≡ false
        → row_at (after_join m w v) y ≡ row_at m y }
    ensures merge { (m : Rows A) (k g y : Name) → is_same y k ≡ false → is_same y g ≡ false
        → is_among (row_references (row_at m y)) g ≡ false
        → row_at (after_merge m k g) y ≡ row_at m y }
    ensures unglue { (m : Rows A) (w : Name) (i : ℕ) (v y : Name) → is_same y w ≡ false → is_same y v ≡ false
        → row_at (after_unglue m w i v) y ≡ row_at m y }
{}

/// If a sound map accepts an action, every user of the split or removed element changes. With `the_rest_stays`: apart
/// from the subjects, exactly these users change.
#[tactic(auto, using(crate::specs::Facts::Changing::split_changes, crate::specs::Facts::Changing::join_changes, crate::specs::Facts::Changing::merge_changes,))]
pub fn each_user_changes<A: Allocator>()
    ensures split { (m : Rows A) (w : Name) (i : ℕ) (v y : Name) → is_sound m ≡ true
        → first_that_holds (split_checks m w i v) ≡ None → is_among (row_references (row_at m y)) w ≡ true
        → row_at (after_split m w i v) y ≢ row_at m y }
    ensures join { (m : Rows A) (w v y : Name) → is_sound m ≡ true → first_that_holds (join_checks m w v) ≡ None
        → is_among (row_references (row_at m y)) v ≡ true
        → row_at (after_join m w v) y ≢ row_at m y }
    ensures merge { (m : Rows A) (k g y : Name) → is_sound m ≡ true → first_that_holds (merge_checks m k g) ≡ None
        → is_among (row_references (row_at m y)) g ≡ true
        → row_at (after_merge m k g) y ≢ row_at m y }
{}

/// After an accepted split of a sound map, a join of both parts is accepted, and leads back to the map before the
/// split.
#[tactic(auto, using(crate::specs::Facts::SplitJoined::split_joins, crate::specs::Facts::SplitJoined::split_joins_to,))]
pub fn join_takes_back_split<A: Allocator>()
    ensures accepted { (m : Rows A) (w : Name) (i : ℕ) (v : Name) → is_sound m ≡ true
        → first_that_holds (split_checks m w i v) ≡ None
        → first_that_holds (join_checks (after_split m w i v) w v) ≡ None }
    ensures restored { (m : Rows A) (w : Name) (i : ℕ) (v : Name) → is_sound m ≡ true
        → first_that_holds (split_checks m w i v) ≡ None
        → after_join (after_split m w i v) w v ≡ m }
{}

/// United tags have at each key the other element's value, or else the first element's. If there is no conflict, no key
/// has two values, so the order does not matter. A conflict is the least key that has two values.
pub fn tags_unite()
    ensures values { (tags others : Pairs) → are_tags others ≡ true → (key : List ℕ)
        → value_at (both_tags tags others) key ≡ option_or (value_at others key) (value_at tags key) }
    ensures none { (tags others : Pairs) → conflict tags others ≡ None → (key : List ℕ) → HasTwo tags others key → ⊥ }
    ensures least { (tags others : Pairs) → are_tags tags ≡ true → (key : List ℕ) → conflict tags others ≡ Some key
        → HasTwo tags others key × ((lesser : List ℕ) → HasTwo tags others lesser → text_cmp lesser key ≢ Less) }
{}

/// The definitions give the results that were worked out by hand for each example.
pub fn examples_are_as_worked()
    ensures closed_way_split { closed_way_split }
    ensures members_split { members_split }
    ensures split_refusals { split_refusals }
    ensures ends_joined { ends_joined }
    ensures members_joined { members_joined }
    ensures tags_joined { tags_joined }
    ensures join_refusals { join_refusals }
    ensures neighbours_merged { neighbours_merged }
    ensures doubles_merged { doubles_merged }
    ensures members_merged { members_merged }
    ensures tags_merged { tags_merged }
    ensures merge_refusals { merge_refusals }
    ensures map_unglued { map_unglued }
    ensures closed_way_unglued { closed_way_unglued }
    ensures doubles_unglued { doubles_unglued }
    ensures node_copied { node_copied }
    ensures unglue_refusals { unglue_refusals }
{}
