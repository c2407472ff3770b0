//! Laws of the actions. Each is the contract of a function that does nothing.
ghost use Rattle.std.specs.Prelude.{◌≡◌, ◌≢◌, ℕ, ℤ, true, List, Some, None};
ghost use Rattle.room_interface.specs.Prelude.{are_nodes, is_made, Rows, are_members, GivenTags, are_given};
ghost use Rattle.osm_elements.specs.declared.name.Name.{Name};
ghost use Rattle.osm_elements.specs.declared.element.Element.{Element};
ghost use Rattle.osm_changes.specs.Sound.{is_sound};
ghost use Rattle.room_interface.specs.declared.refusal.Refusal.TheVariants.{Nothing};
ghost use Rattle.edit_simple.specs.Checks.{first_that_holds};
ghost use Rattle.edit_simple.specs.Create.{create_checks, after_create};
ghost use Rattle.edit_simple.specs.Delete.{delete_checks, after_delete};
ghost use Rattle.edit_simple.specs.Examples.{in_use, own_member, nothing, created, retagged, moved, relisted, purged, create_refusals, retag_refusals, move_refusals, relist_refusals};
ghost use Rattle.edit_simple.specs.Members.{members_checks, after_members};
ghost use Rattle.edit_simple.specs.Move.{move_checks, after_move};
ghost use Rattle.edit_simple.specs.Nodes.{nodes_checks, after_nodes};
ghost use Rattle.edit_simple.specs.Purge.{purge_checks, after_purge};
ghost use Rattle.edit_simple.specs.Retag.{retag_checks, after_retag};
ghost use Rattle.edit_simple.specs.Reverse.{reverse_checks, after_reverse};

use std::alloc::Allocator;

/// An accepted action with made values leads from a sound map to another sound map.
#[tactic(auto, using(crate::specs::Facts::Creating::create_accepted, crate::specs::Facts::Retagging::retag_accepted, crate::specs::Facts::Moving::move_accepted, crate::specs::Facts::Relisting::reverse_accepted, crate::specs::Facts::Relisting::nodes_accepted, crate::specs::Facts::Relisting::members_accepted, crate::specs::Facts::Deleting::delete_accepted, crate::specs::Facts::Purging::purge_accepted,))]
pub fn accepted_keeps_sound<A: Allocator>()
    ensures create { (m : Rows A) (x : Name) (v : Element A) → is_sound m ≡ true → is_made v ≡ true
        → first_that_holds (create_checks m x v) ≡ None
        → (is_sound (after_create m x v) ≡ true) × (after_create m x v ≢ m) }
    ensures retag { (m : Rows A) (x : Name) (given : GivenTags) → is_sound m ≡ true → are_given given ≡ true
        → first_that_holds (retag_checks m x given) ≡ None
        → (is_sound (after_retag m x given) ≡ true) × (after_retag m x given ≢ m) }
    ensures move_by { (m : Rows A) (list : List Name) (dlat dlon : ℤ) → is_sound m ≡ true
        → first_that_holds (move_checks m list dlat dlon) ≡ None
        → (is_sound (after_move m list dlat dlon) ≡ true) × (after_move m list dlat dlon ≢ m) }
    ensures reverse { (m : Rows A) (w : Name) → is_sound m ≡ true → first_that_holds (reverse_checks m w) ≡ None
        → (is_sound (after_reverse m w) ≡ true) × (after_reverse m w ≢ m) }
    ensures nodes { (m : Rows A) (w : Name) (list : List Name) → is_sound m ≡ true → are_nodes list ≡ true
        → first_that_holds (nodes_checks m w list) ≡ None
        → (is_sound (after_nodes m w list) ≡ true) × (after_nodes m w list ≢ m) }
    ensures members { (m : Rows A) (r : Name) (list : List (Name × List ℕ)) → is_sound m ≡ true
        → are_members list ≡ true → first_that_holds (members_checks m r list) ≡ None
        → (is_sound (after_members m r list) ≡ true) × (after_members m r list ≢ m) }
    ensures delete { (m : Rows A) (x : Name) → is_sound m ≡ true → first_that_holds (delete_checks m x) ≡ None
        → (is_sound (after_delete m x) ≡ true) × (after_delete m x ≢ m) }
    ensures purge { (m : Rows A) (x : Name) → is_sound m ≡ true → first_that_holds (purge_checks m x) ≡ None
        → (is_sound (after_purge m x) ≡ true) × (after_purge m x ≢ m) }
{}

/// If `Nothing` is the first check that holds, the map after the action is the same.
#[tactic(auto, using(crate::specs::Facts::SameMaps::retag_nothing, crate::specs::Facts::SameMaps::move_nothing, crate::specs::Facts::SameMaps::reverse_nothing, crate::specs::Facts::SameMaps::nodes_nothing, crate::specs::Facts::SameMaps::members_nothing,))]
pub fn nothing_is_the_same_map<A: Allocator>()
    ensures retag { (m : Rows A) (x : Name) (given : GivenTags) → is_sound m ≡ true
        → first_that_holds (retag_checks m x given) ≡ Some Nothing
        → after_retag m x given ≡ m }
    ensures move_by { (m : Rows A) (list : List Name) (dlat dlon : ℤ)
        → first_that_holds (move_checks m list dlat dlon) ≡ Some Nothing
        → after_move m list dlat dlon ≡ m }
    ensures reverse { (m : Rows A) (w : Name) → is_sound m ≡ true → first_that_holds (reverse_checks m w) ≡ Some Nothing
        → after_reverse m w ≡ m }
    ensures nodes { (m : Rows A) (w : Name) (list : List Name) → is_sound m ≡ true
        → first_that_holds (nodes_checks m w list) ≡ Some Nothing
        → after_nodes m w list ≡ m }
    ensures members { (m : Rows A) (r : Name) (list : List (Name × List ℕ)) → is_sound m ≡ true
        → first_that_holds (members_checks m r list) ≡ Some Nothing
        → after_members m r list ≡ m }
{}

/// The definitions agree with examples that were worked out by hand.
pub fn examples_are_as_worked()
    ensures in_use { in_use }
    ensures own_member { own_member }
    ensures nothing { nothing }
    ensures created { created }
    ensures retagged { retagged }
    ensures moved { moved }
    ensures relisted { relisted }
    ensures purged { purged }
    ensures create_refusals { create_refusals }
    ensures retag_refusals { retag_refusals }
    ensures move_refusals { move_refusals }
    ensures relist_refusals { relist_refusals }
{}
