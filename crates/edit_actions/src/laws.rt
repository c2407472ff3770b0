//! Laws of the actions. Each law is the contract of an empty function.
ghost use Rattle.std.specs.Prelude.{◌≡◌, ◌≢◌, [], ◌∷◌, true, Some, None};
ghost use Rattle.edit_topology.specs.Prelude.{row_at, Rows, tags_at, changed_cells, half_change, is_sound, GivenTags, is_made_action};
ghost use Rattle.osm_changes.specs.Changes.{changed};
ghost use Rattle.osm_elements.specs.declared.element.Element.{Element};
ghost use Rattle.osm_elements.specs.declared.name.Name.{Name};
ghost use Rattle.room_interface.specs.declared.action.Action.TheVariants.{Create, Delete, Retag};
ghost use Rattle.osm_changes.specs.declared.part.Part.TheVariants.{Tags, Rest};
ghost use Rattle.room_interface.specs.declared.action.Action.{Action};
ghost use Rattle.edit_actions.specs.After.{after, changes};
ghost use Rattle.edit_actions.specs.Examples.{created, retagged, moved, split};
ghost use Rattle.edit_actions.specs.Refusals.{refusal};

use std::alloc::Allocator;

/// If a sound map accepts an action with made values, the map after it is sound too, and is a different map.
#[tactic(auto, using(crate::specs::Facts::Accepted::accepted_keeps_sound))]
pub fn accepted_keeps_sound<A: Allocator>()
    ensures { (m : Rows A) (a : Action A) → is_sound m ≡ true → is_made_action a ≡ true → refusal m a ≡ None
        → (is_sound (after m a) ≡ true) × (after m a ≢ m) }
{}

/// The changes of an accepted action lead to the map after it.
pub fn accepted_changes_lead_there<A: Allocator>()
    ensures { (m : Rows A) (a : Action A) → is_sound m ≡ true → is_made_action a ≡ true → refusal m a ≡ None
        → changed m (changes m a) ≡ after m a }
{}

/// An accepted create changes both cells of its name, from nothing to the halves of the element. A delete of an element
/// changes both cells from these halves to nothing. An accepted retag changes only the tags of its name.
pub fn one_name_is_changed<A: Allocator>()
    ensures create { (m : Rows A) (x : Name) (v : Element A) → row_at m x ≡ None
        → changes m (Create x v) ≡ half_change x None (Some v) Tags ∷ half_change x None (Some v) Rest ∷ [] }
    ensures delete { (m : Rows A) (x : Name) (v : Element A) → row_at m x ≡ Some v
        → changes m (Delete x) ≡ half_change x (Some v) None Tags ∷ half_change x (Some v) None Rest ∷ [] }
    ensures retag { (m : Rows A) (x : Name) (given : GivenTags) → refusal m (Retag x given) ≡ None
        → changed_cells (changes m (Retag x given)) ≡ tags_at x ∷ [] }
{}

/// The definitions agree with examples that were worked out by hand, of a create, a retag, a move and a split.
pub fn examples_are_as_worked()
    ensures created { created }
    ensures retagged { retagged }
    ensures moved { moved }
    ensures split { split }
{}
