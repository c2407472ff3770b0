//! Plans: the changes that an action would make in a store, or its refusal.
ghost use Rattle.std.specs.Prelude.{◌≡◌, true, IfOk};
ghost use Rattle.edit_topology.specs.Prelude.{Rows, differences, AreFrom, is_sound, IsPlan, is_made_action};
ghost use Rattle.osm_changes.specs.Changes.{changed};
ghost use Rattle.edit_actions.specs.After.{after};
ghost use Rattle.edit_actions.specs.Refusals.{checks};

use edit_simple::plans::{
    plan_create, plan_delete, plan_members, plan_move, plan_nodes, plan_purge, plan_retag,
    plan_reverse,
};
use edit_topology::plans::{plan_join, plan_merge, plan_split, plan_unglue};
use osm_changes::changes::Changes;
use osm_changes::laws::differences_are_changes;
use osm_changes::store::Store;
use osm_drafts::draft::Draft;
use room_interface::action::{Action, keeps_values};
use room_interface::each_action;
use room_interface::refusal::Refusal;
use std::alloc::Allocator;

// Calls the plan of an action.
macro_rules! planned {
    (($action:expr, $alloc:expr, $draft:expr) $($variant:ident $word:literal { $($field:ident: $how:ident from $source:ident $(by $name:ident)?),* } by $plan:ident about $part:ident $way:ident [$($subject:ident),*];)*) => {
        match $action {
            $(Action::$variant { $($field),* } => $plan($alloc, $draft, $(handed!($how $field)),*),)*
        }
    };
}

// Passes a field of an action as its plan takes it.
macro_rules! handed {
    (lent $field:ident) => { $field };
    (slice $field:ident) => { $field.as_slice() };
    (number $field:ident) => { *$field };
}

/// Plans an action on a draft, which is unchanged. Returns the changes that lead to the map after the action.
///
/// The cost is that of the action's plan. It looks up the names in the action and the users of what it removes, and
/// never the whole map.
///
/// # Errors
///
/// The first of the action's checks that holds, or `Memory`, if an allocation fails.
pub fn plan<A: Allocator + Clone>(
    alloc: A,
    draft: &Draft<'_, A>,
    action: &Action<A>,
) -> Result<Changes<A>, Refusal<A>>
    requires { is_sound draft.now ≡ true }
    ensures plan { IsPlan draft.now (checks draft.now action.now) (after draft.now action.now) result }
    // The changes can be applied to the store.
    ensures from { IfOk result (λ cs. AreFrom draft.now cs) }
    ensures sound { IfOk result (λ cs. is_sound (changed draft.now cs) ≡ true) }
    // True of every action.
    ensures made { is_made_action action.now ≡ true }
{
    keeps(action);
    plan_of(alloc, draft, action)
}

/// Plans an action on a store, as [`plan`] does on a draft with nothing written.
///
/// # Errors
///
/// The first of the action's checks that holds, or `Memory`, if an allocation fails.
pub fn plan_on<A: Allocator + Copy>(
    alloc: A,
    store: &Store<A>,
    action: &Action<A>,
) -> Result<Changes<A>, Refusal<A>>
    ensures plan { IsPlan store.now.rows (checks store.now.rows action.now) (after store.now.rows action.now) result }
    // The changes can be applied to the store.
    ensures from { IfOk result (λ cs. AreFrom store.now.rows cs) }
    ensures sound { IfOk result (λ cs. is_sound (changed store.now.rows cs) ≡ true) }
    // True of every action.
    ensures made { is_made_action action.now ≡ true }
{
    let _ = store.map();
    let draft = Draft::of(alloc, store);
    plan(alloc, &draft, action)
}

fn plan_of<A: Allocator + Clone>(
    alloc: A,
    draft: &Draft<'_, A>,
    action: &Action<A>,
) -> Result<Changes<A>, Refusal<A>>
    requires { is_sound draft.now ≡ true }
    ensures { IsPlan draft.now (checks draft.now action.now) (after draft.now action.now) result }
{
    each_action!(planned(action, alloc, draft))
}

// Proves that the values of an action are made, and that differences are changes from the first map. It does nothing.
fn keeps<A: Allocator>(action: &Action<A>)
    ensures made { is_made_action action.now ≡ true }
    ensures from { (m n : Rows A) → AreFrom m (differences m n) }
{
    differences_are_changes::<A>();
    keeps_values(action);
}
