//! Plans of edits: the changes that an edit would make in a store, or its refusal.
ghost use Rattle.std.specs.Prelude.{◌≡◌, ◌⊎◌, true, Some, None, IfOk, IfErr, OnOk};
ghost use Rattle.edit_footprint.specs.Touches.{touch_set};
ghost use Rattle.edit_actions.specs.Prelude.{AreFrom, is_sound, is_made_edit, alone, at_position};
ghost use Rattle.osm_changes.specs.Changes.{changed};
ghost use Rattle.room_interface.specs.declared.refusal.Refusal.TheVariants.{Memory as OutOfMemory};
ghost use Rattle.room_interface.specs.declared.edit.Edit.TheVariants.{One, Group};
ghost use Rattle.edit_groups.specs.Groups.{nothing_changed};
ghost use Rattle.edit_groups.specs.Plans.{IsEditPlan};

use crate::differing::changes_between;
use crate::step::{planned, step};
use edit_footprint::footprint::Footprint;
use edit_footprint::touch::Touch;
use osm_changes::changes::Changes;
use osm_changes::laws::differences_are_changes;
use osm_changes::store::Store;
use osm_drafts::draft::Draft;
use room_interface::action::Action;
use room_interface::actions::Actions;
use room_interface::edit::{Edit, keeps_values};
use room_interface::edit_refusal::EditRefusal;
use room_interface::refusal::Refusal;
use std::alloc::Allocator;

/// Plans an edit on a store, which is unchanged. Returns the changes to the map after the whole edit, and the footprint
/// of the edit. It costs what its actions cost, times a logarithm, and does not depend on the size of the map.
///
/// # Errors
///
/// - The refusal of the first action that is refused on the map that the previous actions lead to, with its position in
///   a group
/// - `Nothing`, if a group does not change the map
/// - `Memory`, in place of any result, if an allocation fails
pub fn plan_edit<A: Allocator + Copy>(
    alloc: A,
    store: &Store<A>,
    edit: &Edit<A>,
) -> Result<(Changes<A>, Footprint<A>), EditRefusal<A>>
    ensures plan { IsEditPlan store.now.rows edit.now result }
    // The changes can be applied to the store.
    ensures from { IfOk result (λ p. AreFrom store.now.rows p.0) }
    ensures sound { IfOk result (λ p. is_sound (changed store.now.rows p.0) ≡ true) }
    // True of every edit.
    ensures made { is_made_edit edit.now ≡ true }
{
    differences_are_changes::<A>();
    keeps_values(edit);
    let _ = store.map();
    planned_edit(alloc, store, edit)
}

fn planned_edit<A: Allocator + Copy>(
    alloc: A,
    store: &Store<A>,
    edit: &Edit<A>,
) -> Result<(Changes<A>, Footprint<A>), EditRefusal<A>>
    ensures { IsEditPlan store.now.rows edit.now result }
{
    match edit {
        Edit::One(action) => plan_one(alloc, store, action),
        Edit::Group(actions) => plan_group(alloc, store, actions),
    }
}

fn plan_one<A: Allocator + Copy>(
    alloc: A,
    store: &Store<A>,
    action: &Action<A>,
) -> Result<(Changes<A>, Footprint<A>), EditRefusal<A>>
    ensures { IsEditPlan store.now.rows (One action.now) result }
{
    let _ = store.map();
    let draft = Draft::of(alloc, store);
    match planned(alloc, &draft, action) {
        Ok(planned) => Ok(planned),
        Err(why) => Err(EditRefusal { action: None, why }),
    }
}

fn plan_group<A: Allocator + Copy>(
    alloc: A,
    store: &Store<A>,
    group: &Actions<A>,
) -> Result<(Changes<A>, Footprint<A>), EditRefusal<A>>
    ensures { IsEditPlan store.now.rows (Group group.now) result }
{
    let map = store.map();
    let mut draft = Draft::of(alloc, store);
    let mut names = Vec::new(alloc);
    let mut touches = Vec::new(alloc);
    let mut position = 0;
    for action in group.as_slice() {
        match step(alloc, draft, &mut names, &mut touches, action) {
            Ok(after) => draft = after,
            Err(why) => return Err(refused_at(position, why)),
        }
        position += 1;
    }
    let changes = changes_between(alloc, map, &draft, names)?;
    accepted(changes, touches)
}

// Returns the refusal of the action at a position. `Memory` has no position.
fn refused_at<A: Allocator>(position: u32, why: Refusal<A>) -> EditRefusal<A>
    ensures memory { why ≡ OutOfMemory → result ≡ alone OutOfMemory }
    ensures position { (result ≡ alone OutOfMemory) ⊎ (result ≡ at_position position why) }
{
    match why {
        Refusal::Memory => EditRefusal {
            action: None,
            why: Refusal::Memory,
        },
        why => EditRefusal {
            action: Some(position),
            why,
        },
    }
}

// Returns the changes and the footprint of a group without a refused action, or `Nothing` if it changes nothing.
fn accepted<A: Allocator>(
    changes: Changes<A>,
    touches: Vec<Touch, A>,
) -> Result<(Changes<A>, Footprint<A>), EditRefusal<A>>
    ensures changes { IfOk result (λ p. p.0 ≡ changes) }
    ensures footprint { IfOk result (λ p. p.1 ≡ touch_set touches.items) }
    ensures some { OnOk result (nothing_changed changes ≡ None) }
    ensures refused { IfErr result (λ r. (nothing_changed changes ≡ Some r) ⊎ (r ≡ alone OutOfMemory)) }
{
    if changes.is_empty() {
        return Err(EditRefusal {
            action: None,
            why: Refusal::Nothing,
        });
    }
    Ok((changes, Footprint::of(touches)?))
}
