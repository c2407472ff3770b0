//! Plans one action on a draft, and writes its changes over the draft.
ghost use Rattle.std.specs.Prelude.{◌≡◌, ◌⊎◌, ◌++◌, map, true, Some, None, IfOk, IfErr, OnOk};
ghost use Rattle.edit_footprint.specs.Prelude.{is_sound, after, changes, is_made_action, refusal, footprint};
ghost use Rattle.room_interface.specs.declared.refusal.Refusal.TheVariants.{Memory as OutOfMemory};

use edit_actions::plan::plan;
use edit_footprint::footprint::Footprint;
use edit_footprint::touch::Touch;
use edit_footprint::touching::footprint;
use osm_changes::change::Change;
use osm_changes::changes::Changes;
use osm_drafts::draft::Draft;
use osm_elements::Memory;
use osm_elements::name::Name;
use room_interface::action::Action;
use room_interface::refusal::Refusal;
use std::alloc::Allocator;

/// Returns the changes and the footprint of an action on a draft, or its refusal.
pub fn planned<A: Allocator + Copy>(
    alloc: A,
    draft: &Draft<'_, A>,
    action: &Action<A>,
) -> Result<(Changes<A>, Footprint<A>), Refusal<A>>
    requires { is_sound draft.now ≡ true }
    ensures made { is_made_action action.now ≡ true }
    ensures accepted { OnOk result (refusal draft.now action.now ≡ None) }
    ensures changes { IfOk result (λ p. p.0 ≡ changes draft.now action.now) }
    ensures footprint { IfOk result (λ p. p.1 ≡ footprint draft.now action.now) }
    ensures refused { IfErr result
        (λ why. (refusal draft.now action.now ≡ Some why) ⊎ (why ≡ OutOfMemory)) }
{
    let changes = plan(alloc, draft, action)?;
    let footprint = footprint(alloc, action, &changes)?;
    Ok((changes, footprint))
}

/// Returns the draft after an action, or the action's refusal. Appends the changed names, each once or twice, and the
/// touches of the action.
pub fn step<'s, A: Allocator + Copy>(
    alloc: A,
    draft: Draft<'s, A>,
    names: &mut Vec<Name, A>,
    touches: &mut Vec<Touch, A>,
    action: &Action<A>,
) -> Result<Draft<'s, A>, Refusal<A>>
    requires { is_sound draft ≡ true }
    ensures made { is_made_action action.now ≡ true }
    ensures accepted { OnOk result (refusal draft.entry action.now ≡ None) }
    ensures after { IfOk result (λ d. d ≡ after draft.entry action.now) }
    ensures names { OnOk result
        (names.new.items ≡ names.old.items ++ map (λ c. c.name) (changes draft.entry action.now)) }
    ensures touches { OnOk result (touches.new.items ≡ touches.old.items ++ footprint draft.entry action.now) }
    ensures refused { IfErr result
        (λ why. (refusal draft.entry action.now ≡ Some why) ⊎ (why ≡ OutOfMemory)) }
{
    let (changes, footprint) = planned(alloc, &draft, action)?;
    push_names(names, changes.rows())?;
    touches.extend_from_slice(footprint.touches())?;
    let after = draft.with_changes(alloc, &changes)?;
    Ok(after)
}

// Appends the names of changes.
fn push_names<A: Allocator>(names: &mut Vec<Name, A>, changes: &[Change<A>]) -> Result<(), Memory>
    ensures { OnOk result (names.new.items ≡ names.old.items ++ map (λ c. c.name) changes.now) }
{
    for change in changes {
        names.push(change.name)?;
    }
    Ok(())
}
