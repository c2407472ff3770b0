//! Applying changes to a store.
ghost use Rattle.std.specs.Prelude.{IfOk};
ghost use Rattle.part_lines.specs.Applying.{MayApply};

use edit_actions::plan::plan_on;
use osm_changes::changes::Changes;
use osm_changes::laws::an_inverse_restores;
use osm_changes::store::Store;
use osm_elements::Memory;
use room_interface::action::Action;
use room_interface::refusal::Refusal;
use std::alloc::Global;

/// Returns the changes of an action, which may be applied to the store.
pub fn plan_of(
    alloc: Global,
    store: &Store<Global>,
    action: &Action<Global>,
) -> Result<Changes<Global>, Refusal<Global>>
    ensures { IfOk result (λ cs. MayApply store.now.rows cs) }
{
    plan_on(alloc, store, action)
}

/// Applies changes, and returns the changes that take them back.
pub fn apply(
    alloc: Global,
    store: &mut Store<Global>,
    changes: Changes<Global>,
) -> Result<Changes<Global>, Memory>
    requires { MayApply store.old.rows changes }
    ensures { IfOk result (λ back. MayApply store.new.rows back) }
{
    an_inverse_restores::<Global>();
    let _ = changes.rows();
    let _ = store.map();
    store.apply(alloc, &changes)?;
    Ok(changes.inverse())
}
