//! Planning an edit, applying it, taking it back and applying it again.
ghost use Rattle.std.specs.Prelude.{IfOk};
ghost use Rattle.part_lines.specs.Applying.{MayApply};

use crate::edits::applying::{apply, plan_of};
use crate::edits::outcome::Outcome;
use crate::edits::reading::action;
use crate::edits::shown::{changes_shown, store_shown, touched_shown};
use crate::edits::unread::Unread;
use edit_footprint::touching::footprint;
use osm_changes::changes::Changes;
use osm_changes::store::Store;
use room_interface::action::Action;
use std::alloc::Global;

/// Does the edit in a text, or only plans it after the word `plan`. If the edit is refused or only planned, the store
/// is unchanged.
pub fn step(alloc: Global, store: &mut Store<Global>, line: &str) -> Result<Outcome, Unread> {
    let (text, is_done) = match line.strip_prefix("plan ") {
        Some(text) => (text, false),
        None => (line, true),
    };
    let action = action(alloc, text)?.copy()?;
    match plan_of(alloc, store, &action) {
        Ok(changes) if is_done => done(alloc, store, &action, changes),
        Ok(changes) => planned(alloc, store, &action, &changes),
        Err(refusal) => Ok(Outcome::Refused(refusal)),
    }
}

// Returns what an action would change.
fn planned(
    alloc: Global,
    store: &Store<Global>,
    action: &Action<Global>,
    changes: &Changes<Global>,
) -> Result<Outcome, Unread> {
    Ok(Outcome::Planned {
        changes: changes_shown(alloc, store, changes)?,
        touched: touched(alloc, action, changes)?,
    })
}

// Applies the changes of an action, and returns what it changed.
fn done(
    alloc: Global,
    store: &mut Store<Global>,
    action: &Action<Global>,
    changes: Changes<Global>,
) -> Result<Outcome, Unread>
    requires { MayApply store.old.rows changes }
{
    let touched = touched(alloc, action, &changes)?;
    let shown = changes_shown(alloc, store, &changes)?;
    let before = store_shown(alloc, store)?;
    let back = apply(alloc, store, changes)?;
    let map = store_shown(alloc, &store.copy()?)?;
    match there_again(alloc, store, back, before.as_str(), map.as_str())? {
        Some(astray) => Ok(astray),
        None => Ok(Outcome::Done {
            changes: shown,
            touched,
            map,
        }),
    }
}

// Returns the names that an action touches.
fn touched(
    alloc: Global,
    action: &Action<Global>,
    changes: &Changes<Global>,
) -> Result<String, Unread> {
    let touched = footprint(alloc, action, changes)?.copy()?;
    Ok(touched_shown(alloc, &touched)?)
}

// Takes changes back and applies them again. Returns an outcome if this did not lead to the maps `before` and `after`.
fn there_again(
    alloc: Global,
    store: &mut Store<Global>,
    back: Changes<Global>,
    before: &str,
    after: &str,
) -> Result<Option<Outcome>, Unread>
    requires { MayApply store.old.rows back }
{
    let forth = apply(alloc, store, back)?;
    let first = astray(alloc, store, before)?;
    let _ = apply(alloc, store, forth)?;
    let second = astray(alloc, store, after)?;
    Ok(first.or(second))
}

// Returns an outcome if a store is not shown as the text `wanted`.
fn astray(alloc: Global, store: &Store<Global>, wanted: &str) -> Result<Option<Outcome>, Unread> {
    let found = store_shown(alloc, store)?;
    if found.as_str() == wanted {
        return Ok(None);
    }
    let wanted = String::from_str(alloc, wanted)?;
    Ok(Some(Outcome::Astray { wanted, found }))
}
