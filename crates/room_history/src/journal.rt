//! Look-ups in a journal's entries.
ghost use Rattle.std.specs.Prelude.{◌≡◌, option_copied, option_and_then};
ghost use Rattle.room_history.specs.Journals.{numbered};
ghost use Rattle.room_history.specs.Inner.Origins.{done_by, origin_next, own_action};

use crate::entry::{Entry, EntryKind};
use room_interface::edit::Edit;
use std::alloc::Allocator;

/// Returns the item with a number, counted from 1.
pub fn numbered<T>(items: &[T], seq: u64) -> Option<&T>
    ensures { option_copied result ≡ numbered items.now seq }
{
    match seq.checked_sub(1) {
        Some(index) => items.get(index as usize),
        None => None,
    }
}

/// Returns the action of an entry, which is stored in the entry's origin. Returns `None` for an undo, and if no entry
/// has the number. `origins` has the number of each entry's origin.
pub fn action_of<'a, A: Allocator>(
    entries: &'a [Entry<A>],
    origins: &[u64],
    seq: u64,
) -> Option<&'a Edit<A>>
    ensures { option_copied result
        ≡ option_and_then (λ o. done_by (numbered entries.now o)) (numbered origins.now seq) }
{
    match numbered(origins, seq) {
        Some(origin) => match numbered(entries, *origin) {
            Some(entry) => own_action(entry),
            None => None,
        },
        None => None,
    }
}

// Returns the action that an entry did itself.
fn own_action<A: Allocator>(entry: &Entry<A>) -> Option<&Edit<A>>
    ensures { option_copied result ≡ own_action entry.now.kind }
{
    match &entry.kind {
        EntryKind::Do(action) => Some(action),
        EntryKind::Undo(_) | EntryKind::Redo(_) => None,
    }
}

/// Returns the origin of the next entry: the number of the entry that stores its action. For a redo, it is the origin
/// of the entry that it names, and otherwise the next entry's own number. `origins` has the origins of the earlier
/// entries.
pub fn origin_next<A: Allocator>(origins: &[u64], kind: &EntryKind<A>) -> u64
    ensures { result ≡ origin_next origins.now kind.now }
{
    let own = origins.len() as u64 + 1;
    match kind {
        EntryKind::Redo(of) => numbered(origins, *of).copied().unwrap_or(own),
        EntryKind::Do(_) | EntryKind::Undo(_) => own,
    }
}
