//! The entry that an undo takes back.
ghost use Rattle.std.specs.Prelude.{◌≡◌};
ghost use Rattle.room_history.specs.Answers.{asked};
ghost use Rattle.room_history.specs.Journals.{undos};
ghost use Rattle.room_history.specs.Inner.Undoing.{asked_or, standing_refusal, undone_or};

use crate::entry::Entry;
use crate::journal::numbered;
use crate::standing::contains;
use edit_footprint::footprint::Footprint;
use osm_changes::changes::Changes;
use room_interface::author::Author;
use room_interface::reply::Reply;
use std::alloc::Allocator;

/// An entry to undo, with its changes and its footprint.
#[derive(Drop)]
#[derive_where(Debug)]
pub struct EntryToUndo<A: Allocator> {
    /// The number of the entry.
    pub of: u64,
    /// Its changes.
    pub changes: Changes<A>,
    /// Its footprint.
    pub footprint: Footprint<A>,
}

/// Returns the number of the entry to undo: the given number, or the author's last active entry if there is none. `own`
/// has the numbers of the author's active entries. It takes time logarithmic in their count.
///
/// # Errors
///
/// The first of `NothingToUndo`, `NoSuch`, `NotYours` and `NotStanding` that applies.
pub fn asked_for<A: Allocator>(
    entries: &[Entry<A>],
    own: &[u64],
    author: &Author,
    number: Option<u64>,
) -> Result<u64, Reply<A>>
    requires { own.now ≡ undos entries.now author.now }
    ensures { result ≡ asked_or (standing_refusal entries.now author.now) (asked entries.now author.now number) }
{
    match number.or(own.last().copied()) {
        Some(seq) => standing(entries, own, author, seq),
        None => Err(Reply::NothingToUndo),
    }
}

// Returns the number, if its entry is the author's and is active.
fn standing<A: Allocator>(
    entries: &[Entry<A>],
    own: &[u64],
    author: &Author,
    seq: u64,
) -> Result<u64, Reply<A>>
    requires { own.now ≡ undos entries.now author.now }
    ensures { result ≡ undone_or seq (standing_refusal entries.now author.now seq) }
{
    match numbered(entries, seq) {
        None => Err(Reply::NoSuch),
        Some(entry) if !author.is(&entry.author) => Err(Reply::NotYours),
        Some(_) if !contains(own, seq) => Err(Reply::NotStanding),
        Some(_) => Ok(seq),
    }
}
