//! Which entries changed what last.
ghost use Rattle.std.specs.Prelude.{◌≡◌, ◌≤◌, ◌<◌, ◌+◌, [], OnOk, cond, length, map};
ghost use Rattle.indexmap.specs.IndexMap.{spare};
ghost use Rattle.osm_changes.specs.Prelude.{cell_of, changed_cells, IsRising};
ghost use Rattle.edit_footprint.specs.Touches.{Touch, does, is_same_touch};
ghost use Rattle.room_history.specs.Inner.Changers.{IsOutcome, written_by, by_another, changed_again, changer, last_at, later};

use crate::entry::Entry;
use crate::journal::numbered;
use edit_footprint::access::Access;
use edit_footprint::touch::Touch;
use indexmap::IndexMap;
use osm_changes::change::Change;
use osm_elements::Memory;
use osm_elements::name::Name;
use room_interface::author::Author;
use std::alloc::Allocator;
use std::hash::{BuildHasherDefault, FoldHasher};
use std::marker::Model;

// The last entry that changed something, and the last one by another author before it. 0 stands for none.
#[derive(Clone, Copy, Debug)]
pub(crate) struct LastChange {
    pub(crate) last: u64,
    pub(crate) before: u64,
}

const NEVER: LastChange = LastChange { last: 0, before: 0 };

type Table<A> = IndexMap<Touch, LastChange, BuildHasherDefault<FoldHasher>, A>;

// The last changes of each cell. If an element comes or goes, its presence changes, and not its cells, so that a new
// element takes one look-up.
#[derive(Drop)]
#[derive_where(Debug)]
pub(crate) struct Changers<A: Allocator> {
    // Its hash has a fixed seed.
    table: Table<A>,
}

// Contracts model last changes as the list of the table's rows, with the capacity for more.
impl<A: Allocator> Model for Changers<A> {
    ghost use Rattle.indexmap.specs.IndexMap.{spare};
    ghost use Rattle.room_history.specs.Inner.Changers.{ChangersState};

    ghost Value = { ChangersState };

    ghost view = { λ c. record { rows = c.table.entries; room = spare c.table } };
}

impl<A: Allocator> Changers<A> {
    // Returns a table without changes.
    pub(crate) fn new(alloc: A) -> Changers<A>
    where
        A: Copy,
        ensures { result.rows ≡ [] }
    {
        Changers {
            table: IndexMap::new(alloc),
        }
    }

    // Reserves the memory for what the given changes write.
    pub(crate) fn ready(&mut self, changes: &[Change<A>]) -> Result<(), Memory>
        ensures rows { self.new.rows ≡ self.old.rows }
        ensures ready { OnOk result (length changes.now ≤ self.new.room) }
    {
        self.table.reserve(changes.len())?;
        Ok(())
    }

    // Notes that the entry `seq` of an author, the one after `entries`, made the given changes.
    pub(crate) fn changed(
        &mut self,
        entries: &[Entry<A>],
        author: &Author,
        seq: u64,
        changes: &[Change<A>],
    )
        requires { length changes.now ≤ self.old.room }
        ensures { (t : Touch) → last_at self.new.rows t ≡ cond (does (map written_by changes.now) t)
            (changed_again entries.now author.now seq (last_at self.old.rows t)) (last_at self.old.rows t) }
    {
        note_all(&mut self.table, entries, author, seq, changes);
    }

    // Returns the last entry after the first `since` that is not the author's and changed a cell of the given changes,
    // with the least name of such a cell.
    pub(crate) fn overwritten(
        &self,
        entries: &[Entry<A>],
        author: &Author,
        since: u64,
        changes: &[Change<A>],
    ) -> Option<(u64, Name)>
        requires { IsRising (changed_cells changes.now) }
        ensures { IsOutcome since (changer entries.now author.now self.now.rows) (changed_cells changes.now) result }
    {
        let mut found = None;
        for change in changes {
            found = later(
                since,
                found,
                self.changer(entries, author, change),
                change.name,
            );
        }
        found
    }

    // Returns the last entry of another author that changed the cell of a change, or 0.
    fn changer(&self, entries: &[Entry<A>], author: &Author, change: &Change<A>) -> u64
        ensures { result ≡ changer entries.now author.now self.now.rows (cell_of change.now) }
    {
        let presence = self.last_at(&Touch::of(change.name, Access::WritesPresence));
        let cell = self.last_at(&Touch::of(change.name, Access::writing(change.part)));
        let (presence, cell) = (
            by_another(entries, author, presence),
            by_another(entries, author, cell),
        );
        if presence < cell { cell } else { presence }
    }

    // Returns the last changes of a touch.
    fn last_at(&self, touch: &Touch) -> LastChange
        ensures { result ≡ last_at self.now.rows touch.now }
    {
        match self.table.get(touch) {
            Some(known) => *known,
            None => NEVER,
        }
    }
}

// Notes changes, by the entry `seq` of an author. There must be capacity.
fn note_all<A: Allocator>(
    table: &mut Table<A>,
    entries: &[Entry<A>],
    author: &Author,
    seq: u64,
    changes: &[Change<A>],
)
    requires { length changes.now ≤ spare table.old }
    ensures { (t : Touch) → last_at table.new.entries t ≡ cond (does (map written_by changes.now) t)
        (changed_again entries.now author.now seq (last_at table.old.entries t)) (last_at table.old.entries t) }
{
    for change in changes {
        note(table, entries, author, seq, written_by(change));
    }
}

// Notes one more change of a touch. There must be capacity.
fn note<A: Allocator>(
    table: &mut Table<A>,
    entries: &[Entry<A>],
    author: &Author,
    seq: u64,
    touch: Touch,
)
    requires { 0 < spare table.old }
    ensures last { (t : Touch) → last_at table.new.entries t ≡ cond (is_same_touch t touch)
        (changed_again entries.now author.now seq (last_at table.old.entries t)) (last_at table.old.entries t) }
    ensures room { spare table.old ≤ spare table.new + 1 }
{
    match table.get_mut(&touch) {
        Some(known) => *known = changed_again(entries, author, seq, *known),
        None => {
            let first = changed_again(entries, author, seq, NEVER);
            match table.insert(touch, first) {
                Ok(_) => {}
                Err(_) => unreachable!(),
            }
        }
    }
}

// Returns the later one of an entry that was found after the first `since` and of another entry with a name.
fn later(since: u64, found: Option<(u64, Name)>, number: u64, name: Name) -> Option<(u64, Name)>
    ensures { result ≡ later since found number name }
{
    let known = match found {
        Some((known, _)) => known,
        None => since,
    };
    if known < number {
        Some((number, name))
    } else {
        found
    }
}

// Returns the touch that a change writes.
fn written_by<A: Allocator>(change: &Change<A>) -> Touch
    ensures { result ≡ written_by change.now }
{
    match (&change.before, &change.after) {
        (Some(_), Some(_)) => Touch::of(change.name, Access::writing(change.part)),
        _ => Touch::of(change.name, Access::WritesPresence),
    }
}

// Returns the last changes after one more, by the entry `seq` of an author.
fn changed_again<A: Allocator>(
    entries: &[Entry<A>],
    author: &Author,
    seq: u64,
    known: LastChange,
) -> LastChange
    ensures { result ≡ changed_again entries.now author.now seq known }
{
    if known.last == seq {
        return known;
    }
    LastChange {
        last: seq,
        before: by_another(entries, author, known),
    }
}

// Returns the last entry of another author, or 0, from the last changes of something.
fn by_another<A: Allocator>(entries: &[Entry<A>], author: &Author, known: LastChange) -> u64
    ensures { result ≡ by_another entries.now author.now known }
{
    match numbered(entries, known.last) {
        Some(entry) if author.is(&entry.author) => known.before,
        _ => known.last,
    }
}
