//! Changes of a room's parts for an entry.
ghost use Rattle.std.specs.Prelude.{◌≡◌, ◌<◌, [], ◌∷◌, ◌++◌, Some, None, true, OnOk, OnErr, vec_len, vec_capacity};
ghost use Rattle.edit_groups.specs.Prelude.{changed_rows, AreFrom, is_sound, applied_to, IsNext, standing};
ghost use Rattle.osm_changes.specs.Prelude.{changed};
ghost use Rattle.edit_footprint.specs.Touches.{IsFootprint};
ghost use Rattle.room_stacks.specs.Stacks.{IsAboveAll, spent};
ghost use Rattle.room_history.specs.Inner.Deeds.{deed_by, MayNote};

use crate::entry::{Entry, EntryKind};
use crate::kept::{Effect, Kept};
use edit_footprint::footprint::Footprint;
use edit_footprint::holders::Holders;
use osm_changes::store::Store;
use osm_elements::Memory;
use room_interface::author::Author;
use room_stacks::stacks::Stacks;
use std::alloc::Allocator;

// Reserves the memory for one more entry, an author's, in each list and in the stacks. It adds nothing, even if it
// succeeds.
pub(crate) fn reserve<A: Allocator + Copy>(
    entries: &mut Vec<Entry<A>, A>,
    recorded: &mut Vec<Kept<A>, A>,
    origins: &mut Vec<u64, A>,
    stacks: &mut Stacks<A>,
    author: &Author,
) -> Result<(), Memory>
    ensures entries { entries.new.items ≡ entries.old.items }
    ensures recorded { recorded.new.items ≡ recorded.old.items }
    ensures origins { origins.new.items ≡ origins.old.items }
    ensures deeds { stacks.new.deeds ≡ stacks.old.deeds }
    ensures ready { OnOk result (stacks.new.ready ≡ Some author.now) }
    ensures room { OnOk result ((vec_len entries.new < vec_capacity entries.new)
        × (vec_len recorded.new < vec_capacity recorded.new)
        × (vec_len origins.new < vec_capacity origins.new)) }
{
    entries.try_reserve(1)?;
    recorded.try_reserve(1)?;
    origins.try_reserve(1)?;
    stacks.ready(author)
}

// Appends an entry, its kept effect, and the number of the entry that has its action. The lists must have capacity.
pub(crate) fn enter<A: Allocator>(
    entries: &mut Vec<Entry<A>, A>,
    recorded: &mut Vec<Kept<A>, A>,
    origins: &mut Vec<u64, A>,
    entry: Entry<A>,
    kept: Kept<A>,
    origin: u64,
)
    requires room { (vec_len entries.old < vec_capacity entries.old)
        × (vec_len recorded.old < vec_capacity recorded.old)
        × (vec_len origins.old < vec_capacity origins.old) }
    ensures entries { entries.new.items ≡ entries.old.items ++ entry ∷ [] }
    ensures recorded { recorded.new.items ≡ recorded.old.items ++ kept ∷ [] }
    ensures origins { origins.new.items ≡ origins.old.items ++ origin ∷ [] }
{
    push_reserved(entries, entry);
    push_reserved(recorded, kept);
    push_reserved(origins, origin);
}

// Appends an item to a list that has capacity for it.
fn push_reserved<T: Drop, A: Allocator>(list: &mut Vec<T, A>, item: T)
    requires { vec_len list.old < vec_capacity list.old }
    ensures { list.new.items ≡ list.old.items ++ item ∷ [] }
{
    match list.push(item) {
        Ok(()) => {}
        Err(_) => unreachable!(),
    }
}

// Records an entry as a deed of its author.
pub(crate) fn note<A: Allocator>(
    stacks: &mut Stacks<A>,
    author: Author,
    id: u64,
    kind: &EntryKind<A>,
    seq: u64,
)
    requires ready { stacks.old.ready ≡ Some author }
    requires unspent { spent stacks.old.deeds author id ≡ None }
    requires may { MayNote stacks.old.deeds author kind.now }
    requires last { IsAboveAll seq stacks.old.deeds }
    ensures { stacks.new.deeds ≡ stacks.old.deeds ++ deed_by seq author id kind.now ∷ [] }
{
    match kind {
        EntryKind::Do(_) => stacks.did(author, id, seq),
        EntryKind::Undo(of) => stacks.undid(author, id, *of, seq),
        EntryKind::Redo(of) => stacks.redid(author, id, *of, seq),
    }
}

// Makes an entry active and applies its effect. If it returns `Memory`, the store and the holders are unchanged.
pub(crate) fn stand<A: Allocator + Copy>(
    alloc: A,
    store: &mut Store<A>,
    holders: &mut Holders<A>,
    effect: &Effect<A>,
    footprint: &Footprint<A>,
    seq: u64,
) -> Result<(), Memory>
    requires rising { IsFootprint footprint.now }
    requires next { IsNext holders.old seq }
    requires from { AreFrom store.old.rows effect.now.changes }
    requires sound { is_sound (changed store.old.rows effect.now.changes) ≡ true }
    requires rows { effect.now.rows ≡ changed_rows store.old.rows effect.now.changes }
    ensures ok { OnOk result ((store.new ≡ applied_to store.old effect.now.changes)
        × (holders.new ≡ standing holders.old footprint.now seq)) }
    ensures err { OnErr result ((store.new ≡ store.old) × (holders.new ≡ holders.old)) }
{
    holders.stand(footprint, seq)?;
    if let Err(refused) = store.apply_rows(alloc, &effect.changes, &effect.rows) {
        holders.fall(footprint, seq);
        return Err(refused);
    }
    Ok(())
}
