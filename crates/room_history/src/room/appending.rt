//! Appends entries to a room's journal.
ghost use Rattle.std.specs.Prelude.{◌≡◌, ◌+◌, List, None, true, length, IfOk, OnErr};
ghost use Rattle.osm_changes.specs.Prelude.{changed, inverse, AreFrom, is_sound};

use crate::effects::{enter, note, reserve, stand};
use crate::entry::{Entry, EntryKind};
use crate::journal::{action_of, origin_next};
use crate::kept::{Kept, effect_of, is_group};
use crate::laws::leads_back;
use crate::room::Room;
use crate::undo::EntryToUndo;
use edit_footprint::footprint::Footprint;
use osm_changes::changes::Changes;
use osm_elements::Memory;
use room_interface::author::Author;
use std::alloc::Allocator;

impl<A: Allocator + Copy> Room<A> {
    ghost use Rattle.room_history.specs.Answers.{kind_refusal, undo_refusal, with_entry};
    ghost use Rattle.room_history.specs.declared.entry.EntryKind.TheVariants.{Undo};
    ghost use Rattle.room_history.specs.Blockers.{recorded_footprint};
    ghost use Rattle.room_history.specs.Replays.{past, mapof, recorded_next};
    ghost use Rattle.room_history.specs.Inner.Rooms.{MayAppend, MayWork};
    ghost use Rattle.room_history.specs.Inner.Telling.{is_group};

    // Appends the entry of an accepted edit, done or redone, with its changes and its footprint on the current map, and
    // returns its number. All allocations come before the first change of the store: those for the lists, the stacks,
    // the kept effect, the last changes and the holders, and those of `Store::apply_rows`.
    pub(super) fn append_work(
        &mut self,
        author: Author,
        id: u64,
        kind: EntryKind<A>,
        changes: Changes<A>,
        footprint: Footprint<A>,
    ) -> Result<u64, Memory>
        requires may { MayAppend self.old.limit self.old.journal author id }
        requires work { MayWork self.old.journal author kind }
        requires accepted { kind_refusal (past self.old.base self.old.journal) self.old.journal author kind ≡ None }
        requires changes { changes ≡ (recorded_next (past self.old.base self.old.journal) kind).changes }
        requires footprint { footprint ≡ (recorded_next (past self.old.base self.old.journal) kind).footprint }
        requires from { AreFrom (mapof self.old.base self.old.journal) changes }
        requires sound { is_sound (changed (mapof self.old.base self.old.journal) changes) ≡ true }
        ensures ok { IfOk result (λ seq. (seq ≡ length self.old.journal + 1)
            × (self.new ≡ record self.old { journal = with_entry self.old.journal author id kind })) }
        ensures err { OnErr result (self.new ≡ self.old) }
    {
        let alloc = *self.entries.allocator();
        let is_group = self.does_group(&kind);
        reserve(
            &mut self.entries,
            &mut self.recorded,
            &mut self.origins,
            &mut self.stacks,
            &author,
        )?;
        let effect = effect_of(alloc, &self.store, changes)?;
        self.changers.ready(effect.changes.rows())?;
        let seq = self.entries.len() as u64 + 1;
        let origin = origin_next(&self.origins, &kind);
        stand(
            alloc,
            &mut self.store,
            &mut self.holders,
            &effect,
            &footprint,
            seq,
        )?;
        note(&mut self.stacks, author, id, &kind, seq);
        self.changers
            .changed(&self.entries, &author, seq, effect.changes.rows());
        enter(
            &mut self.entries,
            &mut self.recorded,
            &mut self.origins,
            Entry { author, id, kind },
            Kept::of(effect, is_group.then_some(footprint)),
            origin,
        );
        Ok(seq)
    }

    // Whether the next entry, if it is of this kind, does a group.
    fn does_group(&self, kind: &EntryKind<A>) -> bool
        ensures { result ≡ is_group (recorded_next (past self.now.base self.now.journal) kind.now).action }
    {
        match kind {
            EntryKind::Do(edit) => is_group(edit),
            EntryKind::Redo(of) => match action_of(&self.entries, &self.origins, *of) {
                Some(edit) => is_group(edit),
                None => false,
            },
            EntryKind::Undo(_) => false,
        }
    }

    // Appends the undo of an entry that nothing blocks, takes back the entry's changes, and returns the undo's number.
    pub(super) fn append_undo(
        &mut self,
        author: Author,
        id: u64,
        undoable: EntryToUndo<A>,
    ) -> Result<u64, Memory>
        requires may { MayAppend self.old.limit self.old.journal author id }
        requires accepted { undo_refusal (past self.old.base self.old.journal) self.old.journal author undoable.of
            ≡ None }
        requires changes { inverse undoable.changes
            ≡ (recorded_next (past self.old.base self.old.journal) (Undo undoable.of)).changes }
        requires footprint { undoable.footprint ≡ recorded_footprint (past self.old.base self.old.journal) undoable.of }
        ensures ok { IfOk result (λ seq. (seq ≡ length self.old.journal + 1)
            × (self.new ≡ record self.old { journal = with_entry self.old.journal author id (Undo undoable.of) })) }
        ensures err { OnErr result (self.new ≡ self.old) }
    {
        leads_back::<A>();
        let EntryToUndo {
            of,
            changes,
            footprint,
        } = undoable;
        let alloc = *self.entries.allocator();
        reserve(
            &mut self.entries,
            &mut self.recorded,
            &mut self.origins,
            &mut self.stacks,
            &author,
        )?;
        let effect = effect_of(alloc, &self.store, changes.inverse())?;
        self.changers.ready(effect.changes.rows())?;
        self.store.apply_rows(alloc, &effect.changes, &effect.rows)?;
        let seq = self.entries.len() as u64 + 1;
        let undo = EntryKind::Undo(of);
        note(&mut self.stacks, author, id, &undo, seq);
        let taken_back = effect.changes.rows();
        self.changers
            .changed(&self.entries, &author, seq, taken_back);
        enter(
            &mut self.entries,
            &mut self.recorded,
            &mut self.origins,
            Entry {
                author,
                id,
                kind: undo,
            },
            Kept::of(effect, None),
            seq,
        );
        self.holders.fall(&footprint, of);
        Ok(seq)
    }
}
