//! The room.
ghost use Rattle.std.specs.Prelude.{◌≡◌, ◌⊎◌, [], Some, None, Ok, Err, true, length, IfOk, IfErr, OnOk, option_copied, option_map};
ghost use Rattle.osm_changes.specs.Prelude.{changed, inverse, AreFrom, Rows, AreInOrder, is_sound};
ghost use Rattle.room_history.specs.Journals.{numbered};

use crate::base::BaseFault;
use crate::changers::Changers;
use crate::entry::{Entry, EntryKind};
use crate::journal::{action_of, numbered};
use crate::kept::{Kept, footprint_by};
use crate::laws::leads_back;
use crate::news::news_past;
use crate::undo::{EntryToUndo, asked_for};
use edit_footprint::footprint::Footprint;
use edit_footprint::holders::Holders;
use edit_groups::plan::plan_edit;
use edit_simple::soundness::first_unsound;
use osm_changes::changes::Changes;
use osm_changes::store::Store;
use osm_elements::Memory;
use osm_elements::element::Element;
use osm_elements::map::{OsmMap, Rows};
use osm_elements::name::Name;
use room_interface::author::Author;
use room_interface::call::{Call, Request};
use room_interface::edit::Edit;
use room_interface::news::NewsList;
use room_interface::reply::Reply;
use room_stacks::stacks::Stacks;
use std::alloc::Allocator;
use std::marker::Model;
use std::snapshot::Snapshot;

mod appending;
mod asking;
mod guarding;

/// A room: one map, and the journal of what its authors did to it.
///
/// Contracts model a room as its base map, which is sound, its limit and its journal. Next to each entry, the room
/// keeps the changed rows before and after it, which determine its changes, and the number of the entry that stores its
/// action. The footprint of an action follows from the action and its changes, and an undo computes it. The room keeps
/// that of a group.
#[derive(Drop)]
#[derive_where(Debug)]
pub struct Room<A: Allocator> {
    // Only proofs see the base. The room's invariant says that it is sound, which is the theorem's only condition on a
    // base. So each statement is the same for the empty map and for given rows.
    #[derive_where(skip)]
    base: Snapshot<OsmMap<A>>,
    limit: u32,
    store: Store<A>,
    entries: Vec<Entry<A>, A>,
    recorded: Vec<Kept<A>, A>,
    // For each entry, the number of the entry that stores its action. So a redo of a redo finds its action in one step,
    // and each action is stored once.
    origins: Vec<u64, A>,
    holders: Holders<A>,
    changers: Changers<A>,
    // An author can stay ready for a deed that never comes. No contract of the room sees this, and the next change
    // calls `ready` again.
    stacks: Stacks<A>,
}

impl<A: Allocator> Model for Room<A> {
    ghost use Rattle.room_history.specs.Rooms.{RoomState};
    ghost use Rattle.room_history.specs.Inner.Rooms.{IsRoom};

    ghost Value = { RoomState A };

    ghost view = { λ r. record { base = r.base.value; limit = r.limit; journal = r.entries.items } };

    ghost invariant = { λ r. IsRoom r.store r.recorded.items r.origins.items r.holders r.changers.rows r.stacks.deeds
        r.base.value r.limit r.entries.items };
}

impl<A: Allocator + Copy> Room<A> {
    ghost use Rattle.room_history.specs.Answers.{asked, undo_refusal, redo_refusal};
    ghost use Rattle.room_interface.specs.declared.call.Request.TheVariants as requests;
    ghost use Rattle.room_interface.specs.declared.reply.Reply.TheVariants as replies;
    ghost use Rattle.edit_groups.specs.Edits.{changes as changes_of, footprint as footprint_of, refusal};
    ghost use Rattle.room_interface.specs.MadeCalls.{is_made_edit};
    ghost use Rattle.room_history.specs.declared.entry.EntryKind.TheVariants.{Undo, Redo};
    ghost use Rattle.room_history.specs.Blockers.{recorded_footprint};
    ghost use Rattle.room_history.specs.Inner.Undoing.{asked_or};
    ghost use Rattle.room_history.specs.Journals.{is_standing, undos, redos};
    ghost use Rattle.room_history.specs.Replays.{past, mapof, action_at, recorded_next};
    ghost use Rattle.room_history.specs.Applied.{applied};
    ghost use Rattle.room_history.specs.Headline.{Holds};
    ghost use Rattle.room_history.specs.Inner.Rooms.{MayAppend};
    ghost use Rattle.room_history.specs.News.{news};
    ghost use Rattle.room_history.specs.Runs.{IsStep};
    ghost use Rattle.osm_elements.specs.Maps.{are_of_kinds};
    ghost use Rattle.room_history.specs.Bases.{IsBaseFault};
    ghost use Rattle.osm_elements.specs.Rows.{row_at};

    /// Returns a room with the empty map, whose journal takes at most `limit` entries.
    pub fn open(alloc: A, limit: u32) -> Room<A>
        ensures { result ≡ record { base = []; limit = limit; journal = [] } }
    {
        Room::begin(alloc, Store::new(alloc), limit)
    }

    /// Returns a room that begins with the map of `rows`, and whose journal takes at most `limit` entries.
    ///
    /// The names must rise, and each element must be of its name's kind. These are preconditions and not refusals,
    /// because every welcome that was read satisfies them. The call copies no element, and costs a look-up for each row
    /// and each reference.
    ///
    /// # Errors
    ///
    /// - `Unsound`, if the map is not sound, with the least name whose row is not sound and the fault of this row
    /// - `Memory`, if an allocation fails
    pub fn open_on(alloc: A, rows: Rows<A>, limit: u32) -> Result<Room<A>, BaseFault<A>>
        requires order { AreInOrder rows }
        requires kinds { are_of_kinds rows ≡ true }
        ensures ok { IfOk result (λ room. room ≡ record { base = rows; limit = limit; journal = [] }) }
        ensures sound { OnOk result (is_sound rows ≡ true) }
        ensures err { IfErr result (λ fault. IsBaseFault rows fault) }
    {
        let map = OsmMap::from_rows(alloc, rows)?;
        if let Some((name, why)) = first_unsound(&map) {
            return Err(BaseFault::Unsound { name, why });
        }
        let store = Store::from_map(alloc, map)?;
        Ok(Room::begin(alloc, store, limit))
    }

    // Returns a room that begins with the map of a store.
    fn begin(alloc: A, store: Store<A>, limit: u32) -> Room<A>
        requires { store.applied ≡ 0 }
        ensures { result ≡ record { base = store.rows; limit = limit; journal = [] } }
    {
        Room {
            base: Snapshot::of(store.map()),
            limit,
            store,
            entries: Vec::new(alloc),
            recorded: Vec::new(alloc),
            origins: Vec::new(alloc),
            holders: Holders::new(alloc),
            changers: Changers::new(alloc),
            stacks: Stacks::new(alloc),
        }
    }

    /// Runs a call and returns its reply.
    ///
    /// It costs what the action's plan costs, and the changes. An undo costs the changes that it takes back. For each
    /// touch of its entry's footprint, it also searches the later entries with a conflicting touch. Each look-up takes
    /// time logarithmic in the size of the map or of the journal. Otherwise the cost does not depend on these.
    ///
    /// The first refusal in the order of [`Reply`] is returned. A refusal changes nothing, and spends no id.
    pub fn take(&mut self, call: Call<A>) -> Reply<A>
        ensures step { IsStep self.old.base self.old.limit self.old.journal call result self.new.journal }
        ensures base { self.new.base ≡ self.old.base }
        ensures limit { self.new.limit ≡ self.old.limit }
        ensures holds { Holds self.new.base self.new.limit self.new.journal }
    {
        let reply = self.answer(call);
        self.holds();
        reply
    }

    // Proves that the room's journal holds. It does nothing.
    pub(crate) fn holds(&self)
        ensures { Holds self.now.base self.now.limit self.now.journal }
    {
        leads_back::<A>();
        let _ = &self.entries;
    }

    fn answer(&mut self, call: Call<A>) -> Reply<A>
        ensures step { IsStep self.old.base self.old.limit self.old.journal call result self.new.journal }
        ensures base { self.new.base ≡ self.old.base }
        ensures limit { self.new.limit ≡ self.old.limit }
    {
        let Call {
            author,
            id,
            request,
        } = call;
        if let Some(seq) = self.stacks.spent(&author, id) {
            return Reply::Repeat { seq };
        }
        if self.entries.len() >= self.limit as usize {
            return Reply::Full;
        }
        match request {
            Request::Do { edit, since } => self.act(author, id, edit, since),
            Request::Undo(number) => self.undo(author, id, number),
            Request::Redo => self.redo(author, id),
        }
    }

    // Does an edit, if the map accepts it, and no other author changed what the author had not seen and the edit would
    // change.
    fn act(&mut self, author: Author, id: u64, edit: Edit<A>, since: Option<u64>) -> Reply<A>
        requires { MayAppend self.old.limit self.old.journal author id }
        ensures step { IsStep self.old.base self.old.limit self.old.journal
            (record { author = author; id = id; request = requests.Do edit since }) result self.new.journal }
        ensures base { self.new.base ≡ self.old.base }
        ensures limit { self.new.limit ≡ self.old.limit }
    {
        if self.is_ahead(since) {
            return Reply::NoSuch;
        }
        match self.planned(&edit) {
            Ok((changes, footprint)) => {
                if let Some((with, name)) = self.overwritten(&author, since, &changes) {
                    return Reply::Changed { with, name };
                }
                let kind = EntryKind::Do(edit);
                match self.append_work(author, id, kind, changes, footprint) {
                    Ok(seq) => Reply::Done { seq },
                    Err(_) => Reply::Memory,
                }
            }
            Err(refused) => refused,
        }
    }

    // Returns the changes and the footprint of an edit on the current map, or the reply that refuses it.
    fn planned(&self, edit: &Edit<A>) -> Result<(Changes<A>, Footprint<A>), Reply<A>>
        ensures made { is_made_edit edit.now ≡ true }
        ensures accepted { OnOk result (refusal (mapof self.now.base self.now.journal) edit.now ≡ None) }
        ensures changes { IfOk result (λ p. p.0 ≡ changes_of (mapof self.now.base self.now.journal) edit.now) }
        ensures footprint { IfOk result
            (λ p. p.1 ≡ footprint_of (mapof self.now.base self.now.journal) edit.now) }
        ensures from { IfOk result (λ p. AreFrom (mapof self.now.base self.now.journal) p.0) }
        ensures sound { IfOk result (λ p. is_sound (changed (mapof self.now.base self.now.journal) p.0) ≡ true) }
        ensures refused { IfErr result (λ r. (r ≡ replies.Memory)
            ⊎ (option_map replies.Refused (refusal (mapof self.now.base self.now.journal) edit.now) ≡ Some r)) }
    {
        let alloc = *self.entries.allocator();
        match plan_edit(alloc, &self.store, edit) {
            Ok(planned) => Ok(planned),
            Err(refusal) => Err(refusal.into()),
        }
    }

    // Undoes an entry, if it is active, is the author's own, and is not blocked by a later active entry.
    fn undo(&mut self, author: Author, id: u64, number: Option<u64>) -> Reply<A>
        requires { MayAppend self.old.limit self.old.journal author id }
        ensures step { IsStep self.old.base self.old.limit self.old.journal
            (record { author = author; id = id; request = requests.Undo number }) result self.new.journal }
        ensures base { self.new.base ≡ self.old.base }
        ensures limit { self.new.limit ≡ self.old.limit }
    {
        match self.undoable(&author, number) {
            Ok(undoable) => {
                let of = undoable.of;
                match self.append_undo(author, id, undoable) {
                    Ok(seq) => Reply::Undid { seq, of },
                    Err(_) => Reply::Memory,
                }
            }
            Err(refusal) => refusal,
        }
    }

    // Returns what an undo takes back, if the entry is active, is the author's own, and is not blocked by a later
    // active entry. Otherwise returns the reply that refuses the undo.
    fn undoable(&self, author: &Author, number: Option<u64>) -> Result<EntryToUndo<A>, Reply<A>>
        ensures found { IfOk result
            (λ u. Ok u.of ≡ asked_or (undo_refusal (past self.now.base self.now.journal) self.now.journal author.now)
            (asked self.now.journal author.now number)) }
        ensures changes { IfOk result
            (λ u. inverse u.changes ≡ (recorded_next (past self.now.base self.now.journal) (Undo u.of)).changes) }
        ensures footprint { IfOk result
            (λ u. u.footprint ≡ recorded_footprint (past self.now.base self.now.journal) u.of) }
        ensures refused { IfErr result (λ r. (r ≡ replies.Memory)
            ⊎ (Err r ≡ asked_or (undo_refusal (past self.now.base self.now.journal) self.now.journal author.now)
            (asked self.now.journal author.now number))) }
    {
        let own = self.stacks.standing(author);
        let of = asked_for(&self.entries, own, author, number)?;
        match self.worked_out(of) {
            Ok((changes, footprint)) => match self.holders.first_after(&footprint, of) {
                Some((blocker, shared)) => Err(Reply::Conflict { blocker, shared }),
                None => Ok(EntryToUndo {
                    of,
                    changes,
                    footprint,
                }),
            },
            Err(_) => Err(Reply::Memory),
        }
    }

    // Returns the changes of an active entry, and its footprint.
    fn worked_out(&self, of: u64) -> Result<(Changes<A>, Footprint<A>), Memory>
        requires { is_standing self.now.journal of ≡ true }
        ensures changes { IfOk result
            (λ w. inverse w.0 ≡ (recorded_next (past self.now.base self.now.journal) (Undo of)).changes) }
        ensures footprint { IfOk result (λ w. w.1 ≡ recorded_footprint (past self.now.base self.now.journal) of) }
    {
        let alloc = *self.entries.allocator();
        match action_of(&self.entries, &self.origins, of) {
            Some(edit) => {
                let kept = &self.recorded[of as usize - 1];
                let changes = kept.changes(alloc)?;
                let footprint = footprint_by(alloc, edit, kept, &changes)?;
                Ok((changes, footprint))
            }
            None => unreachable!(),
        }
    }

    // Redoes the entry that the author undid last, if the map accepts its action.
    fn redo(&mut self, author: Author, id: u64) -> Reply<A>
        requires { MayAppend self.old.limit self.old.journal author id }
        ensures step { IsStep self.old.base self.old.limit self.old.journal
            (record { author = author; id = id; request = requests.Redo }) result self.new.journal }
        ensures base { self.new.base ≡ self.old.base }
        ensures limit { self.new.limit ≡ self.old.limit }
    {
        match self.stacks.redo(&author).last().copied() {
            Some(of) => match self.plan_again(of) {
                Ok((changes, footprint)) => {
                    let kind = EntryKind::Redo(of);
                    match self.append_work(author, id, kind, changes, footprint) {
                        Ok(seq) => Reply::Redid { seq, of },
                        Err(_) => Reply::Memory,
                    }
                }
                Err(refused) => refused,
            },
            None => Reply::NothingToRedo,
        }
    }

    // Returns the changes and the footprint of an entry's action on the current map, or the reply that refuses it. In a
    // journal that calls lead to, an entry on top of a redo stack has an action (`top_acts` of `proofs/Redoable.antt`).
    // For other journals the definition gives `NothingToRedo`.
    fn plan_again(&self, of: u64) -> Result<(Changes<A>, Footprint<A>), Reply<A>>
        ensures accepted { OnOk result
            (redo_refusal (mapof self.now.base self.now.journal) (action_at (past self.now.base self.now.journal) of)
            ≡ None) }
        ensures changes { IfOk result
            (λ p. p.0 ≡ (recorded_next (past self.now.base self.now.journal) (Redo of)).changes) }
        ensures footprint { IfOk result
            (λ p. p.1 ≡ (recorded_next (past self.now.base self.now.journal) (Redo of)).footprint) }
        ensures from { IfOk result (λ p. AreFrom (mapof self.now.base self.now.journal) p.0) }
        ensures sound { IfOk result (λ p. is_sound (changed (mapof self.now.base self.now.journal) p.0) ≡ true) }
        ensures refused { IfErr result (λ r. (r ≡ replies.Memory)
            ⊎ (redo_refusal (mapof self.now.base self.now.journal) (action_at (past self.now.base self.now.journal) of)
            ≡ Some r)) }
    {
        match action_of(&self.entries, &self.origins, of) {
            Some(action) => self.planned(action),
            None => Err(Reply::NothingToRedo),
        }
    }

    /// Returns the numbers of an author's active entries, in rising order, by a hash look-up of the author. The author
    /// can undo those that no later entry blocks.
    pub fn undos(&self, author: &Author) -> &[u64]
        ensures { result.now ≡ undos self.now.journal author.now }
    {
        self.stacks.standing(author)
    }

    /// Returns the numbers of the entries that an author can redo, the next one last, by a hash look-up of the author.
    /// They are the entries that it undid since its last new action and has not redone.
    pub fn redos(&self, author: &Author) -> &[u64]
        ensures { result.now ≡ redos self.now.journal author.now }
    {
        self.stacks.redo(author)
    }

    /// Returns the element of a name, or `None`.
    pub fn get(&self, name: &Name) -> Option<&Element<A>>
        ensures { option_copied result ≡ row_at (mapof self.now.base self.now.journal) name.now }
    {
        self.store.map().get(name)
    }

    /// Returns the map.
    pub fn map(&self) -> &OsmMap<A>
        ensures { result.now ≡ mapof self.now.base self.now.journal }
    {
        self.store.map()
    }

    /// Returns a copy of the map's rows, in name order.
    ///
    /// # Errors
    ///
    /// `Memory`, if an allocation fails.
    pub fn map_rows(&self) -> Result<Rows<A>, Memory>
        ensures rows { IfOk result (λ rows. rows ≡ mapof self.now.base self.now.journal) }
        // Another room can begin with them.
        ensures sound { IfOk result (λ rows. is_sound rows ≡ true) }
    {
        self.store.map().rows(*self.entries.allocator())
    }

    /// Returns the news of all entries after the first `from`, in order. It copies the rows that these entries changed,
    /// and costs as much.
    ///
    /// # Errors
    ///
    /// `Memory`, if an allocation fails.
    pub fn news(&self, from: u64) -> Result<NewsList<A>, Memory>
        ensures { IfOk result (λ told. told ≡ news self.now.base self.now.journal from) }
    {
        let alloc = *self.entries.allocator();
        news_past(alloc, &self.entries, &self.recorded, from)
    }

    /// Returns the entry count of the journal.
    pub fn front(&self) -> u64
        ensures { result ≡ length self.now.journal }
    {
        self.entries.len() as u64
    }

    /// Returns the number of changes of cells that were applied to the map so far, at most 2^128 - 1. For an undo,
    /// these are the changes that it took back. The count shows that an undo takes back its own changes and does not
    /// rebuild the map.
    pub fn applied(&self) -> u128
        ensures { result ≡ applied self.now.base self.now.journal }
    {
        self.store.applied()
    }

    /// Returns the entry with a number, counted from 1, or `None`.
    pub fn entry(&self, seq: u64) -> Option<&Entry<A>>
        ensures { option_copied result ≡ numbered self.now.journal seq }
    {
        numbered(&self.entries, seq)
    }
}
