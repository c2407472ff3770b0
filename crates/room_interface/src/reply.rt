//! Replies of a room.
ghost use Rattle.std.specs.Prelude.{◌≡◌};
ghost use Rattle.room_interface.specs.Replies.{refusal_reply};

use crate::edit_refusal::EditRefusal;
use crate::refusal::Refusal;
use osm_elements::items::Items;
use osm_elements::name::Name;
use std::alloc::Allocator;

/// The reply to a call. From `Repeat` on, the variants are refusals, and the room is unchanged. The type is not `Copy`,
/// and has the allocator's parameter, because a refusal can name a key of tags.
#[derive(Drop)]
#[derive_where(Debug)]
pub enum Reply<A: Allocator> {
    /// The action was done, in the entry with this number.
    Done {
        /// The number of the new entry.
        seq: u64,
    },
    /// An entry was undone.
    Undid {
        /// The number of the new entry.
        seq: u64,
        /// The number of the undone entry.
        of: u64,
    },
    /// The action of an entry was redone.
    Redid {
        /// The number of the new entry.
        seq: u64,
        /// The number of the entry whose action was redone.
        of: u64,
    },
    /// The author already spent the id, in an accepted entry.
    Repeat {
        /// The number of that entry.
        seq: u64,
    },
    /// The journal has as many entries as its limit allows.
    Full,
    /// An undo without a number, and the author has no active entry.
    NothingToUndo,
    /// No entry has the number, or the author says to have seen more entries than there are.
    NoSuch,
    /// The entry with the number is another author's.
    NotYours,
    /// The entry with the number is an undo, or has been undone.
    NotStanding,
    /// The footprint of a later active entry meets that of the entry.
    Conflict {
        /// The number of the first such entry.
        blocker: u64,
        /// The least name at which the footprints meet.
        shared: Name,
    },
    /// A redo, and the author has nothing to redo.
    NothingToRedo,
    /// The action, or the action to redo, is refused on the current map.
    Refused(EditRefusal<A>),
    /// Another author changed, after the entries that the author had seen, what the edit would change.
    Changed {
        /// The number of the last such entry.
        with: u64,
        /// The least name of an element of which both change the same part.
        name: Name,
    },
    /// An allocation failed.
    Memory,
}

// A failed allocation becomes `Memory`, even within a group. Any other refusal is the edit's.
impl<A: Allocator> From<EditRefusal<A>> for Reply<A> {
    ghost from_gives = { λ refusal reply. reply ≡ refusal_reply refusal };

    fn from(refusal: EditRefusal<A>) -> Reply<A> {
        match refusal.why {
            Refusal::Memory => Reply::Memory,
            why => Reply::Refused(EditRefusal {
                action: refusal.action,
                why,
            }),
        }
    }
}

/// A list of replies, in the order of their calls.
pub type Replies<A> = Items<Reply<A>, A>;
