//! What an author had not seen when it chose an edit.
ghost use Rattle.std.specs.Prelude.{◌≡◌};
ghost use Rattle.osm_changes.specs.Prelude.{changed_cells};

use crate::laws::leads_back;
use crate::room::Room;
use osm_changes::changes::Changes;
use osm_elements::name::Name;
use room_interface::author::Author;
use std::alloc::Allocator;

impl<A: Allocator + Copy> Room<A> {
    ghost use Rattle.room_history.specs.Answers.{is_ahead};
    ghost use Rattle.room_history.specs.Guards.{overwritten_since};
    ghost use Rattle.room_history.specs.Replays.{past};

    // Returns whether an author says to have seen more entries than there are.
    pub(super) fn is_ahead(&self, since: Option<u64>) -> bool
        ensures { result ≡ is_ahead self.now.journal since }
    {
        match since {
            Some(since) => self.front() < since,
            None => false,
        }
    }

    // Returns the last entry, after those that an author had seen, that is another author's and changed a cell of the
    // changes, with the least name of such a cell. Returns `None` if the author does not say what it had seen.
    pub(super) fn overwritten(
        &self,
        author: &Author,
        since: Option<u64>,
        changes: &Changes<A>,
    ) -> Option<(u64, Name)>
        ensures { result ≡ overwritten_since author.now since (changed_cells changes.now) self.now.journal
            (past self.now.base self.now.journal).entries }
    {
        leads_back::<A>();
        let changes = changes.rows();
        match since {
            Some(since) => self
                .changers
                .overwritten(&self.entries, author, since, changes),
            None => None,
        }
    }
}
