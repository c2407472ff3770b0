//! Deeds of a room's authors.
use room_interface::author::Author;

/// A deed: what an author did under an id, and the number of its entry in the room's journal. Contracts model what
/// authors did as a list of deeds. The code keeps it by ids and by authors.
#[derive(Clone, Copy, Debug)]
pub enum Deed {
    /// Did an action.
    Did {
        author: Author,
        id: u64,
        seq: u64,
    },
    /// Undid the entry with the number `of`.
    Undid {
        author: Author,
        id: u64,
        of: u64,
        seq: u64,
    },
    /// Redid the action of the entry with the number `of`.
    Redid {
        author: Author,
        id: u64,
        of: u64,
        seq: u64,
    },
}
