//! The two parts of a row.

/// A part of a row: its tags, or the rest, which is a position, a list of nodes or a list of members. Tags come first.
#[derive(Clone, Copy, Debug, PartialEq, Eq, PartialOrd, Ord)]
pub enum Part {
    /// The tags.
    Tags,
    /// All that a row has apart from its tags.
    Rest,
}
