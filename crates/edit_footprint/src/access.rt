//! What an action does with a part of an element.
ghost use Rattle.std.specs.Prelude.{◌≡◌};
ghost use Rattle.edit_footprint.specs.Touches.{access_rank, reading, writing, writer, reader, is_write};

use osm_changes::part::Part;

/// An access to an element: whether it reads or writes that the element is present, its tags, or the rest, which is a
/// position, a list of nodes or a list of members.
#[derive(Clone, Copy, Debug)]
pub enum Access {
    /// Looks whether the element is present.
    ReadsPresence,
    /// Creates or deletes the element, or could depend on all of it and on what refers to it.
    WritesPresence,
    /// Looks at the tags.
    ReadsTags,
    /// Changes the tags.
    WritesTags,
    /// Looks at the rest.
    ReadsRest,
    /// Changes the rest.
    WritesRest,
}

impl Access {
    /// Returns the access that reads a part.
    pub fn reading(part: Part) -> Access
        ensures { result ≡ reading part }
    {
        match part {
            Part::Tags => Access::ReadsTags,
            Part::Rest => Access::ReadsRest,
        }
    }

    /// Returns the access that writes a part.
    pub fn writing(part: Part) -> Access
        ensures { result ≡ writing part }
    {
        match part {
            Part::Tags => Access::WritesTags,
            Part::Rest => Access::WritesRest,
        }
    }

    /// Returns the access that writes what this access reads or writes.
    pub fn writer(self) -> Access
        ensures { result ≡ writer self }
    {
        match self {
            Access::ReadsPresence | Access::WritesPresence => Access::WritesPresence,
            Access::ReadsTags | Access::WritesTags => Access::WritesTags,
            Access::ReadsRest | Access::WritesRest => Access::WritesRest,
        }
    }

    /// Returns the access that reads what this access reads or writes.
    pub fn reader(self) -> Access
        ensures { result ≡ reader self }
    {
        match self {
            Access::ReadsPresence | Access::WritesPresence => Access::ReadsPresence,
            Access::ReadsTags | Access::WritesTags => Access::ReadsTags,
            Access::ReadsRest | Access::WritesRest => Access::ReadsRest,
        }
    }

    /// Returns whether this access writes.
    pub fn is_write(self) -> bool
        ensures { result ≡ is_write self }
    {
        match self {
            Access::ReadsPresence | Access::ReadsTags | Access::ReadsRest => false,
            Access::WritesPresence | Access::WritesTags | Access::WritesRest => true,
        }
    }

    /// Returns the position of this access in the order of accesses, from 0.
    pub(crate) fn rank(self) -> u8
        ensures { result ≡ access_rank self }
    {
        match self {
            Access::ReadsPresence => 0,
            Access::WritesPresence => 1,
            Access::ReadsTags => 2,
            Access::WritesTags => 3,
            Access::ReadsRest => 4,
            Access::WritesRest => 5,
        }
    }
}
