//! The reasons for which a line is no edit, or was not done.
use osm_elements::fault::TextFault;
use std::alloc::AllocError;
use thiserror::Error;

/// The reason for which a line did nothing.
#[derive(Debug, Drop, Error)]
pub enum Unread {
    /// The line is no edit.
    #[error("no edit")]
    NoEdit,
    /// An allocation failed. If the edit was being taken back and done again, the map is the one before or after it.
    #[error("out of memory")]
    Memory,
}

impl From<AllocError> for Unread {
    fn from(_error: AllocError) -> Unread {
        Unread::Memory
    }
}

impl From<TextFault> for Unread {
    fn from(fault: TextFault) -> Unread {
        match fault {
            TextFault::Memory => Unread::Memory,
            _ => Unread::NoEdit,
        }
    }
}
