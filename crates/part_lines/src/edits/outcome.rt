//! The outcome of a line.
use room_interface::refusal::Refusal;
use std::alloc::Global;
use std::fmt::{self, Display, Formatter};

/// The outcome of a line.
#[derive(Drop)]
pub enum Outcome {
    /// The edit was refused.
    Refused(Refusal<Global>),
    /// The edit was only planned: its changes, and the names that it touches.
    Planned {
        changes: String,
        touched: String,
    },
    /// The edit was done: its changes, the names that it touches, and the map after it.
    Done {
        changes: String,
        touched: String,
        map: String,
    },
    /// The changes, taken back or applied again, did not lead to the map before or to the map after.
    Astray {
        wanted: String,
        found: String,
    },
}

impl Display for Outcome {
    fn fmt<W: fmt::Write>(&self, f: &mut Formatter<W>) -> fmt::Result {
        match self {
            Outcome::Refused(Refusal::TagConflict(key)) => write!(
                f,
                "TagConflict({})",
                key.as_str()
            ),
            Outcome::Refused(refusal) => write!(f, "{refusal:?}"),
            Outcome::Planned { changes, touched } => write!(f, "{changes}\ntouches{touched}"),
            Outcome::Done {
                changes,
                touched,
                map,
            } => write!(f, "{changes}\ntouches{touched}\n{map}"),
            Outcome::Astray { wanted, found } => write!(f, "astray:{found}\nin place of:{wanted}"),
        }
    }
}
