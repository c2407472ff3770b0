//! The faults that end a replay or the program.
ghost use Rattle.std.specs.Prelude.{◌≡◌};

use osm_elements::name::Name;
use room_history::base::BaseFault;
use room_interface::refusal::Refusal;
use room_server::{PoolFault, TableFault};
use room_wire::bad::Bad;
use std::alloc::{AllocError, Global};
use thiserror::Error;

/// A fault that ends a run over streams. It is a type of its own, so that the loops over blocks have no impossible
/// cases. [`ReplayFault`] also has the two faults of a base.
#[derive(Clone, Copy, Debug, PartialEq, Eq, Error)]
pub enum StreamFault {
    /// The reader failed, or the reads were used up.
    #[error("read failed")]
    Read,
    /// The writer failed, or took nothing.
    #[error("write failed")]
    Write,
    /// An allocation failed.
    #[error("no memory")]
    Memory,
}

impl From<AllocError> for StreamFault {
    ghost use Rattle.room_program.specs.declared.fault.StreamFault.{StreamFault};

    ghost from_gives = { λ _ fault. fault ≡ StreamFault.Memory };

    fn from(_: AllocError) -> Self {
        StreamFault::Memory
    }
}

/// A fault that ends a replay.
#[derive(Debug, Drop, Error)]
pub enum ReplayFault {
    /// The reader failed, or the reads were used up.
    #[error("read failed")]
    Read,
    /// The writer failed, or took nothing.
    #[error("write failed")]
    Write,
    /// An allocation failed.
    #[error("no memory")]
    Memory,
    /// The first line must be a welcome, and has this fault.
    #[error("bad base")]
    BadBase(Bad),
    /// The map in the first line is not sound.
    #[error("unsound base")]
    Unsound {
        /// The least name whose row is not sound.
        name: Name,
        /// The reason, as in [`BaseFault`].
        why: Refusal<Global>,
    },
}

impl From<StreamFault> for ReplayFault {
    ghost use Rattle.room_program.specs.Faults.{stream_fault};

    ghost from_gives = { λ stream fault. fault ≡ stream_fault stream };

    fn from(fault: StreamFault) -> Self {
        match fault {
            StreamFault::Read => ReplayFault::Read,
            StreamFault::Write => ReplayFault::Write,
            StreamFault::Memory => ReplayFault::Memory,
        }
    }
}

impl From<AllocError> for ReplayFault {
    ghost use Rattle.room_program.specs.declared.fault.ReplayFault.{ReplayFault};

    ghost from_gives = { λ _ fault. fault ≡ ReplayFault.Memory };

    fn from(_: AllocError) -> Self {
        ReplayFault::Memory
    }
}

impl From<BaseFault<Global>> for ReplayFault {
    ghost use Rattle.room_program.specs.Faults.{base_fault};

    ghost from_gives = { λ base fault. fault ≡ base_fault base };

    fn from(fault: BaseFault<Global>) -> Self {
        match fault {
            BaseFault::Unsound { name, why } => ReplayFault::Unsound { name, why },
            BaseFault::Memory => ReplayFault::Memory,
        }
    }
}

/// A fault that ends the program.
#[derive(Debug, Drop, Error)]
pub enum ProgramFault {
    /// A replay, or the reading of the rooms' base map, ended with this fault.
    #[error(transparent)]
    Replay(ReplayFault),
    /// An allocation for the arguments or for serving rooms failed. This fault has the same line as the `Memory` of a
    /// replay.
    #[error("no memory")]
    Memory,
    /// The system does not listen at the given address.
    #[error("cannot listen")]
    Listen,
    /// The system does not start the thread of a worker.
    #[error("cannot start a worker")]
    Worker,
    /// The arguments name more than 64 rooms.
    #[error("too many rooms")]
    TooManyRooms,
    /// An argument is not a name of a room.
    #[error("bad room name")]
    BadName,
    /// Two arguments are the same name of a room.
    #[error("room twice")]
    Twice,
}

impl From<AllocError> for ProgramFault {
    ghost use Rattle.room_program.specs.declared.fault.ProgramFault.{ProgramFault};

    ghost from_gives = { λ _ fault. fault ≡ ProgramFault.Memory };

    fn from(_: AllocError) -> Self {
        ProgramFault::Memory
    }
}

impl From<ReplayFault> for ProgramFault {
    ghost use Rattle.room_program.specs.declared.fault.ProgramFault.{ProgramFault};

    ghost from_gives = { λ replay fault. fault ≡ ProgramFault.Replay replay };

    fn from(fault: ReplayFault) -> Self {
        ProgramFault::Replay(fault)
    }
}

impl From<BaseFault<Global>> for ProgramFault {
    ghost use Rattle.room_program.specs.Faults.{opening_fault};

    ghost from_gives = { λ base fault. fault ≡ opening_fault base };

    fn from(fault: BaseFault<Global>) -> Self {
        match fault {
            BaseFault::Unsound { name, why } => {
                ProgramFault::Replay(ReplayFault::Unsound { name, why })
            }
            BaseFault::Memory => ProgramFault::Memory,
        }
    }
}

impl From<TableFault> for ProgramFault {
    ghost use Rattle.room_program.specs.Faults.{table_fault};

    ghost from_gives = { λ table fault. fault ≡ table_fault table };

    fn from(fault: TableFault) -> Self {
        match fault {
            TableFault::BadName(_) => ProgramFault::BadName,
            TableFault::Twice(_) => ProgramFault::Twice,
            TableFault::Unsound { name, why } => {
                ProgramFault::Replay(ReplayFault::Unsound { name, why })
            }
            TableFault::Memory => ProgramFault::Memory,
        }
    }
}

impl From<PoolFault> for ProgramFault {
    ghost use Rattle.room_program.specs.Faults.{pool_fault};

    ghost from_gives = { λ pool fault. fault ≡ pool_fault pool };

    fn from(fault: PoolFault) -> Self {
        match fault {
            PoolFault::Worker => ProgramFault::Worker,
            PoolFault::Memory => ProgramFault::Memory,
        }
    }
}
