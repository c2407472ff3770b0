//! Rooms that several sessions share.
//!
//! A [`RoomTable`] has a room under each name, at a desk (see `turn_desk`). Each worker has a seat at each desk, and
//! its sessions ask the rooms through these seats ([`Seated`]). A worker serves its sessions sequentially ([`worker`]).
//!
//! A pool ([`serve_rooms`]) splits seats off for its workers and runs each worker in a thread. It sends them the
//! connections that it accepts, and meets their seats again at the end.
#![tactic(auto)]

mod accepting;
mod fronts;
mod job;
mod names;
mod pool;
mod seated;
mod seats;
mod sets;
mod table;
mod threads;
mod workers;

pub use fronts::close_all;
pub use job::Job;
pub use names::RoomNames;
pub use pool::{Load, PoolFault, serve_rooms};
pub use seated::Seated;
pub use seats::RoomSeat;
pub use table::{RoomTable, TableFault};
pub use workers::worker;
