//! The limits of lists.

/// The fewest nodes of a way (OpenStreetMap wiki, "Elements").
pub const FEWEST_NODES: usize = 2;

/// The most nodes of a way, a limit of this project.
pub const MOST_NODES: usize = 2000;

/// The most members of a relation, a limit of this project.
pub const MOST_MEMBERS: usize = 32000;
