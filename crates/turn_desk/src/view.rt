//! What the seats at a table know. These types exist in proofs alone: no value of them is ever made.
use std::collections::LinkedList;

/// Where a seat is in its turn.
pub(crate) enum Stage {
    Idle,
    /// It drew this ticket.
    Waiting(u64),
    /// Its ticket is being served, and the slot is the seat's.
    Turning(u64),
}

/// What a seat knows. Entries are of type `E`, and the fixed part is of type `F`.
pub(crate) struct View<E, F> {
    /// The fixed part of the desk, or `None` once the seat was met into another seat.
    pub fixed: Option<F>,
    pub number: u64,
    /// The history that the seat has seen.
    pub seen: LinkedList<(u64, E)>,
    /// The history that the last seat met into this one had seen.
    pub told: LinkedList<(u64, E)>,
    /// The entries of the seat's own calls.
    pub mine: LinkedList<E>,
    /// The seats met into this one, each with the entries of its calls.
    pub met: LinkedList<(u64, LinkedList<E>)>,
    /// The lengths that the seat loaded or stored.
    pub looks: LinkedList<u64>,
    /// The tickets that the seat drew.
    pub tickets: LinkedList<u64>,
    /// The seat's parts of the right to sit at the desk. A ticket takes one part until it is served. A seat that is
    /// split off this one gets a 4096th of the parts, at least one.
    pub parts: u64,
    /// The numbers `next`, `next + stride`, `next + 2 * stride` and so on are for seats that are split off this one.
    pub next: u64,
    pub stride: u64,
    pub stage: Stage,
}
