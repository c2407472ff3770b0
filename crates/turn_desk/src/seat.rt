//! A seat at a desk.
use crate::turned::Turned;
use crate::view::View;
use std::marker::Model;

/// A seat at a desk. It has a number, under which the history has the entries of the seat's own calls.
///
/// Contracts model a seat as its desk, its number, the history that it has seen, the entries of its own calls and the
/// seats met into it. With these come the lengths of the history that it looked at, the tickets that it drew, and its
/// parts of the right to sit at the desk.
#[derive(Drop)]
pub struct Seat<R: Turned> {
    pub(crate) place: atomic_table::Seat<Option<R>, View<R::Entry, R::Fixed>>,
}

impl<R: Turned> Model for Seat<R> {
    ghost use Rattle.turn_desk.specs.Desk.{Sitting, sitting};
    ghost use Rattle.turn_desk.specs.Inner.Steps.{IsAtRest};

    ghost Value = { Sitting R.Entry R.Fixed };

    ghost view = { λ s. sitting s.place };

    ghost invariant = { λ s. IsAtRest s.place.me };
}
