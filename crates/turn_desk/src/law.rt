//! The rule of a desk's table, and what a seat learns from each kind of step on it.
use crate::turned::Turned;
use crate::view::View;
use atomic_table::{Join, Play, Seat, Shared, Split, TableRule};
use std::snapshot::Snapshot;

/// The rule of a desk's table.
pub(crate) struct InTurns;

impl<R: Turned> TableRule<Option<R>, View<R::Entry, R::Fixed>, Snapshot<R>> for InTurns {
    ghost use Rattle.turn_desk.specs.Rule.{Kept};
    ghost use Rattle.turn_desk.specs.Inner.Opening.{first_view};

    ghost holds = { λ key. Kept R.fixed R.list R.answers (R.fixed key.value) };

    ghost first = { λ key. first_view (R.fixed key.value) };
}

/// The step that draws a ticket.
pub(crate) struct Draw;

impl<R: Turned> Play<Option<R>, View<R::Entry, R::Fixed>> for Draw {
    ghost use Rattle.turn_desk.specs.Inner.Plays.{Draws};

    ghost then = { λ _. Draws };
}

/// The step that asks for the turn.
pub(crate) struct Ask;

impl<R: Turned> Play<Option<R>, View<R::Entry, R::Fixed>> for Ask {
    ghost use Rattle.turn_desk.specs.Inner.Plays.{Asks};

    ghost then = { λ _. Asks R.fixed R.list R.answers };
}

/// The step that enters an event into the history. It is also a look at the length, like [`Look`].
pub(crate) struct Store;

impl<R: Turned> Play<Option<R>, View<R::Entry, R::Fixed>> for Store {
    ghost use Rattle.turn_desk.specs.Inner.Plays.{Stores};

    ghost then = { λ _. Stores R.fixed R.list R.answers };
}

/// The step that passes the turn on.
pub(crate) struct PassOn;

impl<R: Turned> Play<Option<R>, View<R::Entry, R::Fixed>> for PassOn {
    ghost use Rattle.turn_desk.specs.Inner.Plays.{PassesOn};

    ghost then = { λ _. PassesOn };
}

/// A step on a gate.
pub(crate) struct Ring;

impl<R: Turned> Play<Option<R>, View<R::Entry, R::Fixed>> for Ring {
    ghost use Rattle.turn_desk.specs.Inner.Plays.{Rings};

    ghost then = { λ _. Rings };
}

/// The step that looks at the length of the history.
///
/// Only this step and [`Store`] say that the length is that of the whole history. The rule cannot say it: a fact about
/// one state does not distinguish an outdated length from the current one.
pub(crate) struct Look;

impl<R: Turned> Play<Option<R>, View<R::Entry, R::Fixed>> for Look {
    ghost use Rattle.turn_desk.specs.Inner.Plays.{Looks};

    ghost then = { λ _. Looks R.fixed R.list R.answers };
}

/// How a seat is split into two.
pub(crate) struct Cut;

impl<E, F> Split<View<E, F>> for Cut {
    ghost use Rattle.turn_desk.specs.Inner.Sharing.{kept, split_off};

    ghost left = { kept };

    ghost right = { split_off };
}

/// How a seat is met into another seat.
pub(crate) struct Meeting;

impl<E, F> Join<View<E, F>> for Meeting {
    ghost use Rattle.turn_desk.specs.Inner.Sharing.{joined, spent};

    ghost both = { joined };

    ghost spent = { spent };
}

/// The table as its seats share it.
pub(crate) type Board<R> = Shared<
    Option<R>,
    View<<R as Turned>::Entry, <R as Turned>::Fixed>,
    Snapshot<R>,
    InTurns,
>;

/// A seat at the table.
pub(crate) type Place<R> = Seat<Option<R>, View<<R as Turned>::Entry, <R as Turned>::Fixed>>;
