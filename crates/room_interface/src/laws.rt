//! A law of what one can ask a room: the contract of a function that does nothing.
ghost use Rattle.room_interface.specs.Examples.{authors_read};

/// The definitions agree with examples that were worked out by hand.
pub fn examples_are_as_worked()
    ensures { authors_read }
{}
