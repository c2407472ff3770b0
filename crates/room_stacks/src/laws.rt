//! A law of what authors can still use: the contract of a function that does nothing.
ghost use Rattle.room_stacks.specs.Examples.{ids_spent, entries_active, redos_stacked};

/// The definitions agree with examples that were worked out by hand.
pub fn examples_are_as_worked()
    ensures ids_spent { ids_spent }
    ensures entries_active { entries_active }
    ensures redos_stacked { redos_stacked }
{}
