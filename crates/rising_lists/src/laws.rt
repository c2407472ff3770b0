//! A law of sorted multimaps: the contract of a function that does nothing.
ghost use Rattle.rising_lists.specs.Examples.{values_listed, keys_listed, values_added, values_removed};

/// The definitions agree with examples that were worked out by hand.
pub fn examples_are_as_worked()
    ensures values_listed { values_listed }
    ensures keys_listed { keys_listed }
    ensures values_added { values_added }
    ensures values_removed { values_removed }
{}
