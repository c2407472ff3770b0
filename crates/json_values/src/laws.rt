//! A law of objects: the contract of a function that does nothing.
ghost use Rattle.json_values.specs.Examples.{members_put};

/// The definitions agree with examples that were worked out by hand.
pub fn examples_are_as_worked()
    ensures { members_put }
{}
