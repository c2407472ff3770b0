//! Tests of the turn lock, on one thread and on several.
#![tactic(auto)]

#[cfg(test)]
mod seats;
#[cfg(test)]
mod turns;
