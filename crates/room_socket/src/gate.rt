//! A gate, which can delay a session's calls.
use std::sync::Wait;
use std::time::Clock;

/// A point that a session passes with each text message. A server lets all messages pass ([`OpenGate`]). A test can
/// delay a message until another message was answered.
pub trait Gate {
    /// Is called before the session takes its turn for a text message. `call` is the number of the message, counted
    /// from 1.
    fn pass<W: Wait + Clock>(&self, rt: &W, session: u64, call: u64);

    /// Is called after the reply to that message was sent, or could not be sent.
    fn answered<W: Wait + Clock>(&self, rt: &W, session: u64, call: u64);
}

/// The gate that delays nothing.
#[derive(Clone, Copy, Debug)]
pub struct OpenGate;

impl Gate for OpenGate {
    fn pass<W: Wait + Clock>(&self, _rt: &W, _session: u64, _call: u64) {}

    fn answered<W: Wait + Clock>(&self, _rt: &W, _session: u64, _call: u64) {}
}
