//! The passage of one session through the gate.
use crate::gate::Gate;
use std::sync::Wait;
use std::time::Clock;

/// The passage of one session through a gate. It counts the session's text messages.
#[derive(Drop)]
pub(crate) struct Passage<'g, G> {
    gate: &'g G,
    session: u64,
    call: u64,
}

impl<'g, G: Gate> Passage<'g, G> {
    /// Returns the passage of the session with this number, before its first message.
    pub(crate) fn new(gate: &'g G, session: u64) -> Passage<'g, G> {
        Passage {
            gate,
            session,
            call: 0,
        }
    }

    /// Passes the gate with the next text message.
    pub(crate) fn pass<W: Wait + Clock>(&mut self, rt: &W) {
        self.call = self.call.saturating_add(1);
        self.gate.pass(rt, self.session, self.call);
    }

    /// Reports to the gate that the reply to this message was sent, or could not be sent.
    pub(crate) fn answered<W: Wait + Clock>(&self, rt: &W) {
        self.gate.answered(rt, self.session, self.call);
    }
}
