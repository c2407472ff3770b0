//! The trait of values that threads can share by turns.
ghost use Rattle.std.specs.Prelude.{◌≡◌, List, length};
ghost use Rattle.turn_desk.specs.History.{GainsAtMostOne};

/// A value that is modelled as a list over a fixed part. Each call leaves the list unchanged or appends one entry.
pub trait Turned: Drop {
    /// A call.
    type Call;
    /// A reply to a call.
    type Reply;
    /// An entry of the list. Only contracts use it.
    type Entry;
    /// The part that no call changes. Only contracts use it.
    type Fixed;

    ghost fixed: { Self → Self.Fixed };

    ghost list: { Self → List Self.Entry };

    // Over the fixed part, and with the first list before the call, the call may get this reply and lead to the second
    // list.
    ghost answers: { Self.Fixed → List Self.Entry → Self.Call → Self.Reply → List Self.Entry → Type 0 };

    /// Makes one call, and returns its reply.
    fn turn(&mut self, call: Self::Call) -> Self::Reply
        ensures same { fixed self.new ≡ fixed self.old }
        ensures one { GainsAtMostOne (list self.old) (list self.new) }
        ensures answer { answers (fixed self.old) (list self.old) call result (list self.new) };

    /// Returns the number of entries of the list.
    fn front(&self) -> u64
        ensures { result ≡ length (list self.now) };
}
