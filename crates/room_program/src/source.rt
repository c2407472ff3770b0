//! The streams that are read.
ghost use Rattle.std.specs.Prelude.{◌≡◌, ◌≤◌, ◌||◌, ℕ, Bool, List, Option, None, Result, IfOk, is_err, length};
ghost use Rattle.std.specs.Io.KnownBytes.{ReadConsumes};
ghost use Rattle.room_program.specs.declared.failed.Failed.{Failed};

use crate::failed::Failed;

/// The most reads that the program makes of its input. The limit exists so that the call ends by its contract. An input
/// of fewer than 2^40 bytes does not reach it, because each read but the last gives some bytes.
pub const MOST_READS: u64 = 1 << 40;

/// A stream of bytes to read.
pub trait Source {
    /// The bytes that the stream has left, if they are known.
    ghost left: { Self → Option (List ℕ) } = { λ _. None };

    /// Whether the stream has failed.
    ghost has_failed: { Self → Bool };

    /// A call of `get` may return this result, and lead from the first state to the second.
    ghost gets: { Self → Result ℕ Failed → Self → Type 0 } = { λ _ _ _. Unit {0} };

    /// Reads bytes to the beginning of the buffer, and returns their number. If the buffer is not empty, 0 means that
    /// the stream has ended. A call that fails reads nothing.
    fn get(&mut self, buffer: &mut [u8]) -> Result<usize, Failed>
        ensures bound { IfOk result (λ count. count ≤ length buffer.new) }
        ensures bytes { ReadConsumes (left self.old) (left self.new) result buffer.new }
        ensures failed { has_failed self.new ≡ (has_failed self.old || is_err result) }
        ensures gets { gets self.old result self.new };
}
