//! The streams that are written.
ghost use Rattle.std.specs.Prelude.{◌≡◌, ◌≤◌, ◌<◌, ◌||◌, ◌⊎◌, ◌++◌, ℕ, Bool, true, false, List, Option, None, Result, Err, IfOk, OnErr, OnOk, is_err, length};
ghost use Rattle.std.specs.Io.KnownBytes.{Appends, WriteAppends};
ghost use Rattle.room_program.specs.declared.failed.Failed.{Failed};
ghost use Rattle.room_program.specs.Streams.{TookNone};

use crate::failed::Failed;
use crate::fault::StreamFault;

/// A stream of bytes to write.
pub trait Sink {
    /// The bytes that the stream has taken, if they are known.
    ghost taken: { Self → Option (List ℕ) } = { λ _. None };

    /// Whether the stream has failed.
    ghost has_failed: { Self → Bool };

    /// A call of `put` with these bytes may return this result, and lead from the first state to the second.
    ghost puts: { Self → List ℕ → Result ℕ Failed → Self → Type 0 } = { λ _ _ _ _. Unit {0} };

    /// Takes a prefix of the bytes, of which there is at least one, and returns its length. A call that fails takes
    /// nothing.
    fn put(&mut self, bytes: &[u8]) -> Result<usize, Failed>
        requires { 0 < length bytes.now }
        ensures bound { IfOk result (λ count. count ≤ length bytes.now) }
        ensures bytes { WriteAppends (taken self.old) (taken self.new) result bytes.now }
        ensures failed { has_failed self.new ≡ (has_failed self.old || is_err result) }
        ensures puts { puts self.old bytes.now result self.new };
}

/// Writes all the bytes. It returns `Write` if the writer failed or took none of the remaining bytes. What was written
/// stays written.
pub(crate) fn put_all<W: Sink>(writer: &mut W, bytes: &[u8]) -> Result<(), StreamFault>
    requires { W.has_failed writer.old ≡ false }
    ensures ok { OnOk result (Appends (W.taken writer.old) (W.taken writer.new) bytes.now) }
    ensures works { OnOk result (W.has_failed writer.new ≡ false) }
    ensures front { OnErr result ((front rest : List ℕ) × (bytes.now ≡ front ++ rest)
        × Appends (W.taken writer.old) (W.taken writer.new) front) }
    ensures fault { OnErr result (result ≡ Err StreamFault.Write) }
    ensures why { OnErr result ((W.has_failed writer.new ≡ true) ⊎ TookNone W.puts writer.new) }
{
    let mut rest = bytes;
    while !rest.is_empty() {
        match writer.put(rest) {
            Ok(count) if count > 0 => rest = &rest[count..],
            _ => return Err(StreamFault::Write),
        }
    }
    Ok(())
}
