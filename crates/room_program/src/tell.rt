//! Texts that are written as far as a stream takes them.
ghost use Rattle.std.specs.Prelude.{◌≡◌, ◌⊎◌, false, true};
ghost use Rattle.std.specs.Io.KnownBytes.{Appends};
ghost use Rattle.room_program.specs.Faults.{Takes};
ghost use Rattle.room_program.specs.Streams.{TookNone};

use crate::sink::{Sink, put_all};

/// Writes a text as far as the stream takes it, and returns whether it took the whole text.
pub(crate) fn tell<W: Sink>(stream: &mut W, text: &[u8]) -> bool
    requires { W.has_failed stream.old ≡ false }
    ensures takes { Takes W.Sink stream.old stream.new text.now }
    ensures whole { result ≡ true → Appends (W.taken stream.old) (W.taken stream.new) text.now }
    ensures works { result ≡ true → W.has_failed stream.new ≡ false }
    ensures why { result ≡ false → (W.has_failed stream.new ≡ true) ⊎ TookNone W.puts stream.new }
{
    put_all(stream, text).is_ok()
}
