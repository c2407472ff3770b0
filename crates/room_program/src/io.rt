//! The streams of the system as sources and sinks.
ghost use Rattle.std.specs.Prelude.{◌≡◌, false};
ghost use Rattle.room_program.specs.Calls.{unnoted};

use crate::failed::Failed;
use crate::noted::{Noted, Stop};
use crate::sink::Sink;
use crate::source::Source;
use std::io::{Read, Write};

/// A source of bytes over any reader, and a sink over any writer. It repeats calls that are interrupted.
#[derive(Drop)]
pub struct Io<T> {
    below: Noted<T>,
    has_failed: bool,
}

impl<T> Io<T> {
    ghost use Rattle.room_program.specs.Io.{calls_of, failed_of, stream_of};

    /// Returns the stream as a source or a sink that has not failed yet.
    pub fn new(stream: T) -> Io<T>
        ensures stream { stream_of result ≡ stream }
        ensures uncalled { calls_of result ≡ unnoted }
        ensures works { failed_of result ≡ false }
    {
        Io {
            below: Noted::new(stream),
            has_failed: false,
        }
    }
}

impl<R: Read> Source for Io<R> {
    ghost use Rattle.room_program.specs.Io.{Gets, failed_of, stream_of};

    ghost left = { λ io. R.remaining (stream_of io) };

    ghost has_failed = { failed_of };

    ghost gets = { Gets };

    fn get(&mut self, buffer: &mut [u8]) -> Result<usize, Failed> {
        for _ in 0..u64::MAX {
            match self.below.read(buffer) {
                Ok(count) => return Ok(count),
                Err(Stop::Interrupted) => {}
                Err(Stop::Failed) => break,
            }
        }
        self.has_failed = true;
        Err(Failed)
    }
}

impl<W: Write> Sink for Io<W> {
    ghost use Rattle.room_program.specs.Io.{Puts, failed_of, stream_of};

    ghost taken = { λ io. W.contents (stream_of io) };

    ghost has_failed = { failed_of };

    ghost puts = { Puts };

    fn put(&mut self, bytes: &[u8]) -> Result<usize, Failed> {
        for _ in 0..u64::MAX {
            match self.below.write(bytes) {
                Ok(taken) => return Ok(taken),
                Err(Stop::Interrupted) => {}
                Err(Stop::Failed) => break,
            }
        }
        self.has_failed = true;
        Err(Failed)
    }
}
