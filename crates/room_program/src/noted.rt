//! A stream of the system, with notes of its calls.
ghost use Rattle.std.specs.Prelude.{◌≡◌, Some, length};
ghost use Rattle.room_server.specs.Prelude.{ReadsAtMost, WritesAtMost, ReadConsumes, WriteAppends};
ghost use Rattle.room_program.specs.Calls.{noted, unnoted};

use crate::failed::Failed;
use std::io::{Error, ErrorKind, Read, Write};
use thiserror::Error;

/// A call that was answered.
#[derive(Clone, Copy, Debug, PartialEq, Eq)]
pub struct Call {
    /// The number of bytes that were asked for or handed over.
    pub asked: usize,
    /// The number of bytes that were read or written, or a failure.
    pub answer: Result<usize, Failed>,
}

/// The notes of a stream's calls. The counts stop at `u64::MAX`.
#[derive(Clone, Copy, Debug, PartialEq, Eq)]
pub struct Calls {
    /// The number of calls that were answered.
    pub answered: u64,
    /// The number of calls that were interrupted, and so not answered.
    pub interrupted: u64,
    /// The last call that was answered.
    pub last: Option<Call>,
}

/// The reason for which a call returned no count.
#[derive(Clone, Copy, Debug, PartialEq, Eq, Error)]
pub enum Stop {
    /// The call was interrupted, and has to be repeated.
    #[error("the call was interrupted")]
    Interrupted,
    /// The call failed.
    #[error("the call failed")]
    Failed,
}

/// A stream with notes of its calls. Only `read` and `write` call the stream and change the notes.
///
/// No contract says that they call the stream once and note that call's answer, or that `stop_of` distinguishes
/// interruptions from failures. Their bodies have to be read for this, because Rust's traits of streams have nothing
/// that a contract could name.
#[derive(Drop)]
pub struct Noted<T> {
    stream: T,
    calls: Calls,
}

impl<T> Noted<T> {
    ghost use Rattle.room_program.specs.Noted.{calls_of, stream_of};

    /// Returns the stream, without any calls noted.
    pub fn new(stream: T) -> Noted<T>
        ensures stream { stream_of result ≡ stream }
        ensures none { calls_of result ≡ unnoted }
    {
        let calls = Calls {
            answered: 0,
            interrupted: 0,
            last: None,
        };
        Noted { stream, calls }
    }
}

impl<R: Read> Noted<R> {
    ghost use Rattle.room_program.specs.Noted.{calls_of, stream_of};

    /// Reads once, and notes the answer.
    pub fn read(&mut self, buffer: &mut [u8]) -> Result<usize, Stop>
        ensures bound { ReadsAtMost result buffer.new }
        ensures bytes { ReadConsumes (R.remaining (stream_of self.old))
            (R.remaining (stream_of self.new)) result buffer.new }
        ensures noted { calls_of self.new ≡ noted (calls_of self.old) (length buffer.new) result }
    {
        let answer = self.stream.read(buffer).map_err(stop_of);
        self.calls = self.calls.note(buffer.len(), answer);
        answer
    }
}

impl<W: Write> Noted<W> {
    ghost use Rattle.room_program.specs.Noted.{calls_of, stream_of};

    /// Writes once, and notes the answer.
    pub fn write(&mut self, bytes: &[u8]) -> Result<usize, Stop>
        ensures bound { WritesAtMost result bytes.now }
        ensures bytes { WriteAppends (W.contents (stream_of self.old))
            (W.contents (stream_of self.new)) result bytes.now }
        ensures noted { calls_of self.new ≡ noted (calls_of self.old) (length bytes.now) result }
    {
        let answer = self.stream.write(bytes).map_err(stop_of);
        self.calls = self.calls.note(bytes.len(), answer);
        answer
    }
}

impl Calls {
    // Returns the notes with one more call.
    fn note(self, asked: usize, answer: Result<usize, Stop>) -> Calls
        ensures { result ≡ noted self asked answer }
    {
        let answer = match answer {
            Ok(count) => Ok(count),
            Err(Stop::Failed) => Err(Failed),
            Err(Stop::Interrupted) => {
                let interrupted = self.interrupted.saturating_add(1);
                return Calls {
                    interrupted,
                    ..self
                };
            }
        };
        Calls {
            answered: self.answered.saturating_add(1),
            interrupted: self.interrupted,
            last: Some(Call { asked, answer }),
        }
    }
}

fn stop_of(error: Error) -> Stop {
    if error.kind() == ErrorKind::Interrupted {
        Stop::Interrupted
    } else {
        Stop::Failed
    }
}
