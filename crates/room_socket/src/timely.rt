//! A stream whose late writes are failures.
ghost use Rattle.std.specs.Prelude.{◌≡◌};
ghost use Rattle.room_session.specs.Prelude.{error_kind};
ghost use Rattle.room_socket.specs.Hearing.{is_quiet};
ghost use Rattle.room_socket.specs.Timely.{remaining_of, contents_of};

use std::io;
use std::io::{ErrorKind, Read, Write};

/// A stream of which a write that reaches its time limit fails with `BrokenPipe`, so that it is not taken for a quiet
/// read.
#[derive(Drop)]
pub(crate) struct Timely<S> {
    stream: S,
}

impl<S> Timely<S> {
    /// Returns the stream as a timely one.
    pub(crate) fn new(stream: S) -> Timely<S> {
        Timely { stream }
    }
}

/// Returns whether a read failed only because nothing came in time or a signal interrupted it. Such a read can be
/// repeated.
pub(crate) fn is_quiet(error: &io::Error) -> bool
    ensures { result ≡ is_quiet (error_kind error.now) }
{
    matches!(
        error.kind(),
        ErrorKind::WouldBlock | ErrorKind::TimedOut | ErrorKind::Interrupted
    )
}

// Returns whether a read or a write reached its time limit.
fn is_late(error: &io::Error) -> bool {
    matches!(error.kind(), ErrorKind::WouldBlock | ErrorKind::TimedOut)
}

impl<S: Read> Read for Timely<S> {
    ghost remaining = { remaining_of S.remaining };

    fn read(&mut self, buffer: &mut [u8]) -> io::Result<usize> {
        self.stream.read(buffer)
    }
}

impl<S: Write> Write for Timely<S> {
    ghost contents = { contents_of S.contents };

    fn write(&mut self, bytes: &[u8]) -> io::Result<usize> {
        match self.stream.write(bytes) {
            Err(error) if is_late(&error) => Err(ErrorKind::BrokenPipe.into()),
            outcome => outcome,
        }
    }

    fn flush(&mut self) -> io::Result<()> {
        self.stream.flush()
    }
}
