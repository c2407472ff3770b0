//! Accepting the connections of a pool.
use crate::job::Job;
use crossbeam_channel::Sender;
use log::{Log, info};
use std::alloc::Global;
use std::net::{TcpListener, TcpStream};
use std::sync::Wait;
use std::time::{Clock, Duration};
use std::{io, thread};

// The milliseconds after which a read counts as quiet.
const QUIET_MILLIS: u64 = 50;

// The seconds after which a write to a client that does not read fails.
const DEAF_SECONDS: u64 = 30;

// The milliseconds that the loop waits after an accept that failed. Mostly the process then has no descriptor left, so
// the next accept would fail at once, and would also use up a session.
const FAILED_MILLIS: u64 = 50;

/// Accepts `sessions` times, or without end, and sends each connection to the workers as a session, numbered from 1.
///
/// An accept that fails is a session too: the log gets `session I end fault`, and the next accept waits for 50 ms.
pub(crate) fn accept_all<R: Wait + Log + Clock>(
    rt: &R,
    listener: &TcpListener,
    jobs: &Sender<Job<TcpStream>, Global>,
    sessions: Option<u32>,
) {
    let mut session = 0;
    for _ in rt.forever() {
        if sessions.is_some_and(|most| session >= u64::from(most)) {
            break;
        }
        session = session.saturating_add(1);
        match accept(listener) {
            Ok(stream) => {
                let _ = jobs.send(rt, Job::Serve { session, stream });
            }
            Err(_) => {
                info!(rt; "session {session} end fault");
                thread::sleep(rt, Duration::from_millis(FAILED_MILLIS));
            }
        }
    }
}

// Accepts a connection whose reads and writes end. TCP_NODELAY is best effort, but a stream without time limits is a
// failed accept. The system's library repeats an accept that a signal interrupts, which is no session.
fn accept(listener: &TcpListener) -> io::Result<TcpStream> {
    let (stream, _) = listener.accept()?;
    stream.set_read_timeout(Some(Duration::from_millis(QUIET_MILLIS)))?;
    stream.set_write_timeout(Some(Duration::from_secs(DEAF_SECONDS)))?;
    let _ = stream.set_nodelay(true);
    Ok(stream)
}
