//! A gate that delays a message until another message was answered.
use room_socket::Gate;
use std::sync::Wait;
use std::sync::atomic::{AtomicBool, Ordering};
use std::thread;
use std::time::{Clock, Duration};

// The most looks at whether the other message was answered, and the milliseconds between two looks.
const LOOKS: u32 = 10_000;

const PAUSE_MILLIS: u64 = 1;

/// Delays the third message of session 1 until the second message of session 2 was answered, or for ten seconds.
#[derive(Drop)]
pub struct Held {
    is_answered: AtomicBool,
}

impl Held {
    /// Returns the gate, before any message.
    pub fn new() -> Held {
        Held {
            is_answered: AtomicBool::new(false),
        }
    }
}

impl Gate for Held {
    fn pass<W: Wait + Clock>(&self, rt: &W, session: u64, call: u64) {
        if session != 1 || call != 3 {
            return;
        }
        for _ in 0..LOOKS {
            if self.is_answered.load(Ordering::SeqCst) {
                return;
            }
            thread::sleep(rt, Duration::from_millis(PAUSE_MILLIS));
        }
    }

    fn answered<W: Wait + Clock>(&self, _rt: &W, session: u64, call: u64) {
        if session == 2 && call == 2 {
            self.is_answered.store(true, Ordering::SeqCst);
        }
    }
}
