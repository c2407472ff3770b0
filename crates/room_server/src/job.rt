//! The jobs of a worker.

/// A job of a worker.
#[derive(Drop)]
pub enum Job<S> {
    /// Serve the session with this number over a stream.
    Serve {
        /// The number, counted from 1.
        session: u64,
        /// The stream.
        stream: S,
    },
    /// Stop.
    Stop,
}
