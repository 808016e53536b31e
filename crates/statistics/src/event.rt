//! The events that are counted.
use relay_core::Verdict;

/// What is counted.
#[derive(Clone, Copy)]
pub enum Event {
    /// An accepted connection was closed unopened.
    Dropped,
    /// A connection was opened.
    Opened,
    /// A turn left the connection open. Since it was opened, `up` bytes were written to its target, and `down` to its
    /// client.
    Moved {
        up: u64,
        down: u64,
    },
    /// The connection has ended. The bytes are as in `Moved`.
    Ended {
        verdict: Verdict,
        up: u64,
        down: u64,
    },
}
