//! The sizes of the log's queue, and how long its writer rests.
use std::time::Duration;

/// The most bytes of a line's text. What follows is cut off. The line of the statistics has at most 463.
pub const MAX_LINE: usize = 464;

/// The most lines that wait to be written.
pub const MAX_LINES: usize = 4_096;

/// How long the writer rests after it found lines, so that those who log meanwhile need not wake it.
pub(crate) fn soon() -> Duration {
    Duration::from_millis(5)
}
