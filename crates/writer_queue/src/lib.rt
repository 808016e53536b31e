//! A log that never stops the thread that logs: finished lines wait in a bounded queue, and one thread of their own
//! writes them to standard error, in the order in which each thread logged them.
//!
//! A thread that logs prints its line into the queue ([`Queued`]). That takes no memory, and no system call but the one
//! that wakes a writer that sleeps. If the queue is full, because whoever reads standard error is slow or gone, the
//! line is left out and counted, and a line says how many were. So in each relay of `tests/relay` (`start`, `finish` of
//! `logging.rt` and `log` of `running.rt`, in `program`):
//! ```
//! let queue = Arc::new(alloc, LogQueue::new(alloc, form)?)?;
//! write_lines(&rt, &lines);              // the thread that writes, with a clone of the queue
//! let inner = Queued { rt, queue };      // the log of all others
//! queue.close();                         // the writer ends once it found the queue empty
//! ```
//!
//! # Inside
//!
//! [`ParkedQueue`] is what the log and a recording have in common: bounded queues for a thread that writes. The thread
//! sleeps as an end of the ready queue does (`IdleEnds` of `queues`), whose law says that nobody sleeps beside work. It
//! ends only after it found the queues closed and then empty ([`Drained`]). A line that was taken cannot be dropped
//! unwritten (`Unwritten`). One that is left out is put by being counted (`Counted`).
#![tactic(auto)]

mod left_out;
mod limits;
mod line;
mod parked;
mod queue;
mod sink;
mod writing;

pub use limits::{MAX_LINE, MAX_LINES};
pub use line::LogLine;
pub use parked::{Drain, ParkedQueue};
pub use queue::{LogQueue, Written};
pub use queues::Drained;
pub use sink::{Direct, Form, Queued};
pub use writing::write_lines;
