//! What a relay writes down of its own run: each thread records what it did, as [`Record`](record_lines::Record)s, and
//! a separate thread writes the records to a file.
//!
//! A server is made of parts that record: [`RecordedFront`] records waits for reports, accepts and openings;
//! [`RecordedWire`] calls and drops; [`RecordedGate`] where turns begin and end; [`RecordedClock`] what second was
//! read. Each does and promises what the part in it does and promises. Of bytes only the number is recorded.
//!
//! A thread that records waits for nobody, and takes no memory: it puts its record into a bounded queue
//! ([`RecordQueue`]), and wakes a writer that sleeps ([`write_records`]).
//!
//! # Inside
//!
//! A [`Recorder`] makes all records but the last, over any [`Sink`]. A part in an `Inner` acts only with a `Begun`: the
//! count before the act, which cannot be dropped. So each act comes after its count, and is recorded. That a wire was
//! closed is recorded by what its drop returns (`Gone`).
#![tactic(auto)]

mod clock;
mod front;
mod gap;
mod lines;
mod queue;
mod recorder;
mod wire;
mod writing;

pub use clock::{RecordedClock, RecordedGate};
pub use front::{RecordedFront, record_all};
pub use lines::Lines;
pub use queue::{MAX_RECORDS, QUEUES, QueueSink, RecordQueue};
pub use recorder::{Recorder, Sink};
pub use wire::RecordedWire;
pub use writing::write_records;
