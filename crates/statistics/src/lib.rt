//! How many connections a relay has opened, how each ended, and how many bytes it has forwarded.
//!
//! Each slot has a place. Only the thread that has the slot writes there ([`Statistics::count`]), so no thread waits
//! for another. A gauge beside them, which all write, keeps the most that were open at once, how long clients waited,
//! and what a recording lacks. [`Statistics::totals`] sums all places. The sums ([`Totals`]) print as a line of the
//! log, and as a monitor reads them ([`Monitored`]).
#![tactic(auto)]

mod counts;
mod event;
mod gauge;
mod monitor;
mod place;
mod statistics;
mod totals;

pub use counts::{Count, Counts};
pub use event::Event;
pub use gauge::{AtomicGauge, Gauge, Levels};
pub use monitor::Monitored;
pub use place::Memory;
pub use statistics::Statistics;
pub use totals::{Figure, Totals};
