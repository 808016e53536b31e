//! One turn of a connection over real calls: a [`Pair`](relay_core::Pair) is asked for its next call, the call is made
//! on one of two [`Wire`]s, and the pair gets the answer, up to a budget of calls. In the test
//! `goes_on_waits_or_fails_before_a_write` (`session.rt` of `core_tests`) that is 9, over two wires in memory:
//! ```
//! let mut pair = Pair::new(alloc, 0, 1, 4, 0, b"")?;
//! let _outcome = turn(&mut pair, &mut client, &mut target, 9, 0, 0);
//! let (down, up) = (client.written().len(), target.written().len());
//! ```
//! A wire is a socket that never waits, or what answers like one. It counts its faults and its answers "would block" by
//! the rule [`class_by`]; [`Tally`] keeps both. [`ScriptWire`] is an in-memory wire that plays lists of answers.
#![tactic(auto)]

mod class;
mod outcome;
mod scripted;
mod step;
mod tally;
mod turning;
mod wire;

pub use class::{Class, class_by, class_of, error_of, kind_of, pending};
pub use outcome::Turn;
pub use scripted::{Play, PlayList, ScriptWire};
pub use tally::Tally;
pub use turning::{Moment, turn, turn_with};
pub use wire::Wire;
