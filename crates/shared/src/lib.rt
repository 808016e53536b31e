//! What the threads of the relay share, and what each of them is lent. Two crates are built on it: `rounds` makes notes
//! of reports and opens accepted connections, and `turns` makes turns of tickets. Nothing here starts a thread
//! (`threads` does) or knows a socket (`sockets` does).
//!
//! - [`Front`] is where connections and reports come from. Its wires can [`Settle`], and it gives the addresses of a
//!   client's connection ([`Route`]).
//! - [`Shared`] is what all threads share, and [`Own`] what one thread owns: its seat, its ends of the two queues, and
//!   a [`Hand`] for what it puts later ([`put_tickets`], [`give_slots`]). Each [`Own`] is made from [`Parts`].
//! - Each poller has [`HeavyMarks`], which say what tickets its thread leaves to the workers.
//! - [`Acts`] and [`Moves`] are the acts of a thread at a slot. The clauses of a turn and of an opening name the acts
//!   that they make, in order. Only [`Moves`] reaches the [`Places`], where connections ([`Berth`]) wait between turns.
//! - [`Gate`] is called around each turn's calls, by the act [`Gated::play`] alone. [`Clock`] shows the second, for the
//!   idle limit ([`Timing`]).
#![tactic(auto)]

mod acts;
mod front;
mod hand;
mod heavy;
mod lent;
mod places;
mod shared;

pub use acts::{Acts, Gated, Moves};
pub use front::{Front, Opened, Route, Settle, Unaccepted, Unopened, Waiting, unaccepted_of};
pub use hand::{Hand, give_slots, put_tickets};
pub use heavy::HeavyMarks;
pub use lent::{Clock, Gate, Timing};
pub use places::{Berth, Occupied, Places};
pub use shared::{Counting, Fullness, Own, Parts, Shared, ended_by, moved_by};
