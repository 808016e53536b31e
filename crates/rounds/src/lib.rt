//! A poller's rounds ([`poller_round`]): it waits for reports, delivers them, accepts and opens connections.
//!
//! A report about a socket becomes a note at the socket's slot ([`deliver`]). The first note at a slot that nobody
//! holds makes a ticket. An opening posts one note and makes one ticket ([`open`]). The target may first be sent a line
//! with both addresses of the client's connection; if one of them is not known, the opening fails. Silent sockets
//! report nothing, so once the idle limit has passed, a round posts a note at each slot that was used: its sweep. What
//! a round is lent is in `shared`; what becomes of the tickets is in `turns`.
//!
//! # Inside
//!
//! - A lack lasts until accept(2) answers that no client waits, or a connection (`starved_after`).
//! - A drop is counted, or has a line of its own (`dropped_at`, `owed_for`). A count is cleared only if a line of its
//!   cause logs it (`logged_at`, `tell_of`; an `Owed` cannot be dropped, and only the log takes it). At an opening all
//!   counts are logged (`end_episodes`). A starved accept(2) has no new line before an opening (`episodes_after`). A
//!   poller becomes full if the listener was reported, it may open more, and no slot was free before it accepted
//!   anybody (`log_if_full`: `full`, `found`). It stays full until accept(2) answers that nobody waits.
//! - Both tokens of a connection have the next generation of its slot (`next_names`). Its lead is the PROXY line of the
//!   addresses that the front gave, or nothing (`LeadGiven`). `DropsFor` says which cause is logged if there is none.
//! - An accepted connection counts once (`Uncounted`): as opened, as dropped, or its slot as lost. A drop counts only
//!   if the log gets a line or a count of it (`Dropped`). A slot is lost only if one exchange found it not free
//!   (`NotFree`), or no connection can be opened there (`Spent`). After a failed opening the slot is in hand, and
//!   nowhere else (`prepare`: `failed`; `round`: `slots`).
#![tactic(auto)]

mod delivering;
mod dropping;
mod episodes;
mod opening;
mod placing;
mod poller;
mod round;
mod sweeping;

pub use delivering::deliver;
pub use episodes::{Drops, Episodes, Tally};
pub use opening::{Opening, open};
pub use poller::{Poller, Uncounted};
pub use round::poller_round;
