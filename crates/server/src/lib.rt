//! The relay: it serves on a listening socket ([`Bound`]) with pollers' threads, which accept and open connections and
//! run most turns, and with workers, which run the others ([`serve`]). It may record what its threads do
//! ([`serve_recorded`]).
//!
//! Rounds are in `rounds`, turns in `turns`, the threads in `threads`, and the sockets in `sockets`. Here they are
//! made as the settings say ([`build`]).
#![tactic(auto)]

mod making;
mod serving;

pub use making::{build, split_of};
pub use serving::{Lent, System, serve, serve_recorded};
pub use shared::{Clock, Gate};
pub use sizes::ServerFault;
pub use sockets::{Bound, Stop};
pub use threads::Outcome;
