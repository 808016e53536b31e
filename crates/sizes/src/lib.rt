//! Sizes and causes: what threads, log and recordings must agree on. It stands below all of them, so that none waits
//! for another's proof.
//!
//! [`Split`] deals the slots to the pollers, of which there are as many as [`pollers_for`] says. The constants are the
//! limits of one round and of one turn. [`ServerFault`] says why a server ended early, and [`Cause`] why a client was
//! dropped. [`ClientsAt`] says at which level the log names clients.
#![tactic(auto)]

mod cause;
mod clients;
mod faults;
mod limits;
mod pollers;
mod split;

pub use cause::Cause;
pub use clients::ClientsAt;
pub use faults::ServerFault;
pub use limits::{
    FIRST_LIGHT, HEAVY_MARKS, LISTENER, MAX_ACCEPTS, MAX_BATCH, MAX_OWN_TURNS, OWN_BUDGET, WAKER,
};
pub use pollers::pollers_for;
pub use split::{Part, Split};
