//! The log messages of the relay, byte for byte, and the calls that pass them to a log.
//!
//! A call's clause says of any log ([`Logs`]) which message the call passes, and at which level. `messages` has each
//! message, beside its call, except [`Gone`].
#![tactic(auto)]

mod gone;
mod messages;

pub use gone::{Gone, Known, Why};
pub use messages::{
    Done, Failed, Logs, log_all_taken, log_drop, log_drops, log_end, log_few_threads, log_gone,
    log_no_thread, log_open, log_peer, logs_gone,
};
