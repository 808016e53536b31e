//! What the program asks of its tools: a simulator of scripts ([`Simulate`]), and a replay of recordings ([`Replay`]).
#![tactic(auto)]

mod replay;
mod simulate;

pub use replay::{Judged, Replay, ReplayFault, Wanted};
pub use simulate::{Causes, MAX_SCRIPT, Outcome, ScriptFault, Simulate};
