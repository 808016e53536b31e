//! The simulator: it takes a script of steps, and gives a report of the state after them, as `FORMATS.md` has both.
//!
//! [`parse`] reads the whole text before the first step is made, [`Script::carry_out`] makes the steps one by one, and
//! [`Reached::report`] is the report. [`run`] does all three, from a reader to a writer; [`run_each`] writes what is
//! new in the report after each step.
//!
//! A script that has a fault gives one line in place of the report, and [`run`] passes its cause, which says more, to
//! its [`Causes`]. A [`Simulator`] does what `run` and `run_each` do. What a line says is the crate `script_text`, and
//! what is printed of a world `world_text`.
#![tactic(auto)]

mod causes;
mod each;
mod fault;
mod flow_script;
mod machine;
mod parsing;
mod running;
mod script;
mod transfer;
mod world_script;

pub use each::run_each;
pub use fault::Fault;
pub use flow_script::FlowScript;
pub use parsing::parse;
pub use running::{Simulator, answer, run};
pub use script::{Reached, Script, print_transfer};
pub use script_text::{Bytes, NumberedEvent, NumberedStep, Step};
pub use tools::{Causes, Outcome, ScriptFault};
pub use transfer::Transfer;
pub use world_script::WorldScript;
pub use world_text::{Word, print, word_of};
