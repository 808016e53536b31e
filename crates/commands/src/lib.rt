//! The words of the command line: which command they name, and what is printed in place of a command.
//!
//! [`read_command`] reads them, by the table of `rows` and, for the arguments that are settings, by `forwarding`.
//! `usage` prints help, and why words are refused, with what to type instead (`tips`).
#![tactic(auto)]

mod command_line;
mod forwarding;
mod rows;
mod tips;
mod usage;

pub use command_line::{Command, Relay, Replayed, Source, TypedExtras, VERSION, read_command};
pub use forwarding::{setting_text, whole_number};
pub use usage::{print_answer, print_refused};
