//! What the lines of a script say, as `FORMATS.md` describes them.
//!
//! [`Lines`] gives the lines of a text that are not skipped; their words are pieces of `input`. [`read_header`] reads
//! the first line, and [`read_step`] or [`read_event`] each other line, by what the header covers. If a line cannot be
//! read, [`Wrong`] is the first word from the left that is wrong, with what is expected there.
#![tactic(auto)]

mod events;
mod header;
mod lines;
mod readers;
mod steps;

pub use events::read_event;
pub use header::{Header, read_header};
pub use lines::{Line, Lines};
pub use readers::{NotRead, Wrong};
pub use steps::{Bytes, NumberedEvent, NumberedStep, Step, read_step};
