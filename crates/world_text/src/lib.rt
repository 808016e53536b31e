//! What is written of a world and of its events, as `FORMATS.md` describes it.
//!
//! [`print`] gives the report of a world, [`Outline`] the lines of a report that an event changes, and [`event_reason`]
//! why an event is not allowed. [`put_header`] and [`put_event`] add lines of a script to a [`Page`], on which all
//! these texts are written; [`Word`] is the first word of such a line. [`Counts`] counts events by kinds.
#![tactic(auto)]

mod changes;
mod counts;
mod event_line;
mod page;
mod reasons;
mod report;
mod word;

pub use changes::Outline;
pub use counts::Counts;
pub use event_line::{put_event, put_header};
pub use page::{Page, Piece, put_stream};
pub use reasons::{
    NOT_HERE, end_reason, ended_reason, event_reason, read_reason, room_reason, wrote_reason,
};
pub use report::print;
pub use word::{Word, word_of};
