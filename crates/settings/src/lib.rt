//! The settings of a relay: what a TOML text sets, or the first thing that is wrong in it.
//!
//! [`Settings`] has one field for each key and prints as `KEY=VALUE` lines, and [`SettingsFault`] prints as the line
//! that a person sees; [`cause`] and [`argument_cause`] help to find it. So `read` of `program` (`config.rt`), for each
//! row of `tests/program/settings`:
//! ```
//! match settings::parse(alloc, text.as_slice()) {
//!     Ok(settings) => Ok(settings),
//!     Err(fault) => { log_cause(log, alloc, path, text.as_slice(), &fault); .. }
//! }
//! ```
//! The table of the keys, with kinds, ranges and defaults, is in `src/table.rt`, and for the promises in
//! `specs/Table.antt`. [`calls_for`] says how many calls a turn makes at most.
#![tactic(auto)]

mod addresses;
mod calls;
mod causes;
mod faults;
mod fields;
mod hints;
mod levels;
mod limits;
mod one_line;
mod read;
mod table;
mod wanted;

pub use addresses::Address;
pub use calls::{LEAST_CALLS, calls_for};
pub use causes::{argument_cause, cause};
pub use faults::{KeyText, SettingsFault};
pub use fields::Settings;
pub use hints::{TypedWord, Unit};
pub use levels::LogLevel;
pub use one_line::{EndOfLine, OneLine, ShownCharacter, is_unseen};
pub use read::parse;
pub use table::{Key, ROWS, Row};
pub use wanted::has_leading_zero;
