//! Reads an input up to a limit ([`read_at_most`]), such as a script or a settings file; splits a text at a separator
//! ([`Pieces`]), as a line into words; and reads numbers ([`number`]). A settings file is read so (`config.rt` of
//! `program`; rows of `tests/program/settings`):
//! ```
//! match read_at_most(alloc, file, MAX_CONFIG_BYTES + 1) {
//!     Ok(text) if text.len() > MAX_CONFIG_BYTES => Err(ConfigFault::Long), ..
//! }
//! ```
#![tactic(auto)]

mod numbers;
mod pieces;
mod reading;

pub use numbers::{is, is_digit, number};
pub use pieces::Pieces;
pub use reading::{InputFault, read_at_most};
