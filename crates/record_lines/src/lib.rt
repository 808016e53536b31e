//! The lines of a recording: what the threads of a relay did, act by act. `FORMATS.md` describes them, and
//! `specs/Texts.antt` has them as definitions.
//!
//! A [`Header`] says how large the relay is. Each [`Record`] after it is an [`Act`] with the values of one shared count
//! just before and just after the act. Both print themselves as their line, without its line feed and without taking
//! memory. Of bytes a record has only the number. [`Parts`] are the files of a recording. Lines are read so (`sizes_of`
//! and `record_of` of `record_reader`, `reading.rt`, for each row of `tests/program/recordings`):
//! ```
//! let header = read_header(line)?;
//! let record = match read_line(line) {
//!     Ok(record) => record,
//!     Err(wrong) => return Err(wrong),
//! };
//! ```
#![tactic(auto)]

mod act;
mod header;
mod parts;
mod printing;
mod reading;

pub use act::{Accepted, Act, Answer, Made, Opening, Polling, Record};
pub use header::{Header, is_header, read_header};
pub use parts::Parts;
pub use printing::MAX_RECORD;
pub use reading::{Wrong, read_line};
