//! What the program does: it forwards connections by a settings file, checks such a file, runs the relay's simulator on
//! standard input and output, and replays recordings.
//!
//! [`act`] does all of that: it gets the arguments ([`arguments`]), a reader, two writers and a closure that serves,
//! and returns a status. `commands` reads which command the arguments name. `running` makes what a relay serves with
//! ([`Given`]): `passed` finds a socket that the program was started with, [`config`] reads its settings, `extras` the
//! other options, and `starting` looks at what these need. [`Beside`] starts and ends what runs beside the server:
//! [`logging`] has the relay's log, `telling` its statistics, which `stats_file` writes for a monitor, and `until_eof`
//! the end of its standard input. `streams` logs what is wrong with an input, an output, a file or a script.
#![tactic(auto)]

mod acting;
pub mod config;
mod extras;
mod faults;
pub mod logging;
mod passed;
mod recording_file;
mod replaying_file;
mod running;
mod standard_streams;
mod starting;
mod stats_file;
mod streams;
mod telling;
mod until_eof;

pub use acting::{act, report_arguments_fault};
pub use extras::{Extras, NumberOption};
pub use faults::{ArgumentsFault, ConfigFault, ProgramFault, arguments};
pub use recording_file::RecordFiles;
pub use running::{Beside, Given};
pub use standard_streams::{hold_closed, report_unheld};
pub use starting::{foresee, prepare, print_listening};
pub use stats_file::{Replacing, StatsFile};
