//! What a replay is asked, and what it returns. Who hands a recording on need not know the machine on which it is
//! played.
use std::alloc::{AllocError, AllocFailed, Global};
use std::io::{Read, Write};
use thiserror::Error;

/// What is wanted of a recording.
#[derive(Clone, Copy)]
pub enum Wanted {
    /// How many connections and events, and how many bytes; or in people's words the first record that fits nowhere.
    Totals,
    /// How many events of each kind, too; or the script that leads to that record.
    Steps,
    /// What became of each connection, by the records alone.
    Ends,
    /// The records of the connection of this slot and generation, and what waits in its rings after each.
    Timeline(usize, u64),
    /// The script of the connection of this slot and generation.
    Script(usize, u64),
}

/// Whether a recording is of runs of the machine.
#[derive(Clone, Copy)]
pub enum Judged {
    /// What was played is of runs: each slot and each listener, or with `Script` its slot alone, and nothing with
    /// `Ends` and `Timeline`. What was wanted is written.
    Run,
    /// A slot or a listener is not of runs. Written are the first record that fits nowhere, and the script up to there.
    NoRun,
}

/// Replays recordings.
pub trait Replay {
    /// Reads a recording, plays it, and writes what is wanted of it. `rests`: the relay had come to rest when it was
    /// stopped.
    fn replay<R: Read, W: Write>(
        &self,
        alloc: Global,
        input: &mut R,
        wanted: Wanted,
        rests: bool,
        output: &mut W,
    ) -> Result<Judged, ReplayFault>;
}

/// Why a recording is not replayed. Its text is what a person sees.
#[derive(Debug, Drop, Error)]
pub enum ReplayFault {
    /// The reader gave an error.
    #[error("recording: cannot be read")]
    Read,
    /// A line is malformed, or no relay acts in that order; with the cause.
    #[error("recording: malformed")]
    Broken(String),
    /// The recording has no such connection; with what it has.
    #[error("recording: no such connection")]
    Unknown(String),
    /// The outcome could not be written.
    #[error("output: cannot be written")]
    Write,
    /// Memory ran out.
    #[error("out of memory")]
    NoMemory,
}

impl From<AllocError> for ReplayFault {
    fn from(_error: AllocError) -> ReplayFault {
        ReplayFault::NoMemory
    }
}

impl<T: Drop> From<AllocFailed<T>> for ReplayFault {
    fn from(_error: AllocFailed<T>) -> ReplayFault {
        ReplayFault::NoMemory
    }
}
