ghost use Rattle.std.specs.{Prelude.◌≡◌, IoError.error_kind};
ghost use Rattle.program.specs.{Faults.{settings_fault, argument_fault, status_of, arguments_fault}, declared.faults.{ConfigFault.TheVariants.NoMemory, ProgramFault.TheVariants.Config}};

use crate::extras::NumberOption;
use settings::SettingsFault;
use sizes::ServerFault;
use std::alloc::AllocError;
use std::env::{self, Env};
use std::{fmt, io};
use tools::{ReplayFault, ScriptFault};

/// The statuses after a command was carried out, after a fault, and after a usage error.
pub(crate) const DONE: u8 = 0;

pub(crate) const FAULT: u8 = 1;

pub(crate) const USAGE: u8 = 2;

/// A fault of the program. Its text is what a person sees after `relayd: `.
#[derive(Drop)]
pub enum ProgramFault {
    /// The settings have a fault, or memory ran out, for them or for anything else.
    Config(ConfigFault),
    /// The script could not be read, or its outcome could not be written.
    Script(ScriptFault),
    /// An argument of the command line has a value that its setting does not take.
    Argument(SettingsFault),
    /// This option has a value that is no number in its range.
    Number(NumberOption),
    /// This option has a value that is no whole number, or one with leading zeros.
    NoNumber(NumberOption),
    /// `--script` has a value that names no connection.
    Connection,
    /// `--timeline` has one.
    Timeline,
    /// The server could not start, or failed.
    Server(ServerFault),
    /// A recording could not be replayed.
    Replay(ReplayFault),
    /// The file to replay does not begin as a recording does.
    NoRecording,
    /// No connection can be made to the target's address.
    Target,
    /// The file to record into could not be created.
    Record,
    /// No statistics can be written into the file.
    StatsFile,
    /// The process may have `limit` descriptors open, and needs more, `needed`, for one connection.
    Descriptors { limit: u64, needed: u64 },
    /// The requested output could not be written.
    Write,
}

impl fmt::Display for ProgramFault {
    fn fmt<W: fmt::Write>(&self, f: &mut fmt::Formatter<W>) -> fmt::Result {
        f.write_str(match self {
            Self::Config(fault) => return fault.fmt(f),
            Self::Script(fault) => return fault.fmt(f),
            Self::Argument(fault) => return fault.fmt(f),
            Self::Number(option) => return write!(f, "options: {option}: out of range"),
            Self::NoNumber(option) => return write!(f, "options: {option}: wrong kind"),
            Self::Connection => "options: script: wrong kind",
            Self::Timeline => "options: timeline: wrong kind",
            Self::Server(fault) => return fault.fmt(f),
            Self::Replay(fault) => return fault.fmt(f),
            Self::NoRecording => "recording: malformed",
            Self::Target => "target: cannot be reached",
            Self::Record => "record: cannot be created",
            Self::StatsFile => "stats-file: cannot be written",
            Self::Descriptors { limit, needed } => {
                return write!(
                    f,
                    "descriptors: the limit is {limit}, and {needed} are needed for one connection (ulimit -n)"
                );
            }
            Self::Write => "output: cannot be written",
        })
    }
}

// Running out of memory is one fault, wherever it happens.
impl From<AllocError> for ProgramFault {
    ghost from_gives = { λ _ fault. fault ≡ Config NoMemory };

    fn from(error: AllocError) -> ProgramFault {
        ProgramFault::Config(ConfigFault::from(error))
    }
}

impl From<ConfigFault> for ProgramFault {
    ghost from_gives = { λ fault given. given ≡ Config fault };

    fn from(fault: ConfigFault) -> ProgramFault {
        ProgramFault::Config(fault)
    }
}

impl ProgramFault {
    /// The fault of settings that the arguments of the command line gave.
    pub(crate) fn of_arguments(fault: ConfigFault) -> ProgramFault
        ensures { result ≡ argument_fault fault }
    {
        match fault {
            ConfigFault::Settings(fault) => ProgramFault::Argument(fault),
            fault => ProgramFault::Config(fault),
        }
    }

    /// The exit status: 2 if the command line is refused, else 1.
    pub(crate) fn status(&self) -> u8
        ensures { result ≡ status_of self.now }
    {
        match self {
            Self::Argument(_)
            | Self::Number(_)
            | Self::NoNumber(_)
            | Self::Connection
            | Self::Timeline => USAGE,
            _ => FAULT,
        }
    }
}

/// A fault of the settings, in a file or in the arguments. Its text is what a person sees after `relayd: `.
#[derive(Drop)]
pub enum ConfigFault {
    /// The settings file could not be opened or read.
    Read,
    /// There are more than 65,536 bytes.
    Long,
    /// The text of the settings has a fault.
    Settings(SettingsFault),
    /// Memory ran out.
    NoMemory,
}

impl fmt::Display for ConfigFault {
    fn fmt<W: fmt::Write>(&self, f: &mut fmt::Formatter<W>) -> fmt::Result {
        f.write_str(match self {
            Self::Read => "config: cannot be read",
            Self::Long => "config: too long",
            Self::Settings(fault) => return fault.fmt(f),
            Self::NoMemory => "out of memory",
        })
    }
}

impl From<AllocError> for ConfigFault {
    ghost from_gives = { λ _ fault. fault ≡ NoMemory };

    fn from(_error: AllocError) -> ConfigFault {
        ConfigFault::NoMemory
    }
}

// Running out of memory is one fault, wherever it happens.
impl From<SettingsFault> for ConfigFault {
    ghost from_gives = { λ fault given. given ≡ settings_fault fault };

    fn from(fault: SettingsFault) -> ConfigFault {
        match fault {
            SettingsFault::NoMemory => ConfigFault::NoMemory,
            fault => ConfigFault::Settings(fault),
        }
    }
}

/// Why the arguments of the command line cannot be read.
#[derive(Clone, Copy)]
pub enum ArgumentsFault {
    /// Memory ran out.
    NoMemory,
    /// An argument is not UTF-8.
    NotText,
}

impl From<AllocError> for ArgumentsFault {
    ghost use Rattle.program.specs.declared.faults.ArgumentsFault.TheVariants.{NoMemory};

    ghost from_gives = { λ _ fault. fault ≡ NoMemory };

    fn from(_error: AllocError) -> ArgumentsFault {
        ArgumentsFault::NoMemory
    }
}

// The system gives the arguments as bytes, which may not be UTF-8.
impl From<io::Error> for ArgumentsFault {
    ghost from_gives = { λ error fault. fault ≡ arguments_fault (error_kind error) };

    fn from(error: io::Error) -> ArgumentsFault {
        match error.kind() {
            io::ErrorKind::OutOfMemory => ArgumentsFault::NoMemory,
            _ => ArgumentsFault::NotText,
        }
    }
}

/// The arguments of the command line; the first is the program's own name. Refuses with `NoMemory`, and with `NotText`
/// if one is not UTF-8.
pub fn arguments<R: AllocGlobal + Env>(rt: &R) -> Result<Vec<String>, ArgumentsFault> {
    let arguments = env::args(rt)?;
    Ok(arguments.collect(rt.alloc())?)
}
