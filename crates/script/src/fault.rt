ghost use Rattle.std.specs.Prelude.{◌≡◌, Some};

use std::alloc::{AllocError, AllocFailed};
use std::fmt;
use world_text::Word;

/// Why a script has no report. Its text is the line that a run writes in place of the report.
#[derive(Clone, Copy)]
pub enum Fault {
    /// The text has more than 1,048,576 bytes.
    TooLong,
    /// Every line is empty or a comment.
    NoWorld,
    /// This line has no known form. It is the first such line of the whole text.
    Malformed(u64),
    /// The step of this line cannot happen at that point.
    NotAllowed(u64, Word),
    /// Memory ran out.
    NoMemory,
}

impl fmt::Display for Fault {
    ghost use Rattle.script.specs.Faults.{script_fault_text};

    ghost output = { λ fault. Some (script_fault_text fault) };

    fn fmt<W: fmt::Write>(&self, f: &mut fmt::Formatter<W>) -> fmt::Result {
        match *self {
            Fault::TooLong => f.write_str("script too long"),
            Fault::NoWorld => f.write_str("no world"),
            Fault::Malformed(line) => write!(f, "line {line}: malformed"),
            Fault::NotAllowed(line, word) => write!(f, "line {line}: not allowed: {word}"),
            Fault::NoMemory => f.write_str("out of memory"),
        }
    }
}

impl From<AllocError> for Fault {
    ghost use Rattle.script.specs.declared.fault.Fault.TheVariants.{NoMemory};

    ghost from_gives = { λ _ fault. fault ≡ NoMemory };

    fn from(_error: AllocError) -> Fault {
        Fault::NoMemory
    }
}

impl<T: Drop> From<AllocFailed<T>> for Fault {
    ghost use Rattle.script.specs.declared.fault.Fault.TheVariants.{NoMemory};

    ghost from_gives = { λ _ fault. fault ≡ NoMemory };

    fn from(_error: AllocFailed<T>) -> Fault {
        Fault::NoMemory
    }
}
