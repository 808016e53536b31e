//! The trait of a simulator of scripts. Whoever passes a script on need not know the machine that runs it.
ghost use Rattle.std.specs.Prelude.{◌≡◌, ◌+◌, ℕ, false, List, Option, IfSome, Ok, Err};
ghost use Rattle.input.specs.Texts.{TakesAtMost};

use std::alloc::Global;
use std::io::{Read, Write};
use thiserror::Error;

/// The most bytes of a script.
pub const MAX_SCRIPT: usize = 1_048_576;

/// What a run wrote.
#[derive(Clone, Copy)]
pub enum Outcome {
    /// The report of the state after the whole script.
    Report,
    /// The one line of the script's fault.
    Refused,
}

/// Why a run could not write its outcome.
#[derive(Clone, Copy, Debug, Error)]
pub enum ScriptFault {
    /// The script could not be read. Nothing was written.
    #[error("input: cannot be read")]
    Read,
    /// The outcome could not be written. How much of it was written is not known.
    #[error("output: cannot be written")]
    Write,
}

/// Receives the cause of a script's fault, besides the line that is written for the fault.
pub trait Causes {
    /// `cause` is for a person, on one line.
    fn add(&self, cause: &str);
}

/// Runs scripts.
pub trait Simulate {
    // After a read text and between two states of the output: its report (`reports`) or its fault's line was written.
    ghost reports: { Self → List ℕ → Option (List ℕ) → Option (List ℕ) → Type 0 };

    ghost refuses: { Self → List ℕ → Option (List ℕ) → Option (List ℕ) → Type 0 };

    /// Reads a script and writes the report of the state after it, or the one line of its fault, whose cause it
    /// passes to `causes`. If `each`, it writes what each step changed in place of the report at the end. Writes
    /// nothing if the script cannot be read. Takes at most one byte more than a script may have.
    fn simulate<R: Read, W: Write, C: Causes>(
        &self,
        alloc: Global,
        each: bool,
        reader: &mut R,
        writer: &mut W,
        causes: &C,
    ) -> Result<Outcome, ScriptFault>
        ensures report { each ≡ false → result ≡ Ok Outcome.Report → IfSome (R.remaining reader.old)
            (λ text. reports self.now text (W.contents writer.old) (W.contents writer.new)) }
        ensures refused { each ≡ false → result ≡ Ok Outcome.Refused → IfSome (R.remaining reader.old)
            (λ text. refuses self.now text (W.contents writer.old) (W.contents writer.new)) }
        ensures unread { result ≡ Err ScriptFault.Read → writer.new ≡ writer.old }
        ensures taken { TakesAtMost (MAX_SCRIPT + 1) (R.remaining reader.old) (R.remaining reader.new) };
}
