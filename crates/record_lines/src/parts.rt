//! The files of a recording: one, or one after the other.
ghost use Rattle.std.specs.Prelude.{ℕ, List, Option, None, OnOk};
ghost use Rattle.record_lines.specs.Parts.{AddsParts, Begins, PartsStay};

use std::io;

/// Where a recording is written: into a file, and then into the next ones. After an error nothing more is written.
pub trait Parts: Drop {
    // The texts of the files, the last one first, where they are known.
    ghost texts: { Self → Option (List (List ℕ)) } = { λ _. None };

    /// Adds bytes to the last file.
    fn add(&mut self, bytes: &[u8]) -> io::Result<()>
        ensures { OnOk result (AddsParts bytes.now (texts self.old) (texts self.new)) };

    /// Begins another file, after the last one.
    fn begin_next(&mut self) -> io::Result<()>
        ensures { OnOk result (Begins (texts self.old) (texts self.new)) };

    /// What was added can be read once this returns.
    fn flush(&mut self) -> io::Result<()>
        ensures { OnOk result (PartsStay (texts self.old) (texts self.new)) };
}
