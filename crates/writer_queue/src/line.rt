//! One line of the log, in a fixed number of bytes.
use crate::limits::MAX_LINE;
use arrayvec::ArrayString;
use std::fmt::{self, Display, Write};
use std::io::Eprint;

/// The text of one line, without its line feed. A text of over [`MAX_LINE`] bytes is cut, between two characters, and
/// ends in `...`.
#[derive(Drop)]
pub struct LogLine {
    text: ArrayString<MAX_LINE>,
    is_cut: bool,
}

impl LogLine {
    /// A line without text.
    pub fn new() -> LogLine {
        LogLine {
            text: ArrayString::new(),
            is_cut: false,
        }
    }

    /// Returns true if the text begins with `start`.
    pub fn begins_with(&self, start: &str) -> bool {
        self.text.as_bytes().starts_with(start.as_bytes())
    }
}

/// A line that was taken from the queue. It can be neither copied nor dropped, so it is written.
pub(crate) struct Unwritten(LogLine);

impl Unwritten {
    pub(crate) fn new(line: LogLine) -> Unwritten {
        Unwritten(line)
    }

    /// Writes the line to standard error, by one write. A failed write loses it.
    pub(crate) fn write(self, rt: &impl Eprint) {
        let Unwritten(line) = self;
        let _ = rt.eprintln(line);
    }
}

impl Write for LogLine {
    /// Adds a text. If not all of it fits, the line is cut, and nothing more is added. Never fails: a value that does
    /// not fit is still printed to its end.
    fn write_str(&mut self, text: &str) -> fmt::Result {
        if !self.is_cut && self.text.try_push_str(text).is_err() {
            let end = text.floor_char_boundary(self.text.remaining_capacity());
            self.text.push_str(&text[..end]);
            self.is_cut = true;
        }
        Ok(())
    }
}

impl Display for LogLine {
    fn fmt<W: Write>(&self, f: &mut fmt::Formatter<W>) -> fmt::Result {
        f.write_str(self.text.as_str())?;
        f.write_str(if self.is_cut { "..." } else { "" })
    }
}
