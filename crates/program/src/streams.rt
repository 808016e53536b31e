//! What the log says of streams, of files and of scripts.

use log::{Level, Log, error, log};
use settings::EndOfLine;
use std::fmt;
use std::io::{self, ErrorKind, Read, Write};
use tools::Causes;

/// A stream, such as standard input or a file. An error of the system is logged when it comes: the fault that follows
/// does not include it.
#[derive(Drop)]
pub(crate) struct Stream<'a, S, L> {
    pub(crate) name: FileName<'a>,
    /// Where bytes come from, or go to.
    pub(crate) inner: S,
    /// Where errors are logged.
    pub(crate) log: &'a L,
}

/// A standard stream of this name whose errors are logged.
pub(crate) fn stream_named<'a, S, L>(name: &'static str, inner: S, log: &'a L) -> Stream<'a, S, L> {
    let name = FileName(name, "");
    Stream { name, inner, log }
}

impl<R: Read, L: Log> Read for Stream<'_, R, L> {
    ghost remaining = { λ stream. R.remaining stream.inner };

    fn read(&mut self, buffer: &mut [u8]) -> io::Result<usize> {
        let answer = self.inner.read(buffer);
        if let Err(error) = &answer {
            log_error(self.log, &self.name, error);
        }
        answer
    }
}

impl<W: Write, L: Log> Write for Stream<'_, W, L> {
    ghost contents = { λ stream. W.contents stream.inner };

    fn write(&mut self, bytes: &[u8]) -> io::Result<usize> {
        let answer = self.inner.write(bytes);
        if let Err(error) = &answer {
            log_error(self.log, &self.name, error);
        }
        answer
    }

    fn flush(&mut self) -> io::Result<()> {
        let answer = self.inner.flush();
        if let Err(error) = &answer {
            log_error(self.log, &self.name, error);
        }
        answer
    }
}

/// Writes all of a text, and flushes it. Returns true if both succeed.
pub(crate) fn write(writer: &mut impl Write, text: &str) -> bool {
    writer.write_all(text.as_bytes()).is_ok() && writer.flush().is_ok()
}

pub(crate) fn log_text<D: fmt::Display>(log: &impl Log, level: Level, text: &D) {
    log!(log; target: "relayd", level, "{text}");
}

/// Logs what is wrong with a stream, or with what was read from it.
pub fn log_error<N: fmt::Display, E: fmt::Display>(log: &impl Log, name: &N, error: &E) {
    error!(log; target: "relayd", "{name}: {error}");
}

/// What the log calls a file: what it is for, and the end of its path. That of a standard stream is empty.
#[derive(Clone, Copy)]
pub(crate) struct FileName<'a>(pub(crate) &'static str, pub(crate) &'a str);

impl fmt::Display for FileName<'_> {
    fn fmt<W: fmt::Write>(&self, f: &mut fmt::Formatter<W>) -> fmt::Result {
        let (purpose, path) = (self.0, EndOfLine(self.1));
        if self.1.is_empty() {
            return f.write_str(purpose);
        }
        write!(f, "{purpose}: {path}")
    }
}

/// A file that could not be opened, and why.
#[derive(Drop)]
pub(crate) struct Unopened<'a> {
    pub(crate) path: &'a str,
    pub(crate) error: io::Error,
}

impl fmt::Display for Unopened<'_> {
    fn fmt<W: fmt::Write>(&self, f: &mut fmt::Formatter<W>) -> fmt::Result {
        if self.path.is_empty() {
            return f.write_str("a file's name is empty");
        }
        if self.path == "-" && self.error.kind() == ErrorKind::NotFound {
            return f.write_str("-: for standard input write /dev/stdin");
        }
        let (name, error) = (EndOfLine(self.path), &self.error);
        write!(f, "{name}: {error}")
    }
}

/// Logs the cause of a script's fault.
#[derive(Drop)]
pub struct LoggedCauses<'a, L>(pub &'a L);

impl<L: Log> Causes for LoggedCauses<'_, L> {
    fn add(&self, cause: &str) {
        log_text(self.0, Level::Error, &cause);
    }
}
