//! Loggers: into the queue, or to standard error at once.
ghost use Rattle.std.specs.Prelude.{Some, true, []};

use crate::line::LogLine;
use crate::queue::LogQueue;
use log::kv::Source;
use log::span::Spans;
use log::{Level, Line, Log, Metadata, Record};
use std::fmt::{Display, Write};
use std::io::Eprint;
use std::sync::Wait;

/// How the lines of the log begin.
#[derive(Clone, Copy)]
pub enum Form {
    /// With the level.
    Plain,
    /// With the priority for the journal of systemd (sd-daemon(3)), and then the level.
    Journal,
}

impl Form {
    fn mark(self, level: Level) -> &'static str {
        match (self, level) {
            (Form::Plain, _) => "",
            (Form::Journal, Level::Error) => "<3>",
            (Form::Journal, Level::Warn) => "<4>",
            (Form::Journal, Level::Info) => "<6>",
            (Form::Journal, _) => "<7>",
        }
    }
}

/// Puts each record into the queue as the line that a console would show. It takes no memory.
#[derive(Drop)]
pub struct Queued<'q, R> {
    pub rt: R,
    pub queue: &'q LogQueue,
}

impl<'q, R: Wait> Log for Queued<'q, R> {
    ghost enables = { λ _ _ _. Some true };

    ghost target_of = { λ _. Some [] };

    fn enabled(&self, _metadata: &Metadata<'_>) -> bool {
        true
    }

    fn log<D: Display, K: Source, S: Spans>(&self, record: &Record<'_, D, K, S>) {
        let mut line = LogLine::new();
        // This can fail only if a value's own printing fails. What was printed of the value is kept.
        let mark = self.queue.form().mark(record.level());
        let _ = write!(line, "{mark}{}", Line::new(record));
        self.queue.put(&self.rt, line);
    }

    fn flush(&self) {}

    fn target(&self) -> &str {
        ""
    }
}

/// Writes each record to standard error at once, by one write. This may wait for whoever reads there.
#[derive(Clone, Copy, Drop)]
pub struct Direct<R> {
    pub rt: R,
    pub form: Form,
}

impl<R: Eprint> Log for Direct<R> {
    ghost enables = { λ _ _ _. Some true };

    ghost target_of = { λ _. Some [] };

    fn enabled(&self, _metadata: &Metadata<'_>) -> bool {
        true
    }

    fn log<D: Display, K: Source, S: Spans>(&self, record: &Record<'_, D, K, S>) {
        let mark = self.form.mark(record.level());
        let line = Line::new(record);
        // A line that cannot be written is lost.
        let _ = self.rt.eprintln(format_args!("{mark}{line}"));
    }

    fn flush(&self) {}

    fn target(&self) -> &str {
        ""
    }
}
