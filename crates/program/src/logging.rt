//! The log of a relay that serves: a queue, and a thread that writes it to standard error.
//!
//! Only the end of the program waits for the thread, and for a second at most: a write to a pipe that nobody reads
//! may not end.
ghost use Rattle.std.specs.{Prelude.{◌≡◌, ◌≢◌, ◌⊎◌, IfErr, map}, Char.to_ascii_lowercase};
ghost use Rattle.log.specs.Level.{filter_name};
ghost use Rattle.settings.specs.Table.{level_name};

use log::kv::Source;
use log::span::Spans;
use log::{Level, LevelFilter, Log, Logged, Metadata, Record};
use os::set_thread_name;
use relay_log::log_no_thread;
use settings::LogLevel;
use sizes::ServerFault;
use std::alloc::AllocGlobal;
use std::cell::Cell;
use std::env::{self, Env};
use std::fmt::{Display, Write as _};
use std::fs;
use std::io::{self, Eprint, Write};
use std::os::unix::fs::MetadataExt;
use std::rt::Files;
use std::sync::atomic::AtomicBool;
use std::sync::atomic::Ordering::SeqCst;
use std::sync::{Arc, Wait};
use std::thread::{Builder, Parker, Threads};
use std::time::Duration;
use writer_queue::{Direct, Form, LogLine, LogQueue, write_lines};

/// How many milliseconds the end of the program waits for the log.
const LAST_WAIT: u64 = 1_000;

/// The variable that says which stream systemd sends to the journal, as `DEVICE:INODE` (systemd.exec(5)).
const STREAM: &str = "JOURNAL_STREAM";

const ERRORS: &str = "/proc/self/fd/2";

/// How the lines of the log begin: with their priority if systemd says that standard error goes to the journal.
pub(crate) fn log_form<R: AllocGlobal + Env + Files>(rt: &R) -> Form {
    let Ok(named) = env::var(rt, STREAM) else {
        return Form::Plain;
    };
    match fs::metadata(rt, ERRORS) {
        Ok(found) if is_named(named.as_str(), found.dev(), found.ino()) => Form::Journal,
        _ => Form::Plain,
    }
}

/// A log that writes each line to standard error at once.
pub(crate) fn direct_log<R: AllocGlobal + Env + Files + Copy + Drop>(
    rt: &R,
    level: LevelFilter,
) -> Logged<R, Direct<R>> {
    let form = log_form(rt);
    Logged::new(*rt, level, Direct { rt: *rt, form })
}

fn is_named(name: &str, device: u64, inode: u64) -> bool {
    match name.split_once(':') {
        Some((first, second)) => {
            first.parse::<u64>() == Ok(device) && second.parse::<u64>() == Ok(inode)
        }
        None => false,
    }
}

/// The filter with the same name as a level of the settings.
pub(crate) fn level_filter(level: LogLevel) -> LevelFilter
    ensures { map to_ascii_lowercase (filter_name result) ≡ level_name level }
{
    match level {
        LogLevel::Off => LevelFilter::Off,
        LogLevel::Error => LevelFilter::Error,
        LogLevel::Warn => LevelFilter::Warn,
        LogLevel::Info => LevelFilter::Info,
        LogLevel::Debug => LevelFilter::Debug,
        LogLevel::Trace => LevelFilter::Trace,
    }
}

/// The filter before the relay serves: at `off` the cause of a fault is still logged, since nothing else says why there
/// is no relay.
pub(crate) fn starting_filter(level: LogLevel) -> LevelFilter
    ensures off { level ≡ LogLevel.Off → result ≡ LevelFilter.Error }
    ensures others { level ≢ LogLevel.Off → map to_ascii_lowercase (filter_name result) ≡ level_name level }
{
    match level {
        LogLevel::Off => LevelFilter::Error,
        level => level_filter(level),
    }
}

/// Starts a thread that writes the lines of a new queue until the queue is closed or the program ends. Refuses with
/// `NoMemory`. Refuses with `Threads`, and logs the cause, if the thread cannot be started.
pub(crate) fn start<R>(rt: R) -> Result<Arc<LogQueue>, ServerFault>
where
    R: AllocGlobal + Threads + Eprint + Wait + Env + Files + Send + Copy + Drop + 'static,
    ensures refused { IfErr result (λ fault. (fault ≡ ServerFault.NoMemory) ⊎ (fault ≡ ServerFault.Threads)) }
{
    let form = log_form(&rt);
    let alloc = rt.alloc();
    let queue = Arc::new(alloc, LogQueue::new(alloc, form)?)?;
    let lines = queue.clone()?;
    let write = move || {
        set_thread_name(b"log");
        write_lines(&rt, &lines);
    };
    if Builder::new().spawn(&rt, write).is_err() {
        return Err(log_no_thread(&Direct { rt, form }));
    }
    Ok(queue)
}

/// Closes the queue, and waits a second at most until all of it is written. Returns true if all was written.
pub(crate) fn finish(rt: &impl Wait, queue: &LogQueue) -> bool {
    queue.close();
    let clock = Parker::new();
    for _millisecond in 0..LAST_WAIT {
        if queue.is_written() {
            return true;
        }
        clock.park_timeout(rt, Duration::from_millis(1));
    }
    queue.is_written()
}

/// The start of a message about a fault that ends a serving relay (epoll_wait(2)).
const ENDS_IT: &str = "poll: ";

/// A log. Once `is_off` is set, only the cause of a fault that ends the relay is logged.
#[derive(Drop)]
pub struct Until<'a, L> {
    pub inner: L,
    pub is_off: &'a AtomicBool,
}

impl<L: Log> Log for Until<'_, L> {
    fn enabled(&self, metadata: &Metadata<'_>) -> bool {
        (!self.is_off.load(SeqCst) || metadata.level() == Level::Error)
            && self.inner.enabled(metadata)
    }

    fn log<D: Display, K: Source, S: Spans>(&self, record: &Record<'_, D, K, S>) {
        if !self.is_off.load(SeqCst) || ends_the_relay(record) {
            self.inner.log(record);
        }
    }

    fn flush(&self) {
        self.inner.flush();
    }

    fn target(&self) -> &str {
        self.inner.target()
    }
}

/// Whether a message is the cause of a fault that ends a serving relay: an error that begins with [`ENDS_IT`].
fn ends_the_relay<D: Display, K, S>(record: &Record<'_, D, K, S>) -> bool {
    let mut line = LogLine::new();
    // This can fail only if a value's own printing fails. That value, the system's error, stands after [`ENDS_IT`].
    let _ = write!(line, "{}", record.args());
    record.level() == Level::Error && line.begins_with(ENDS_IT)
}

/// Standard error. Once `is_stuck` is set, since a write to it may not end, nothing is written.
#[derive(Drop)]
pub struct Errors<'a, W> {
    pub inner: W,
    pub is_stuck: &'a Cell<bool>,
}

impl<W: Write> Write for Errors<'_, W> {
    fn write(&mut self, bytes: &[u8]) -> io::Result<usize> {
        if self.is_stuck.get() {
            return Ok(bytes.len());
        }
        self.inner.write(bytes)
    }

    fn flush(&mut self) -> io::Result<()> {
        if self.is_stuck.get() {
            return Ok(());
        }
        self.inner.flush()
    }
}
