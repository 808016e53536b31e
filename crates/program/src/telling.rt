//! The statistics of a relay that serves, and a thread that tells the sums from time to time: to the log, to a monitor
//! by a file, or to both.
ghost use Rattle.std.specs.Prelude.{◌≡◌, ◌⊎◌, IfErr};

use crate::logging::level_filter;
use crate::stats_file::{Replacing, StatsFile};
use crate::streams::{FileName, log_text};
use commands::VERSION;
use log::{Level, Logged};
use os::set_thread_name;
use relay_log::log_no_thread;
use settings::{LogLevel, Settings};
use sizes::ServerFault;
use statistics::{Monitored, Statistics, Totals};
use std::alloc::{AllocError, AllocGlobal, Global};
use std::io::{self, Eprint};
use std::sync::{Arc, Mutex, Wait};
use std::thread::{self, Builder, Threads};
use std::time::{Clock, Duration, SystemTime};
use writer_queue::{Direct, LogQueue, Queued};

/// The seconds between two writings of the file, if the options do not say.
const FILE_SECONDS: u32 = 15;

/// The statistics of a relay, and where they are logged.
#[derive(Drop)]
pub(crate) struct Teller {
    alloc: Global,
    /// Where the threads of the relay count.
    pub(crate) statistics: Arc<Statistics>,
    /// When the relay began, in seconds since 1970, or 0 if the clock does not say.
    began: u64,
    seconds: u32,
    level: LogLevel,
    logs_line: bool,
    file: Option<StatsFile>,
    state: Mutex<State>,
}

#[derive(Clone, Copy)]
struct State {
    /// That the file could not be written was logged.
    has_warned: bool,
    /// The last sums were logged.
    has_ended: bool,
}

/// If the options ask for statistics, by seconds or a file, returns a teller, and starts a thread that tells the sums
/// at the interval of the options until the program ends. At level `off` no line is logged, and without a file nothing
/// is counted. With a file, that is written at once. Refuses with `NoMemory`. Refuses with `Threads`, and logs the
/// cause, if the thread cannot be started.
pub(crate) fn start<R>(
    rt: R,
    settings: &Settings,
    stats: Option<u32>,
    file: Option<StatsFile>,
    queue: &Arc<LogQueue>,
) -> Result<Option<Arc<Teller>>, ServerFault>
where
    R: AllocGlobal + Threads + Eprint + Wait + Clock + Replacing + Send + Copy + Drop + 'static,
    ensures refused { IfErr result (λ fault. (fault ≡ ServerFault.NoMemory) ⊎ (fault ≡ ServerFault.Threads)) }
{
    let logs_line = stats.is_some() && settings.log != LogLevel::Off;
    if !logs_line && file.is_none() {
        return Ok(None);
    }
    let alloc = rt.alloc();
    let teller = Teller {
        alloc,
        statistics: made(alloc, settings.slots)?,
        began: second_of(&rt),
        seconds: stats.unwrap_or(FILE_SECONDS),
        level: settings.log,
        logs_line,
        file,
        state: Mutex::new(State {
            has_warned: false,
            has_ended: false,
        }),
    };
    let teller = Arc::new(alloc, teller)?;
    tell_from_now(rt, &teller, queue)?;
    Ok(Some(teller))
}

fn made(alloc: Global, slots: usize) -> Result<Arc<Statistics>, AllocError> {
    Ok(Arc::new(alloc, Statistics::new(alloc, slots)?)?)
}

/// The seconds since 1970, or 0 if the clock does not say.
fn second_of(rt: &impl Clock) -> u64 {
    let Ok(now) = SystemTime::now(rt) else {
        return 0;
    };
    match now.duration_since(SystemTime::UNIX_EPOCH) {
        Ok(passed) => passed.as_secs(),
        Err(_) => 0,
    }
}

fn tell_from_now<R>(rt: R, teller: &Arc<Teller>, queue: &Arc<LogQueue>) -> Result<(), ServerFault>
where
    R: Threads + Eprint + Wait + Clock + Replacing + Send + Copy + Drop + 'static,
    ensures refused { IfErr result (λ fault. (fault ≡ ServerFault.NoMemory) ⊎ (fault ≡ ServerFault.Threads)) }
{
    let (teller, lines) = (teller.clone()?, queue.clone()?);
    if Builder::new()
        .spawn(&rt, move || tell_every(&rt, &teller, &lines))
        .is_err()
    {
        let form = queue.form();
        return Err(log_no_thread(&Direct { rt, form }));
    }
    Ok(())
}

fn tell_every<R>(rt: &R, teller: &Teller, queue: &LogQueue)
where
    R: Eprint + Wait + Clock + Replacing + Copy + Drop,
{
    set_thread_name(b"stats");
    teller.write(rt, queue, &teller.statistics.totals(&mut ()), false);
    for _time in rt.forever() {
        teller.wait(rt);
        teller.tell(rt, queue, false);
    }
}

impl Teller {
    /// Waits for the interval. Each second it looks whether all slots are taken, and whether clients wait.
    fn wait<R: Wait + Clock>(&self, rt: &R) {
        for _second in 0..self.seconds {
            thread::sleep(rt, Duration::from_secs(1));
            self.statistics.look(&mut ());
        }
    }

    /// Logs the sums, at level info, whatever level the settings have, and writes them into the file.
    pub(crate) fn tell<R>(&self, rt: &R, queue: &LogQueue, is_last: bool)
    where
        R: Eprint + Wait + Replacing + Copy + Drop,
    {
        let totals = self.statistics.totals(&mut ());
        if self.logs_line {
            log_text(&Queued { rt: *rt, queue }, Level::Info, &totals);
        }
        self.write(rt, queue, &totals, is_last);
    }

    /// Writes the sums into the file, if there is one. That it could not be written is logged once, at level warn.
    /// After the last sums no others are written.
    fn write<R>(&self, rt: &R, queue: &LogQueue, totals: &Totals, is_last: bool)
    where
        R: Eprint + Wait + Replacing + Copy + Drop,
    {
        let Some(file) = &self.file else {
            return;
        };
        let mut state = self.state.lock(rt);
        if state.has_ended {
            return;
        }
        state.has_ended = is_last;
        let Err(error) = self.replace(rt, file, totals) else {
            return;
        };
        if !state.has_warned {
            state.has_warned = true;
            self.warn(rt, queue, file, &error);
        }
    }

    fn replace(&self, rt: &impl Replacing, file: &StatsFile, totals: &Totals) -> io::Result<()> {
        let monitored = Monitored {
            totals,
            began: self.began,
            version: VERSION,
        };
        let text = format!(in self.alloc; "{monitored}")?;
        rt.replace(file, text.as_str())
    }

    fn warn<R>(&self, rt: &R, queue: &LogQueue, file: &StatsFile, error: &io::Error)
    where
        R: Eprint + Wait + Copy + Drop,
    {
        let log = Logged::new(*rt, level_filter(self.level), Queued { rt: *rt, queue });
        let name = FileName("stats-file", file.path());
        log_text(
            &log,
            Level::Warn,
            &format_args!("{name}: {error}; it is tried again each time"),
        );
    }
}
