//! The start of a relay: what is read, looked at and made before it serves, in this order; and what runs beside its
//! server.
ghost use Rattle.std.specs.Prelude.{◌≡◌, ◌⊎◌, IfOk, IfErr};

use crate::extras::{Extras, extras_of};
use crate::faults::{DONE, ProgramFault};
use crate::logging::{self, Until, direct_log, starting_filter};
use crate::passed::passed_socket;
use crate::recording_file::{Place, RecordFiles, create, find_place};
use crate::starting::{
    log_start, look_at_addresses, prepare, print_listening, warn_of_short_time, warn_of_silence,
};
use crate::stats_file::{Replacing, StatsFile, find_file, look_apart};
use crate::telling::{self, Teller};
use crate::{config, until_eof};
use commands::{Relay, Source};
use log::{Log, Logged};
use relay_core::Pair;
use settings::{LogLevel, Settings};
use shared::Gate;
use sizes::ServerFault;
use sockets::{Bound, Passed, Stop, bind};
use statistics::Statistics;
use std::alloc::AllocGlobal;
use std::cell::Cell;
use std::env::Env;
use std::io::{Eprint, Stdin, Stdout};
use std::net::{Net, SocketAddr, SocketAddrV4};
use std::os::fd::AsRawFd;
use std::rt::Files;
use std::sync::atomic::AtomicBool;
use std::sync::atomic::Ordering::SeqCst;
use std::sync::{Arc, Wait};
use std::thread::Threads;
use std::time::Clock;
use writer_queue::{LogQueue, Queued};

/// What a relay serves with.
#[derive(Drop)]
pub struct Given<R: Files> {
    pub settings: Settings,
    /// Where it listens.
    pub bound: Bound,
    pub extras: Extras,
    /// Where a monitor finds the statistics. None: nowhere. If no line of them is logged, either, nothing is counted.
    pub stats_file: Option<StatsFile>,
    /// The files to record into. None: nothing is recorded.
    pub files: Option<RecordFiles<R>>,
}

/// Makes what a relay serves with, and serves.
pub(crate) fn run<R, S, L: Log>(
    rt: &R,
    log: &L,
    relay: &Relay<'_>,
    serve: &S,
) -> Result<u8, ProgramFault>
where
    R: AllocGlobal + Env + Files + Eprint + Net + Copy + Drop,
    R::File: AsRawFd,
    S: Fn(Given<R>) -> Result<bool, ServerFault>,
    requires { S.IsAlwaysCallable serve.now }
    ensures { IfOk result (λ status. status ≡ 0) }
{
    let given = given_to(rt, log, relay)?;
    match serve(given) {
        Ok(true) => Ok(DONE),
        Ok(false) => Err(ProgramFault::Write),
        Err(fault) => Err(ProgramFault::Server(fault)),
    }
}

/// Takes a socket with which the program was started. Looks at what can be found before anything listens, listens,
/// looks at what the settings need, and makes the file to record into.
fn given_to<R>(rt: &R, log: &impl Log, relay: &Relay<'_>) -> Result<Given<R>, ProgramFault>
where
    R: AllocGlobal + Env + Files + Eprint + Net + Copy + Drop,
    R::File: AsRawFd,
{
    // First: a file that is opened before may get the number of a socket that is not there.
    let passed = passed_socket(rt, log)?;
    let (settings, extras) = read(rt, log, relay, address_of(&passed))?;
    let log = direct_log(rt, starting_filter(settings.log));
    make(rt, &log, relay, settings, extras, passed)
}

/// The settings and the options of a relay to which a socket at an address was passed, if it was. Warns and refuses by
/// these alone.
pub(crate) fn read<R: AllocGlobal + Files, L: Log>(
    rt: &R,
    log: &L,
    relay: &Relay<'_>,
    passed: Option<SocketAddrV4>,
) -> Result<(Settings, Extras), ProgramFault> {
    let extras = extras_of(log, relay.extras)?;
    let settings = settings_of(rt, log, &relay.settings, passed)?;
    warn_of_silence(log, settings.log, &extras, relay.stats_file.is_some());
    look_apart(rt, log, relay)?;
    Ok((settings, extras))
}

fn make<R>(
    rt: &R,
    log: &(impl Log + Net),
    relay: &Relay<'_>,
    settings: Settings,
    extras: Extras,
    passed: Option<Passed>,
) -> Result<Given<R>, ProgramFault>
where
    R: AllocGlobal + Files + Net + Copy + Drop,
    R::File: AsRawFd,
{
    warn_of_short_time(log, settings.idle, extras.patience);
    look_at_addresses(log, &settings)?;
    let in_parts = extras.record_size.is_some();
    let place = find_place(rt, log, relay.record, in_parts)?;
    let is_new = relay.record.is_some() && matches!(place, Place::Nothing);
    let has_stats = relay.stats_file.is_some();
    let more = u64::from(is_new) + u64::from(in_parts) + u64::from(has_stats);
    match listen(rt, log, relay, settings, more, passed) {
        Ok((settings, bound, stats_file)) => {
            match create(rt, log, relay.record, place, in_parts) {
                Ok(files) => Ok(Given {
                    settings,
                    bound,
                    extras,
                    stats_file,
                    files,
                }),
                Err(fault) => {
                    drop(stats_file);
                    Err(fault)
                }
            }
        }
        Err(fault) => Err(fault),
    }
}

/// Finds the file of statistics, listens, and looks at what is needed beside the files.
fn listen<R: AllocGlobal + Files + Net + Copy + Drop>(
    rt: &R,
    log: &(impl Log + Net),
    relay: &Relay<'_>,
    settings: Settings,
    more: u64,
    passed: Option<Passed>,
) -> Result<(Settings, Bound, Option<StatsFile>), ProgramFault> {
    let stats_file = find_file(rt, log, relay.stats_file)?;
    let fault = match bind(log, &settings, passed) {
        Ok(bound) => match prepare(rt, log, settings, more) {
            Ok(settings) => return Ok((settings, bound, stats_file)),
            Err(fault) => fault,
        },
        Err(fault) => ProgramFault::Server(fault),
    };
    drop(stats_file);
    Err(fault)
}

fn address_of(passed: &Option<Passed>) -> Option<SocketAddrV4> {
    match passed {
        Some(passed) => Some(passed.address()),
        None => None,
    }
}

fn settings_of<R: AllocGlobal + Files, L: Log>(
    rt: &R,
    log: &L,
    source: &Source<'_>,
    passed: Option<SocketAddrV4>,
) -> Result<Settings, ProgramFault> {
    let settings = match source {
        Source::File(path, level) => {
            let settings = config::load(rt, log, path, passed)?;
            config::at_level(log, rt.alloc(), settings, *level)
        }
        Source::Arguments(text) => config::parse_arguments(log, rt.alloc(), text.as_bytes()),
    };
    settings.map_err(ProgramFault::of_arguments)
}

/// What runs beside a server, which prints where the relay listens once all of its threads have been started. If that
/// cannot be printed, no connection is opened from then on.
#[derive(Drop)]
pub struct Beside<R> {
    pub rt: R,
    output: Stdout,
    listen: SocketAddr,
    level: LogLevel,
    queue: Arc<LogQueue>,
    /// At level off, only the cause of a fault that ends the relay is logged once all threads run.
    is_off: AtomicBool,
    is_unprinted: AtomicBool,
    /// Set once no more connections may be opened.
    pub stop: Arc<Stop>,
    teller: Option<Arc<Teller>>,
}

impl<R: Copy + Drop> Beside<R> {
    /// Starts the log, logs the relay's start, and starts what else the options ask for. Refuses with `NoMemory`.
    /// Refuses with `Threads`, and logs the cause, if a thread cannot be started.
    pub fn start(
        rt: R,
        input: Stdin,
        output: Stdout,
        given: &mut Given<R>,
    ) -> Result<Beside<R>, ServerFault>
    where
        R: AllocGlobal + Threads + Eprint + Wait + Env + Files + Clock + Replacing + Send + 'static,
        ensures refused { IfErr result (λ fault. (fault ≡ ServerFault.NoMemory) ⊎ (fault ≡ ServerFault.Threads)) }
    {
        let (listen, level) = (given.bound.text(), given.settings.log);
        let queue = logging::start(rt)?;
        let (filter, lines) = (starting_filter(level), Queued { rt, queue: &queue });
        log_start(&Logged::new(rt, filter, lines), listen, &given.settings);
        let stop = until_eof::watch(rt, input, level, given.extras.until_eof, &queue)?;
        let (stats, file) = (given.extras.stats, given.stats_file.take());
        let teller = telling::start(rt, &given.settings, stats, file, &queue)?;
        Ok(Beside {
            rt,
            output,
            listen,
            level,
            queue,
            is_off: AtomicBool::new(false),
            is_unprinted: AtomicBool::new(false),
            stop,
            teller,
        })
    }

    /// The log of the server.
    pub fn log(&self) -> Logged<R, Until<'_, Queued<'_, R>>> {
        let (rt, queue, is_off) = (self.rt, &self.queue, &self.is_off);
        let inner = Queued { rt, queue };
        Logged::new(rt, starting_filter(self.level), Until { inner, is_off })
    }

    /// Where the server counts; None if nothing is counted.
    pub fn statistics(&self) -> Option<&Arc<Statistics>> {
        let teller = self.teller.as_ref()?;
        Some(&teller.statistics)
    }

    /// Tells the last sums, and ends the log. Sets `is_stuck` if not all of that was written, since a write to standard
    /// error may not end then. Returns whether it could print where the relay listens.
    pub fn finish(&self, is_stuck: &Cell<bool>) -> bool
    where
        R: Eprint + Wait + Replacing,
    {
        if let Some(teller) = &self.teller {
            teller.tell(&self.rt, &self.queue, true);
        }
        is_stuck.set(!logging::finish(&self.rt, &self.queue));
        !self.is_unprinted.load(SeqCst)
    }
}

impl<R: AllocGlobal + Env + Files + Eprint + Copy + Drop> Gate for Beside<R> {
    fn all_started(&self) {
        self.is_off.store(self.level == LogLevel::Off, SeqCst);
        let mut output = self.output;
        if !print_listening(&self.rt, self.listen, &mut output) {
            self.is_unprinted.store(true, SeqCst);
            self.stop.set();
        }
    }

    fn before_turn(&self, _slot: usize, _pair: &Pair) {}

    fn after_turn(&self, _slot: usize, _pair: &Pair) {}
}
