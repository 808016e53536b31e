//! A server over the system's sockets, from its settings to its end, which may record what its threads do.
ghost use Rattle.std.specs.Prelude.{◌≡◌, IfNone, IfOk, IfSome, None, length, map};
ghost use Rattle.server.specs.{Begins.{all_begun, free_ends}, Serves.{Deals, RanAs, Serves}};
ghost use Rattle.settings.specs.Calls.{calls_for};
ghost use Rattle.sizes.specs.{Pollers.{pollers_for}, Splits.{parts_of}};

use crate::making::{build, split_of};
use log::Log;
use os::set_thread_name;
use record_lines::{Header, Parts};
use recorder::{
    QueueSink, RecordQueue, RecordedClock, RecordedGate, Recorder, record_all, write_records,
};
use relay_log::log_no_thread;
use settings::{Settings, calls_for};
use shared::{Clock, Front, Gate, Timing};
use sizes::{ClientsAt, ServerFault, Split};
use sockets::{Bound, Dial, Forwarding, Patience, Stop, open_all};
use statistics::Statistics;
use std::alloc::{AllocError, Global};
use std::net::Net;
use std::sync::{Arc, Mutex, Wait};
use std::thread::{self, Threads};
use std::time;
use threads::{Outcome, Server, run_threads};

/// A handle of the system on which a server runs.
pub trait System: Net + Dial + Wait + Threads + Log + time::Clock + Sync {}

impl<R: Net + Dial + Wait + Threads + Log + time::Clock + Sync> System for R {}

/// What a server is lent while it serves.
pub struct Lent<'a, R, G, C> {
    pub rt: &'a R,
    pub alloc: Global,
    /// Called once all threads have been started, and before and after each turn.
    pub gate: &'a G,
    /// The idle limit goes by this clock.
    pub clock: &'a C,
    /// Another thread sets this once no more connections may be opened.
    pub stop: &'a Stop,
    /// Where connections are counted, with a place for each of the settings' slots; None to count none.
    pub statistics: Option<&'a Arc<Statistics>>,
    /// How long to wait for targets and clients that do not answer.
    pub patience: Patience,
    /// Whether each client is logged at level info, when it comes and goes.
    pub log_clients: bool,
}

impl<R, G, C> Clone for Lent<'_, R, G, C> {
    fn clone(&self) -> Result<Self, AllocError> {
        Ok(*self)
    }
}

impl<R, G, C> Copy for Lent<'_, R, G, C> {}

/// Serves on the bound socket: accepts connections and forwards each one to the settings' target. Beside the settings'
/// number of workers there are as many pollers' threads, but at most one for each 64 slots, and at least one. The
/// calling thread is a poller's. With the settings' `proxy` each target is first sent a line with its client's
/// addresses.
///
/// It returns on a fault; or once `stop_after` connections were opened or `stop` was set, and all opened ones are
/// closed. Once no more may be opened, the listening socket is closed. When it returns, every thread has ended, and
/// every socket is closed.
///
/// The fault is `NoMemory` if there is not enough to begin with, `Poll` if the system cannot report on sockets,
/// `Threads` if a thread cannot be started, and `Worn` if a thread has posted 2^56 notes. Of several it is `Threads`,
/// or else the first poller's, or the next thread's: pollers come before workers.
pub fn serve<R: System, G: Gate + Sync, C: Clock + Sync>(
    settings: &Settings,
    bound: Bound,
    lent: Lent<'_, R, G, C>,
) -> Outcome
    ensures served { IfSome result.served (Serves settings.now (C.tells lent.entry.clock.now)) }
{
    lent.serve(settings, bound, None)
}

/// Serves as [`serve`] does. If there are files, what each thread does is recorded into them until the server ends,
/// each of at most `most` bytes; the last line then says that all is recorded. A thread of its own writes them, and the
/// call returns once all is written. If records come faster than that thread writes, a warning is logged, and the
/// recording ends, or goes on in the next file if `most` is below 2^64 - 1. If a file cannot be written, it ends. The
/// server serves on. The recording may also refuse to begin, with `NoMemory` or `Threads`.
pub fn serve_recorded<R: System, G: Gate + Sync, C: Clock + Sync, P: Parts + Send>(
    settings: &Settings,
    bound: Bound,
    lent: Lent<'_, R, G, C>,
    files: Option<P>,
    most: u64,
) -> Outcome
    ensures served { IfNone files (IfSome result.served (Serves settings.now (C.tells lent.entry.clock.now))) }
{
    let Some(files) = files else {
        return serve(settings, bound, lent);
    };
    let split = split_of(settings);
    let in_parts = most < u64::MAX;
    let Ok(queue) = lent.record_queue(split, in_parts) else {
        return Outcome::refused(ServerFault::NoMemory);
    };
    let recording = Recording {
        rt: lent.rt,
        queue,
        header: header_of(settings, split),
        most,
        files: Mutex::new(Some(files)),
    };
    let queue = &recording.queue;
    serve_beside(&recording, move || lent.serve(settings, bound, Some(queue)))
}

#[derive(Drop)]
struct Recording<'a, P, R> {
    rt: &'a R,
    queue: RecordQueue,
    header: Header,
    most: u64,
    /// The files, until the thread that writes them has begun.
    files: Mutex<Option<P>>,
}

impl<P: Parts, R: Wait + Log> Recording<'_, P, R> {
    /// Writes the files, in its own thread.
    fn write(&self) {
        set_thread_name(b"record");
        let files = self.files.lock(self.rt).take();
        if let Some(files) = files {
            write_records(self.rt, &self.queue, self.header, self.most, files);
        }
    }
}

fn serve_beside<P, R, S>(recording: &Recording<'_, P, R>, serve: S) -> Outcome
where
    P: Parts + Send,
    R: Wait + Threads + Log + Sync,
    S: FnOnce() -> Outcome + Drop,
    requires { S.IsAlwaysCallable serve }
{
    thread::scope(
        thread::scope_env(),
        recording.rt,
        move |scope|
            requires { S.IsAlwaysCallable serve }
        {
            if scope.spawn(move || recording.write()).is_err() {
                return Outcome::refused(log_no_thread(recording.rt));
            }
            let served = serve();
            recording.queue.close();
            served
        },
    )
}

impl<R: System, G: Gate + Sync, C: Clock + Sync> Lent<'_, R, G, C> {
    /// Serves on the bound socket. If there is a queue, what is done is recorded into it.
    fn serve(self, settings: &Settings, bound: Bound, queue: Option<&RecordQueue>) -> Outcome
        ensures served { IfSome result.served (Serves settings.now (C.tells self.entry.clock.now)) }
    {
        let split = split_of(settings);
        let forwarding = Forwarding::of(settings, self.patience);
        match open_all(self.rt, self.alloc, bound, forwarding, split, self.stop) {
            Ok((fronts, waker)) => match queue {
                None => self.run(settings, fronts, waker),
                Some(queue) => self.run_recorded(settings, fronts, waker, queue),
            },
            Err(fault) => Outcome::refused(fault),
        }
    }

    fn record_queue(self, split: Split, in_parts: bool) -> Result<RecordQueue, AllocError> {
        let statistics = another(self.statistics)?;
        RecordQueue::new(self.rt, self.alloc, split, in_parts, statistics)
    }
}

impl<R: Wait + Threads + Log + Sync, G: Gate + Sync, C: Clock + Sync> Lent<'_, R, G, C> {
    /// Makes a server with these fronts, one for each poller, and runs it.
    fn run<F>(self, settings: &Settings, fronts: Vec<F>, waker: F::Waker) -> Outcome
    where
        F: Front + Drop + Send,
        F::Client: Send,
        F::Target: Send,
        F::Waker: Send + Sync,
        requires { length fronts.items ≡ pollers_for settings.now.slots settings.now.workers }
        ensures ran { IfSome result.served (RanAs settings.now (C.tells self.entry.clock.now) F.gave_none (map F.seen fronts.items)) }
    {
        match self.server(settings, fronts, waker) {
            Ok(server) => {
                let (clock, limit) = (self.clock, u64::from(settings.idle));
                let stop = self.stop.flag();
                run_threads(
                    self.rt,
                    self.alloc,
                    self.gate,
                    Timing { clock, limit },
                    stop,
                    server,
                )
            }
            Err(fault) => Outcome::refused(fault),
        }
    }

    /// Runs a server with these fronts, one for each poller, and records what they, the gate and the clock do.
    fn run_recorded<F>(
        self,
        settings: &Settings,
        fronts: Vec<F>,
        waker: F::Waker,
        queue: &RecordQueue,
    ) -> Outcome
    where
        F: Front + Drop + Send,
        F::Client: Send,
        F::Target: Send,
        F::Waker: Send + Sync,
        R: time::Clock,
        requires { length fronts.items ≡ pollers_for settings.now.slots settings.now.workers }
        ensures ran { IfSome result.served (RanAs settings.now (C.tells self.entry.clock.now) F.gave_none (map F.seen fronts.items)) }
    {
        let recorder = Recorder::new(QueueSink::new(self.rt, queue));
        let Ok(fronts) = record_all(self.alloc, fronts, &recorder) else {
            return Outcome::refused(ServerFault::NoMemory);
        };
        let lent = Lent {
            rt: self.rt,
            alloc: self.alloc,
            gate: &RecordedGate::new(self.gate, recorder.another()),
            clock: &RecordedClock::new(self.clock, recorder.another(), settings.idle > 0),
            stop: self.stop,
            statistics: self.statistics,
            patience: self.patience,
            log_clients: self.log_clients,
        };
        lent.run(settings, fronts, waker)
    }
}

impl<R: Wait, G, C> Lent<'_, R, G, C> {
    /// A server as the settings say, with the statistics that are lent, which logs clients at level info if asked. It
    /// takes its share of the statistics first, so no server has to be dropped if there is no memory for it.
    fn server<F: Front + Drop>(
        self,
        settings: &Settings,
        fronts: Vec<F>,
        waker: F::Waker,
    ) -> Result<Server<F>, ServerFault>
        requires { length fronts.items ≡ pollers_for settings.now.slots settings.now.workers }
        ensures split { IfOk result (λ made. Deals settings.now made.split) }
        ensures slots { IfOk result (λ made. made.shared.claims.words ≡ settings.now.slots) }
        ensures free { IfOk result (λ made. map (λ ends. ends.items) made.free.items ≡ free_ends settings.now made.split) }
        ensures pollers { IfOk result (λ made. made.pollers.items ≡ all_begun settings.now made.split 0 (map F.seen fronts.items)) }
        ensures workers { IfOk result (λ made. made.workers ≡ settings.now.workers) }
    {
        let statistics = another(self.statistics)?;
        let split = split_of(settings);
        let mut server = build(self.rt, self.alloc, settings, split, fronts, waker)?;
        server.shared.statistics = statistics;
        if self.log_clients {
            server.shared.clients = ClientsAt::Info;
        }
        Ok(server)
    }
}

/// The header of a recording: the server's sizes.
fn header_of(settings: &Settings, split: Split) -> Header
    ensures { let s = settings.now in let h = result in (h.pollers ≡ parts_of split.slots split.size) × (h.idle ≡ s.idle) × (h.from ≡ None)
        × (h.slots ≡ s.slots) × (h.workers ≡ s.workers) × (h.ring ≡ s.ring) × (h.budget ≡ calls_for s.budget) × (h.proxy ≡ s.proxy) }
{
    Header {
        slots: settings.slots,
        pollers: split.pollers(),
        workers: settings.workers,
        ring: settings.ring,
        budget: calls_for(settings.budget),
        idle: u64::from(settings.idle),
        proxy: settings.proxy,
        from: None,
    }
}

fn another(statistics: Option<&Arc<Statistics>>) -> Result<Option<Arc<Statistics>>, AllocError> {
    statistics.map(|statistics| statistics.clone()).transpose()
}
