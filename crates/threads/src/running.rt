//! A server's threads, from the first to the last.
ghost use Rattle.std.specs.Prelude.{◌≡◌, ◌≤◌, ℕ, List, [], IfSome, None, Some, map, option_to_list, vec_capacity, vec_len};
ghost use Rattle.claims.specs.Seats.{fresh_seat};
ghost use Rattle.shared.specs.Posts.{AreFresh};
ghost use Rattle.threads.specs.{Divided.PairsOff, LoopEnds.announced, Served.{AllRan, IsDivided, fault_of, PollerPart, PollerRuns, WorkerPart, WorkerRuns, poller_part, worker_part}};

use crate::context::{Context, StopFlag, ThreadEnd};
use crate::dividing::divide;
use crate::ending::Ending;
use crate::faults::{Few, Recorded};
use crate::joining::{Crew, Handed, Joins, Lack, Outcome, Part, Served};
use crate::polling::PollerThread;
use crate::working::Worker;
use log::Log;
use queues::FreeQueue;
use relay_log::log_few_threads;
use rounds::Poller;
use shared::{Clock, Front, Gate, Parts, Shared, Timing};
use sizes::{ServerFault, Split};
use std::alloc::Global;
use std::sync::Wait;
use std::thread::{self, Scope, Threads};

/// A server before its threads run: what they share, what they are made from, and the pollers.
#[derive(Drop)]
pub struct Server<F: Front> {
    pub shared: Shared<F>,
    /// For each thread a seat and an end of the queue of tickets.
    pub parts: Parts,
    /// For each poller the ends of its free queue: one for its own thread, and one for each worker. All slots of its
    /// part have to be in the queue, for which no clause asks: a poller is over once it finds them all there.
    pub free: Vec<Vec<FreeQueue>>,
    /// The pollers, in the order of their parts.
    pub pollers: Vec<Poller<F>>,
    /// Which slots are which poller's. It has to have the part of each of `pollers`, for which no clause asks: by it
    /// pollers are woken, and workers give slots back.
    pub split: Split,
    /// How many workers there are to be.
    pub workers: usize,
    pub ghost seats: { AreFresh shared.claims parts.seats.items },
}

/// Runs a server. No clause asks for a poller or a worker, but there has to be one of each: workers alone could run for
/// ever, and without one nobody runs the tickets that pollers put into the queue. The calling thread is the first
/// poller's, all others are started here, and the call returns when all have ended. A poller looks at `is_stopped`
/// before each round, and not while it waits for reports. So whoever sets it has to wake every poller afterwards, by a
/// waker kept from before the call; to wake one is not enough, since it wakes the others only if it might have opened
/// more itself. A poller that finds it set, or has opened all that it may, opens no more, and its front stops
/// listening; the server ends once all connections are closed. `gate` hears that all threads were started, unless a
/// fault is recorded by then: other threads may have run turns before.
///
/// Refuses with `NoMemory`, only before any thread has started ([`Outcome`]), if memory is short, if there are fewer
/// seats or ends of queues than threads, or if a poller's table is not as long as there are slots. Once threads run,
/// the first fault ends all of them, and cuts what is open: `Poll` or `Worn` of a round, `Worn` of a turn, or
/// `Threads`, of which `Poll` and `Threads` are logged. The fault of the outcome is `Threads` if a thread could not be
/// started, or else that of the lowest thread that met one: pollers come before workers. In `ran`, `mark` names the
/// cell at which all threads look, and which is set once a fault is recorded.
pub fn run_threads<'a, F, G, C, R, S>(
    rt: &'a R,
    alloc: Global,
    gate: &'a G,
    timing: Timing<'a, C>,
    is_stopped: &'a S,
    server: Server<F>,
) -> Outcome
where
    F: Front + Drop + Send,
    F::Client: Send,
    F::Target: Send,
    F::Waker: Send + Sync,
    G: Gate + Sync,
    C: Clock + Sync,
    R: Wait + Threads + Log + Sync,
    S: StopFlag + Sync,
    ensures ran { IfSome result.served (λ served. (mark : ℕ) × (pollers : List PollerPart) × (workers : List WorkerPart)
        × IsDivided (fresh_seat server.shared.claims) (map (λ ends. ends.items) server.free.items) server.pollers.items
        server.workers pollers workers × AllRan
        (PollerRuns (S.said is_stopped.now) (C.tells timing.entry.clock.now) F.gave_none timing.entry.limit mark)
        (WorkerRuns mark) pollers workers served) }
    ensures fault { IfSome result.served (λ served. result.fault ≡ fault_of served) }
    ensures refused { result.served ≡ None → result.fault ≡ Some ServerFault.NoMemory }
{
    let (split, count) = (server.split, server.pollers.len());
    let Ok((pollers, workers)) = divide(alloc, server) else {
        return Outcome::refused(ServerFault::NoMemory);
    };
    let Ok(room) = Crew::for_parts(alloc, pollers.len(), workers.len()) else {
        return Outcome::refused(ServerFault::NoMemory);
    };
    let ending = Ending::new(count);
    let context = Context {
        rt,
        alloc,
        gate,
        timing,
        ending: &ending,
        is_stopped,
        split,
    };
    let served = run_all(rt, room, &context, pollers, workers);
    drop(context);
    Outcome::of(served, ending)
}

impl<'a, F: Front, G: Gate, C: Clock, R: Wait + Log, S: StopFlag> Part<Context<'a, G, C, R, S>>
    for PollerThread<F> {
    ghost use Rattle.threads.specs.Served.{PollerRuns, poller_part};

    ghost runs = { λ context poller end. PollerRuns (S.said context.is_stopped.now) (C.tells context.timing.clock.now) F.gave_none
        context.timing.limit context.ending.now (poller_part poller.number poller.poller poller.own) end };

    fn run_to_end(&mut self, context: &Context<'a, G, C, R, S>) -> ThreadEnd {
        self.run(context).end()
    }
}

impl<'a, F: Front, G: Gate, C: Clock, R: Wait + Log, S: StopFlag> Part<Context<'a, G, C, R, S>>
    for Worker<F> {
    ghost use Rattle.threads.specs.Served.{WorkerRuns, worker_part};

    ghost runs = { λ context worker end. WorkerRuns context.ending.now (worker_part worker.number worker.owned) end };

    fn run_to_end(&mut self, context: &Context<'a, G, C, R, S>) -> ThreadEnd {
        self.run(context).end()
    }
}

impl<G: Gate, C, R: Wait + Log, S> Handed for Context<'_, G, C, R, S> {
    /// The gate hears that all were, unless a fault is recorded.
    fn few_started(&self, lack: Option<Lack>) -> Option<Few> {
        let few = lack.map(|lack| not_started(self, lack).few());
        if !self.ending.is_recorded() {
            self.gate.all_started();
        }
        few
    }
}

/// Runs all parts to their ends, as [`run_in`] does in a scope.
fn run_all<P, W, X: Handed + Sync, R: Wait + Threads>(
    rt: &R,
    room: (Joins<P, X>, Joins<W, X>),
    context: &X,
    pollers: Vec<P>,
    workers: Vec<W>,
) -> Served
where
    P: Part<X> + Drop + Send,
    W: Part<X> + Drop + Send,
    requires pollers { (room.0.handles.items ≡ []) × (vec_len pollers ≤ vec_capacity room.0.handles) }
    requires workers { (room.1.handles.items ≡ []) × (vec_len workers ≤ vec_capacity room.1.handles) }
    ensures { AllRan (P.runs context.now) (W.runs context.now) pollers.items workers.items result }
{
    thread::scope(
        thread::scope_env(),
        rt,
        move |scope|
            requires pollers { (room.0.handles.items ≡ []) × (vec_len pollers ≤ vec_capacity room.0.handles) }
            requires workers { (room.1.handles.items ≡ []) × (vec_len workers ≤ vec_capacity room.1.handles) }
        { run_in(scope, rt, room, context, pollers, workers) },
    )
}

/// Starts threads for all parts but the last poller, runs that one in the calling thread, and joins all.
fn run_in<'s, E, P, W, X: Handed + Sync>(
    scope: &'s Scope<'s, E>,
    rt: &impl Threads,
    room: (Joins<P, X>, Joins<W, X>),
    context: &'s X,
    mut pollers: Vec<P>,
    workers: Vec<W>,
) -> Served
where
    P: Part<X> + Drop + Send + 's,
    W: Part<X> + Drop + Send + 's,
    requires pollers { (room.0.handles.items ≡ []) × (vec_len pollers ≤ vec_capacity room.0.handles) }
    requires workers { (room.1.handles.items ≡ []) × (vec_len workers ≤ vec_capacity room.1.handles) }
    ensures { AllRan (P.runs context.now) (W.runs context.now) pollers.items workers.items result }
{
    let first = pollers.pop();
    let (crew, lack) = Crew::start(room, scope, context, pollers, workers);
    let few = context.few_started(lack);
    let first = run_first(context, first);
    crew.join(rt, few, first)
}

/// Runs this part, if there is one, in the calling thread.
fn run_first<P: Part<X> + Drop, X>(context: &X, first: Option<P>) -> Option<ThreadEnd>
    ensures ran { PairsOff (P.runs context.now) (option_to_list first) (option_to_list result) [] }
    ensures none { result ≡ None → first ≡ None }
{
    let mut part = first?;
    Some(part.run_to_end(context))
}

/// Fewer threads were started beside the first than are wanted. The fault is logged, and recorded under number 0.
fn not_started<'a, G, C, R: Wait + Log, S>(
    context: &Context<'a, G, C, R, S>,
    lack: Lack,
) -> Recorded<'a>
    ensures { result ≡ announced context.now.ending.now (0, ServerFault.Threads) }
{
    let Lack { started, wanted } = lack;
    let fault = log_few_threads(
        context.rt,
        started.saturating_add(1),
        wanted.saturating_add(1),
    );
    context.ending.record(context.rt, 0, fault)
}
