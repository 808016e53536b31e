//! The threads of parts that have one each: how they are started and joined, and the outcome of their ends.
ghost use Rattle.std.specs.Prelude.{◌≡◌, ◌↔◌, ◌≤◌, [], IfErr, IfOk, IsOk, None, Some, fold, true, vec_capacity, vec_len};
ghost use Rattle.threads.specs.{Divided.PairsOff, Served.{AreStarted, IsOf, fault_of, met}};

use crate::context::ThreadEnd;
use crate::ending::Ending;
use crate::faults::Few;
use os::set_thread_name;
use sizes::ServerFault;
use std::alloc::{AllocError, Global};
use std::snapshot::Snapshot;
use std::thread::{Promise, PromisedHandle, Scope, Threads};

/// What a thread owns, and runs to its end. `X` is what all threads are handed.
pub(crate) trait Part<X>: Sized {
    ghost use Rattle.threads.specs.declared.context.ThreadEnd.{ThreadEnd};

    // It was run to this end.
    ghost runs: { X → Self → ThreadEnd → Type 0 };

    fn run_to_end(&mut self, context: &X) -> ThreadEnd
        ensures { runs context.now self.old result };
}

/// Runs the part in its own thread, which tools such as top(1) show by this name.
fn run_named<P: Part<X> + Drop, X>(name: &[u8], mut part: P, context: &X) -> ThreadEnd
    ensures { P.runs context.now part result }
{
    set_thread_name(name);
    part.run_to_end(context)
}

/// What all threads are handed.
pub(crate) trait Handed {
    /// If not all threads could be started, that is recorded, before the faults of all threads.
    fn few_started(&self, lack: Option<Lack>) -> Option<Few>
        ensures { result ≡ None → lack ≡ None };
}

/// A thread's promise: it runs this part to its end.
#[derive(Drop)]
pub(crate) struct Runs<P, X> {
    part: Snapshot<P>,
    context: Snapshot<X>,
}

impl<X, P: Part<X>> Promise<ThreadEnd> for Runs<P, X> {
    ghost kept_by = { λ p end. P.runs p.context.value p.part.value end };
}

/// Threads that were started, and room for how they end.
#[derive(Drop)]
pub(crate) struct Joins<P: Part<X>, X> {
    handles: Vec<PromisedHandle<ThreadEnd, Runs<P, X>>>,
    ends: Vec<ThreadEnd>,
    ghost none: { ends.items ≡ [] },
    ghost room: { vec_capacity handles ≤ vec_capacity ends },
}

impl<P: Part<X>, X> Joins<P, X> {
    /// Starts a thread of this name for each part, in order, and moves the part into it, if all others `so_far` were
    /// started. False: one could not be started, and no more were.
    fn start<'s, E>(
        &mut self,
        scope: &'s Scope<'s, E>,
        context: &'s X,
        name: &'static [u8],
        parts: Vec<P>,
        so_far: bool,
    ) -> bool
    where
        P: Drop + Send + 's,
        X: Sync,
        requires { (self.old.handles.items ≡ []) × (vec_len parts ≤ vec_capacity self.old.handles) }
        ensures started { AreStarted
            (λ part handle. IsOf context.now part handle.promise.context.value handle.promise.part.value)
            parts.items self.new.handles.items (result ≡ true) }
        ensures others { result ≡ true → so_far ≡ true }
    {
        if !so_far {
            return false;
        }
        for part in parts {
            let promise = Runs {
                part: Snapshot::of(&part),
                context: Snapshot::of(context),
            };
            match scope.spawn_with(promise, move || run_named(name, part, context)) {
                Ok(handle) => self.handles.push_reserved(handle),
                Err(_) => return false,
            }
        }
        true
    }

    /// Waits until each has ended.
    fn join(self, rt: &impl Threads) -> Vec<ThreadEnd>
    where
        P: Drop,
        ensures { PairsOff (λ handle end. P.runs handle.promise.context.value handle.promise.part.value end)
            self.handles.items result.items [] }
    {
        let Joins { handles, mut ends } = self;
        for handle in handles {
            ends.push_reserved(handle.join(rt));
        }
        ends
    }
}

/// The threads that began beside the one that serves, of pollers and of workers. This value cannot be dropped.
pub(crate) struct Crew<P: Part<X>, W: Part<X>, X> {
    pollers: Joins<P, X>,
    workers: Joins<W, X>,
}

/// All threads of a server have ended, and how. Only [`Crew::join`] makes this value, which cannot be dropped.
pub(crate) struct Served {
    /// If a thread could not be started, that is recorded.
    few: Option<Few>,
    pollers: Vec<ThreadEnd>,
    workers: Vec<ThreadEnd>,
    /// Of the first poller, which ran in the thread that serves.
    first: Option<ThreadEnd>,
}

/// How a server ended: well; or for want of a thread; or by a fault that threads met, the lowest number's; or by what
/// refused the server before it served. No thread of a refused server had begun: threads need an [`Ending`], which
/// cannot be dropped. Only [`Outcome::of`] takes it, and what that makes has `served`, and cannot be dropped either.
/// Only the program can read an outcome, so whoever serves returns it.
pub struct Outcome {
    fault: Option<ServerFault>,
    /// How its threads ended. None if it was refused before it served.
    served: Option<Served>,
}

/// Fewer threads were started than are wanted.
pub(crate) struct Lack {
    pub(crate) started: usize,
    pub(crate) wanted: usize,
}

impl<P: Part<X>, W: Part<X>, X> Crew<P, W, X> {
    /// Room for the threads of these numbers of parts.
    pub(crate) fn for_parts(
        alloc: Global,
        pollers: usize,
        workers: usize,
    ) -> Result<(Joins<P, X>, Joins<W, X>), AllocError>
        ensures pollers { IfOk result (λ room. (room.0.handles.items ≡ []) × (pollers ≤ vec_capacity room.0.handles)) }
        ensures workers { IfOk result (λ room. (room.1.handles.items ≡ []) × (workers ≤ vec_capacity room.1.handles)) }
    {
        let workers = Joins {
            handles: Vec::with_capacity(alloc, workers)?,
            ends: Vec::with_capacity(alloc, workers)?,
        };
        let pollers = Joins {
            handles: Vec::with_capacity(alloc, pollers)?,
            ends: Vec::with_capacity(alloc, pollers)?,
        };
        Ok((pollers, workers))
    }

    /// Starts a thread for each part, the workers' first. Once one cannot be started, no more are.
    pub(crate) fn start<'s, E>(
        room: (Joins<P, X>, Joins<W, X>),
        scope: &'s Scope<'s, E>,
        context: &'s X,
        pollers: Vec<P>,
        workers: Vec<W>,
    ) -> (Crew<P, W, X>, Option<Lack>)
    where
        P: Drop + Send + 's,
        W: Drop + Send + 's,
        X: Sync,
        requires pollers { (room.0.handles.items ≡ []) × (vec_len pollers ≤ vec_capacity room.0.handles) }
        requires workers { (room.1.handles.items ≡ []) × (vec_len workers ≤ vec_capacity room.1.handles) }
        ensures pollers { AreStarted
            (λ part handle. IsOf context.now part handle.promise.context.value handle.promise.part.value)
            pollers.items result.0.pollers.handles.items (result.1 ≡ None) }
        ensures workers { AreStarted
            (λ part handle. IsOf context.now part handle.promise.context.value handle.promise.part.value)
            workers.items result.0.workers.handles.items (result.1 ≡ None) }
    {
        let mut crew = Crew {
            pollers: room.0,
            workers: room.1,
        };
        let wanted = pollers.len().saturating_add(workers.len());
        let all = crew.workers.start(scope, context, b"worker", workers, true);
        if crew.pollers.start(scope, context, b"poller", pollers, all) {
            return (crew, None);
        }
        let pollers = crew.pollers.handles.len();
        let started = pollers.saturating_add(crew.workers.handles.len());
        (crew, Some(Lack { started, wanted }))
    }

    /// Waits until each has ended, as the first poller has.
    pub fn join(self, rt: &impl Threads, few: Option<Few>, first: Option<ThreadEnd>) -> Served
    where
        P: Drop,
        W: Drop,
        ensures pollers { PairsOff (λ handle end. P.runs handle.promise.context.value handle.promise.part.value end)
            self.pollers.handles.items result.pollers.items [] }
        ensures workers { PairsOff (λ handle end. W.runs handle.promise.context.value handle.promise.part.value end)
            self.workers.handles.items result.workers.items [] }
        ensures others { (result.few ≡ few) × (result.first ≡ first) }
    {
        let Crew { pollers, workers } = self;
        let pollers = pollers.join(rt);
        let workers = workers.join(rt);
        Served {
            few,
            pollers,
            workers,
            first,
        }
    }
}

impl Served {
    /// The lack of a thread, or the fault that the thread with the lowest number met.
    fn fault(&self) -> Option<ServerFault>
        ensures { result ≡ fault_of self.now }
    {
        if self.few.is_some() {
            return Some(ServerFault::Threads);
        }
        let met = lowest_met(None, &self.pollers);
        let met = self.first.as_ref().map_or(met, |first| first.lowest(met));
        let (_, fault) = lowest_met(met, &self.workers)?;
        Some(fault)
    }
}

/// Of the fault that is kept, and of those that met one, the lowest number's.
fn lowest_met(
    mut kept: Option<(usize, ServerFault)>,
    ends: &[ThreadEnd],
) -> Option<(usize, ServerFault)>
    ensures { result ≡ fold met kept ends.now }
{
    for end in ends {
        kept = end.lowest(kept);
    }
    kept
}

impl Outcome {
    /// The outcome of a server whose threads ended so: the lack of a thread, or what the lowest number met.
    pub(crate) fn of(served: Served, ending: Ending) -> Outcome
        ensures fault { result.fault ≡ fault_of served }
        ensures served { result.served ≡ Some served }
    {
        ending.over(&served);
        Outcome {
            fault: served.fault(),
            served: Some(served),
        }
    }

    /// The outcome of a server that was refused before it served.
    pub fn refused(fault: ServerFault) -> Outcome
        ensures fault { result.fault ≡ Some fault }
        ensures none { result.served ≡ None }
    {
        Outcome {
            fault: Some(fault),
            served: None,
        }
    }

    /// The fault by which the server ended, if one did. Only the program has the process's own handle, and reads this.
    pub fn into_result(self, _own: &HostRuntime) -> Result<(), ServerFault>
        ensures well { IsOk result ↔ self.fault ≡ None }
        ensures fault { IfErr result (λ fault. self.fault ≡ Some fault) }
    {
        let Outcome { fault, served } = self;
        if let Some(served) = served {
            let Served {
                few: _,
                pollers: _,
                workers: _,
                first: _,
            } = served;
        }
        fault.map_or(Ok(()), Err)
    }
}
