//! What every thread of a server is handed, and how a fault of one ends the others.
ghost use Rattle.std.specs.Prelude.{◌≡◌, Bool};
ghost use Rattle.threads.specs.{LoopEnds.{AllWoken, EndsAll, IsTold}, Served.met};

use crate::ending::{Ended, Ending, Why};
use crate::faults::Recorded;
use queues::{Closed, ReadyQueue};
use shared::{Front, Shared, Timing};
use sizes::{ServerFault, Split};
use std::alloc::Global;
use std::sync::Wait;
use std::sync::atomic::AtomicBool;
use std::sync::atomic::Ordering::SeqCst;

/// A flag, which is set when no more connections may be opened.
pub trait StopFlag {
    // What a look at the flag showed, if an `impl` says so.
    ghost said: { Self → Bool → Type 0 } = { λ _ _. Unit {0} };

    /// Whether the flag is set.
    fn is_set(&self) -> bool
        ensures { said self.now result };
}

impl StopFlag for AtomicBool {
    fn is_set(&self) -> bool {
        self.load(SeqCst)
    }
}

/// What every thread of a server is handed at each of its steps.
#[derive(Drop)]
pub struct Context<'a, G, C, R, S = AtomicBool> {
    pub rt: &'a R,
    pub alloc: Global,
    pub gate: &'a G,
    pub timing: Timing<'a, C>,
    pub ending: &'a Ending,
    pub is_stopped: &'a S,
    /// Which slots are which poller's.
    pub split: Split,
}

/// What a thread told as it ended: the fault that it met is recorded, and if it met or found one, the queue of tickets
/// is closed. Only [`Context::end`] makes this value.
#[derive(Drop)]
pub struct Told<'a> {
    number: usize,
    why: Why,
    recorded: Option<Recorded<'a>>,
    closed: Option<Closed>,
}

/// The thread with this number came to its end, for this reason, and told of it. Only a [`Told`] becomes this value.
#[derive(Drop)]
pub(crate) struct ThreadEnd {
    number: usize,
    why: Why,
}

impl Told<'_> {
    pub(crate) fn end(self) -> ThreadEnd
        ensures { (result.number ≡ self.entry.number) × (result.why ≡ self.entry.why) }
    {
        ThreadEnd {
            number: self.number,
            why: self.why,
        }
    }
}

impl ThreadEnd {
    /// The fault that is kept, or the one that this thread met, if its number is lower.
    pub(crate) fn lowest(&self, kept: Option<(usize, ServerFault)>) -> Option<(usize, ServerFault)>
        ensures { result ≡ met kept self.now }
    {
        match (kept, &self.why) {
            (Some((number, fault)), Why::Met(_)) if number <= self.number => Some((number, fault)),
            (_, Why::Met(fault)) => Some((self.number, *fault)),
            _ => kept,
        }
    }
}

impl<G, C, R: Wait, S> Context<'_, G, C, R, S> {
    /// The loop of the thread with this number has ended. A fault that it met is recorded. A fault that it met or found
    /// ends all other threads: those that sleep are woken.
    pub fn end<F: Front>(
        &self,
        shared: &Shared<F>,
        number: usize,
        ready: &mut ReadyQueue,
        ended: Ended,
    ) -> Told<'_>
        ensures ready { ready.new ≡ ready.old }
        ensures told { IsTold self.now.ending.now number ended.why result.recorded result.closed }
        ensures of { (result.number ≡ number) × (result.why ≡ ended.why) }
        ensures woken { EndsAll ended.why → AllWoken (F.woke shared.now.waker) self.now.split }
    {
        let ends_all = ended.ends_all();
        let (why, recorded) = self.ending.end(self.rt, number, ended);
        let closed = if ends_all { Some(ready.close()) } else { None };
        let told = Told {
            number,
            why,
            recorded,
            closed,
        };
        if ends_all {
            self.wake_after(shared, &told);
        }
        told
    }

    /// Wakes every poller, once the thread has `told` its end: so each finds what that says.
    fn wake_after<F: Front>(&self, shared: &Shared<F>, _told: &Told<'_>)
        ensures { AllWoken (F.woke shared.now.waker) self.now.split }
    {
        self.wake_pollers(shared);
    }

    pub(crate) fn wake_pollers<F: Front>(&self, shared: &Shared<F>)
        ensures { AllWoken (F.woke shared.now.waker) self.now.split }
    {
        for poller in 0..self.split.pollers() {
            F::wake(&shared.waker, self.split.part(poller).first);
        }
    }

    /// A poller has ended, and told of it. After the last one the queue of tickets is closed, which ends the workers.
    pub fn leave(&self, ready: &mut ReadyQueue, _told: &Told<'_>)
        ensures { ready.new ≡ ready.old }
    {
        if self.ending.leave() {
            ready.close();
        }
    }
}
