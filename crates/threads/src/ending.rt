//! How the threads of a server come to their end: why the loop of each ends, and what becomes of a fault.
ghost use Rattle.std.specs.Prelude.{◌≡◌, ◌↔◌, [], IfOk, IfErr, IfSome, IsTrue, OnErr, OnOk, None, option_map, true, false};
ghost use Rattle.queues.specs.Steps.{look_of};
ghost use Rattle.threads.specs.{LoopEnds.{EndsAll, announced, fault_by}, WorkerLoops.Took};

use crate::faults::{Found, Recorded};
use crate::joining::Served;
use queues::{Drained, Empty, Full, Ticket};
use rounds::Poller;
use shared::{Front, Own};
use sizes::ServerFault;
use std::marker::Model;
use std::sync::atomic::AtomicUsize;
use std::sync::atomic::Ordering::SeqCst;
use std::sync::{OnceLock, Wait};

/// Why a thread's loop ended.
#[derive(Drop)]
pub enum Why {
    /// A look found a fault recorded.
    FaultFound(Found),
    /// Its poller is over.
    PollerOver,
    /// The queue of tickets was found closed, and then empty.
    QueueClosed(Drained<Empty<Ticket>>),
    /// It met this fault.
    Met(ServerFault),
}

/// A thread's loop has ended. This value cannot be dropped, and only [`Ending::end`] takes it. Only what [`Why`] names
/// makes it, all in this file.
pub struct Ended {
    why: Why,
}

/// Which fault is recorded, if a thread met one, and how many pollers have not ended.
///
/// In a clause it is the mark at which threads look, which is set once a fault is recorded. It cannot be dropped: no
/// part runs without one, and only [`Ending::over`] takes it.
pub struct Ending {
    recorded: OnceLock<()>,
    polling: AtomicUsize,
}

impl Model for Ending {
    ghost use Rattle.std.specs.Prelude.{ℕ};

    ghost Value = { ℕ };

    ghost view = { λ e. e.recorded.id };
}

/// A look found no fault recorded. Only [`Ending::look`] makes this value. It cannot be copied, so each round and each
/// turn needs a look of its own.
#[derive(Drop)]
pub(crate) struct NoFault {
    found: Option<Found>,
    ghost none: { found ≡ None },
}

/// A ticket, and a look after it was taken, which found no fault. A look before the thread slept for the ticket would
/// be too old. Only [`Ending::look_after_take`] makes one.
#[derive(Drop)]
pub(crate) struct Cleared {
    pub(crate) ticket: Ticket,
    seen: NoFault,
}

impl Ended {
    /// Whether this ends all other threads, too: a fault does, whichever thread met it.
    pub(crate) fn ends_all(&self) -> bool
        ensures { IsTrue result ↔ EndsAll self.now.why }
    {
        match self.why {
            Why::FaultFound(_) | Why::Met(_) => true,
            Why::PollerOver | Why::QueueClosed(_) => false,
        }
    }

    /// A round or a turn of this thread met a fault.
    pub(crate) fn met(fault: ServerFault) -> Ended
        ensures { result.why ≡ Why.Met fault }
    {
        Ended {
            why: Why::Met(fault),
        }
    }
}

/// Refuses if the poller is over: that ends the loop.
pub(crate) fn end_if_over<F: Front>(poller: &Poller<F>) -> Result<(), Ended>
    ensures open { OnOk result (poller.now.over ≡ false) }
    ensures over { IfErr result (λ ended. (ended.why ≡ Why.PollerOver) × (poller.now.over ≡ true)) }
{
    if poller.is_over() {
        Err(Ended {
            why: Why::PollerOver,
        })
    } else {
        Ok(())
    }
}

/// Takes a ticket, and may sleep until there is one. So it uses up the look for a fault, and the tickets in hand must
/// have been put before, as far as the queue had room. It refuses once the queue is closed and empty.
pub(crate) fn take(
    rt: &impl Wait,
    own: &mut Own,
    _seen: NoFault,
    _put: Result<(), Full<Ticket>>,
) -> Result<Ticket, Ended>
    requires put { OnOk _put (own.old.hand.tickets ≡ []) }
    ensures taken { IfOk result (λ ticket. Took ticket own.old own.new) }
    ensures none { OnErr result (own.new ≡ own.old) }
    ensures closed { IfErr result (λ ended. (drained : _) × (ended.why ≡ Why.QueueClosed drained)
        × (drained.nothing ≡ look_of own.new.ready)) }
{
    match own.ready.take(rt) {
        Ok(ticket) => Ok(ticket),
        Err(drained) => Err(Ended {
            why: Why::QueueClosed(drained),
        }),
    }
}

impl Ending {
    /// For a server with this many pollers, whose threads do not run yet.
    pub fn new(pollers: usize) -> Ending {
        Ending {
            recorded: OnceLock::new(),
            polling: AtomicUsize::new(pollers),
        }
    }

    /// Records the fault that ended the loop of the thread with this number, if one did. Returns why the loop ended.
    pub(crate) fn end(
        &self,
        rt: &impl Wait,
        number: usize,
        ended: Ended,
    ) -> (Why, Option<Recorded<'_>>)
        ensures why { result.0 ≡ ended.why }
        ensures recorded { result.1 ≡ option_map (λ fault. announced self.now (number, fault)) (fault_by ended.why) }
    {
        let Ended { why } = ended;
        let recorded = match why {
            Why::Met(fault) => Some(self.record(rt, number, fault)),
            Why::FaultFound(_) | Why::PollerOver | Why::QueueClosed(_) => None,
        };
        (why, recorded)
    }

    pub(crate) fn record(&self, rt: &impl Wait, number: usize, fault: ServerFault) -> Recorded<'_>
        ensures { result ≡ announced self.now (number, fault) }
    {
        Recorded::at(rt, &self.recorded, number, fault)
    }

    /// Whether a fault is recorded.
    pub fn is_recorded(&self) -> bool {
        self.found().is_some()
    }

    fn found(&self) -> Option<Found>
        ensures { IfSome result (λ found. found ≡ self.now) }
    {
        let set = self.recorded.witness()?;
        Some(Found::by(&self.recorded, set))
    }

    /// Looks for a recorded fault: the thread goes on only if there is none.
    pub(crate) fn look(&self) -> Result<NoFault, Ended>
        ensures { IfErr result (λ ended. ended.why ≡ Why.FaultFound self.now) }
    {
        match self.found() {
            Some(found) => Err(Ended {
                why: Why::FaultFound(found),
            }),
            none => Ok(NoFault { found: none }),
        }
    }

    /// Looks again before the turn of a ticket for which the thread may have slept.
    pub(crate) fn look_after_take(&self, ticket: Ticket) -> Result<Cleared, Ended>
        ensures ticket { IfOk result (λ cleared. cleared.ticket ≡ ticket) }
        ensures found { IfErr result (λ ended. ended.why ≡ Why.FaultFound self.now) }
    {
        let seen = self.look()?;
        Ok(Cleared { ticket, seen })
    }

    /// A poller has ended. Returns whether it was the last.
    pub(crate) fn leave(&self) -> bool {
        self.polling.fetch_sub(1, SeqCst) <= 1
    }

    /// All threads have ended, as `_served` shows: none looks for a fault any more.
    pub(crate) fn over(self, _served: &Served) {
        let Ending {
            recorded: _,
            polling: _,
        } = self;
    }
}
