//! A world in which what was recorded happens.
ghost use Rattle.world.specs.States.{IsWithinLimits};

use crate::history::History;
use kernel_model::{Accepting, End, Refusal};
use record_lines::{Accepted, Act as Recorded, Polling as Polled};
use relay_core::{Pair, Verdict};
use std::alloc::{AllocError, AllocFailed, Global};
use token::{Name, Side};
use world::{Act, Change, Event, Lead, Limits, Listening, Polling, Reported, World};

/// Why a replay stops.
#[derive(Clone, Copy)]
pub(crate) enum Flaw {
    /// The world refuses the event in `Machine::refused`.
    Refused,
    /// The connection has another call to make, or none.
    NextCall,
    /// The record at hand fits nowhere.
    Because(&'static str),
    /// Memory ran out. Nothing is wrong with the record.
    NoMemory,
}

impl From<AllocError> for Flaw {
    fn from(_error: AllocError) -> Flaw {
        Flaw::NoMemory
    }
}

impl<T: Drop> From<AllocFailed<T>> for Flaw {
    fn from(_error: AllocFailed<T>) -> Flaw {
        Flaw::NoMemory
    }
}

/// A world, and the event that it refused.
#[derive(Drop)]
pub(crate) struct Machine {
    pub alloc: Global,
    pub history: History,
    pub refused: Option<Event>,
}

impl Machine {
    /// The sizes of a world in which nothing is opened, so that no ring and no budget matters.
    pub(crate) const LIMITS: Limits = Limits {
        slots: 1,
        workers: 1,
        ring: 1,
        budget: 1,
        generation: 0,
        idle: 0,
        lead: Lead::NONE,
    };

    /// A world of these sizes, in which nothing has happened.
    pub(crate) fn new(alloc: Global, limits: Limits) -> Result<Machine, AllocError>
        requires { IsWithinLimits limits }
    {
        Ok(Machine {
            alloc,
            history: History::new(alloc, limits)?,
            refused: None,
        })
    }

    /// An event happens, or is refused and kept.
    pub(crate) fn put(&mut self, event: Event) -> Result<(), Flaw> {
        match self.history.put(event) {
            Ok(()) => Ok(()),
            Err((refusal, event)) => {
                self.refused = Some(event);
                match refusal {
                    Refusal::NoMemory => Err(Flaw::NoMemory),
                    Refusal::NotAllowed => Err(Flaw::Refused),
                }
            }
        }
    }

    /// The worker does this, one act after the other.
    pub(crate) fn work(&mut self, acts: &[Act]) -> Result<(), Flaw> {
        for act in acts {
            self.put(Event::Work(0, *act))?;
        }
        Ok(())
    }

    /// A turn begins: its ticket, wherever it is, is put and taken; the slot is claimed, and its notes are taken.
    pub(crate) fn claim(&mut self) -> Result<(), Flaw> {
        if self.world().poller_hand().is_empty() {
            self.put(Event::Work(0, Act::Put))?;
        } else {
            self.put(Event::Poll(Polling::Put))?;
        }
        self.work(&[Act::Pop, Act::Claim, Act::Take])
    }

    /// A report is polled and delivered. If none is queued, one is queued without cause.
    pub(crate) fn deliver(&mut self, name: Name, who: Reported) -> Result<(), Flaw> {
        if !self.is_queued(&name) {
            self.put(Event::Spurious(who))?;
        }
        let names = Vec::from_array(self.alloc, [name])?;
        self.put(Event::Poll(Polling::Poll(names)))?;
        self.put(Event::Poll(Polling::Deliver))
    }

    pub(crate) fn is_queued(&self, name: &Name) -> bool {
        self.world().kernel().is_queued(name)
    }

    /// The network changes something at an end.
    pub(crate) fn change(&mut self, side: Side, change: Change) -> Result<(), Flaw> {
        self.put(Event::Network(0, side, change))
    }

    pub(crate) fn world(&self) -> &World {
        self.history.world()
    }

    pub(crate) fn has_notes(&self) -> bool {
        matches!(self.world().slots().first(), Some(slot) if slot.has_notes())
    }

    /// The connection in the slot.
    pub(crate) fn pair(&self) -> Option<&Pair> {
        Some(&self.world().connection(0)?.pair)
    }

    /// Whether the connection has ended, or there is none.
    pub(crate) fn is_over(&self) -> bool {
        !matches!(self.pair(), Some(pair) if pair.verdict() == Verdict::Live)
    }

    /// One end of the connection.
    pub(crate) fn end(&self, side: Side) -> Option<&End> {
        let connection = self.world().connection(0)?;
        let open = self.world().kernel().end(connection.descriptor(side))?;
        Some(&open.socket)
    }

    /// The poller does this at the listener. Other acts are passed over.
    pub(crate) fn listen(&mut self, act: &Recorded) -> Result<(), Flaw> {
        let Recorded::Poller(_, did) = act else {
            return Ok(());
        };
        let happens = match did {
            Polled::Reported(Name::Listener) => {
                return self.deliver(Name::Listener, Reported::Listener);
            }
            Polled::Reported(Name::Waker) => return self.deliver(Name::Waker, Reported::Waker),
            Polled::Accept(Accepted::Taken) => return self.accept(),
            Polled::Accept(Accepted::Blocked) => Listening::Accept(Accepting::Blocked),
            Polled::Accept(Accepted::Again) => Listening::Accept(Accepting::Again),
            Polled::Accept(Accepted::Starved) => Listening::Accept(Accepting::Starved),
            // What was accepted is opened in the world of its slot, or nowhere.
            Polled::Open(_, _, _) => Listening::Drop,
            _ => return Ok(()),
        };
        self.put(Event::Listen(happens))
    }

    /// A client comes in and is accepted. If that queues a report, the report vanishes: the poller got it when the
    /// client came, or needed none.
    fn accept(&mut self) -> Result<(), Flaw> {
        let was_queued = self.is_queued(&Name::Listener);
        self.come_in()?;
        if !was_queued && self.is_queued(&Name::Listener) {
            return self.put(Event::Vanish(Reported::Listener));
        }
        Ok(())
    }

    /// A client comes in just before it is accepted.
    pub(crate) fn come_in(&mut self) -> Result<(), Flaw> {
        self.put(Event::Listen(Listening::Connect))?;
        self.put(Event::Listen(Listening::Accept(Accepting::Accepted)))
    }
}
