// The queue of tickets.
ghost use Rattle.std.specs.Prelude.{◌≡◌, ◌≤◌, IfOk, OnOk, IfErr, OnErr};
ghost use Rattle.queues.specs.{Steps.{AreNew, IsStill, PutOne, TookOne, QueueEnd, look_of}, declared.ticket.Ticket.Ticket};

use crate::end::End;
use crate::idle::{Closed, IdleEnds};
use crate::moment::{Empty, Full};
use crate::rule::LineEnd;
use crate::steps::{AllBusy, Drained};
use crate::ticket::Ticket;
use std::alloc::{AllocError, Global};
use std::marker::Model;
use std::sync::{Arc, Wait};

/// One thread's end of a queue of tickets. After a ticket, [`ReadyQueue::take`] must be called again, until it refuses:
/// the end's next put relies on that. No clause asks for it.
///
/// In a clause it is what a [`FreeQueue`](crate::FreeQueue) is, and which queue it is an end of.
#[derive(Drop)]
pub struct ReadyQueue {
    end: End,
}

impl Model for ReadyQueue {
    ghost Value = { QueueEnd Ticket };

    ghost view = { λ q. q.end.line };
}

impl ReadyQueue {
    /// Makes a queue for at most `capacity` tickets, and its ends. This allocates all the memory that it ever uses, and
    /// fails only if there is not enough.
    pub fn new(alloc: Global, capacity: usize, ends: usize) -> Result<Vec<ReadyQueue>, AllocError>
        requires capacity { (1 ≤ capacity) × (capacity ≤ 32768) }
        requires ends { (1 ≤ ends) × (ends ≤ 32) }
        ensures { IfOk result (λ all. AreNew ends capacity all.items) }
    {
        let (idle, mut numbers) = IdleEnds::new();
        let shared = Arc::new(alloc, idle)?;
        let mut first = LineEnd::first(alloc, capacity)?;
        let mut all = Vec::with_capacity(alloc, ends)?;
        for _end in 0..ends {
            let end = End::another(&shared, &mut first, numbers.next())?;
            all.push_reserved(ReadyQueue { end });
        }
        Ok(all)
    }

    /// Puts a ticket at the back, and wakes an idle end for it unless this end will come back for it itself. If the
    /// queue was full at one moment during the call, nothing has changed.
    pub fn put(&mut self, rt: &impl Wait, ticket: Ticket) -> Result<(), Full<Ticket>>
        ensures put { OnOk result (PutOne self.old.history ticket self.new.history) }
        ensures given_back { IfErr result (λ full. full.0 ≡ ticket) }
        ensures unchanged { OnErr result (self.new ≡ self.old) }
        ensures same { IsStill self.old self.new }
    {
        self.end.put(rt, ticket)?;
        Ok(())
    }

    /// Takes the ticket at the front, unless the queue was empty at one moment during the call.
    pub fn try_take(&mut self, rt: &impl Wait) -> Result<Ticket, Empty<Ticket>>
        ensures taken { IfOk result (λ ticket. TookOne self.old.history ticket self.new.history) }
        ensures empty { IfErr result (λ empty. empty ≡ look_of self.old) }
        ensures unchanged { OnErr result (self.new ≡ self.old) }
        ensures same { IsStill self.old self.new }
    {
        self.end.try_take(rt)
    }

    /// Takes the ticket at the front, and sleeps until there is one. Refuses once this queue was found closed, and then
    /// empty.
    pub fn take(&mut self, rt: &impl Wait) -> Result<Ticket, Drained<Empty<Ticket>>>
        ensures taken { IfOk result (λ ticket. TookOne self.old.history ticket self.new.history) }
        ensures closed { IfErr result (λ drained. drained.nothing ≡ look_of self.old) }
        ensures unchanged { OnErr result (self.new ≡ self.old) }
        ensures same { IsStill self.old self.new }
    {
        self.end.take(rt)
    }

    /// Looks once for an end that sleeps in [`ReadyQueue::take`] or is about to. Some: there is none.
    pub fn all_busy(&self) -> Option<AllBusy> {
        self.end.ends.idle.all_busy(&mut ())
    }

    /// From now on, `take` refuses at every end once the queue is empty. Wakes all ends that sleep.
    pub fn close(&mut self) -> Closed
        ensures { self.new ≡ self.old }
    {
        self.end.ends.close()
    }
}
