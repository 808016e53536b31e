//! The steps of a worker's thread.
ghost use Rattle.std.specs.{Prelude.{◌≡◌, ◌<◌, [], IfErr, OnOk}, Arc.arc_value};
ghost use Rattle.claims.specs.Seats.{HoldsNothing};
ghost use Rattle.shared.specs.{Hands.HasRoom, Outgoing.outgoing, Posts.OnlyWorn};
ghost use Rattle.threads.specs.{Divided.ends_of, WorkerLoops.{Changes, GivesToOwner, OneRan, WorkerEnded, WorkerRan}, LoopEnds.IsTold};

use crate::context::{Context, Told};
use crate::ending::{Cleared, Ended, take};
use log::Log;
use queues::{FreeQueue, Full, Ticket};
use shared::{Clock, Front, Gate, Hand, Own, Shared, give_slots, put_tickets};
use sizes::ServerFault;
use std::sync::{Arc, Wait};
use std::{mem, thread};
use turns::{Worked, worker_turn};

/// A worker, and what its thread owns.
#[derive(Drop)]
pub struct Worker<F: Front> {
    pub shared: Arc<Shared<F>>,
    /// The thread's number. Of several faults the lowest number's is kept.
    pub number: usize,
    pub owned: Owned,
    pub ghost same: { owned.own.seat.table ≡ (arc_value shared).claims },
    pub ghost idle: { HoldsNothing owned.own.seat },
}

/// What a worker's thread owns.
#[derive(Drop)]
pub struct Owned {
    /// Between two turns its end of a free queue is the first poller's.
    pub own: Own,
    /// The worker's ends of the other pollers' free queues, in order.
    pub others: Vec<FreeQueue>,
}

impl<F: Front> Worker<F> {
    /// Makes its steps until one ends the thread: the queue of tickets is closed and empty, or there is a fault.
    pub fn run<'c, G: Gate, C: Clock, R: Wait + Log, S>(
        &mut self,
        context: &'c Context<'_, G, C, R, S>,
    ) -> Told<'c>
        ensures ran { WorkerEnded context.now.ending.now result.why self.old.owned self.new.owned }
        ensures told { IsTold context.now.ending.now self.old.number result.why result.recorded result.closed }
        ensures number { result.number ≡ self.old.number }
    {
        let number = self.number;
        for _turn in context.rt.forever() {
            if let Err(ended) = self.step(context) {
                return context.end(&self.shared, number, &mut self.owned.own.ready, ended);
            }
        }
        unreachable!()
    }

    /// One step of the thread: it puts the tickets in hand, which the queue refused before, takes a ticket, for which
    /// it may sleep, and runs its turn. Without room in hand it takes none. Refused if the thread ends: the queue of
    /// tickets is closed and empty; or a fault was recorded before the taking, or after it, which leaves the ticket in
    /// hand; or this step met a fault.
    fn step<G: Gate, C: Clock, R: Wait + Log, S>(
        &mut self,
        context: &Context<'_, G, C, R, S>,
    ) -> Result<(), Ended>
        ensures ran { OnOk result (WorkerRan [] [] self.old.owned self.new.owned) }
        ensures cut { IfErr result (λ ended. WorkerEnded context.now.ending.now ended.why self.old.owned self.new.owned) }
    {
        let seen = context.ending.look()?;
        let put = self.put_hand(context.rt);
        if !self.owned.own.hand.has_room() {
            thread::yield_now();
            return Ok(());
        }
        let ticket = take(context.rt, &mut self.owned.own, seen, put)?;
        match context.ending.look_after_take(ticket) {
            Ok(cleared) => match self.turn(context, cleared) {
                Ok(_) => Ok(()),
                Err(fault) => Err(Ended::met(fault)),
            },
            Err(ended) => {
                self.owned.own.hand.keep_ticket(ticket);
                Err(ended)
            }
        }
    }

    /// Puts the tickets that are in hand, until their queue is full.
    #[tactic(auto, using(crate::proofs::WorkerLoops::worker_none))]
    fn put_hand(&mut self, rt: &impl Wait) -> Result<(), Full<Ticket>>
        ensures ran { WorkerRan [] [] self.old.owned self.new.owned }
        ensures put { OnOk result (self.new.owned.own.hand.tickets ≡ []) }
    {
        put_tickets(rt, &mut self.owned.own.ready, &mut self.owned.own.hand)
    }

    /// Runs the ticket's turn. If the connection ends, its slot goes back to the slot's poller.
    fn turn<G: Gate, C: Clock, R: Wait + Log, S>(
        &mut self,
        context: &Context<'_, G, C, R, S>,
        cleared: Cleared,
    ) -> Result<Worked, ServerFault>
        requires { HasRoom self.old.owned.own.hand }
        ensures ran { OneRan cleared.ticket result self.old.owned self.new.owned }
        ensures worn { IfErr result (λ fault. OnlyWorn fault self.new.owned.own.seat) }
        ensures took { self.new.owned.own.ready.history.taken ≡ self.old.owned.own.ready.history.taken }
        ensures given { self.new.owned.own.hand.slots ≡ [] }
        ensures gives { cleared.ticket.slot < context.now.split.slots
            → GivesToOwner context.now.split cleared.ticket.slot (ends_of self.old.owned) (ends_of self.new.owned) }
    {
        let ticket = cleared.ticket;
        let poller = context.split.poller_of(ticket.slot);
        change_end(&mut self.owned.own.free, &mut self.owned.others, poller);
        let (_, worked) = worker_turn(
            context.rt,
            &mut (),
            &self.shared,
            &mut self.owned.own,
            context.gate,
            ticket,
            &context.timing,
        );
        give_until_empty(
            context.rt,
            &mut self.owned.own.free,
            &mut self.owned.own.hand,
        );
        change_end(&mut self.owned.own.free, &mut self.owned.others, poller);
        worked
    }
}

/// Swaps a worker's end of the first poller's queue with its end of this poller's, if it has one. A second call swaps
/// them back.
fn change_end(used: &mut FreeQueue, others: &mut Vec<FreeQueue>, poller: usize)
    ensures { Changes poller used.old used.new others.old.items others.new.items }
{
    if poller == 0 {
        return;
    }
    if let Some(other) = others.get_mut(poller - 1) {
        mem::swap(used, other);
    }
}

/// Gives slots back until none is in hand. The queue has room for all its slots, so this waits for nobody.
fn give_until_empty(rt: &impl Wait, free: &mut FreeQueue, hand: &mut Hand)
    ensures given { hand.new.slots ≡ [] }
    ensures slots { outgoing free.new.history hand.new.slots ≡ outgoing free.old.history hand.old.slots }
    ensures took { free.new.history.taken ≡ free.old.history.taken }
    ensures tickets { hand.new.tickets ≡ hand.old.tickets }
{
    for _try in rt.forever() {
        if hand.slots() == 0 {
            return;
        }
        let _ = give_slots(rt, free, hand);
    }
}
