//! What a turn puts into the queues: the ticket of its slot, or the slot. What a queue refuses stays in hand.
ghost use Rattle.std.specs.Prelude.{◌≡◌, ◌<◌, nat_lt, length};
ghost use Rattle.claims.specs.Seats.{HoldsNot};
ghost use Rattle.shared.specs.{Acts.{AreMade, giving}, Outgoing.{tickets_out, Inserted, KeepsTicket}};
ghost use Rattle.token.specs.Names.{last_generation};
ghost use Rattle.turns.specs.{Shares.Passed, Turns.SlotGiven};
ghost use Rattle.shared.specs.Acts as act;

use crate::visit::Closed;
use queues::{Full, Ticket};
use shared::{Acts, Own};
use std::sync::Wait;
use token::MAX_GENERATION;

/// Puts the ticket of a slot that was released. If it were put before, another thread could take it, find the slot
/// held, and drop it. Some: the queue was full, and the ticket is in hand.
#[tactic(auto, using(shared::proofs::Outgoing::put_inserts, shared::proofs::Outgoing::refused_ticket))]
pub(crate) fn put_ticket<A: Acts, R: Wait>(
    rt: &R,
    acts: &mut A,
    own: &mut Own,
    ticket: Ticket,
) -> Option<Full<Ticket>>
    requires released { HoldsNot own.old.seat ticket.slot }
    requires room { length own.old.hand.tickets < own.old.hand.capacity }
    ensures made { A.made act.PutTicket ticket.slot acts.old acts.new }
    ensures passed { Passed result ticket own.old own.new }
    ensures seat { own.new.seat ≡ own.old.seat }
    ensures free { own.new.free ≡ own.old.free }

    // What follows from `passed`:
    ensures kept { KeepsTicket ticket own.new.ready.history own.new.hand }
    ensures tickets { Inserted ticket (tickets_out own.old) (tickets_out own.new) }
    ensures took { own.new.ready.history.taken ≡ own.old.ready.history.taken }
    ensures slots { own.new.hand.slots ≡ own.old.hand.slots }
{
    match acts.put_ticket(rt, &mut own.ready, ticket) {
        Ok(()) => None,
        Err(full) => {
            own.hand.keep_ticket(full.0);
            Some(full)
        }
    }
}

/// Gives back the slot of a connection that has ended, once it is retired, unless its generation is the last. If it
/// were given back before, its poller could find it held, and lose it.
pub(crate) fn give_back<A: Acts, R: Wait>(
    rt: &R,
    acts: &mut A,
    own: &mut Own,
    ticket: Ticket,
    closed: Closed,
)
    requires retired { HoldsNot own.old.seat ticket.slot }
    requires closed { closed.slot ≡ ticket.slot }
    requires room { length own.old.hand.slots < own.old.hand.capacity }
    ensures made { AreMade A.made ticket.slot (giving (nat_lt ticket.generation last_generation)) acts.old acts.new }
    ensures seat { own.new.seat ≡ own.old.seat }
    ensures given { SlotGiven ticket own.old own.new }
    ensures took { own.new.free.history.taken ≡ own.old.free.history.taken }
    ensures ready { own.new.ready ≡ own.old.ready }
    ensures tickets { own.new.hand.tickets ≡ own.old.hand.tickets }
{
    closed.spend();
    if ticket.generation >= MAX_GENERATION {
        return;
    }
    if let Err(full) = acts.give(rt, &mut own.free, ticket.slot) {
        own.hand.keep_slot(full.0);
    }
}
