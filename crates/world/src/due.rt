// What could move, and what is due to be tried.
#![tactic(auto, using(std::proofs::lemmas::Option::gets, std::proofs::lemmas::Grind::common_steps))]

ghost use Rattle.std.specs.{Prelude.◌≡◌, List.list_any, Option.option_copied};
ghost use Rattle.relay_core.specs.{Pairs.stream_of, Order.{is_waiting, is_drained}};
ghost use Rattle.world.specs.Due.{gives, takes, has_place, flows, may_move, is_report, is_ticket, tries, has_ticket, is_reported, is_ticketed, movable, due};

use crate::actors::{Doing, Holder, Ticket};
use crate::connection::Connection;
use crate::worker::Worker;
use crate::working::is_live;
use crate::world::World;
use kernel_model::{Kernel, Open};
use relay_core::Pair;
use token::{Direction, Name};

impl World {
    /// Whether the connection in a slot could move: it is done or failed, and not closed; or in one direction bytes or
    /// an end of input could come in, bytes could go out, or the end could be passed on. False without a connection.
    pub fn movable(&self, slot: usize) -> bool
        ensures { result ≡ movable self.now slot }
    {
        match self.connection(slot) {
            Some(connection) => moves(self.limits.ring, &self.kernel, connection),
            None => false,
        }
    }

    /// Whether the connection in a slot is due to be tried: a report of it is queued or in the batch, a ticket for it
    /// is in the ready queue or with the poller or a worker, or a worker holds the slot. False without a connection.
    pub fn due(&self, slot: usize) -> bool
        ensures { result ≡ due self.now slot }
    {
        let Some(connection) = self.connection(slot) else {
            return false;
        };
        let generation = connection.pair.generation();
        matches!(self.slots[slot].holder, Holder::By(_))
            || self.is_reported(slot, generation)
            || self.is_ticketed(slot, generation)
    }

    fn is_reported(&self, slot: usize, generation: u64) -> bool
        ensures { result ≡ is_reported self.now slot generation }
    {
        any_report(self.kernel.queue(), slot, generation)
            || any_report(self.batch.as_slice(), slot, generation)
    }

    fn is_ticketed(&self, slot: usize, generation: u64) -> bool
        ensures { result ≡ is_ticketed self.now slot generation }
    {
        any_ticket(self.ready.as_slice(), slot, generation)
            || any_ticket(self.hand.as_slice(), slot, generation)
            || any_with_ticket(self.workers.as_slice(), slot, generation)
    }
}

fn gives(registered: Option<&Open>) -> bool
    ensures { result ≡ gives (option_copied registered.entry) }
{
    match registered {
        Some(open) => open.socket.is_readable(),
        None => false,
    }
}

fn takes(registered: Option<&Open>) -> bool
    ensures { result ≡ takes (option_copied registered.entry) }
{
    match registered {
        Some(open) => open.socket.is_writable(),
        None => false,
    }
}

fn flows(ring: usize, kernel: &Kernel, connection: &Connection, direction: Direction) -> bool
    ensures { result ≡ flows ring kernel.now connection.now direction }
{
    let pair = &connection.pair;
    let destination = direction.destination();
    let taking = takes(kernel.end(connection.descriptor(destination)));
    (has_place(ring, pair, direction)
        && gives(kernel.end(connection.descriptor(direction.source()))))
        || (is_waiting(pair, direction) && taking)
        || (is_drained(pair, direction) && (pair.joined(destination) || taking))
}

fn moves(ring: usize, kernel: &Kernel, connection: &Connection) -> bool
    ensures { result ≡ may_move ring kernel.now connection.now }
{
    !is_live(connection.pair.verdict())
        || flows(ring, kernel, connection, Direction::Up)
        || flows(ring, kernel, connection, Direction::Down)
}

fn has_place(ring: usize, pair: &Pair, direction: Direction) -> bool
    ensures { result ≡ has_place ring (stream_of pair.now direction) }
{
    !pair.end_seen(direction) && pair.ring_len(direction) < ring
}

fn is_waiting(pair: &Pair, direction: Direction) -> bool
    ensures { result ≡ is_waiting (stream_of pair.now direction) }
{
    pair.lead_len(direction) > 0 || pair.ring_len(direction) > 0
}

fn is_drained(pair: &Pair, direction: Direction) -> bool
    ensures { result ≡ is_drained (stream_of pair.now direction) }
{
    pair.end_seen(direction) && !is_waiting(pair, direction) && !pair.is_shut(direction)
}

fn is_report(name: &Name, slot: usize, generation: u64) -> bool
    ensures { result ≡ is_report slot generation name.now }
{
    match name {
        Name::Listener | Name::Waker => false,
        Name::End(token) => token.slot() == slot && token.generation() == generation,
    }
}

fn any_report(names: &[Name], slot: usize, generation: u64) -> bool
    ensures { result ≡ list_any (is_report slot generation) names.now }
{
    names.iter().any(|name| is_report(name, slot, generation))
}

fn is_ticket(ticket: Ticket, slot: usize, generation: u64) -> bool
    ensures { result ≡ is_ticket slot generation ticket }
{
    ticket.slot == slot && ticket.generation == generation
}

fn any_ticket(tickets: &[Ticket], slot: usize, generation: u64) -> bool
    ensures { result ≡ list_any (is_ticket slot generation) tickets.now }
{
    tickets
        .iter()
        .any(|ticket| is_ticket(*ticket, slot, generation))
}

fn has_ticket(worker: &Worker, slot: usize, generation: u64) -> bool
    ensures { result ≡ has_ticket slot generation worker.now }
{
    let tries = match worker.doing() {
        Doing::Tries(ticket) => is_ticket(ticket, slot, generation),
        Doing::Idle | Doing::Holds(_, _) | Doing::Closed(_) | Doing::Retired(_) => false,
    };
    tries || any_ticket(worker.hand(), slot, generation)
}

fn any_with_ticket(workers: &[Worker], slot: usize, generation: u64) -> bool
    ensures { result ≡ list_any (has_ticket slot generation) workers.now }
{
    workers
        .iter()
        .any(|worker| has_ticket(worker, slot, generation))
}
