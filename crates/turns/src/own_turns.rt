//! The turns that a poller's thread runs by itself, so that no worker has to be woken for them.
ghost use Rattle.std.specs.Prelude.{◌≡◌, ◌↔◌, ◌<◌, ◌∷◌, ◌++◌, [], length, min, slice_get, Ok, Some, None, IfErr, IfSome, IsSome, false, true};
ghost use Rattle.claims.specs.Seats.{HoldsNothing};
ghost use Rattle.engine.specs.Turns.{IsServed};
ghost use Rattle.shared.specs.{Heavy.looked_at, Posts.{AtRest, OnlyWorn}};
ghost use Rattle.sizes.specs.Limits.{first_light, own_budget};
ghost use Rattle.turns.specs.{Shares.{IsLight, Stays, TicketsShared}, Turns.{marks_after, Handling, NoOwnTurn, OwnTurn, PlaysAt}};

use crate::giving::put_ticket;
use crate::worker::{Worked, turn_of};
use log::Log;
use queues::{AllBusy, Full, ReadyQueue, Ticket};
use shared::{Clock, Front, Gated, Hand, HeavyMarks, Own, Shared, Timing};
use sizes::{FIRST_LIGHT, OWN_BUDGET, ServerFault};
use std::sync::Wait;

/// Why a light ticket stays in hand.
#[derive(Drop)]
enum Stay {
    /// Fewer than 16 have stayed.
    Early,
    /// Workers run no light tickets.
    Alone,
    /// No worker sleeps, to run it at once.
    Busy(AllBusy),
}

/// Puts the tickets in hand that the poller's thread leaves to the workers. These are the heavy tickets. If workers run
/// light tickets, too, the light ones after the first 16 are also put, once a worker's end of the ready queue is found
/// asleep: while none sleeps, all workers may be at work on much larger turns. All other tickets stay in hand, in
/// order, and so do those that the queue refuses. Some: the queue was full.
pub fn share_tickets<R: Wait>(
    rt: &R,
    shares_light: bool,
    own: &mut Own,
    heavy: &mut HeavyMarks,
) -> Option<Full<Ticket>>
    requires idle { HoldsNothing own.old.seat }
    ensures shared { TicketsShared result heavy.old heavy.new own.old own.new }
{
    let mut full = None;
    let mut kept = 0;
    let mut asleep = false;
    for _ticket in 0..own.hand.tickets() {
        let Some(ticket) = own.hand.take_ticket() else {
            return full;
        };
        if let Some(stay) = stays(&own.ready, shares_light, heavy, ticket, kept, &mut asleep) {
            keep(&mut own.hand, ticket, kept, shares_light, stay);
            kept += 1;
        } else {
            full = put_ticket(rt, &mut (), own, ticket).or(full);
        }
    }
    full
}

/// Why a ticket stays in hand. None: it is put. `kept` tickets have stayed before it. `asleep`: an end of the queue was
/// found asleep. That end runs the next tickets, too: a wake for each would cost more than their turns.
fn stays(
    ready: &ReadyQueue,
    shares_light: bool,
    heavy: &mut HeavyMarks,
    ticket: Ticket,
    kept: usize,
    asleep: &mut bool,
) -> Option<Stay>
    ensures light { IsSome result → IsLight heavy.old ticket }
    ensures stays { Stays kept heavy.old ticket → IsSome result }
    ensures early { result ≡ Some Stay.Early → kept < first_light }
    ensures alone { result ≡ Some Stay.Alone → shares_light ≡ false }
    ensures marks { heavy.new ≡ looked_at ticket.slot heavy.old }
{
    if !heavy.is_light(ticket.slot) {
        return None;
    }
    if kept < FIRST_LIGHT {
        return Some(Stay::Early);
    }
    if !shares_light {
        return Some(Stay::Alone);
    }
    if *asleep {
        return None;
    }
    let busy = ready.all_busy();
    *asleep = busy.is_none();
    busy.map(Stay::Busy)
}

/// Keeps a ticket in hand. `_kept` tickets have stayed before it.
fn keep(hand: &mut Hand, ticket: Ticket, _kept: usize, _shares_light: bool, _stay: Stay)
    requires room { length hand.old.tickets < hand.old.capacity }
    requires early { _stay ≡ Stay.Early → _kept < first_light }
    requires alone { _stay ≡ Stay.Alone → _shares_light ≡ false }
    ensures kept { hand.new ≡ record hand.old { tickets = hand.old.tickets ++ ticket ∷ [] } }
{
    hand.keep_ticket(ticket);
}

/// Runs the turn of the oldest ticket in hand, with at most 8 calls. If the connection spends them, its slot's next
/// tickets are for the workers. None if no ticket is in hand, or there is no room for a slot: then nothing changes. The
/// only refusal is `Worn`, as for a worker's turn.
///
/// If a connection ends, nobody has to be woken: the next round looks for a free slot before it waits, if a client may
/// be waiting. If `is_closing`, the poller may open no more connections: then that round does not wait, so that the
/// poller's end is found at once.
pub fn own_turn<F: Front, A: Gated<F, G>, G, C: Clock, R: Wait + Log>(
    rt: &R,
    acts: &mut A,
    shared: &Shared<F, A>,
    own: &mut Own,
    gate: &G,
    heavy: &mut HeavyMarks,
    is_closing: bool,
    timing: &Timing<'_, C>,
) -> Result<Option<Worked>, ServerFault>
    requires rest { AtRest shared.now.claims own.old }
    ensures rest { AtRest shared.now.claims own.new }
    ensures none { result ≡ Ok None ↔ NoOwnTurn own.old }
    ensures turn { OwnTurn (Handling A.found A.played A.moved A.made)
        (PlaysAt (IsServed F.Client.told F.Client.does) (IsServed F.Target.told F.Target.does)
        (C.tells timing.now.clock.now) (min shared.now.budget own_budget) timing.now.limit)
        shared.now.claims.words result own.old own.new acts.old acts.new }
    ensures marks { heavy.new ≡ marks_after (slice_get own.old.hand.tickets 0) result heavy.old }
    ensures worn { IfErr result (λ fault. OnlyWorn fault own.new.seat) }
    ensures woken { result ≡ Ok (Some Worked.Ended) → is_closing ≡ true
        → IfSome (slice_get own.old.hand.tickets 0) (λ ticket. F.woke shared.now.waker ticket.slot) }
{
    if !own.hand.has_slot_room() {
        return Ok(None);
    }
    let Some(ticket) = own.hand.take_ticket() else {
        return Ok(None);
    };
    // Other connections' reports wait no longer than these calls.
    let budget = shared.budget.min(OWN_BUDGET);
    match turn_of(rt, acts, shared, own, gate, ticket, budget, timing) {
        Some(worked) => {
            follow_up(shared, heavy, is_closing, ticket, worked);
            Ok(Some(worked))
        }
        None => Err(ServerFault::Worn),
    }
}

fn follow_up<F: Front, A>(
    shared: &Shared<F, A>,
    heavy: &mut HeavyMarks,
    is_closing: bool,
    ticket: Ticket,
    worked: Worked,
)
    ensures marks { heavy.new ≡ marks_after (Some ticket) (Ok (Some worked)) heavy.old }
    ensures woken { worked ≡ Worked.Ended → is_closing ≡ true → F.woke shared.now.waker ticket.slot }
{
    if worked == Worked::Again {
        heavy.mark(ticket.slot);
    }
    if worked == Worked::Ended && is_closing {
        F::wake(&shared.waker, ticket.slot);
    }
}
