//! One turn of a worker.
ghost use Rattle.std.specs.{Prelude.{◌≡◌, ◌<◌, ◌≤◌, true, false, Some, Ok, IfErr, IfNone, IfSome}, Option.ok_or};
ghost use Rattle.engine.specs.Turns.{IsServed};
ghost use Rattle.shared.specs.{declared.places.Berth.Berth, Hands.HasRoom, Outgoing.KeepsSlot, Posts.{AtRest, IsWorn, OnlyWorn}};
ghost use Rattle.token.specs.Names.{last_generation};
ghost use Rattle.turns.specs.Turns.{AtWork, Handled, Handling, LeftSlot, Plays, PlaysAt, RunRest, TurnInOrder, TurnRest, WorkerTurn, ticket_of};

use crate::giving::{give_back, put_ticket};
use crate::visit::{Back, Terms, Visit, put_in, take_out};
use claims::{Claimed, Posted, Released};
use engine::Turn;
use log::Log;
use queues::{Full, Ticket};
use relay_log::log_end;
use shared::{Clock, Front, Gated, Moves, Own, Shared, Timing, give_slots, put_tickets};
use sizes::ServerFault;
use std::sync::Wait;

/// The outcome of a worker's turn.
#[derive(Clone, Copy, PartialEq, Eq)]
pub enum Worked {
    /// The slot was held or free, so its connection was left alone. The ticket is dropped.
    Busy,
    /// There is no such slot, and nothing was done; or the ticket's connection was not in it, and then the slot's notes
    /// were thrown away, another connection was put back as it was, and the slot was released.
    Gone,
    /// The connection is done or has failed. Its sockets are closed, and its slot is free, if it has a next generation.
    Ended,
    /// The budget is spent, and the connection is due again.
    Again,
    /// No call is worth trying before the next report.
    Quiet,
}

/// What became of what was in hand before a worker's turn. Where it shows no full queue, nothing was left.
#[derive(Drop)]
pub struct HandPut {
    pub tickets: Result<(), Full<Ticket>>,
    pub slots: Result<(), Full<usize>>,
}

/// Runs one turn of the connection that a ticket names.
///
/// What is in hand is put first: the tickets into the ready queue, then the slots into `own.free`, until none of its
/// kind is left or its queue refuses one. Then the slot is claimed, the connection is taken out of its place, its notes
/// are taken, which raise its flags, and it makes its calls on its two wires, `budget` at most, between the gate's two
/// calls. A connection that is done or failed is logged and closed, its slot is put into `own.free` unless its
/// generation is the last one, and the poller is woken. So `own.free` has to be an end of the queue of the slot's
/// poller, for which no clause asks. Any other connection is put back, settled first if it has no call to make; with
/// its budget spent a note is posted; and the slot is released. If the release finds notes, this same ticket is put
/// again, also after `Gone`. What a queue refuses stays in hand, and may fill up its room. The turn is counted in
/// `shared.statistics`.
///
/// A connection fails if it is left without a call and, by the turn's second, has moved nothing for the idle limit.
///
/// The only refusal is `Worn`, in place of `Again`: the seat had posted 2^56 times before, so no note was posted. The
/// slot is released then, too. The acts, but those that put what is in hand, are made by `acts`; the server's is `()`.
#[tactic(auto, using(crate::proofs::Turns::given_if_ended))]
pub fn worker_turn<F: Front, A: Gated<F, G>, G, C: Clock, R: Wait + Log>(
    rt: &R,
    acts: &mut A,
    shared: &Shared<F, A>,
    own: &mut Own,
    gate: &G,
    ticket: Ticket,
    timing: &Timing<'_, C>,
) -> (HandPut, Result<Worked, ServerFault>)
    requires rest { AtRest shared.now.claims own.old }
    requires room { HasRoom own.old.hand }
    ensures rest { AtRest shared.now.claims own.new }
    ensures made { WorkerTurn (Handling A.found A.played A.moved A.made)
        (PlaysAt (IsServed F.Client.told F.Client.does) (IsServed F.Target.told F.Target.does)
        (C.tells timing.now.clock.now) shared.now.budget timing.now.limit)
        shared.now.claims.words ticket result.0 result.1 own.old own.new acts.old acts.new }
    ensures worn { IfErr result.1 (λ fault. OnlyWorn fault own.new.seat) }
    ensures woken { result.1 ≡ Ok Worked.Ended → F.woke shared.now.waker ticket.slot }
{
    let tickets = put_tickets(rt, &mut own.ready, &mut own.hand);
    let slots = give_slots(rt, &mut own.free, &mut own.hand);
    let turn = turn_of(rt, acts, shared, own, gate, ticket, shared.budget, timing);
    wake_if_ended(shared, own, ticket, turn);
    (HandPut { tickets, slots }, turn.ok_or(ServerFault::Worn))
}

/// A turn alone: nothing in hand is put before it, and nobody is woken after it. None: the seat had posted 2^56 times
/// before, so its post was refused.
pub(crate) fn turn_of<F: Front, A: Gated<F, G>, G, C: Clock, R: Wait + Log>(
    rt: &R,
    acts: &mut A,
    shared: &Shared<F, A>,
    own: &mut Own,
    gate: &G,
    ticket: Ticket,
    budget: usize,
    timing: &Timing<'_, C>,
) -> Option<Worked>
    requires rest { AtRest shared.now.claims own.old }
    requires room { HasRoom own.old.hand }
    requires budget { (1 ≤ budget) × (budget ≤ 1024) }
    ensures rest { AtRest shared.now.claims own.new }
    ensures made { TurnInOrder (Handling A.found A.played A.moved A.made)
        (PlaysAt (IsServed F.Client.told F.Client.does) (IsServed F.Target.told F.Target.does)
        (C.tells timing.now.clock.now) budget timing.now.limit)
        shared.now.claims.words ticket (ok_or result ServerFault.Worn) own.old own.new acts.old acts.new }
    ensures worn { IfNone result (IsWorn own.new.seat) }
{
    let moment = timing.moment();
    if ticket.slot >= shared.claims.slots() {
        return Some(Worked::Gone);
    }
    match acts.claim(&shared.claims, &mut own.seat, ticket.slot) {
        Claimed::Busy => Some(Worked::Busy),
        Claimed::Held => match take_out(rt, acts, shared, own, ticket) {
            Ok(visit) if visit.found() == ticket => {
                let terms = Terms { budget, moment };
                run(rt, acts, shared, own, gate, visit, terms)
            }
            Ok(other) => {
                let back = put_in(rt, acts, shared, own, other);
                give_up(rt, acts, shared, own, ticket, back);
                Some(Worked::Gone)
            }
            Err(back) => {
                give_up(rt, acts, shared, own, ticket, back);
                Some(Worked::Gone)
            }
        },
    }
}

/// Throws the notes away and releases a slot without the ticket's connection.
fn give_up<F: Front, A: Moves<F>, R: Wait>(
    rt: &R,
    acts: &mut A,
    shared: &Shared<F, A>,
    own: &mut Own,
    ticket: Ticket,
    back: Back,
)
    requires work { AtWork shared.now.claims ticket.slot own.old }
    requires back { back.slot ≡ ticket.slot }
    ensures done { (h : Handled F.Client F.Target) → TurnRest (Handling A.found A.played A.moved A.made h)
        ticket (Ok Worked.Gone) false 1 2 own.old own.new acts.old acts.new }
{
    acts.discard(&shared.claims, &mut own.seat, ticket.slot);
    leave(rt, acts, shared, own, ticket, back);
}

/// Runs the ticket's own connection, and then ends it or puts it back.
#[tactic(auto, using(crate::proofs::Turns::still_at_work))]
fn run<F: Front, A: Gated<F, G>, G, R: Wait + Log>(
    rt: &R,
    acts: &mut A,
    shared: &Shared<F, A>,
    own: &mut Own,
    gate: &G,
    mut visit: Visit<F>,
    terms: Terms,
) -> Option<Worked>
    requires work { AtWork shared.now.claims visit.ticket.slot own.old }
    requires own { ticket_of visit.berth.value.pair ≡ visit.ticket }
    ensures done { RunRest (Handling A.found A.played A.moved A.made)
        (Plays (IsServed F.Client.told F.Client.does) (IsServed F.Target.told F.Target.does)
        terms.budget terms.moment.second terms.moment.limit)
        visit.ticket visit.berth.value (ok_or result ServerFault.Worn) own.old own.new acts.old acts.new }
{
    let turn = visit.play(acts, shared, &mut own.seat, gate, terms, &mut own.buffer);
    match turn {
        Turn::Done | Turn::Failed => {
            visit.log_gone(rt, shared.clients, terms.moment.second);
            end(rt, acts, shared, own, visit);
            Some(Worked::Ended)
        }
        Turn::Again => again(rt, acts, shared, own, visit),
        Turn::Quiet => {
            rest(rt, acts, shared, own, visit);
            Some(Worked::Quiet)
        }
    }
}

/// Puts back a connection that has spent its budget, and keeps it due: it posts a note, and releases the slot. The post
/// of a holder never answers Wake: the release does.
#[tactic(auto, using(crate::proofs::Turns::still_at_work, shared::proofs::Holding::holds_behind_post, claims::proofs::Seats::only_at_post))]
fn again<F: Front, A: Moves<F>, R: Wait>(
    rt: &R,
    acts: &mut A,
    shared: &Shared<F, A>,
    own: &mut Own,
    visit: Visit<F>,
) -> Option<Worked>
    requires work { AtWork shared.now.claims visit.ticket.slot own.old }
    ensures due { IfSome result (λ worked. worked ≡ Worked.Again) }
    ensures done { (h : Handled F.Client F.Target) → h.left ≡ Some visit.berth.value
        → TurnRest (Handling A.found A.played A.moved A.made h)
        visit.ticket (ok_or result ServerFault.Worn) true 2 4 own.old own.new acts.old acts.new }
{
    let ticket = visit.ticket;
    let back = put_in(rt, acts, shared, own, visit);
    let posted = acts.post(&shared.claims, &mut own.seat, ticket.slot);
    leave(rt, acts, shared, own, ticket, back);
    match posted {
        Posted::Worn => None,
        Posted::Wake | Posted::Quiet => Some(Worked::Again),
    }
}

/// Puts back a connection that has no call worth trying, once its sockets have sent what they held back.
fn rest<F: Front, A: Moves<F>, R: Wait>(
    rt: &R,
    acts: &mut A,
    shared: &Shared<F, A>,
    own: &mut Own,
    mut visit: Visit<F>,
)
    requires work { AtWork shared.now.claims visit.ticket.slot own.old }
    ensures done { (left : Berth F.Client F.Target) × F.Client.settled left.client × F.Target.settled left.target
        × (left.pair ≡ visit.berth.value.pair)
        × ((h : Handled F.Client F.Target) → h.settled ≡ Some (visit.berth.value, left) → h.left ≡ Some left
        → TurnRest (Handling A.found A.played A.moved A.made h)
        visit.ticket (Ok Worked.Quiet) true 2 4 own.old own.new acts.old acts.new) }
{
    visit.settle(acts);
    let ticket = visit.ticket;
    let back = put_in(rt, acts, shared, own, visit);
    leave(rt, acts, shared, own, ticket, back);
}

/// Releases a slot, and puts a ticket if notes wait.
fn leave<F: Front, A: Moves<F>, R: Wait>(
    rt: &R,
    acts: &mut A,
    shared: &Shared<F, A>,
    own: &mut Own,
    ticket: Ticket,
    back: Back,
)
    requires work { AtWork shared.now.claims ticket.slot own.old }
    requires back { back.slot ≡ ticket.slot }
    ensures left { (h : Handled F.Client F.Target) → LeftSlot (Handling A.found A.played A.moved A.made h)
        ticket own.old own.new acts.old acts.new }
{
    back.spend();
    match acts.release(&shared.claims, &mut own.seat, ticket.slot) {
        Released::Wake => drop(put_ticket(rt, acts, own, ticket)),
        Released::Quiet => {}
    }
}

fn end<F: Front, A: Moves<F>, R: Wait + Log>(
    rt: &R,
    acts: &mut A,
    shared: &Shared<F, A>,
    own: &mut Own,
    visit: Visit<F>,
)
    requires work { AtWork shared.now.claims visit.ticket.slot own.old }
    ensures done { (h : Handled F.Client F.Target) → h.left ≡ Some visit.berth.value
        → TurnRest (Handling A.found A.played A.moved A.made h)
        visit.ticket (Ok Worked.Ended) true 2 4 own.old own.new acts.old acts.new }
{
    let ticket = visit.ticket;
    log_end(rt, visit.pair());
    let closed = visit.close(acts, shared);
    acts.retire(&shared.claims, &mut own.seat, ticket.slot);
    give_back(rt, acts, own, ticket, closed);
}

/// If the connection has ended, wakes the poller, which may wait for the slot. If it were woken before the slot is
/// given back, it could wait on.
fn wake_if_ended<F: Front, A>(
    shared: &Shared<F, A>,
    _own: &Own,
    ticket: Ticket,
    turn: Option<Worked>,
)
    requires given { turn ≡ Some Worked.Ended → ticket.generation < last_generation
        → KeepsSlot ticket.slot _own.now.free.history _own.now.hand }
    ensures woken { turn ≡ Some Worked.Ended → F.woke shared.now.waker ticket.slot }
{
    if turn == Some(Worked::Ended) {
        F::wake(&shared.waker, ticket.slot);
    }
}
