use crate::front::{Front, Opened, Settle, Unopened};
use crate::lent::Gate;
use crate::places::{Berth, Occupied, Places};
use crate::shared::Shared;
use claims::{Adopted, ClaimSeat, Claimed, Claims, Posted, Released};
use engine::{Moment, Turn, turn_with};
use log::Log;
use queues::{FreeQueue, Full, ReadyQueue, Ticket};
use relay_core::MAX_READ;
use statistics::Event;
use std::sync::Wait;
use token::Token;

/// The acts of a thread at a slot's word, and those that hand on the slot or its ticket. Each act but `enter` is one
/// call on what all threads share. Turns, rounds and openings are generic over this trait, so that their clauses can
/// say which acts they make, in which order: a proof has `made ..` only from a call. The server's `()` makes each act
/// and nothing else.
pub trait Acts {
    ghost use Rattle.std.specs.Prelude.{◌≡◌, ◌↔◌, ◌<◌, ℕ, [], ◌∷◌, length, slice_set, IfErr, OnOk, OnErr};
    ghost use Rattle.claims.specs.{Seats.{Holds, Adds}, Calls.{PostChange, ClaimChange, ReleaseChange, AdoptChange}};
    ghost use Rattle.shared.specs.Posts.{IsWorn};
    ghost use Rattle.queues.specs.Steps.{IsStill, PutOne};
    ghost use Rattle.claims.specs.declared.view.Exchange.TheVariants as exchange;
    ghost use Rattle.shared.specs.Acts as act;

    // An act was made at a slot.
    ghost made: { act.Act → ℕ → Self → Self → Type 0 };

    /// [`Claims::claim`].
    fn claim(&mut self, claims: &Claims, seat: &mut ClaimSeat, slot: usize) -> Claimed
        requires same { seat.old.table ≡ claims.now }
        requires inside { slot < claims.now.words }
        ensures made { made act.Claim slot self.old self.new }
        ensures change { ClaimChange slot seat.old result seat.new };

    /// [`Claims::take`].
    fn take(&mut self, claims: &Claims, seat: &mut ClaimSeat, slot: usize) -> u64
        requires same { seat.old.table ≡ claims.now }
        requires inside { slot < claims.now.words }
        requires holder { Holds seat.old slot }
        ensures made { made act.TakeNotes slot self.old self.new }
        ensures change { Adds slot (exchange.Take result ∷ []) seat.old seat.new };

    /// [`Claims::take`]: the notes are thrown away.
    fn discard(&mut self, claims: &Claims, seat: &mut ClaimSeat, slot: usize) -> u64
        requires same { seat.old.table ≡ claims.now }
        requires inside { slot < claims.now.words }
        requires holder { Holds seat.old slot }
        ensures made { made act.Discard slot self.old self.new }
        ensures change { Adds slot (exchange.Take result ∷ []) seat.old seat.new };

    /// [`Claims::post`]. A post that finds the seat worn makes no exchange.
    fn post(&mut self, claims: &Claims, seat: &mut ClaimSeat, slot: usize) -> Posted
        requires same { seat.old.table ≡ claims.now }
        requires inside { slot < claims.now.words }
        ensures made { made act.Post slot self.old self.new }
        ensures change { PostChange slot seat.old result seat.new }
        ensures worn { result ≡ Posted.Worn ↔ IsWorn seat.old };

    /// [`Claims::release`].
    fn release(&mut self, claims: &Claims, seat: &mut ClaimSeat, slot: usize) -> Released
        requires same { seat.old.table ≡ claims.now }
        requires inside { slot < claims.now.words }
        requires holder { Holds seat.old slot }
        ensures made { made act.Release slot self.old self.new }
        ensures change { ReleaseChange slot seat.old result seat.new };

    /// [`Claims::retire`].
    fn retire(&mut self, claims: &Claims, seat: &mut ClaimSeat, slot: usize)
        requires same { seat.old.table ≡ claims.now }
        requires inside { slot < claims.now.words }
        requires holder { Holds seat.old slot }
        ensures made { made act.Retire slot self.old self.new }
        ensures change { Adds slot (exchange.Retire ∷ []) seat.old seat.new };

    /// [`Claims::adopt`].
    fn adopt(&mut self, claims: &Claims, seat: &mut ClaimSeat, slot: usize) -> Adopted
        requires same { seat.old.table ≡ claims.now }
        requires inside { slot < claims.now.words }
        ensures made { made act.Adopt slot self.old self.new }
        ensures change { AdoptChange slot seat.old result seat.new };

    /// Writes the ticket's generation into a poller's own table.
    fn enter(&mut self, table: &mut Vec<u64>, ticket: Ticket)
        requires inside { ticket.slot < length table.old.items }
        ensures made { made act.Enter ticket.slot self.old self.new }
        ensures entered { table.new.items ≡ slice_set table.old.items ticket.slot ticket.generation };

    /// [`ReadyQueue::put`].
    fn put_ticket<R: Wait>(
        &mut self,
        rt: &R,
        ready: &mut ReadyQueue,
        ticket: Ticket,
    ) -> Result<(), Full<Ticket>>
        ensures made { made act.PutTicket ticket.slot self.old self.new }
        ensures put { OnOk result (PutOne ready.old.history ticket ready.new.history) }
        ensures given_back { IfErr result (λ full. full.0 ≡ ticket) }
        ensures unchanged { OnErr result (ready.new ≡ ready.old) }
        ensures same { IsStill ready.old ready.new };

    /// [`FreeQueue::give`].
    fn give<R: Wait>(
        &mut self,
        rt: &R,
        free: &mut FreeQueue,
        slot: usize,
    ) -> Result<(), Full<usize>>
        ensures made { made act.Give slot self.old self.new }
        ensures put { OnOk result (PutOne free.old.history slot free.new.history) }
        ensures given_back { IfErr result (λ full. full.0 ≡ slot) }
        ensures unchanged { OnErr result (free.new ≡ free.old) }
        ensures capacity { free.new.capacity ≡ free.old.capacity };
}

/// The acts of a thread with a slot's connection.
pub trait Moves<F: Front>: Acts {
    ghost use Rattle.std.specs.Prelude.{◌≡◌, ◌<◌, ◌≤◌, ℕ, Option, Some, None, IfSome, IsNone, IfOk, IfErr, OnOk, OnErr};
    ghost use Rattle.claims.specs.Seats.{Holds};
    ghost use Rattle.statistics.specs.declared.event.Event.{Event};
    ghost use Rattle.shared.specs.declared.places.Berth.{Berth};
    ghost use Rattle.queues.specs.declared.ticket.Ticket.{Ticket};
    ghost use Rattle.token.specs.declared.side.Side.TheVariants as side;
    ghost use Rattle.shared.specs.Acts as act;

    // The last act registered the sockets of this connection, each under the name of its end.
    ghost named: { Ticket → Self → Type 0 };

    // The last act registered the first client's socket, which it made the second, and that of this target.
    ghost registered: { F.Client → F.Client → F.Target → Self → Type 0 };

    // The last act took this connection out of its place, or found none there.
    ghost found: { Option (Berth F.Client F.Target) → Self → Type 0 };

    // The last act had the sockets of a connection do something. What it was, and what it has become.
    ghost played: { Berth F.Client F.Target → Berth F.Client F.Target → Self → Type 0 };

    // The last act put this connection into its place, or closed it.
    ghost moved: { Berth F.Client F.Target → Self → Type 0 };

    // This event was counted at a slot.
    ghost counted: { ℕ → Event → Self → Type 0 };

    /// [`Front::open`]. If the front refuses, no act is made.
    fn register<N: Log>(
        &mut self,
        rt: &N,
        front: &mut F,
        client: &mut F::Client,
        client_token: Token,
        target_token: Token,
    ) -> Result<Opened<F::Target>, Unopened>
        requires client { client_token.side ≡ side.Client }
        requires target { target_token ≡ record client_token { side = side.Target } }
        ensures made { OnOk result (Self.made act.Register client_token.slot self.old self.new) }
        ensures named { OnOk result (named (record { slot = client_token.slot; generation = client_token.generation }) self.new) }
        ensures registered { IfOk result (λ opened. registered client.old client.new opened.target self.new) }
        ensures none { OnErr result (self.new ≡ self.old) }
        ensures dialled { IfOk result (λ opened. F.dialled (F.seen front.old).target opened.target) }
        ensures told { IfOk result (λ opened. F.may_tell client.old opened.route) }
        ensures refused { IfErr result (λ why. F.may_refuse client.old why) }
        ensures seen { F.seen front.new ≡ F.seen front.old };

    /// [`Places::take_out`].
    fn take_out<R: Wait>(
        &mut self,
        rt: &R,
        places: &Places<F::Client, F::Target, Self>,
        seat: &ClaimSeat,
        slot: usize,
    ) -> Option<Box<Berth<F::Client, F::Target>>>
        requires inside { slot < places.now }
        requires holder { Holds seat.now slot }
        ensures made { Self.made act.TakeOut slot self.old self.new }
        ensures found { IfSome result (λ berth. found (Some berth.value) self.new) }
        ensures empty { IsNone result → found None self.new };

    /// [`Places::put_in`].
    fn put_in<R: Wait>(
        &mut self,
        rt: &R,
        places: &Places<F::Client, F::Target, Self>,
        seat: &ClaimSeat,
        slot: usize,
        berth: Box<Berth<F::Client, F::Target>>,
    ) -> Result<(), Occupied<Box<Berth<F::Client, F::Target>>>>
        requires inside { slot < places.now }
        requires holder { Holds seat.now slot }
        ensures made { Self.made act.PutIn slot self.old self.new }
        ensures moved { moved berth.value self.new };

    /// [`Settle::settle`] of both sockets of a slot's connection.
    fn settle(&mut self, slot: usize, berth: &mut Berth<F::Client, F::Target>)
        ensures made { Self.made act.Settle slot self.old self.new }
        ensures played { played berth.old berth.new self.new }
        ensures pair { berth.new.pair ≡ berth.old.pair }
        ensures client { F.Client.settled berth.new.client }
        ensures target { F.Target.settled berth.new.target };

    /// Closes both sockets of a slot's connection.
    fn close(&mut self, slot: usize, berth: Box<Berth<F::Client, F::Target>>)
        ensures made { Self.made act.Close slot self.old self.new }
        ensures moved { moved berth.value self.new };

    /// [`Shared::count`].
    fn count(&self, shared: &Shared<F, Self>, slot: usize, event: Event)
        ensures { counted slot event self.now };
}

/// The act of a turn that its gate hears of. Code over any acts does not know that `G` is a [`Gate`], so it tells the
/// gate nothing but by this act.
pub trait Gated<F: Front, G>: Moves<F> {
    ghost use Rattle.std.specs.Prelude.{◌≡◌, ◌≤◌, ℕ};
    ghost use Rattle.engine.specs.Turns.{outcome_of, IsServed, IsTurn};
    ghost use Rattle.relay_core.specs.Pairs.{PairState};
    ghost use Rattle.shared.specs.Acts as act;

    // The gate heard that a turn at a slot began with the first of these pairs, and that it ended with the second.
    ghost heard: { G → ℕ → PairState → PairState → Type 0 };

    /// [`Gate::before_turn`], then [`turn_with`] of a slot's connection, on its two wires, then [`Gate::after_turn`].
    fn play(
        &mut self,
        gate: &G,
        slot: usize,
        berth: &mut Berth<F::Client, F::Target>,
        budget: usize,
        moment: Moment,
        buffer: &mut [u8; MAX_READ],
    ) -> Turn
        requires least { 1 ≤ budget }
        requires most { budget ≤ 1024 }
        ensures made { Self.made act.Play slot self.old self.new }
        ensures heard { heard gate.now slot berth.old.pair berth.new.pair }
        ensures played { Self.played berth.old berth.new self.new }
        ensures outcome { result ≡ outcome_of berth.new.pair }
        ensures run { IsTurn budget moment.second moment.limit berth.old.pair berth.new.pair
            (IsServed F.Client.told F.Client.does moment.second berth.old.client berth.new.client)
            (IsServed F.Target.told F.Target.does moment.second berth.old.target berth.new.target) };
}

impl Acts for () {
    ghost made = { λ _ _ _ _. Unit {0} };

    fn claim(&mut self, claims: &Claims, seat: &mut ClaimSeat, slot: usize) -> Claimed {
        claims.claim(seat, slot)
    }

    fn take(&mut self, claims: &Claims, seat: &mut ClaimSeat, slot: usize) -> u64 {
        claims.take(seat, slot)
    }

    fn discard(&mut self, claims: &Claims, seat: &mut ClaimSeat, slot: usize) -> u64 {
        claims.take(seat, slot)
    }

    fn post(&mut self, claims: &Claims, seat: &mut ClaimSeat, slot: usize) -> Posted {
        claims.post(seat, slot)
    }

    fn release(&mut self, claims: &Claims, seat: &mut ClaimSeat, slot: usize) -> Released {
        claims.release(seat, slot)
    }

    fn retire(&mut self, claims: &Claims, seat: &mut ClaimSeat, slot: usize) {
        claims.retire(seat, slot);
    }

    fn adopt(&mut self, claims: &Claims, seat: &mut ClaimSeat, slot: usize) -> Adopted {
        claims.adopt(seat, slot)
    }

    fn enter(&mut self, table: &mut Vec<u64>, ticket: Ticket) {
        table[ticket.slot] = ticket.generation;
    }

    fn put_ticket<R: Wait>(
        &mut self,
        rt: &R,
        ready: &mut ReadyQueue,
        ticket: Ticket,
    ) -> Result<(), Full<Ticket>> {
        ready.put(rt, ticket)
    }

    fn give<R: Wait>(
        &mut self,
        rt: &R,
        free: &mut FreeQueue,
        slot: usize,
    ) -> Result<(), Full<usize>> {
        free.give(rt, slot)
    }
}

impl<F: Front> Moves<F> for () {
    ghost use Rattle.std.specs.Prelude.{◌<◌};
    ghost use Rattle.claims.specs.Seats.{Holds};

    ghost named = { λ _ _. Unit {0} };

    ghost registered = { λ _ _ _ _. Unit {0} };

    ghost moved = { λ _ _. Unit {0} };

    ghost found = { λ _ _. Unit {0} };

    ghost played = { λ _ _ _. Unit {0} };

    ghost counted = { λ _ _ _. Unit {0} };

    fn register<N: Log>(
        &mut self,
        rt: &N,
        front: &mut F,
        client: &mut F::Client,
        client_token: Token,
        target_token: Token,
    ) -> Result<Opened<F::Target>, Unopened> {
        front.open(rt, client, client_token, target_token)
    }

    fn take_out<R: Wait>(
        &mut self,
        rt: &R,
        places: &Places<F::Client, F::Target>,
        seat: &ClaimSeat,
        slot: usize,
    ) -> Option<Box<Berth<F::Client, F::Target>>> {
        places.take_out(rt, seat, slot)
    }

    fn put_in<R: Wait>(
        &mut self,
        rt: &R,
        places: &Places<F::Client, F::Target>,
        seat: &ClaimSeat,
        slot: usize,
        berth: Box<Berth<F::Client, F::Target>>,
    ) -> Result<(), Occupied<Box<Berth<F::Client, F::Target>>>>
        requires inside { slot < places.now }
        requires holder { Holds seat.now slot }
        ensures { Unit {0} }
    {
        places.put_in(rt, seat, slot, berth)
    }

    fn settle(&mut self, _slot: usize, berth: &mut Berth<F::Client, F::Target>) {
        berth.client.settle();
        berth.target.settle();
    }

    fn close(&mut self, _slot: usize, berth: Box<Berth<F::Client, F::Target>>)
        ensures { Unit {0} }
    {
        drop(berth);
    }

    fn count(&self, shared: &Shared<F>, slot: usize, event: Event) {
        shared.count(slot, event);
    }
}

impl<F: Front, G: Gate> Gated<F, G> for () {
    ghost use Rattle.std.specs.Prelude.{ℕ};

    ghost heard = { λ gate slot before after. G.began gate slot before × G.ended gate slot after };

    #[inline(always)]
    fn play(
        &mut self,
        gate: &G,
        slot: usize,
        berth: &mut Berth<F::Client, F::Target>,
        budget: usize,
        moment: Moment,
        buffer: &mut [u8; MAX_READ],
    ) -> Turn {
        gate.before_turn(slot, &berth.pair);
        let turn = turn_with(
            &mut berth.pair,
            &mut berth.client,
            &mut berth.target,
            budget,
            moment,
            buffer,
        );
        gate.after_turn(slot, &berth.pair);
        turn
    }
}
