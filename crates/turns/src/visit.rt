//! The connection of a held slot, out of its place.
ghost use Rattle.std.specs.Prelude.{◌≡◌, ℕ, ◌<◌, ◌≤◌, [], ◌∷◌, Some, None, IfOk, IfErr};
ghost use Rattle.claims.specs.Seats.{Adds};
ghost use Rattle.engine.specs.Turns.{outcome_of, IsServed};
ghost use Rattle.shared.specs.{Posts.HoldsOnly, Told.{ended_by, moved_by}};
ghost use Rattle.turns.specs.Turns.{noted_by, ticket_of, Plays};
ghost use Rattle.claims.specs.declared.view.Exchange.TheVariants as exchange;
ghost use Rattle.shared.specs.Acts as act;

use crate::gone::log_gone;
use claims::ClaimSeat;
use engine::{Moment, Turn};
use log::Log;
use queues::Ticket;
use relay_core::{MAX_READ, Pair};
use shared::{Berth, Front, Gated, Moves, Own, Settle, Shared, ended_by, moved_by};
use sizes::ClientsAt;
use std::sync::Wait;

/// What one turn is held to: it makes at most `budget` calls, all at one moment.
#[derive(Clone, Copy)]
pub(crate) struct Terms {
    pub(crate) budget: usize,
    pub(crate) moment: Moment,
    pub(crate) ghost least: { 1 ≤ budget },
    pub(crate) ghost most: { budget ≤ 1024 },
}

/// A connection that was taken out of the place of a held slot. Only [`take_out`] makes a visit. It cannot be dropped,
/// and only [`put_in`] and [`Visit::close`] end it. So what is put back or closed is what was taken out.
pub(crate) struct Visit<F: Front> {
    pub(crate) ticket: Ticket,
    berth: Box<Berth<F::Client, F::Target>>,
}

/// Shows that no connection of this slot is out of its place. Only then may the slot be released: otherwise the next
/// holder would find the place empty, and the connection would never run again. This value cannot be dropped, so each
/// is followed by one release.
pub(crate) struct Back {
    slot: usize,
}

/// Shows that the connection of this slot is closed. This value cannot be dropped, so after each closing the slot is
/// given back, unless it had its last generation.
pub(crate) struct Closed {
    slot: usize,
}

/// Takes the connection out of the place of the ticket's slot, which the caller holds. The connection may be another
/// than the ticket's. `Back`: the place is empty.
pub(crate) fn take_out<F: Front, A: Moves<F>, R: Wait>(
    rt: &R,
    acts: &mut A,
    shared: &Shared<F, A>,
    own: &Own,
    ticket: Ticket,
) -> Result<Visit<F>, Back>
    requires inside { ticket.slot < shared.now.claims.words }
    requires holder { HoldsOnly ticket.slot own.now.seat }
    ensures made { A.made act.TakeOut ticket.slot acts.old acts.new }
    ensures out { IfOk result (λ visit. visit.ticket ≡ ticket) }
    ensures found { IfOk result (λ visit. A.found (Some visit.berth.value) acts.new) }
    ensures empty { IfErr result (λ back. (back.slot ≡ ticket.slot) × A.found None acts.new) }
{
    let slot = ticket.slot;
    match acts.take_out(rt, &shared.places, &own.seat, slot) {
        Some(berth) => Ok(Visit { ticket, berth }),
        None => Err(Back { slot }),
    }
}

fn tell_notes(pair: &mut Pair, notes: u64)
    ensures { pair.new ≡ noted_by notes pair.old }
{
    if notes > 0 {
        pair.note();
    }
}

/// Counts the connection's bytes, and puts it back into its place. If the place is not empty, which happens in no run,
/// it keeps what it has, and the connection is closed.
pub(crate) fn put_in<F: Front, A: Moves<F>, R: Wait>(
    rt: &R,
    acts: &mut A,
    shared: &Shared<F, A>,
    own: &Own,
    visit: Visit<F>,
) -> Back
    requires inside { visit.ticket.slot < shared.now.claims.words }
    requires holder { HoldsOnly visit.ticket.slot own.now.seat }
    ensures back { result.slot ≡ visit.ticket.slot }
    ensures counted { A.counted visit.ticket.slot (moved_by visit.berth.value.pair) acts.old }
    ensures made { A.made act.PutIn visit.ticket.slot acts.old acts.new }
    ensures moved { A.moved visit.berth.value acts.new }
{
    let Visit { ticket, berth } = visit;
    let slot = ticket.slot;
    acts.count(shared, slot, moved_by(&berth.pair));
    let _ = acts.put_in(rt, &shared.places, &own.seat, slot, berth);
    Back { slot }
}

impl<F: Front> Visit<F> {
    /// The connection's pair.
    pub(crate) fn pair(&self) -> &Pair
        ensures { result.now ≡ self.now.berth.value.pair }
    {
        &self.berth.pair
    }

    /// The ticket of the connection that was found. It may be another than that of the visit.
    pub(crate) fn found(&self) -> Ticket
        ensures { result ≡ ticket_of self.now.berth.value.pair }
    {
        Ticket {
            slot: self.berth.pair.slot(),
            generation: self.berth.pair.generation(),
        }
    }

    /// Takes the notes of the slot, which raise the connection's flags, and makes its calls on its two wires, between
    /// the gate's two calls. It is passed neither an allocator nor anything that may wait, so it allocates nothing and
    /// waits for no lock.
    pub(crate) fn play<A: Gated<F, G>, G>(
        &mut self,
        acts: &mut A,
        shared: &Shared<F, A>,
        seat: &mut ClaimSeat,
        gate: &G,
        terms: Terms,
        buffer: &mut [u8; MAX_READ],
    ) -> Turn
        requires same { seat.old.table ≡ shared.now.claims }
        requires inside { self.old.ticket.slot < shared.now.claims.words }
        requires holder { HoldsOnly self.old.ticket.slot seat.old }
        ensures held { (seat.new.table ≡ shared.now.claims) × (self.new.ticket.slot < shared.now.claims.words)
            × HoldsOnly self.new.ticket.slot seat.new }
        ensures ticket { self.new.ticket ≡ self.old.ticket }
        ensures outcome { result ≡ outcome_of self.new.berth.value.pair }
        ensures played { (notes : ℕ) × (taken : A) × A.made act.TakeNotes self.old.ticket.slot acts.old taken
            × A.made act.Play self.old.ticket.slot taken acts.new
            × A.played (record self.old.berth.value { pair = noted_by notes self.old.berth.value.pair })
            self.new.berth.value acts.new
            × Adds self.old.ticket.slot (exchange.Take notes ∷ []) seat.old seat.new
            × Plays (IsServed F.Client.told F.Client.does) (IsServed F.Target.told F.Target.does) terms.budget
            terms.moment.second terms.moment.limit notes self.old.berth.value self.new.berth.value }
    {
        let slot = self.ticket.slot;
        let notes = acts.take(&shared.claims, seat, slot);
        let berth = &mut *self.berth;
        tell_notes(&mut berth.pair, notes);
        acts.play(gate, slot, berth, terms.budget, terms.moment, buffer)
    }

    /// Has both sockets send at once what they held back.
    pub(crate) fn settle<A: Moves<F>>(&mut self, acts: &mut A)
        ensures made { A.made act.Settle self.old.ticket.slot acts.old acts.new }
        ensures played { A.played self.old.berth.value self.new.berth.value acts.new }
        ensures ticket { self.new.ticket ≡ self.old.ticket }
        ensures pair { self.new.berth.value.pair ≡ self.old.berth.value.pair }
        ensures client { F.Client.settled self.new.berth.value.client }
        ensures target { F.Target.settled self.new.berth.value.target }
    {
        acts.settle(self.ticket.slot, &mut *self.berth);
    }

    /// Logs that the connection has ended by this second.
    pub(crate) fn log_gone<R: Log>(&self, rt: &R, clients: ClientsAt, second: u64) {
        log_gone::<F, R>(rt, clients, &self.berth, second);
    }

    /// Counts the connection as ended, and closes both sockets.
    pub(crate) fn close<A: Moves<F>>(self, acts: &mut A, shared: &Shared<F, A>) -> Closed
        ensures closed { result.slot ≡ self.ticket.slot }
        ensures counted { A.counted self.ticket.slot (ended_by self.berth.value.pair) acts.old }
        ensures made { A.made act.Close self.ticket.slot acts.old acts.new }
        ensures moved { A.moved self.berth.value acts.new }
    {
        let Visit { ticket, berth } = self;
        acts.count(shared, ticket.slot, ended_by(&berth.pair));
        acts.close(ticket.slot, berth);
        Closed { slot: ticket.slot }
    }
}

impl Back {
    /// The slot is released now.
    pub(crate) fn spend(self) {
        let Back { slot: _ } = self;
    }
}

impl Closed {
    /// The slot is given back now, unless it had its last generation.
    pub(crate) fn spend(self) {
        let Closed { slot: _ } = self;
    }
}
