//! The steps of a poller's thread.
ghost use Rattle.std.specs.{Prelude.{◌≡◌, ◌⊎◌, length, slice_get, Ok, Some, None, OnOk, IfErr, IfSome}, Arc.arc_value};
ghost use Rattle.claims.specs.Seats.{HoldsNothing};
ghost use Rattle.rounds.specs.{Episodes.no_drops, Pollers.HasOpenedAll};
ghost use Rattle.turns.specs.Turns.{NoOwnTurn};
ghost use Rattle.shared.specs.Posts.{OnlyWorn};
ghost use Rattle.threads.specs.{LoopEnds.{AllWoken, IsTold}, PollerLoops.{StopAsked, LoopMade, OnlyMarked, OwnRan, RoundCut, RoundOver, RunMade, StepCut, StepMade, TurnsAfter, TurnsCut}};

use crate::context::{Context, StopFlag, Told};
use crate::ending::{Ended, NoFault, end_if_over};
use log::Log;
use rounds::{Poller, poller_round};
use shared::{Clock, Front, Gate, Own, Shared};
use sizes::{MAX_OWN_TURNS, ServerFault};
use std::sync::{Arc, Wait};
use turns::{Worked, own_turn, share_tickets};

/// A poller, and what its thread owns.
#[derive(Drop)]
pub struct PollerThread<F: Front> {
    pub shared: Arc<Shared<F>>,
    /// The thread's number. Of several faults the lowest number's is kept.
    pub number: usize,
    pub own: Own,
    pub poller: Poller<F>,
    pub ghost same: { own.seat.table ≡ (arc_value shared).claims },
    pub ghost idle: { HoldsNothing own.seat },
    pub ghost sized: { length poller.table ≡ (arc_value shared).claims.words },
}

impl<F: Front> PollerThread<F> {
    /// Makes its steps until one ends the thread. The poller's sweeps are counted from the clock's second on.
    pub fn run<'c, G: Gate, C: Clock, R: Wait + Log, S: StopFlag>(
        &mut self,
        context: &'c Context<'_, G, C, R, S>,
    ) -> Told<'c>
        ensures made { RunMade (S.said context.now.is_stopped.now) (C.tells context.now.timing.clock.now) F.gave_none
            context.now.timing.limit context.now.ending.now result.why self.old.poller self.old.own self.new.own }
        ensures told { IsTold context.now.ending.now self.old.number result.why result.recorded result.closed }
        ensures number { result.number ≡ self.old.number }
    {
        let number = self.number;
        self.poller.begin_at(context.timing.moment().second);
        let ended = self.run_rounds(context);
        self.finish(context, number, ended)
    }

    /// The thread has ended, as [`Context::end`] and [`Context::leave`] say. Drops that are still counted are logged.
    fn finish<'c, G, C, R: Wait + Log, S>(
        &mut self,
        context: &'c Context<'_, G, C, R, S>,
        number: usize,
        ended: Ended,
    ) -> Told<'c>
        ensures own { self.new.own ≡ self.old.own }
        ensures told { IsTold context.now.ending.now number ended.why result.recorded result.closed }
        ensures of { (result.number ≡ number) × (result.why ≡ ended.why) }
        ensures logged { self.new.poller.episodes.drops ≡ no_drops }
    {
        self.poller.end_episodes(context.rt);
        let told = context.end(&self.shared, number, &mut self.own.ready, ended);
        context.leave(&mut self.own.ready, &told);
        told
    }

    /// Makes steps until the poller is over, or a fault is recorded or met.
    fn run_rounds<G: Gate, C: Clock, R: Wait + Log, S: StopFlag>(
        &mut self,
        context: &Context<'_, G, C, R, S>,
    ) -> Ended
        ensures made { LoopMade (S.said context.now.is_stopped.now) (C.tells context.now.timing.clock.now) F.gave_none
            context.now.timing.limit context.now.ending.now result.why
            self.old.poller self.new.poller self.old.own self.new.own }
    {
        for _round in context.rt.forever() {
            if let Err(ended) = self.step(context) {
                return ended;
            }
        }
        unreachable!()
    }

    /// One step of the thread: a round, and then the turns of the tickets that stay with this thread, 32 at most.
    /// Refused if the thread ends: the poller is over, a fault was recorded before the round or before a turn,
    /// or this step met a fault.
    fn step<G: Gate, C: Clock, R: Wait + Log, S: StopFlag>(
        &mut self,
        context: &Context<'_, G, C, R, S>,
    ) -> Result<(), Ended>
        ensures made { OnOk result (StepMade (S.said context.now.is_stopped.now) (C.tells context.now.timing.clock.now)
            F.gave_none context.now.timing.limit self.old.poller self.new.poller self.old.own self.new.own) }
        ensures cut { IfErr result (λ ended. StepCut (S.said context.now.is_stopped.now) (C.tells context.now.timing.clock.now)
            F.gave_none context.now.timing.limit context.now.ending.now ended.why
            self.old.poller self.new.poller self.old.own self.new.own) }
    {
        let seen = match context.ending.look() {
            Ok(seen) => seen,
            Err(ended) => return Err(ended),
        };
        if let Err(ended) = end_if_over(&self.poller) {
            return Err(ended);
        }
        match self.poll(context, seen) {
            Ok(()) => self.run_turns(context),
            Err(ended) => Err(ended),
        }
    }

    /// If the flag is set, a poller that might open more opens no more, and wakes all pollers, which then see it, too.
    fn stop_if_asked<G, C, R: Wait, S: StopFlag>(&mut self, context: &Context<'_, G, C, R, S>)
        ensures own { self.new.own ≡ self.old.own }
        ensures asked { StopAsked (S.said context.now.is_stopped.now) self.old.poller self.new.poller }
        ensures woken { (self.new.poller ≡ self.old.poller) ⊎ AllWoken (F.woke (arc_value self.old.shared).waker) context.now.split }
    {
        if context.is_stopped.is_set() && !self.poller.has_opened_all() {
            self.poller.stop_opening();
            context.wake_pollers(&self.shared);
        }
    }

    /// Makes a round. If no more connections may be opened, the poller opens none in it.
    fn poll<G, C: Clock, R: Wait + Log, S: StopFlag>(
        &mut self,
        context: &Context<'_, G, C, R, S>,
        _seen: NoFault,
    ) -> Result<(), Ended>
        ensures made { OnOk result (RoundOver (S.said context.now.is_stopped.now) (C.tells context.now.timing.clock.now)
            F.gave_none context.now.timing.limit self.old.poller self.new.poller self.old.own self.new.own) }
        ensures cut { IfErr result (λ ended. RoundCut (S.said context.now.is_stopped.now) (C.tells context.now.timing.clock.now)
            F.gave_none context.now.timing.limit ended.why self.old.poller self.new.poller self.old.own self.new.own) }
    {
        self.stop_if_asked(context);
        let polled = poller_round(
            context.rt,
            context.alloc,
            &mut (),
            &self.shared,
            &mut self.own,
            &mut self.poller,
            &context.timing,
        );
        match polled {
            Ok(()) => Ok(()),
            Err(fault) => Err(Ended::met(fault)),
        }
    }

    /// Puts the tickets for workers, and runs those that stay, until a fault is recorded.
    fn run_turns<G: Gate, C: Clock, R: Wait + Log, S>(
        &mut self,
        context: &Context<'_, G, C, R, S>,
    ) -> Result<(), Ended>
        ensures turns { OnOk result (TurnsAfter self.old.poller self.new.poller self.old.own self.new.own) }
        ensures cut { IfErr result (λ ended. TurnsCut context.now.ending.now ended.why
            self.old.poller self.new.poller self.old.own self.new.own) }
    {
        let shares_light = self.shared.shares_light;
        let poller = &mut self.poller;
        let _ = share_tickets(context.rt, shares_light, &mut self.own, &mut poller.heavy);
        for _turn in 0..MAX_OWN_TURNS {
            let seen = match context.ending.look() {
                Ok(seen) => seen,
                Err(ended) => return Err(ended),
            };
            match self.turn(context, seen) {
                Ok(Some(_)) => {}
                Ok(None) => return Ok(()),
                Err(fault) => return Err(Ended::met(fault)),
            }
        }
        Ok(())
    }

    /// Runs the turn of the oldest ticket in hand. None if there is no ticket, or no room in hand for a slot. If the
    /// turn ends the connection, and this poller has opened all that it may, the slot's poller is woken.
    fn turn<G: Gate, C: Clock, R: Wait + Log, S>(
        &mut self,
        context: &Context<'_, G, C, R, S>,
        _seen: NoFault,
    ) -> Result<Option<Worked>, ServerFault>
        ensures ran { OwnRan result self.old.own self.new.own }
        ensures none { result ≡ Ok None → NoOwnTurn self.old.own }
        ensures worn { IfErr result (λ fault. OnlyWorn fault self.new.own.seat) }
        ensures poller { OnlyMarked result self.old.own self.old.poller self.new.poller }
        ensures woken { result ≡ Ok (Some Worked.Ended) → HasOpenedAll self.old.poller
            → IfSome (slice_get self.old.own.hand.tickets 0)
            (λ ticket. F.woke (arc_value self.old.shared).waker ticket.slot) }
    {
        let poller = &mut self.poller;
        let is_closing = poller.has_opened_all();
        own_turn(
            context.rt,
            &mut (),
            &self.shared,
            &mut self.own,
            context.gate,
            &mut poller.heavy,
            is_closing,
            &context.timing,
        )
    }
}
