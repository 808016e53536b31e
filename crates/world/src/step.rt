//! A step of the machine: which part of it makes which event happen.
#![tactic(auto, using(std::proofs::lemmas::Option::gets, std::proofs::lemmas::Grind::common_steps))]

use crate::event::Event;
use crate::laws::rests_on_core;
use crate::world::World;
use kernel_model::Refusal;

impl World {
    ghost use Rattle.kernel_model.specs.Outcome.{Meets};
    ghost use Rattle.std.specs.Prelude.{◌≡◌, Some, IfOk, IfErr, OnOk, IsErrOf, IsTrue};
    ghost use Rattle.world.specs.{Memory.may_allocate, Runs.{run, FailsAt}, Steps.step, Words.WordsMoveInRuns};

    /// Makes one event happen.
    ///
    /// Refuses with `NotAllowed` if the event cannot happen now, and with `NoMemory` if it can, but a list cannot grow
    /// for it (`memory` says for which events a list may). A refusal changes nothing.
    ///
    /// In a world that a run reaches, each slot's claim word changes by the steps that the event makes there, in
    /// order. A ticket of the slot is made exactly when one of these steps answers Wake (`words`).
    #[tactic(auto, using(crate::proofs::Headline::words_met))]
    pub fn step(&mut self, event: &Event) -> Result<(), Refusal>
        ensures event { Meets (step self.old event.now) self.old self.new result }
        ensures memory { IsErrOf result Refusal.NoMemory → IsTrue (may_allocate self.old event.now) }
        ensures words { IfOk result (λ _. WordsMoveInRuns self.old event.now self.new) }
    {
        rests_on_core();
        self.happen(event)
    }

    /// Makes these events happen, one after the other.
    ///
    /// If an event fails, returns its index and why ([`World::step`]). The events before it have happened then.
    #[tactic(auto, using(crate::proofs::Headline::run_more, std::proofs::lemmas::Option::gets, std::proofs::lemmas::Grind::common_steps))]
    pub fn play(&mut self, events: &[Event]) -> Result<(), (usize, Refusal)>
        ensures world { OnOk result (run self.old events.now ≡ Some self.new) }
        ensures fails { IfErr result (λ e. FailsAt self.old self.new events.now e.0 e.1) }
    {
        for (index, event) in events.iter().enumerate() {
            if let Err(refusal) = self.step(event) {
                return Err((index, refusal));
            }
        }
        Ok(())
    }

    fn happen(&mut self, event: &Event) -> Result<(), Refusal>
        ensures event { Meets (step self.old event.now) self.old self.new result }
        ensures memory { IsErrOf result Refusal.NoMemory → IsTrue (may_allocate self.old event.now) }
    {
        match event {
            Event::Tick(seconds) => self.tick(*seconds),
            Event::Network(slot, side, change) => self.network(*slot, *side, change),
            Event::Spurious(who) => self.spurious(*who),
            Event::Vanish(who) => self.vanish(*who),
            Event::Listen(listening) => self.listen(*listening),
            Event::Poll(polling) => self.poll(polling),
            Event::Work(worker, act) => self.work(*worker, *act),
        }
    }
}
