ghost use Rattle.std.specs.Prelude.{◌≡◌, IfOk};
ghost use Rattle.world.specs.States.{IsWithinLimits, opening};
ghost use Rattle.script.specs.{Faults.{GivesDefined, Carries, PlaysSteps}, Runs.{line_happened, line_takes_memory, world_of}};

use crate::Fault;
use kernel_model::Refusal;
use script_text::NumberedEvent;
use std::alloc::{AllocError, Global};
use std::marker::Model;
use world::{Limits, World};
use world_text::word_of;

/// A script of a world: its sizes, and its events.
#[derive(Drop)]
pub struct WorldScript {
    limits: Limits,
    events: Vec<NumberedEvent>,
}

impl Model for WorldScript {
    ghost use Rattle.world.specs.States.{IsWithinLimits};
    ghost use Rattle.script.specs.Plans.{WorldPlan};

    ghost Value = { WorldPlan };

    ghost view = { λ s. record { limits = s.limits; events = s.events.items } };

    ghost invariant = { λ s. IsWithinLimits s.limits };
}

impl WorldScript {
    /// A script of these events. Allocates no memory.
    pub fn new(limits: Limits, events: Vec<NumberedEvent>) -> WorldScript
        requires { IsWithinLimits limits }
        ensures { result ≡ record { limits = limits; events = events.items } }
    {
        WorldScript { limits, events }
    }

    /// The events, in order.
    pub fn events(&self) -> &[NumberedEvent]
        ensures { result.now ≡ self.now.events }
    {
        self.events.as_slice()
    }

    /// The world after all events; or the fault of the first event that is not allowed; or `NoMemory`.
    #[tactic(auto, using(crate::proofs::Playing::plays_give))]
    pub fn carry_out(&self, alloc: Global) -> Result<World, Fault>
        ensures { GivesDefined (world_of self.now) result }
    {
        let mut world = self.open(alloc)?;
        match self.play(&mut world) {
            Ok(()) => Ok(world),
            Err(fault) => Err(fault),
        }
    }

    /// The world before the first event.
    pub fn open(&self, alloc: Global) -> Result<World, AllocError>
        ensures { IfOk result (λ world. world ≡ opening self.now.limits) }
    {
        World::new(alloc, self.limits)
    }

    /// Makes all events happen. If one is refused, returns its fault; the events before it stay.
    #[tactic(auto, using(crate::proofs::Playing::played_more, std::proofs::lemmas::Option::gets, std::proofs::lemmas::Grind::common_steps))]
    pub fn play(&self, world: &mut World) -> Result<(), Fault>
        ensures { PlaysSteps line_happened line_takes_memory world.old self.now.events result world.new }
    {
        for numbered in &self.events {
            happen(world, numbered)?;
        }
        Ok(())
    }
}

/// Makes the event of a line happen, or gives the fault of that line.
pub(crate) fn happen(world: &mut World, numbered: &NumberedEvent) -> Result<(), Fault>
    ensures { Carries (line_takes_memory world.old numbered.now) (line_happened world.old numbered.now) world.old result world.new }
{
    match world.step(&numbered.event) {
        Ok(()) => Ok(()),
        Err(Refusal::NotAllowed) => Err(Fault::NotAllowed(numbered.line, word_of(&numbered.event))),
        Err(Refusal::NoMemory) => Err(Fault::NoMemory),
    }
}
