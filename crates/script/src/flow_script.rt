ghost use Rattle.std.specs.Prelude.{◌≡◌, ◌≤◌, IfOk};
ghost use Rattle.script.specs.{Faults.{GivesDefined, PlaysSteps}, Transfers.{new_transfer, line_stepped, step_takes_memory, run_of}};

use crate::{Fault, Transfer};
use script_text::NumberedStep;
use std::alloc::{AllocError, Global};
use std::marker::Model;

/// A script of one direction: the maximum size of its ring, and its steps.
#[derive(Drop)]
pub struct FlowScript {
    ring: usize,
    steps: Vec<NumberedStep>,
}

impl Model for FlowScript {
    ghost use Rattle.std.specs.Prelude.{◌≤◌};
    ghost use Rattle.script.specs.Plans.{FlowPlan};

    ghost Value = { FlowPlan };

    ghost view = { λ s. record { ring = s.ring; steps = s.steps.items } };

    ghost invariant = { λ s. (1 ≤ s.ring) × (s.ring ≤ 65536) };
}

impl FlowScript {
    /// A script of these steps. Allocates no memory.
    pub fn new(ring: usize, steps: Vec<NumberedStep>) -> FlowScript
        requires least { 1 ≤ ring }
        requires most { ring ≤ 65536 }
        ensures { result ≡ record { ring = ring; steps = steps.items } }
    {
        FlowScript { ring, steps }
    }

    /// The steps, in order.
    pub fn steps(&self) -> &[NumberedStep]
        ensures { result.now ≡ self.now.steps }
    {
        self.steps.as_slice()
    }

    /// The state after all steps; or the fault of the first step that is not allowed; or `NoMemory`.
    #[tactic(auto, using(crate::proofs::Playing::plays_give))]
    pub fn carry_out(&self, alloc: Global) -> Result<Transfer, Fault>
        ensures { GivesDefined (run_of self.now) result }
    {
        let mut transfer = self.open(alloc)?;
        match self.play(&mut transfer) {
            Ok(()) => Ok(transfer),
            Err(fault) => Err(fault),
        }
    }

    /// The state before the first step.
    pub fn open(&self, alloc: Global) -> Result<Transfer, AllocError>
        ensures { IfOk result (λ transfer. transfer ≡ new_transfer self.now.ring) }
    {
        Transfer::new(alloc, self.ring)
    }

    /// Makes all steps. If one is refused, returns its fault; the steps before it stay made.
    #[tactic(auto, using(crate::proofs::Playing::played_more, std::proofs::lemmas::Option::gets, std::proofs::lemmas::Grind::common_steps))]
    pub fn play(&self, transfer: &mut Transfer) -> Result<(), Fault>
        ensures { PlaysSteps line_stepped step_takes_memory transfer.old self.now.steps result transfer.new }
    {
        for numbered in &self.steps {
            transfer.carry_out(numbered)?;
        }
        Ok(())
    }
}
