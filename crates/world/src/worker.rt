//! A worker of the machine: what it is doing, and its hand.
#![tactic(auto, using(std::proofs::lemmas::Option::gets, std::proofs::lemmas::Grind::common_steps))]

use crate::actors::{Doing, Ticket};
use std::marker::Model;

/// A worker: what it is doing, and the ticket that it has still to put, if any.
///
/// A worker takes a ticket from the queue only with an empty hand, so its hand is empty while it does something. So
/// there is room in the hand for the ticket of a release, which takes no memory.
#[derive(Drop)]
pub struct Worker {
    doing: Doing,
    hand: Option<Ticket>,
}

impl Model for Worker {
    ghost use Rattle.std.specs.{Prelude.{◌≡◌, ◌⊎◌, None}, Option.option_to_list};
    ghost use Rattle.world.specs.{declared.actors.Doing.TheVariants.Idle, Slots.WorkerState};

    ghost Value = { WorkerState };

    ghost view = { λ w. record { doing = w.doing; hand = option_to_list w.hand } };

    ghost invariant = { λ w. (w.doing ≡ Idle) ⊎ (w.hand ≡ None) };
}

impl Worker {
    ghost use Rattle.std.specs.{Prelude.{◌≡◌, ◌⊎◌, []}, Option.option_to_list};
    ghost use Rattle.world.specs.{States.resting_worker, Steps.with_ticket};

    /// A worker with nothing to do.
    pub fn new() -> Worker
        ensures { result ≡ resting_worker }
    {
        Worker {
            doing: Doing::Idle,
            hand: None,
        }
    }

    /// What the worker is doing.
    pub fn doing(&self) -> Doing
        ensures doing { result ≡ self.now.doing }
        ensures hand { (result ≡ Doing.Idle) ⊎ (self.now.hand ≡ []) }
    {
        self.doing
    }

    /// The ticket that the worker has still to put, if any.
    pub fn hand(&self) -> &[Ticket]
        ensures { result.now ≡ self.now.hand }
    {
        self.hand.as_slice()
    }

    pub(crate) fn ticket(&self) -> Option<Ticket>
        ensures { self.now.hand ≡ option_to_list result }
    {
        self.hand
    }

    pub(crate) fn put(&mut self)
        ensures { self.new ≡ record self.old { hand = [] } }
    {
        self.hand = None;
    }

    pub(crate) fn turn_to(&mut self, doing: Doing)
        requires { (doing ≡ Doing.Idle) ⊎ (self.old.hand ≡ []) }
        ensures { self.new ≡ record self.old { doing = doing } }
    {
        self.doing = doing;
    }

    /// Makes the worker idle. If its slot has notes (`noted`), it takes the slot's ticket in hand.
    pub(crate) fn release(&mut self, noted: bool, slot: usize, generation: u64)
        requires { self.old.hand ≡ [] }
        ensures { self.new ≡ record { doing = Doing.Idle; hand = with_ticket noted slot generation self.old.hand } }
    {
        if noted {
            self.hand = Some(Ticket { slot, generation });
        }
        self.doing = Doing::Idle;
    }
}
