// The queue of free slots.
ghost use Rattle.std.specs.Prelude.{◌≡◌, ◌∷◌, ◌+◌, ◌-◌, ◌≤◌, IfOk, OnOk, IfErr, OnErr, replicate, ℕ};
ghost use Rattle.queues.specs.Steps.{in_order, opened, opener, unused, PutOne, TookOne, EndState};

use crate::moment::{Empty, Full};
use crate::rule::LineEnd;
use crate::steps::{Put, Source};
use std::alloc::{AllocError, Global};
use std::marker::Model;
use std::sync::Wait;

/// One thread's end of the queue of free slots. No thread sleeps on it.
///
/// In a clause it is the queue's capacity and the end's history: what it has put and taken, each with its place among
/// all that was ever put.
#[derive(Drop)]
pub struct FreeQueue {
    end: LineEnd<usize>,
}

impl Model for FreeQueue {
    ghost Value = { EndState ℕ };

    ghost view = { λ q. record { capacity = q.end.capacity; history = q.end.history } };
}

impl FreeQueue {
    /// Makes a queue and its ends. The first end has put `slots` slots, from `first` on, in order. This allocates all
    /// the memory that it ever uses, and fails only if there is not enough.
    pub fn new(
        rt: &impl Wait,
        alloc: Global,
        first: usize,
        slots: usize,
        ends: usize,
    ) -> Result<Vec<FreeQueue>, AllocError>
        requires slots { (1 ≤ slots) × (first + slots ≤ 32768) }
        requires ends { (1 ≤ ends) × (ends ≤ 32) }
        ensures { IfOk result (λ all. all.items ≡ opened first slots ∷ replicate (ends - 1) (unused slots)) }
    {
        let mut end = LineEnd::first(alloc, slots)?;
        fill(rt, &mut end, first, slots);
        // The further ends are made from one that has done nothing.
        let mut next = end.another()?;
        let mut all = Vec::with_capacity(alloc, ends)?;
        all.push_reserved(FreeQueue { end });
        for _end in 1..ends {
            let end = next.another()?;
            all.push_reserved(FreeQueue { end });
        }
        Ok(all)
    }

    /// Puts a slot at the back. If the queue was full at one moment during the call, nothing has changed.
    pub fn give(&mut self, rt: &impl Wait, slot: usize) -> Result<(), Full<usize>>
        ensures put { OnOk result (PutOne self.old.history slot self.new.history) }
        ensures given_back { IfErr result (λ full. full.0 ≡ slot) }
        ensures unchanged { OnErr result (self.new ≡ self.old) }
        ensures capacity { self.new.capacity ≡ self.old.capacity }
    {
        self.end.put(rt, slot)
    }

    /// Takes the slot at the front, unless the queue was empty at one moment during the call.
    pub fn try_take(&mut self, rt: &impl Wait) -> Result<usize, Empty<usize>>
        ensures taken { IfOk result (λ slot. TookOne self.old.history slot self.new.history) }
        ensures empty { IfErr result (λ empty. empty.history ≡ self.old.history) }
        ensures unchanged { OnErr result (self.new ≡ self.old) }
        ensures capacity { self.new.capacity ≡ self.old.capacity }
    {
        self.end.look(rt)
    }
}

// Puts the slots in order. No other end exists yet, so the queue has room for all of them.
fn fill<R: Wait>(rt: &R, end: &mut LineEnd<usize>, first: usize, slots: usize)
    requires few { first + slots ≤ 32768 }
    requires capacity { end.old.capacity ≡ slots }
    requires first { end.old.history ≡ opener }
    ensures capacity { end.new.capacity ≡ slots }
    ensures filled { end.new.history ≡ record opener { put = in_order first slots } }
{
    for index in 0..slots {
        match end.put(rt, first + index) {
            Ok(()) => {}
            Err(_) => unreachable!(),
        }
    }
}
