//! Which tickets a poller's thread leaves to the workers: those of connections that had much to do a moment ago.
ghost use Rattle.std.specs.Prelude.{◌≡◌, ◌↔◌, IfOk, IsTrue, replicate, slice_index, slice_set};
ghost use Rattle.shared.specs.Heavy.{looked_at};
ghost use Rattle.sizes.specs.Limits.{heavy_marks};

use sizes::HEAVY_MARKS;
use std::alloc::{AllocError, Global};
use std::marker::Model;

/// How many of each slot's next tickets are for the workers. In a clause it is the list of these numbers.
#[derive(Drop)]
pub struct HeavyMarks {
    marks: Vec<u8>,
}

impl Model for HeavyMarks {
    ghost use Rattle.std.specs.Prelude.{ℕ, List};

    ghost Value = { List ℕ };

    ghost view = { λ h. h.marks.items };
}

impl HeavyMarks {
    /// No slot has a mark. Fails only for want of memory.
    pub fn none(alloc: Global, slots: usize) -> Result<HeavyMarks, AllocError>
        ensures { IfOk result (λ marks. marks ≡ replicate slots 0) }
    {
        let marks = vec![in alloc; 0; slots]?;
        Ok(HeavyMarks { marks })
    }

    /// Whether this slot's ticket is light. If it is heavy, one of the slot's marks is used up.
    #[tactic(auto, using(crate::proofs::Slots::looked_at_light))]
    pub fn is_light(&mut self, slot: usize) -> bool
        ensures light { IsTrue result ↔ slice_index self.old slot ≡ 0 }
        ensures marks { self.new ≡ looked_at slot self.old }
    {
        match self.marks.get_mut(slot) {
            Some(left) if *left > 0 => {
                *left -= 1;
                false
            }
            _ => true,
        }
    }

    /// Gives the slot 16 marks: its connection has spent the own budget.
    pub fn mark(&mut self, slot: usize)
        ensures { self.new ≡ slice_set self.old slot heavy_marks }
    {
        if let Some(left) = self.marks.get_mut(slot) {
            *left = HEAVY_MARKS;
        }
    }

    /// Takes the slot's marks away: a new connection has it.
    pub fn clear(&mut self, slot: usize)
        ensures { self.new ≡ slice_set self.old slot 0 }
    {
        if let Some(left) = self.marks.get_mut(slot) {
            *left = 0;
        }
    }
}
