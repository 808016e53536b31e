//! The counts of all slots, and their sums.
ghost use Rattle.std.specs.Prelude.{◌≡◌, ◌<◌, ◌≤◌, IfOk, IfSome, length, slice_get};
ghost use Rattle.statistics.specs.Counts.{AreSums, AreTotals, IsCounted, IsGauged, IsLookedAt, Lost, Starved, no_sums};

use crate::counts::Counts;
use crate::event::Event;
use crate::gauge::{self, AtomicGauge, Gauge, Levels};
use crate::place::{self, Atomics, Memory};
use crate::totals::Totals;
use std::alloc::{AllocError, Global};
use std::marker::Model;

/// A place for the counts of each slot, and a gauge of all slots, which threads share by `&`.
#[derive(Drop)]
pub struct Statistics<M = Atomics, G = AtomicGauge> {
    places: Vec<M>,
    gauge: G,
}

impl<M, G> Model for Statistics<M, G> {
    ghost use Rattle.statistics.specs.Counts.{Counted};

    ghost Value = { Counted M G };

    ghost view = { λ s. record { places = s.places.items; gauge = s.gauge } };
}

impl Statistics {
    /// A place for each slot. No later call allocates memory.
    pub fn new(alloc: Global, slots: usize) -> Result<Statistics, AllocError>
        ensures { IfOk result (λ statistics. length statistics.places ≡ slots) }
    {
        let mut places = Vec::with_capacity(alloc, slots)?;
        for _slot in 0..slots {
            places.push(Atomics::zero())?;
        }
        let gauge = AtomicGauge::zero();
        Ok(Statistics { places, gauge })
    }
}

impl<M: Memory, G: Gauge> Statistics<M, G> {
    /// Statistics that count in these places, one for each slot.
    pub fn over(places: Vec<M>, gauge: G) -> Statistics<M, G>
        ensures places { result.places ≡ places.items }
        ensures gauge { result.gauge ≡ gauge }
    {
        Statistics { places, gauge }
    }

    /// Counts an event at a slot. Only the thread that holds the slot, or has it in hand while it is free, may do that.
    /// If there is no such slot, nothing is counted.
    pub fn count(&self, acts: &mut G::Acts, slot: usize, event: Event)
        ensures counted { IfSome (slice_get self.now.places slot) (λ place. IsCounted M.did event place) }
        ensures gauged { slot < length self.now.places → IsGauged G.did event self.now.gauge acts.old acts.new }
        ensures none { length self.now.places ≤ slot → acts.new ≡ acts.old }
    {
        let Some(place) = self.places.get(slot) else {
            return;
        };
        place::count(place, event);
        gauge::keep(&self.gauge, acts, event);
    }

    /// accept(2) lacked descriptors or memory, so clients wait.
    pub fn starve(&self, acts: &mut G::Acts)
        ensures { G.did Starved self.now.gauge acts.old acts.new }
    {
        self.gauge.starve(acts);
    }

    /// A recording lacks one more record.
    pub fn lose(&self, acts: &mut G::Acts)
        ensures { G.did Lost self.now.gauge acts.old acts.new }
    {
        self.gauge.lose(acts);
    }

    /// Adds a second to those with all slots taken, if they are now, and to those in which clients waited, if accept(2)
    /// has lacked descriptors or memory since the last look.
    pub fn look(&self, acts: &mut G::Acts)
        ensures { IsLookedAt G.did (length self.now.places) self.now.gauge acts.old acts.new }
    {
        gauge::look(&self.gauge, acts, self.places.len());
    }

    /// Sums what all places have, and then reads the gauge. A place that changes meanwhile is read again, up to 8
    /// times. The places are read one after another, so the sums are not of one moment.
    pub fn totals(&self, acts: &mut G::Acts) -> Totals
        ensures totals { AreTotals M.did G.did self.now acts.old acts.new
            (no_sums (length self.now.places) Levels.NONE Counts.NONE) result }
        ensures slots { result.slots ≡ length self.now.places }
        ensures open { result.live ≤ length self.now.places }
    {
        let mut totals = self.sums();
        totals.levels = self.gauge.levels(acts);
        totals
    }

    fn sums(&self) -> Totals
        ensures sums { AreSums M.did self.now.places (no_sums (length self.now.places) Levels.NONE Counts.NONE) result }
        ensures slots { result.slots ≡ length self.now.places }
        ensures open { result.live ≤ length self.now.places }
    {
        let mut totals = Totals::none(self.places.len());
        for place in &self.places {
            totals = totals.with(&place::read(place));
        }
        totals
    }
}
