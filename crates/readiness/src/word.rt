// What is reported of one end, and all steps on it. They are sequentially consistent, like those on claim words. A word
// has its end's name, so that a clause can say at which word a step was made.
ghost use Rattle.std.specs.Prelude.{◌≡◌, Bool, true};
ghost use Rattle.readiness.specs.Words.{FlagStep, Read, Swapped, IsTaken};

use std::marker::Model;
use std::sync::atomic::AtomicBool;
use std::sync::atomic::Ordering::SeqCst;
use token::Side;

/// A flag that threads share. Each method is one step, and there are no others. So no thread reads the flag in one step
/// and clears it in another, which could lose a report in between. The trait leaves open what a step does.
pub trait Flag {
    // This step, with its answer, was made on this flag: one act, between what was done before it and after it.
    ghost did: { FlagStep → Self → Self.Acts → Self.Acts → Type 0 };

    /// What has been done so far.
    type Acts;

    /// Returns whether it is set.
    fn read(&self, acts: &mut Self::Acts) -> bool
        ensures { did (Read result) self.now acts.old acts.new };

    /// Sets or clears it. Returns whether it was set.
    fn swap(&self, acts: &mut Self::Acts, is_set: bool) -> bool
        ensures { did (Swapped is_set result) self.now acts.old acts.new };
}

impl Flag for AtomicBool {
    ghost did = { λ _ _ _ _. Unit {0} };

    type Acts = ();

    fn read(&self, _acts: &mut ()) -> bool {
        self.load(SeqCst)
    }

    fn swap(&self, _acts: &mut (), is_set: bool) -> bool {
        self.swap(is_set, SeqCst)
    }
}

/// Whether a report of the end on a side of a slot's connection was passed on. In a clause: that end, and the flag.
#[derive(Drop)]
pub(crate) struct Word<F = AtomicBool> {
    slot: usize,
    side: Side,
    told: F,
}

impl<F> Model for Word<F> {
    ghost use Rattle.readiness.specs.Words.{WordName};

    ghost Value = { WordName × F };

    ghost view = { λ w. (record { slot = w.slot; side = w.side }, w.told) };
}

/// A report was passed on at the word of the end on this side of this slot's connection. Only that makes this value.
#[derive(Drop)]
pub struct Heard {
    slot: usize,
    side: Side,
}

impl Model for Heard {
    ghost use Rattle.readiness.specs.Words.{WordName};

    ghost Value = { WordName };

    ghost view = { λ h. record { slot = h.slot; side = h.side } };
}

impl Word {
    pub(crate) fn new(slot: usize, side: Side) -> Word
        ensures { result.0 ≡ record { slot = slot; side = side } }
    {
        Word {
            slot,
            side,
            told: AtomicBool::new(false),
        }
    }
}

impl<F: Flag> Word<F> {
    pub(crate) fn tell(&self, acts: &mut F::Acts) -> Heard
        ensures heard { result ≡ self.now.0 }
        ensures set { (was : Bool) × F.did (Swapped true was) self.now.1 acts.old acts.new }
    {
        // Pairs with `take`. The poller sets the word before it hands its reports over, so before the report becomes a
        // note: a holder who takes that note finds the word set.
        self.told.swap(acts, true);
        Heard {
            slot: self.slot,
            side: self.side,
        }
    }

    /// Looks whether a report was passed on since the last look.
    pub(crate) fn take(&self, acts: &mut F::Acts) -> bool
        ensures { IsTaken F.did self.now.1 result acts.old acts.new }
    {
        // Pairs with `tell`. A report that is passed on after the swap stands until the next look. Most looks find
        // nothing, and to read is cheaper.
        self.told.read(acts) && self.told.swap(acts, false)
    }
}
