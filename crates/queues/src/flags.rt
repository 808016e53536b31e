// The words that the ends of a queue share, and all atomic steps on them. These are sequentially consistent, as are
// those of the queues: all threads see them in one order.
ghost use Rattle.queues.specs.Steps.{BitStep, ReadBits, SetBits, ClearedBits};

use std::sync::Wait;
use std::sync::atomic::AtomicU32;
use std::sync::atomic::Ordering::SeqCst;
use std::thread::Parker;

/// A word of bits that threads share. Each method is one step, and there are no others. So no thread reads the bits in
/// one step and writes them in another, which could lose a step in between. The trait leaves open what a step does.
pub trait Bits {
    // This step, with its answer, was made on this word: one act, between the first and the second.
    ghost did: { BitStep → Self → Self.Acts → Self.Acts → Type 0 };

    /// What has been done so far. A clause that has one act between what was done before a call and after it leaves
    /// room for no other.
    type Acts;

    /// Returns the bits.
    fn read(&self, acts: &mut Self::Acts) -> u32
        ensures { did (ReadBits result) self.now acts.old acts.new };

    /// Sets these bits. Returns the bits before.
    fn set(&self, acts: &mut Self::Acts, bits: u32) -> u32
        ensures { did (SetBits bits result) self.now acts.old acts.new };

    /// Clears these bits. Returns the bits before.
    fn clear(&self, acts: &mut Self::Acts, bits: u32) -> u32
        ensures { did (ClearedBits bits result) self.now acts.old acts.new };
}

impl Bits for AtomicU32 {
    ghost did = { λ _ _ _ _. Unit {0} };

    type Acts = ();

    fn read(&self, _acts: &mut ()) -> u32 {
        self.load(SeqCst)
    }

    fn set(&self, _acts: &mut (), bits: u32) -> u32 {
        self.fetch_or(bits, SeqCst)
    }

    fn clear(&self, _acts: &mut (), bits: u32) -> u32 {
        self.fetch_and(!bits, SeqCst)
    }
}

/// What an end sleeps at, and what wakes it. The trait leaves open what that does.
pub trait Unpark {
    // The end of this parker was given a permit. It slept here: one act, between the first and the second.
    ghost unparked: { Self → Type 0 };

    ghost parked: { Self → Self.Acts → Self.Acts → Type 0 };

    /// What has been done so far, as that of [`Bits`].
    type Acts;

    /// Gives a permit.
    fn give(&self)
        ensures { unparked self.now };

    /// Sleeps until there is a permit, and uses it up. It may rise without one.
    fn sleep<R: Wait>(&self, rt: &R, acts: &mut Self::Acts)
        ensures { parked self.now acts.old acts.new };
}

impl Unpark for Parker {
    ghost unparked = { λ _. Unit {0} };

    ghost parked = { λ _ _ _. Unit {0} };

    type Acts = ();

    fn give(&self) {
        self.unpark();
    }

    fn sleep<R: Wait>(&self, rt: &R, _acts: &mut ()) {
        self.park(rt);
    }
}
