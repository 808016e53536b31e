//! Where a slot's counts lie, in memory that threads share.
ghost use Rattle.statistics.specs.Counts.{IsCounted, Step, Loaded, Stored};

use crate::counts::{COUNTS, Counts};
use crate::event::Event;
use std::array;
use std::sync::atomic::{AtomicU64, Ordering};

/// Memory for the counts of a slot, which threads share. No clause can name what the memory holds, so the trait leaves
/// open what a step does. What is proved over any memory says which steps are made on it.
pub trait Memory {
    // This step was made on this memory. The step has what was read or stored.
    ghost did: { Step → Self → Type 0 };

    /// Reads all counts.
    fn load(&self) -> Counts
        ensures { did (Loaded result) self.now };

    /// Stores all counts.
    fn store(&self, counts: Counts)
        ensures { did (Stored counts) self.now };
}

/// A number for each count, in the order of [`Counts::numbers`].
#[derive(Drop)]
pub struct Atomics([AtomicU64; COUNTS]);

impl Atomics {
    /// Nothing was counted.
    pub(crate) fn zero() -> Atomics {
        Atomics(array::from_fn(|_count| AtomicU64::new(0)))
    }
}

impl Memory for Atomics {
    ghost did = { λ _ _. Unit {0} };

    /// Reads `opened` last, so that each connection that was read as ended is in it.
    fn load(&self) -> Counts {
        let mut counts = Counts::NONE;
        for place in 0..COUNTS {
            counts.numbers[place] = self.0[place].load(Ordering::SeqCst);
        }
        counts
    }

    /// Stores `opened` first, for the same reason.
    fn store(&self, counts: Counts) {
        for stored in 0..COUNTS {
            let place = COUNTS - 1 - stored;
            put(&self.0[place], counts.numbers[place]);
        }
    }
}

/// Stores a number only if it has changed. Most events change one or two.
fn put(number: &AtomicU64, value: u64) {
    if number.load(Ordering::SeqCst) != value {
        number.store(value, Ordering::SeqCst);
    }
}

/// The most tries to read a place twice without a change.
const MAX_TRIES: usize = 8;

/// Counts an event in a place. Nobody else may write the place meanwhile.
pub(crate) fn count<M: Memory>(place: &M, event: Event)
    ensures { IsCounted M.did event place.now }
{
    let counts = place.load();
    place.store(counts.after(event));
}

/// Reads a place twice, until both reads agree. After 8 tries, a last read counts.
pub(crate) fn read<M: Memory>(place: &M) -> Counts
    ensures { M.did (Loaded result) place.now }
{
    for _try in 0..MAX_TRIES {
        let first = place.load();
        let again = place.load();
        if again == first {
            return again;
        }
    }
    place.load()
}
