//! How many lines found the queue full.
ghost use Rattle.writer_queue.specs.Steps.{CountStep, Added, Taken};

use queues::Put;
use std::convert::Infallible;
use std::sync::Wait;
use std::sync::atomic::{AtomicU64, Ordering};

/// A count that threads share. Each method is one atomic step: what is added between a load of the count and a store
/// of 0 would be lost. No clause can name what a count holds, so the trait leaves open what a step does (`did`). A
/// clause over any count says which steps were made on it.
pub(crate) trait Count {
    // This step, with its answer, was made on this count.
    ghost did: { CountStep → Self → Type 0 };

    /// Adds 1.
    fn add(&self)
        ensures { did Added self.now };

    /// Sets the count to 0. Returns what it was.
    fn take(&self) -> u64
        ensures { did (Taken result) self.now };
}

impl Count for AtomicU64 {
    ghost did = { λ _ _. Unit {0} };

    fn add(&self) {
        self.fetch_add(1, Ordering::SeqCst);
    }

    fn take(&self) -> u64 {
        self.swap(0, Ordering::SeqCst)
    }
}

/// How many lines were left out since the last call.
pub(crate) fn taken<C: Count>(count: &C) -> u64
    ensures { C.did (Taken result) count.now }
{
    count.take()
}

/// A line that was left out is put by being counted.
#[derive(Drop)]
pub(crate) struct Counted<'a, C>(pub(crate) &'a C);

impl<C: Count> Put<()> for Counted<'_, C> {
    ghost did_put = { λ old _ _. C.did Added old.0.now };

    ghost refused = { λ _ _ _ _. ⊥ };

    type Refused = Infallible;

    fn put<R: Wait>(&mut self, _rt: &R, _line: ()) -> Result<(), Infallible> {
        self.0.add();
        Ok(())
    }
}
