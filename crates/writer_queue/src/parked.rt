//! Queues for a thread that writes, and sleeps while there is nothing to write. It is the one end that takes, of the
//! ends of `queues`.
ghost use Rattle.std.specs.Prelude.{◌≡◌, ◌<◌, map, true, All, ℕ, List};
ghost use Rattle.crossbeam_queue.specs.Passes.{queue_capacity};
ghost use Rattle.writer_queue.specs.Steps.{Added};

use crate::left_out::{Count, Counted};
use crossbeam_queue::ArrayQueue;
use queues::{Drained, EndNumber, IdleEnds, Put, Source, Spent};
use std::marker::Model;
use std::sync::Wait;
use std::time::Duration;

/// Bounded queues of items, each oldest first, between the threads that put items and a writer. The writer sleeps
/// while there are no items, and ends only after it found the queues closed and then empty. In a clause a
/// `ParkedQueue` is its queues' capacities.
#[derive(Drop)]
pub struct ParkedQueue<T: Drop, const QUEUES: usize> {
    queues: [ArrayQueue<T>; QUEUES],
    ends: IdleEnds,
    writer: EndNumber,
}

/// What a writer does with the items.
pub trait Drain {
    type Error;

    /// Writes items until it finds none. Returns whether there was one.
    fn drain(&mut self) -> Result<bool, Self::Error>;
}

impl<T: Drop, const QUEUES: usize> Model for ParkedQueue<T, QUEUES> {
    ghost Value = { List ℕ };

    ghost view = { λ parked. map queue_capacity parked.queues };
}

/// What may be empty. The trait leaves open what a look shows.
pub(crate) trait Line {
    // It was empty at one moment.
    ghost was_empty: { Self → Type 0 };

    fn holds_none(&self) -> bool
        ensures { result ≡ true → was_empty self.now };
}

impl<T: Drop> Line for ArrayQueue<T> {
    ghost was_empty = { λ _. Unit {0} };

    fn holds_none(&self) -> bool {
        self.is_empty()
    }
}

/// The place for an item in a queue.
#[derive(Drop)]
struct Back<'a, T: Drop>(&'a ArrayQueue<T>);

impl<T: Drop> Put<T> for Back<'_, T> {
    ghost did_put = { λ _ _ _. Unit {0} };

    ghost refused = { λ _ _ _ _. Unit {0} };

    type Refused = T;

    fn put<R: Wait>(&mut self, rt: &R, item: T) -> Result<(), T> {
        self.0.push(rt, item)
    }
}

/// What the writer looks at: it drains the queues, and then looks whether they are empty. What was left out since the
/// drain before is shown by no queue, but by the drain.
#[derive(Drop)]
struct Drains<'w, 'q, W, Q> {
    writer: &'w mut W,
    queues: &'q [Q],
}

impl<W: Drain, Q: Line> Source for Drains<'_, '_, W, Q> {
    ghost state = { λ _. tt };

    ghost found = { λ _ _ _. Unit {0} };

    ghost held_none = { λ d _. All Q.was_empty d.queues.now };

    /// Whether the drain found items.
    type Found = Result<bool, W::Error>;

    type State = ();

    type Nothing = ();

    fn look<R: Wait>(&mut self, _rt: &R) -> Result<Result<bool, W::Error>, ()> {
        let drained = self.writer.drain();
        match drained {
            Ok(false) if are_empty(self.queues) => Err(()),
            found => Ok(found),
        }
    }
}

fn are_empty<Q: Line>(queues: &[Q]) -> bool
    ensures { result ≡ true → All Q.was_empty queues.now }
{
    for queue in queues {
        if !queue.holds_none() {
            return false;
        }
    }
    true
}

impl<T: Drop, const QUEUES: usize> ParkedQueue<T, QUEUES> {
    /// The queues, open and with a writer that is awake.
    pub fn new(queues: [ArrayQueue<T>; QUEUES]) -> ParkedQueue<T, QUEUES>
        ensures { result ≡ map queue_capacity queues }
    {
        let (ends, mut numbers) = IdleEnds::new();
        ParkedQueue {
            queues,
            ends,
            writer: numbers.next(),
        }
    }

    /// Puts an item into the queue `at`, and wakes the writer if it sleeps. A writer that has just found items looks
    /// again by itself, so most items cost no system call. None: there was no room.
    pub fn put(&self, rt: &impl Wait, at: usize, item: T) -> Option<Spent>
        requires { at < QUEUES }
    {
        self.ends.put(rt, &mut Back(&self.queues[at]), item).ok()
    }

    /// Counts an item that was left out, and wakes the writer if it sleeps.
    pub(crate) fn count<C: Count>(&self, rt: &impl Wait, count: &C) -> Spent
        ensures { C.did Added count.now }
    {
        match self.ends.put(rt, &mut Counted(count), ()) {
            Ok(spent) => spent,
            Err(never) => match never {},
        }
    }

    /// Takes the oldest item of the queue `at`.
    pub fn take(&self, rt: &impl Wait, at: usize) -> Option<T>
        requires { at < QUEUES }
    {
        self.queues[at].pop(rt)
    }

    /// Lets the writer end once every item is written, and wakes it. What is put later may not be written.
    pub fn close(&self) {
        let _ = self.ends.close();
    }

    /// Has a writer drain the queues until they were closed and then found empty. After a drain that found items,
    /// rests for `rest`.
    pub fn drain<R: Wait, W: Drain>(
        &self,
        rt: &R,
        writer: &mut W,
        rest: Duration,
    ) -> Result<Drained, W::Error> {
        let mut drains = Drains {
            writer,
            queues: &self.queues,
        };
        for _look in rt.forever() {
            match self.ends.take(rt, &self.writer, &mut drains) {
                Ok(Ok(true)) => self.ends.rest(rt, &self.writer, rest),
                Ok(Ok(false)) => {}
                Ok(Err(fault)) => return Err(fault),
                Err(drained) => return Ok(drained),
            }
        }
        unreachable!()
    }
}
