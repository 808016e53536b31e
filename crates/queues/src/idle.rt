// Which ends sleep, and how they are woken.
ghost use Rattle.std.specs.Prelude.{◌≡◌, ◌≢◌, ◌+◌, ◌<◌, ℕ, IfErr, IfNone, IfOk, IfSome, IsSomeAnd, OnErr, OnOk, slice_get, true, All};
ghost use Rattle.queues.specs.Steps.{ReadBits, SetBits, ClearedBits, bit_of};

use crate::flags::{Bits, Unpark};
use crate::steps::{
    ClosedMark, Drained, IdleBits, InVain, MarkSeen, Put, Source, Spent, Wake, look, push, sleep,
    was_closed,
};
use std::array;
use std::marker::Model;
use std::sync::Wait;
use std::sync::atomic::AtomicU32;
use std::thread::Parker;
use std::time::Duration;

/// Up to 32 ends: which of them are idle, and what wakes each.
#[derive(Drop)]
pub struct IdleEnds<U = Parker, W = AtomicU32> {
    pub(crate) idle: IdleBits<W>,
    mark: ClosedMark<W>,
    parkers: [U; 32],
}

/// An end's own bit and parker, as [`EndNumbers`] gave it. It cannot be copied. Two threads may not share one.
#[derive(Drop)]
pub struct EndNumber {
    pub(crate) number: usize,
    // Private, so that only `next` makes one.
    made: (),
    ghost few: { number < 32 },
}

/// What gives each number once.
#[derive(Drop)]
pub struct EndNumbers {
    given: usize,
}

impl Model for EndNumbers {
    ghost use Rattle.std.specs.Prelude.{ℕ};

    ghost Value = { ℕ };

    ghost view = { λ n. n.given };
}

impl EndNumbers {
    /// The number of a further end.
    pub fn next(&mut self) -> EndNumber
        requires { self.old < 32 }
        ensures number { result.number ≡ self.old }
        ensures given { self.new ≡ self.old + 1 }
    {
        let number = self.given;
        self.given += 1;
        EndNumber { number, made: () }
    }
}

/// Shows that a queue was closed: it was marked so, and then every end was woken. Only a close makes one.
#[derive(Drop)]
pub struct Closed {
    seen: MarkSeen,
    ghost closed: { seen.closed ≡ true },
}

impl IdleEnds {
    /// The ends of an open queue, all awake, and their numbers.
    pub fn new() -> (IdleEnds, EndNumbers)
        ensures { result.1 ≡ 0 }
    {
        let ends = IdleEnds {
            idle: IdleBits::new(),
            mark: ClosedMark::new(),
            parkers: array::from_fn(|_end| Parker::new()),
        };
        (ends, EndNumbers { given: 0 })
    }

    /// Rests, unless the queue is closed. No put ends that, since the end has not announced itself.
    pub fn rest(&self, rt: &impl Wait, end: &EndNumber, time: Duration) {
        if !self.mark.read(&mut ()).is_closed() {
            self.parkers[end.number].park_timeout(rt, time);
        }
    }
}

impl<U: Unpark<Acts = ()>, W: Bits<Acts = ()>> IdleEnds<U, W> {
    /// Looks until something is found, and sleeps while there is nothing.
    pub fn take<L: Source>(
        &self,
        rt: &impl Wait,
        end: &EndNumber,
        line: &mut L,
    ) -> Result<L::Found, Drained<L::Nothing>>
        ensures found { IfOk result (λ it. L.found (L.state line.old) it (L.state line.new)) }
        ensures none { IfErr result (λ drained. (L.state line.new ≡ L.state line.old)
            × L.held_none line.new drained.nothing) }
        ensures closed { OnErr result (W.did (ReadBits 1) self.now.mark.0 tt tt) }
    {
        for _look in rt.forever() {
            let vain = match look(rt, self.mark.read(&mut ()), line) {
                Ok((it, _)) => return Ok(it),
                Err(vain) => vain,
            };
            match was_closed(vain) {
                Ok(drained) => return Err(drained),
                Err(vain) => {
                    if let Some(it) = self.look_or_park(rt, end, line, vain) {
                        return Ok(it);
                    }
                }
            }
        }
        unreachable!()
    }

    // Announces that the end is idle, looks again, and parks if there is nothing. If it found something, and another
    // thread had spent a wake on this end, the wake is passed on.
    fn look_or_park<L: Source>(
        &self,
        rt: &impl Wait,
        end: &EndNumber,
        line: &mut L,
        vain: InVain<MarkSeen, L::Nothing>,
    ) -> Option<L::Found>
        requires open { vain.0.closed ≢ true }
        ensures found { IfSome result (λ it. L.found (L.state line.old) it (L.state line.new)) }
        ensures none { IfNone result (L.state line.new ≡ L.state line.old) }
        ensures announced { (before : ℕ) × W.did (SetBits (bit_of end.now.number) before) self.now.idle.0 tt tt }
        ensures cleared { (before : ℕ) × W.did (ClearedBits (bit_of end.now.number) before) self.now.idle.0 tt tt }
    {
        match look(rt, self.idle.announce(&mut (), end, vain), line) {
            Ok((it, looked)) => {
                if let Some(wake) = self.idle.withdraw(&mut (), looked) {
                    self.wake_one(rt, wake);
                }
                Some(it)
            }
            Err(vain) => {
                let slept = sleep(rt, &mut (), vain, &self.parkers);
                self.idle.rise(&mut (), slept);
                None
            }
        }
    }

    /// Puts an item, and then wakes the idle end with the lowest number for it, if any is idle. Who puts it does not
    /// come back for one.
    pub fn put<T, L: Put<T>>(
        &self,
        rt: &impl Wait,
        line: &mut L,
        item: T,
    ) -> Result<Spent, L::Refused>
        ensures put { OnOk result (L.did_put line.old item line.new) }
        ensures woken { IfOk result (λ spent. IfSome spent.0 (λ end. IsSomeAnd (slice_get self.now.parkers end) U.unparked)) }
        ensures refused { IfErr result (λ why. L.refused line.old item why line.new) }
    {
        let wake = push(rt, line, item)?;
        Ok(self.wake_one(rt, wake))
    }

    fn wake_one(&self, rt: &impl Wait, owed: Wake<W>) -> Spent
        ensures { IfSome result.0 (λ end. IsSomeAnd (slice_get self.now.parkers end) U.unparked) }
    {
        let mut wake = owed;
        for _look in rt.forever() {
            let (end, same) = match self.idle.look_for(&mut (), wake) {
                Ok(found) => found,
                Err(spent) => return spent,
            };
            wake = match self.idle.wake(&mut (), end, same, &self.parkers) {
                Ok(spent) => return spent,
                // It was woken for another item, or has withdrawn.
                Err(same) => same,
            };
        }
        unreachable!()
    }

    /// Sets the mark, and then wakes every end.
    pub fn close(&self) -> Closed
        ensures { All U.unparked self.now.parkers }
    {
        let seen = self.mark.set(&mut ());
        wake_all(seen, &self.parkers)
    }
}

// Wakes every end, once the mark is set.
fn wake_all<U: Unpark>(seen: MarkSeen, parkers: &[U]) -> Closed
    requires { seen.closed ≡ true }
    ensures { All U.unparked parkers.now }
{
    for parker in parkers {
        parker.give();
    }
    Closed { seen }
}
