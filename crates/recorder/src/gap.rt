// Where records are lost. Each step gives the value that the next one asks for, and nothing else makes it.
ghost use Rattle.std.specs.Prelude.{◌≡◌, IfOk, IfSome};

use crate::lines::Lines;
use crate::queue::{MAX_RUN, QUEUES, RecordQueue};
use record_lines::{Act, Parts, Record};
use std::io;
use std::sync::Wait;
use std::sync::atomic::AtomicU64;
use std::sync::atomic::Ordering::SeqCst;

/// How often a record found no room, or could not be written, plus how often the writer had recording go on. Odd: no
/// act that begins now is recorded.
#[derive(Drop)]
pub(crate) struct Breaks(AtomicU64);

/// What was read of [`Breaks`] before no record waited. Only [`write_some`] makes one.
#[derive(Drop)]
pub(crate) struct NoneWaits(u64);

/// Recording goes on. Only [`Breaks::go_on`] makes one.
pub(crate) struct GoesOn(());

/// The record `full`. What was lost, or is not recorded, had begun before its counts.
#[derive(Drop)]
pub(crate) struct Full(pub(crate) Record, ());

impl Breaks {
    pub(crate) fn none() -> Breaks {
        Breaks(AtomicU64::new(0))
    }

    pub(crate) fn read(&self) -> u64 {
        self.0.load(SeqCst)
    }

    /// Returns true if acts were recorded until now.
    pub(crate) fn stop(&self) -> bool {
        self.0.fetch_or(1, SeqCst) % 2 == 0
    }

    pub(crate) fn go_on(&self, NoneWaits(seen): NoneWaits) -> Option<GoesOn> {
        if seen % 2 == 0 {
            return None;
        }
        self.0.fetch_add(1, SeqCst);
        Some(GoesOn(()))
    }
}

pub(crate) fn full_after(GoesOn(()): GoesOn, queue: &RecordQueue) -> Full {
    Full(queue.record_of(Act::Full), ())
}

/// Writes up to [`MAX_RUN`] records of each queue. Some: there was none. Without the limit, threads that record as fast
/// as it writes could hold it at one queue while the others fill.
pub(crate) fn write_some<R: Wait, P: Parts>(
    rt: &R,
    queue: &RecordQueue,
    seen: u64,
    lines: &mut Lines<P>,
) -> io::Result<Option<NoneWaits>>
    ensures { IfOk result (λ none. IfSome none (λ none_waits. none_waits.0 ≡ seen)) }
{
    let mut some = false;
    for at in 0..QUEUES {
        for _record in 0..MAX_RUN {
            let Some(record) = queue.waiting.take(rt, at) else {
                break;
            };
            lines.put(&record)?;
            some = true;
        }
    }
    Ok(if some { None } else { Some(NoneWaits(seen)) })
}
