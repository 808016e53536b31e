// The queues of waiting records.
ghost use Rattle.std.specs.Prelude.{◌≡◌, IfOk, replicate};

use crate::gap::{Breaks, Full, NoneWaits, full_after};
use crate::recorder::Sink;
use crossbeam_queue::ArrayQueue;
use crossbeam_utils::CachePadded;
use log::{Log, warn};
use record_lines::{Act, Record};
use sizes::Split;
use statistics::Statistics;
use std::alloc::{AllocError, Global};
use std::sync::atomic::AtomicU64;
use std::sync::atomic::Ordering::SeqCst;
use std::sync::{Arc, Wait};
use std::time::{Clock, Duration, Instant};
use writer_queue::{Drained, ParkedQueue};

/// How many queues there are. Each poller uses one, with its slots, so that threads seldom meet at one.
pub const QUEUES: usize = 4;

/// The most records that wait in a queue.
pub const MAX_RECORDS: usize = 131_072;

/// The most records of one queue that are written before the next queue is looked at.
pub(crate) const MAX_RUN: usize = 256;

/// How long the writer rests after it found records, so that those who record meanwhile need not wake it.
pub(crate) fn soon() -> Duration {
    Duration::from_millis(2)
}

/// The records that wait for the thread that writes, and the count that says when an act was. The records of a poller,
/// and of its slots, wait in one of [`QUEUES`] queues, in order.
#[derive(Drop)]
pub struct RecordQueue {
    pub(crate) waiting: ParkedQueue<Record, QUEUES>,
    split: Split,
    /// When the recording began. None if the clock could not be read.
    began: Option<Instant>,
    /// Each act changes it, so it shares no cache line with what each act only looks at.
    count: CachePadded<AtomicU64>,
    pub(crate) breaks: Breaks,
    in_parts: bool,
    /// Where records that are lost are counted.
    statistics: Option<Arc<Statistics>>,
}

impl RecordQueue {
    /// Empty queues for a relay whose pollers have these slots. `in_parts`: once records were lost, recording goes on
    /// in another part. What is lost is counted in the statistics, if there are any. No later call takes memory.
    pub fn new(
        rt: &impl Clock,
        alloc: Global,
        split: Split,
        in_parts: bool,
        statistics: Option<Arc<Statistics>>,
    ) -> Result<RecordQueue, AllocError>
        ensures room { IfOk result (λ made. made.waiting ≡ replicate 4 131072) }
    {
        Ok(RecordQueue {
            waiting: ParkedQueue::new([
                ArrayQueue::new(alloc, MAX_RECORDS)?,
                ArrayQueue::new(alloc, MAX_RECORDS)?,
                ArrayQueue::new(alloc, MAX_RECORDS)?,
                ArrayQueue::new(alloc, MAX_RECORDS)?,
            ]),
            split,
            began: Instant::now(rt).ok(),
            count: CachePadded::new(AtomicU64::new(0)),
            breaks: Breaks::none(),
            in_parts,
            statistics,
        })
    }

    /// Takes this many values of the count, and returns the first. None comes twice before the count has gone round.
    pub(crate) fn next(&self, count: u64) -> u64 {
        self.count.fetch_add(count, SeqCst)
    }

    /// The microseconds since the recording began: 0 if the clock cannot be read.
    fn time(&self, rt: &impl Clock) -> u64 {
        let Some(began) = self.began else {
            return 0;
        };
        match began.elapsed(rt) {
            Ok(time) => u64::try_from(time.as_micros()).unwrap_or(u64::MAX),
            Err(_) => 0,
        }
    }

    fn is_over(&self) -> bool {
        self.breaks.read() % 2 == 1
    }

    /// Whether an act that begins now is recorded. If not, its record is lost.
    fn goes_on(&self) -> bool {
        let is_over = self.is_over();
        if is_over {
            self.lose();
        }
        !is_over
    }

    /// Counts a record that is lost.
    fn lose(&self) {
        if let Some(statistics) = &self.statistics {
            statistics.lose(&mut ());
        }
    }

    /// Ends the recording early. Returns false if a record that found no room had ended it.
    pub(crate) fn stop(&self) -> bool {
        self.breaks.stop() || self.in_parts
    }

    /// Puts a record after the others. Returns whether it waits there, and whether it is the first for which there was
    /// no room: from then on nothing is recorded, in parts until the writer has written what waits.
    fn put(&self, rt: &impl Wait, record: &Record) -> (bool, bool) {
        if self.put_one(rt, record) {
            return (true, false);
        }
        // If recording has gone on meanwhile, the next part ends, too.
        if !self.breaks.stop() {
            return (false, false);
        }
        if self.in_parts {
            // After a record the writer looks at `breaks`. If there is no room still, records wait, and it will look.
            return (self.put_one(rt, record), true);
        }
        self.waiting.close();
        (false, true)
    }

    fn put_one(&self, rt: &impl Wait, record: &Record) -> bool {
        let at = self.poller_of(&record.act) % QUEUES;
        self.waiting.put(rt, at, *record).is_some()
    }

    /// In parts, once records were lost and what waited is written: has recording go on, and returns the record after
    /// which the next part begins.
    pub(crate) fn go_on(&self, none_waits: NoneWaits) -> Option<Full> {
        if !self.in_parts {
            return None;
        }
        Some(full_after(self.breaks.go_on(none_waits)?, self))
    }

    /// The poller that did the act, or has its slot. 0 if there is neither.
    fn poller_of(&self, act: &Act) -> usize {
        match act {
            Act::Poller(poller, _) => *poller,
            Act::Begin(slot) | Act::End(slot) => self.split.poller_of(*slot),
            Act::Wire(token, _) => self.split.poller_of(token.slot()),
            Act::Second(_) | Act::Ended | Act::Full => 0,
        }
    }

    /// Lets the writer end once every record is written, and wakes it. What is put later may not be written.
    pub fn close(&self) {
        self.waiting.close();
    }

    /// The last record: that some were lost, or that all is recorded, in parts all since the last gap. `_drained`: the
    /// queues were closed and then found empty.
    pub(crate) fn last(&self, _drained: Drained) -> Record {
        let is_over = self.is_over();
        self.record_of(if is_over { Act::Full } else { Act::Ended })
    }

    /// A record with the next two counts.
    pub(crate) fn record_of(&self, act: Act) -> Record {
        let (before, after) = (self.next(1), self.next(1));
        Record { before, after, act }
    }
}

/// A thread's handle on the queues. `rt` is for them and for the log.
#[derive(Drop)]
pub struct QueueSink<'r, R> {
    rt: &'r R,
    queue: &'r RecordQueue,
    // The count after the last record that was lost here.
    lost: Option<u64>,
}

impl<'r, R> QueueSink<'r, R> {
    /// A handle for one thread.
    pub fn new(rt: &'r R, queue: &'r RecordQueue) -> QueueSink<'r, R> {
        QueueSink {
            rt,
            queue,
            lost: None,
        }
    }
}

impl<R: Log> QueueSink<'_, R> {
    fn warn(&self) {
        let what = if self.queue.in_parts {
            "some are lost, and another part begins"
        } else {
            "the recording ends here"
        };
        warn!(self.rt; target: "relayd", "record: records came faster than they were written, so {what}");
    }
}

impl<R: Wait + Log + Clock> Sink for QueueSink<'_, R> {
    ghost did = { λ _ _ _. Unit {0} };

    fn begin(&mut self) -> Option<u64> {
        self.queue.goes_on().then(|| self.queue.next(1))
    }

    fn time(&mut self) -> u64 {
        self.queue.time(self.rt)
    }

    fn end(&mut self) -> u64 {
        self.queue.next(1)
    }

    fn at_once(&mut self) -> Option<(u64, u64)> {
        if !self.queue.goes_on() {
            return None;
        }
        let before = self.queue.next(2);
        Some((before, before.wrapping_add(1)))
    }

    fn put(&mut self, item: Record) {
        // With a wait that is lost go its time and its reports, which have its counts: none is without its wait.
        if self.lost == Some(item.after) {
            self.queue.lose();
            return;
        }
        let (waits, is_first) = self.queue.put(self.rt, &item);
        if !waits {
            self.lost = Some(item.after);
            self.queue.lose();
        }
        if is_first {
            self.warn();
        }
    }

    fn another(&self) -> Self {
        QueueSink::new(self.rt, self.queue)
    }
}
