// What a recording lacks once a queue of its records is full, as it is in no run for sure.
use crate::all_well;
use log::Log;
use record_lines::{Act, Header, Parts, Polling, Record};
use recorder::{MAX_RECORDS, QueueSink, RecordQueue, Sink, write_records};
use sizes::Split;
use statistics::Statistics;
use std::cell::Cell;
use std::io;
use std::sync::{Arc, Wait};
use std::test::Fail;

/// A file that only counts its lines.
#[derive(Drop)]
struct Lines<'a>(&'a Cell<usize>);

impl Parts for Lines<'_> {
    fn add(&mut self, _line: &[u8]) -> io::Result<()> {
        self.0.set(self.0.get().saturating_add(1));
        Ok(())
    }

    fn begin_next(&mut self) -> io::Result<()> {
        Ok(())
    }

    fn flush(&mut self) -> io::Result<()> {
        Ok(())
    }
}

/// How many lines are written of what waits, less the header and `full`.
fn written<R: Wait + Log>(rt: &R, queue: &RecordQueue) -> usize {
    let lines = Cell::new(0);
    let header = Header {
        slots: 1,
        pollers: 1,
        workers: 1,
        ring: 1,
        budget: 4,
        idle: 0,
        proxy: false,
        from: None,
    };
    write_records(rt, queue, header, u64::MAX, Lines(&lines));
    lines.get().saturating_sub(2)
}

fn put(sink: &mut impl Sink, wait: usize, polling: Polling) {
    let (count, act) = (wait as u64, Act::Poller(0, polling));
    sink.put(Record {
        before: count,
        after: count,
        act,
    });
}

// refuses report_without_its_wait: of a wait that found no room the reports are recorded, if there is room again
// refuses refused_record_is_not_counted: a record that found no room does not count as lost
#[test]
fn with_a_wait_that_is_lost_go_its_reports(rt: HostRuntime) -> Result<(), Fail> {
    let statistics = Arc::new(rt.alloc(), Statistics::new(rt.alloc(), 1)?)?;
    let counts = Some(Arc::try_clone(&statistics)?);
    let queue = RecordQueue::new(&rt, rt.alloc(), Split::new(1, 1), false, counts)?;
    let mut sink = QueueSink::new(&rt, &queue);
    for wait in 0..=MAX_RECORDS {
        put(&mut sink, wait, Polling::Gave(1));
    }
    let waited = written(&rt, &queue);
    put(&mut sink, MAX_RECORDS, Polling::Time(1));
    let lost = statistics.totals(&mut ()).levels.lost;
    all_well(Ok(waited == MAX_RECORDS && written(&rt, &queue) == 0 && lost == 2))
}
