//! What is known of a recording by its records so far: when an act was, by the last wait before it.

use record_lines::{Act, Polling, Record};
use record_reader::Sizes;
use std::alloc::{AllocError, Global};

/// When each poller's last wait that gave reports was, as far as records are read. A poller and the slots that are its
/// own record into one queue. So an act is not before the time that stands before it.
#[derive(Drop)]
pub(crate) struct Moments {
    /// None before the first line.
    sizes: Option<Sizes>,
    /// How many slots the relay has, and whether a target is first sent a line.
    pub slots: usize,
    pub has_lead: bool,
    times: Vec<u64>,
    /// Whether a time was read.
    has_time: bool,
    /// The count after the first wait for reports that failed.
    pub failed: Option<u64>,
}

impl Moments {
    /// Nothing was read.
    pub(crate) fn new(alloc: Global) -> Moments {
        Moments {
            sizes: None,
            slots: 0,
            has_lead: false,
            times: Vec::new(alloc),
            has_time: false,
            failed: None,
        }
    }

    /// The first line was read: no wait has given reports yet.
    pub(crate) fn begin(&mut self, sizes: Sizes) -> Result<(), AllocError> {
        self.sizes = Some(sizes);
        self.slots = sizes.header.slots;
        self.has_lead = sizes.header.proxy;
        self.times.resize(sizes.header.pollers, 0)
    }

    /// The next record is this one.
    pub(crate) fn take(&mut self, record: &Record) {
        match record.act {
            Act::Poller(poller, Polling::Time(micros)) => {
                self.has_time = true;
                if let Some(time) = self.times.get_mut(poller) {
                    *time = micros;
                }
            }
            Act::Poller(_, Polling::Failed) => {
                let first = self.failed.unwrap_or(u64::MAX);
                self.failed = Some(first.min(record.after));
            }
            _ => {}
        }
    }

    /// The time of an act at this slot: 0 before the first wait that gave reports.
    pub(crate) fn at(&self, slot: usize) -> u64 {
        match &self.sizes {
            Some(sizes) => self
                .times
                .get(sizes.split.poller_of(slot))
                .copied()
                .unwrap_or(0),
            None => 0,
        }
    }

    /// The last time of all. None if no time was read.
    pub(crate) fn last(&self) -> Option<u64> {
        let mut last = 0;
        for time in self.times.as_slice() {
            last = last.max(*time);
        }
        self.has_time.then_some(last)
    }
}
