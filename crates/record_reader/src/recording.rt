//! A recording, as it is read.
ghost use Rattle.std.specs.Prelude.{◌≡◌};
ghost use Rattle.record_reader.specs.Sequences.{records_at, records_of};

use crate::order::is_of_wait;
use crate::reading::{Rest, fault_of, wanted};
use record_lines::{Act, Header, Polling, Record};
use sizes::{Split, pollers_for};
use std::alloc::{AllocError, Global};
use tools::ReplayFault;

/// A record, and its line in the file, from 1.
#[derive(Clone, Copy)]
pub struct Numbered {
    pub line: u64,
    pub record: Record,
}

/// How a recording ends.
#[derive(Clone, Copy)]
pub enum Last {
    /// The relay was stopped, so the recording is a beginning.
    Stopped,
    /// A record found no room, so the recording is a beginning.
    Full,
    /// The relay ended, and everything is recorded.
    Ended,
}

/// What a file says.
#[derive(Drop)]
pub struct Recording {
    pub alloc: Global,
    pub header: Header,
    /// Which slots are which poller's.
    pub split: Split,
    /// A list for each slot, of openings, turns, calls and drops; after them one for each poller, of all that it did;
    /// and one of what belongs to neither: readings of the clock, and the last record.
    pub lists: Vec<Vec<Numbered>>,
    pub last: Last,
    /// The count after the first wait for reports that failed, if one did: then the relay ended before all was done.
    pub failed: Option<u64>,
    /// The first count of no record. What ended before it is all recorded.
    pub whole: u64,
    /// How many records after the first lost one are left out.
    pub left_out: usize,
    /// The counts of records that are left out, since the file follows other parts.
    pub early: Vec<u64>,
    /// What is not in the lists.
    pub rest: Rest,
}

/// How the slots are dealt in a relay of these sizes, if there is such a relay.
pub(crate) fn split_of(header: &Header) -> Option<Split> {
    let (slots, workers) = (header.slots, header.workers);
    if slots == 0 || slots > 4_096 || workers == 0 || workers > 16 {
        return None;
    }
    let split = Split::new(slots, pollers_for(slots, workers));
    if split.pollers() == header.pollers {
        Some(split)
    } else {
        None
    }
}

impl Recording {
    /// The recording of a relay of these sizes, without any record.
    pub(crate) fn new(
        alloc: Global,
        header: Header,
        split: Split,
    ) -> Result<Recording, AllocError> {
        let Header { slots, pollers, .. } = header;
        let count = slots.saturating_add(pollers).saturating_add(1);
        Ok(Recording {
            alloc,
            header,
            split,
            lists: lists(alloc, count)?,
            last: Last::Stopped,
            failed: None,
            whole: 0,
            left_out: 0,
            early: Vec::new(alloc),
            rest: Rest {
                cut: None,
                left_out: None,
            },
        })
    }

    /// Adds a record to its list. An opening has two.
    pub(crate) fn add(&mut self, line: u64, record: Record) -> Result<(), AllocError> {
        match record.act {
            Act::Ended => self.last = Last::Ended,
            Act::Full => self.last = Last::Full,
            Act::Poller(_, Polling::Failed) => {
                let first = self.failed.unwrap_or(u64::MAX);
                self.failed = Some(first.min(record.after));
            }
            Act::Poller(_, Polling::Open(slot, _, _)) => {
                add(self.lists.as_mut_slice(), slot, Numbered { line, record })?;
            }
            _ => {}
        }
        let at = self.list_of(&record.act);
        add(self.lists.as_mut_slice(), at, Numbered { line, record })
    }

    /// The first count that the file can have all records of: 0, if it follows no other part.
    pub fn base(&self) -> u64 {
        match self.header.from {
            Some(from) => from.saturating_add(1),
            None => 0,
        }
    }

    /// A record that is left out has these counts.
    pub(crate) fn leave_out(&mut self, record: &Record) -> Result<(), AllocError> {
        if is_of_wait(&record.act) {
            return Ok(());
        }
        for count in [record.before, record.after] {
            if count >= self.base() {
                self.early.push(count)?;
            }
        }
        Ok(())
    }

    /// The list of an act: of an opening, its poller's.
    fn list_of(&self, act: &Act) -> usize {
        match *act {
            Act::Poller(poller, _) => self.at_poller(poller),
            Act::Begin(slot) | Act::End(slot) => slot,
            Act::Wire(token, _) => token.slot(),
            Act::Second(_) | Act::Ended | Act::Full => self.at_poller(self.header.pollers),
        }
    }

    /// The fault of the line with this number, of which `text` is wanted.
    pub fn broken(&self, line: u64, text: &'static str) -> ReplayFault {
        fault_of(self.alloc, line, wanted(text))
    }

    /// Whether the relay had failed before this count.
    pub fn has_failed(&self, count: u64) -> bool {
        matches!(self.failed, Some(failed) if failed < count)
    }

    /// What happened at a slot.
    pub fn slot(&self, slot: usize) -> &[Numbered]
        ensures { result.now ≡ records_of self.now slot }
    {
        if slot < self.header.slots {
            self.list(slot)
        } else {
            &[]
        }
    }

    /// The number of a poller's list.
    pub fn at_poller(&self, poller: usize) -> usize {
        self.header.slots.saturating_add(poller)
    }

    /// What a poller did.
    pub fn poller(&self, poller: usize) -> &[Numbered] {
        self.list(self.at_poller(poller))
    }

    /// What is of no slot and of no poller.
    pub fn others(&self) -> &[Numbered] {
        self.poller(self.header.pollers)
    }

    pub(crate) fn list(&self, at: usize) -> &[Numbered]
        ensures { result.now ≡ records_at self.now at }
    {
        match self.lists.get(at) {
            Some(list) => list.as_slice(),
            None => &[],
        }
    }
}

pub(crate) fn lists<T: Drop>(alloc: Global, count: usize) -> Result<Vec<Vec<T>>, AllocError> {
    let mut lists = Vec::new(alloc);
    for _list in 0..count {
        lists.push(Vec::new(alloc))?;
    }
    Ok(lists)
}

/// Adds to the list with this number, if there is one.
pub(crate) fn add<T: Copy>(lists: &mut [Vec<T>], at: usize, item: T) -> Result<(), AllocError> {
    match lists.get_mut(at) {
        Some(list) => Ok(list.push(item)?),
        None => Ok(()),
    }
}

/// Puts acts in the order of the counts before them.
pub(crate) fn sort(acts: &mut Vec<Numbered>) -> Result<(), AllocError> {
    Ok(acts.sort_by_key(|act: &Numbered| act.record.before)?)
}

/// Of these acts, which are in order, those that had begun before this count.
pub fn begun_before(acts: &[Numbered], count: u64) -> &[Numbered] {
    acts.get(..count_before(acts, count, false)).unwrap_or(&[])
}

/// How many of these acts, which are in order, had begun before this count, or `ended` before it.
pub(crate) fn count_before(acts: &[Numbered], count: u64, ended: bool) -> usize {
    acts.partition_point(|act| {
        let at = if ended {
            act.record.after
        } else {
            act.record.before
        };
        at < count
    })
}

/// Whether this record is in another list, too: an opening, in its slot's list (`of_slot`).
pub(crate) fn is_twice(of_slot: bool, act: &Act) -> bool {
    of_slot && matches!(act, Act::Poller(_, _))
}
