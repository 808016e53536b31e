//! What was done for one connection, record by record, and what its rings held.
use crate::entry::{Entry, opened, whose};
use crate::moments::Moments;
use crate::writing::{flush, not_there, with_opened, write, write_left_out};
use record_lines::{Act, Record};
use record_reader::{Sizes, Take, read_each};
use std::alloc::{AllocError, Global};
use std::io::{Read, Write};
use tools::{Judged, ReplayFault};

/// How many lines are written at once.
const AT_ONCE: usize = 256;

/// The records of one connection.
#[derive(Drop)]
struct Course {
    alloc: Global,
    slot: usize,
    generation: u64,
    /// Whether it is the last connection that was opened in the slot; the generations of the first one and of that.
    is_last: bool,
    there: Option<(u64, u64)>,
    /// Each record, and its time.
    records: Vec<(Record, u64)>,
    moments: Moments,
}

/// Writes the records of a connection in the order of their counts, each with the bytes that its rings hold then, and
/// what has become of it. Refuses with `Unknown` if it was not opened. Takes memory for its records.
pub(crate) fn write_timeline<R: Read, W: Write>(
    alloc: Global,
    input: &mut R,
    slot: usize,
    generation: u64,
    output: &mut W,
) -> Result<Judged, ReplayFault> {
    let mut course = Course {
        alloc,
        slot,
        generation,
        is_last: false,
        there: None,
        records: Vec::new(alloc),
        moments: Moments::new(alloc),
    };
    let outcome = course.follow(input, output);
    drop(course);
    outcome
}

impl Take for Course {
    fn begin(&mut self, sizes: Sizes) -> Result<(), AllocError> {
        self.moments.begin(sizes)
    }

    fn take(&mut self, _line: u64, record: Record) -> Result<(), AllocError> {
        self.moments.take(&record);
        let is_its = match opened(&record.act) {
            Some((slot, generation)) => slot == self.slot && self.open(generation),
            None => !self.records.is_empty() && self.has(&record.act),
        };
        if is_its {
            let at = self.moments.at(self.slot);
            self.records.push((record, at))?;
        }
        Ok(())
    }

    fn leave_out(&mut self, record: Record) -> Result<(), AllocError> {
        self.moments.take(&record);
        Ok(())
    }
}

impl Course {
    fn follow<R: Read, W: Write>(
        &mut self,
        input: &mut R,
        output: &mut W,
    ) -> Result<Judged, ReplayFault> {
        let rest = read_each(self.alloc, input, self)?;
        if self.records.is_empty() {
            let slots = self.moments.slots;
            return Err(not_there(self.alloc, slots, self.slot, self.generation, self.there));
        }
        write_left_out(output, self.alloc, rest.left_out)?;
        self.records
            .sort_by_key(|timed: &(Record, u64)| timed.0.before)?;
        self.write(output)
    }

    /// A connection is opened in the slot. Returns whether it is the one.
    fn open(&mut self, generation: u64) -> bool {
        self.there = Some(with_opened(self.there, generation));
        self.is_last = generation == self.generation;
        self.is_last
    }

    /// Whether an act is one of its turns or of its ends, or a report of these.
    fn has(&self, act: &Act) -> bool {
        match whose(act) {
            Some((slot, Some(generation))) => slot == self.slot && generation == self.generation,
            Some((slot, None)) => slot == self.slot && self.is_last,
            None => false,
        }
    }

    fn write<W: Write>(&self, output: &mut W) -> Result<Judged, ReplayFault> {
        let opened = match self.records.as_slice() {
            [(_, at), ..] => *at,
            [] => 0,
        };
        let mut entry = Entry::new(self.slot, self.generation, self.moments.has_lead, opened);
        for records in self.records.as_slice().chunks(AT_ONCE) {
            write(output, self.lines(&mut entry, records))?;
        }
        write(
            output,
            entry.line(self.alloc, self.moments.failed, self.moments.last()),
        )?;
        flush(output, Judged::Run)
    }

    /// The lines of the next records, each with what the rings hold then.
    fn lines(&self, entry: &mut Entry, records: &[(Record, u64)]) -> Result<String, AllocError> {
        let has_times = self.moments.last().is_some();
        let mut text = String::new(self.alloc);
        for (record, at) in records {
            entry.add(record, *at);
            add_line(&mut text, record, entry, has_times.then_some(*at))?;
        }
        Ok(text)
    }
}

fn add_line(
    text: &mut String,
    record: &Record,
    entry: &Entry,
    at: Option<u64>,
) -> Result<(), AllocError> {
    let (up, down) = (entry.account.ring_up(), entry.account.ring_down());
    write!(text, "{record} ring={up},{down}")?;
    match at {
        Some(at) => writeln!(text, " at_us={at}"),
        None => writeln!(text),
    }
}
