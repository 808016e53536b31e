//! A recording is read line by line, so that its text is never all in memory.
use crate::beginning::{Beginning, LeftOut};
use crate::recording::{Recording, split_of};
use record_lines::{
    Act, Header, MAX_RECORD, Made, Polling, Record, Wrong, is_header, read_header, read_line,
};
use sizes::Split;
use std::alloc::{AllocError, Global};
use std::io::Read;
use token::Name;
use tools::ReplayFault;

const CHUNK: usize = 65_536;

/// The most bytes of a line: the first one has no more either.
const MAX_LINE: usize = MAX_RECORD + 64;

/// The most bytes of a wrong word that a person is shown.
const MAX_SHOWN: usize = 64;

/// What is handed the records of a file, one after the other, so that they are never all in memory.
pub trait Take {
    /// The first line was read.
    fn begin(&mut self, sizes: Sizes) -> Result<(), AllocError>;

    /// The record of the line with this number was read.
    fn take(&mut self, line: u64, record: Record) -> Result<(), AllocError>;

    /// This record was read, and is left out, since the file follows other parts of its recording.
    fn leave_out(&mut self, record: Record) -> Result<(), AllocError>;
}

/// What was not handed on of a file.
#[derive(Clone, Copy)]
pub struct Rest {
    /// The number of the last line, if it is cut off.
    pub cut: Option<u64>,
    /// What is left out of a file that follows other parts of its recording.
    pub left_out: Option<LeftOut>,
}

/// The sizes of a relay, and how it deals its slots.
#[derive(Clone, Copy)]
pub struct Sizes {
    pub header: Header,
    pub split: Split,
}

#[derive(Drop)]
struct Lines {
    alloc: Global,
    sizes: Option<Sizes>,
    /// Whether the record `end` or `full` was read.
    is_over: bool,
    number: u64,
    /// The greatest count so far, also of the parts before.
    greatest: u64,
    /// Of a file that follows other parts.
    late: Option<Beginning>,
}

/// Makes a recording of what was read.
#[derive(Drop)]
struct Whole {
    alloc: Global,
    recording: Option<Recording>,
}

impl Take for Whole {
    fn begin(&mut self, sizes: Sizes) -> Result<(), AllocError> {
        self.recording = Some(Recording::new(self.alloc, sizes.header, sizes.split)?);
        Ok(())
    }

    fn take(&mut self, line: u64, record: Record) -> Result<(), AllocError> {
        match &mut self.recording {
            Some(recording) => recording.add(line, record),
            None => Ok(()),
        }
    }

    fn leave_out(&mut self, record: Record) -> Result<(), AllocError> {
        match &mut self.recording {
            Some(recording) => recording.leave_out(&record),
            None => Ok(()),
        }
    }
}

/// Reads a recording to its end. Refuses with `Broken` the first line that is none of a recording.
pub fn read<R: Read>(alloc: Global, reader: &mut R) -> Result<Recording, ReplayFault> {
    let mut whole = Whole {
        alloc,
        recording: None,
    };
    let rest = read_each(alloc, reader, &mut whole)?;
    match whole.recording {
        Some(mut recording) => {
            recording.rest = rest;
            Ok(recording)
        }
        None => Err(fault_of(alloc, 1, wanted(FIRST))),
    }
}

/// What is wanted of a file's first line.
const FIRST: &str = "a recording begins with relayd recording 1";

/// Hands on each record of a file. Where it has several parts, one after the other, each must follow the one before it;
/// if the first follows others, what these may have the beginning of is left out. Refuses with `Broken` the first line
/// that is none of a recording.
pub fn read_each<R: Read, T: Take>(
    alloc: Global,
    reader: &mut R,
    taker: &mut T,
) -> Result<Rest, ReplayFault> {
    let mut buffer = vec![in alloc; 0u8; CHUNK]?;
    let mut line = Vec::new(alloc);
    let mut lines = Lines {
        alloc,
        sizes: None,
        is_over: false,
        number: 1,
        greatest: 0,
        late: None,
    };
    lines.take_all(reader, buffer.as_mut_slice(), &mut line, taker)
}

impl Lines {
    fn take_all<R: Read, T: Take>(
        &mut self,
        reader: &mut R,
        buffer: &mut [u8],
        line: &mut Vec<u8>,
        taker: &mut T,
    ) -> Result<Rest, ReplayFault> {
        for _reads in 0..u64::MAX {
            match reader.read(buffer) {
                Ok(0) => break,
                Ok(count) => self.take(&buffer[..count], line, taker)?,
                Err(_) => return Err(ReplayFault::Read),
            }
        }
        self.rest(!line.is_empty())
    }

    /// What is not handed on, once all is read. `is_cut`: the last line has no end.
    fn rest(&self, is_cut: bool) -> Result<Rest, ReplayFault> {
        if self.sizes.is_none() {
            if self.number == 1 && !is_cut {
                return Err(fault(format!(in self.alloc; "is empty")));
            }
            return Err(fault_of(self.alloc, self.number, wanted(FIRST)));
        }
        let cut = is_cut.then_some(self.number);
        let left_out = match &self.late {
            Some(late) if late.has_nothing() => {
                let many = late.left_out.records;
                let why = "are left out: the beginning is missing";
                return Err(fault(format!(in self.alloc; "all {many} records {why}")));
            }
            Some(late) => Some(late.left_out),
            None => None,
        };
        Ok(Rest { cut, left_out })
    }

    fn take<T: Take>(
        &mut self,
        bytes: &[u8],
        line: &mut Vec<u8>,
        taker: &mut T,
    ) -> Result<(), ReplayFault> {
        for byte in bytes {
            if *byte == b'\n' {
                self.end_line(line.as_slice(), taker)?;
                self.number = self.number.saturating_add(1);
                line.clear();
            } else if line.len() < MAX_LINE {
                line.push(*byte)?;
            } else {
                let wrong = wanted("a line of a recording is shorter");
                return Err(fault_of(self.alloc, self.number, wrong));
            }
        }
        Ok(())
    }

    fn end_line<T: Take>(&mut self, line: &[u8], taker: &mut T) -> Result<(), ReplayFault> {
        if line.ends_with(b"\r") {
            return Err(fault_of(self.alloc, self.number, wanted("the line ends in CR LF")));
        }
        let Some(sizes) = self.sizes else {
            return match sizes_of(line) {
                Ok(sizes) => Ok(self.begin(sizes, taker)?),
                Err(wrong) => Err(fault_of(self.alloc, self.number, wrong)),
            };
        };
        let read = if is_header(line) && !self.is_over {
            self.join(&sizes.header, line)
        } else {
            record_of(&sizes, self.is_over, line)
        };
        match read {
            Ok(Some(record)) => Ok(self.hand_on(record, taker)?),
            Ok(None) => Ok(()),
            Err(wrong) => Err(fault_of(self.alloc, self.number, wrong)),
        }
    }

    fn begin<T: Take>(&mut self, sizes: Sizes, taker: &mut T) -> Result<(), AllocError> {
        self.sizes = Some(sizes);
        if let Some(from) = sizes.header.from {
            self.greatest = from;
            self.late = Some(Beginning::new(self.alloc, sizes, from)?);
        }
        taker.begin(sizes)
    }

    /// The header of another part, which must follow what was read. It is no record.
    fn join<'a>(&self, first: &Header, line: &'a [u8]) -> Result<Option<Record>, Wrong<'a>> {
        let header = read_header(line)?;
        if !are_of_one(first, &header) {
            return Err(wanted("a part of the same recording is wanted"));
        }
        match header.from {
            Some(from) if from == self.greatest => Ok(None),
            _ => Err(wanted("this part does not follow the one before it")),
        }
    }

    fn hand_on<T: Take>(&mut self, record: Record, taker: &mut T) -> Result<(), AllocError> {
        self.is_over = matches!(record.act, Act::Ended | Act::Full);
        self.greatest = self.greatest.max(record.after);
        if let Some(late) = &mut self.late {
            if !late.keeps(&record) {
                late.leave_out(&record);
                return taker.leave_out(record);
            }
        }
        taker.take(self.number, record)
    }
}

/// Whether two relays have the same sizes.
fn are_of_one(one: &Header, other: &Header) -> bool {
    one.slots == other.slots
        && one.pollers == other.pollers
        && one.workers == other.workers
        && one.ring == other.ring
        && one.budget == other.budget
        && one.idle == other.idle
        && one.proxy == other.proxy
}

/// The header of a first line, and how that relay deals its slots.
fn sizes_of(line: &[u8]) -> Result<Sizes, Wrong<'_>> {
    let header = read_header(line)?;
    match split_of(&header) {
        Some(split) => Ok(Sizes { header, split }),
        None => Err(wanted("a relay with these slots and workers has another number of pollers")),
    }
}

fn record_of<'a>(
    sizes: &Sizes,
    is_over: bool,
    line: &'a [u8],
) -> Result<Option<Record>, Wrong<'a>> {
    if is_over && is_header(line) {
        return Err(wanted("another recording or part begins, which is replayed by itself"));
    }
    if is_over {
        return Err(wanted("nothing comes after the record end or full"));
    }
    let record = match read_line(line) {
        Ok(record) => record,
        Err(wrong) => return Err(wrong),
    };
    if record.before >= record.after {
        return Err(wanted("the count before an act is below the one after it"));
    }
    let is_at_once = matches!(
        record.act,
        Act::Begin(_) | Act::End(_) | Act::Wire(_, Made::Settle)
    );
    if is_at_once && record.after - record.before > 1 {
        return Err(wanted("begin, end and settle take both counts at once"));
    }
    match outside(sizes, &record.act) {
        Some(text) => Err(wanted(text)),
        None => Ok(Some(record)),
    }
}

pub(crate) fn wanted<'a>(wanted: &'static str) -> Wrong<'a> {
    Wrong { word: None, wanted }
}

/// What is wanted of a record that cannot be of this relay: it names a poller or a slot that the relay does not have, a
/// slot of another poller, or a second without an idle limit.
fn outside(sizes: &Sizes, act: &Act) -> Option<&'static str> {
    let header = &sizes.header;
    match *act {
        Act::Poller(poller, _) if poller >= header.pollers => {
            return Some("a poller of this relay is wanted");
        }
        Act::Second(_) if header.idle == 0 => {
            return Some("no second is read where there is no idle limit");
        }
        _ => {}
    }
    let slot = slot_of(act)?;
    if slot >= header.slots {
        return Some("a slot of this relay is wanted");
    }
    match *act {
        Act::Poller(poller, _) if sizes.split.poller_of(slot) != poller => {
            Some("a slot of this poller is wanted")
        }
        _ => None,
    }
}

fn slot_of(act: &Act) -> Option<usize> {
    match *act {
        Act::Poller(_, Polling::Open(slot, _, _)) | Act::Begin(slot) | Act::End(slot) => Some(slot),
        Act::Poller(_, Polling::Reported(Name::End(token))) | Act::Wire(token, _) => {
            Some(token.slot())
        }
        _ => None,
    }
}

pub fn fault_of(alloc: Global, number: u64, wrong: Wrong<'_>) -> ReplayFault {
    fault(cause(alloc, number, wrong))
}

pub(crate) fn fault(cause: Result<String, AllocError>) -> ReplayFault {
    match cause {
        Ok(text) => ReplayFault::Broken(text),
        Err(error) => ReplayFault::from(error),
    }
}

fn cause(alloc: Global, number: u64, wrong: Wrong<'_>) -> Result<String, AllocError> {
    let mut text = format!(in alloc; "line {number}: ")?;
    if let Some(word) = wrong.word {
        show(&mut text, word)?;
    }
    text.push_str(wrong.wanted)?;
    Ok(text)
}

/// Adds a word in quotes: bytes that are not printable ASCII are escaped, and what follows the 64th is left out.
fn show(text: &mut String, word: &[u8]) -> Result<(), AllocError> {
    text.push_str("\"")?;
    for byte in word.get(..MAX_SHOWN).unwrap_or(word) {
        if byte.is_ascii_graphic() {
            text.push(char::from(*byte))?;
        } else {
            write!(text, "\\x{byte:02x}")?;
        }
    }
    text.push_str("\": ")
}
