//! The first line of a recording.
ghost use Rattle.std.specs.Prelude.{Some};
ghost use Rattle.record_lines.specs.Texts.{from_text, header_text};

use crate::act::yes_or_no;
use crate::reading::{Words, Wrong, number_after};
use input::number;
use std::fmt::{self, Display};

/// The sizes of the relay that was recorded.
#[derive(Clone, Copy)]
pub struct Header {
    /// Connections at a time.
    pub slots: usize,
    /// Threads that poll.
    pub pollers: usize,
    /// Threads that only run turns.
    pub workers: usize,
    /// Bytes buffered for each direction.
    pub ring: usize,
    /// Calls of a turn.
    pub budget: usize,
    /// Seconds that a connection may move nothing; 0 for ever.
    pub idle: u64,
    /// Whether each target is first sent a line with the addresses of its client's connection.
    pub proxy: bool,
    /// Of a recording in parts: the greatest count in the parts before this one. None: this is the first.
    pub from: Option<u64>,
}

impl Display for Header {
    ghost output = { λ header. Some (header_text header) };

    fn fmt<W: fmt::Write>(&self, f: &mut fmt::Formatter<W>) -> fmt::Result {
        let (slots, pollers, workers) = (self.slots, self.pollers, self.workers);
        let (ring, budget, idle) = (self.ring, self.budget, self.idle);
        let (proxy, from) = (yes_or_no(self.proxy), FromText(self.from));
        write!(
            f,
            "relayd recording 1 slots={slots} pollers={pollers} workers={workers} \
             ring={ring} budget={budget} idle={idle} proxy={proxy}{from}"
        )
    }
}

/// Prints where a part begins, if it is not the first.
#[derive(Clone, Copy)]
struct FromText(Option<u64>);

impl Display for FromText {
    ghost output = { λ text. Some (from_text text.0) };

    fn fmt<W: fmt::Write>(&self, f: &mut fmt::Formatter<W>) -> fmt::Result {
        match self.0 {
            Some(from) => write!(f, " from={from}"),
            None => Ok(()),
        }
    }
}

/// Each size: its key with `=`, its least and greatest value, and what is wanted.
static SIZES: [(&str, usize, usize, &str); 6] = [
    ("slots=", 1, 4_096, "slots=1 to slots=4096 is wanted"),
    ("pollers=", 1, 16, "pollers=1 to pollers=16 is wanted"),
    ("workers=", 1, 16, "workers=1 to workers=16 is wanted"),
    ("ring=", 1, 65_536, "ring=1 to ring=65536 is wanted"),
    ("budget=", 1, 1_024, "budget=1 to budget=1024 is wanted"),
    ("idle=", 0, 86_400, "idle=0 to idle=86400 is wanted"),
];

static PROXY: [(&str, bool); 2] = [("proxy=yes", true), ("proxy=no", false)];

/// Reads a recording's first line, which is given without its line feed.
///
/// It refuses a line of another form, and sizes that no relay has: 0 or over 4,096 slots, 0 or over 16 pollers or
/// workers, a ring of 0 or over 65,536 bytes, a budget of 0 or over 1,024 calls, and an idle limit of over 86,400
/// seconds; and another word than `from=N` after the sizes, where N is any number below 2^64.
pub fn read_header(line: &[u8]) -> Result<Header, Wrong<'_>> {
    let words = &mut Words::new(line, b' ');
    begin(words);
    let [slots, pollers, workers, ring, budget, idle] = sizes(words);
    let proxy = words.one_of(&PROXY, "proxy=yes or proxy=no is wanted", false);
    let from = from(words);
    words.end(Header {
        slots,
        pollers,
        workers,
        ring,
        budget,
        idle: idle as u64,
        proxy,
        from,
    })
}

/// Whether this line begins as a recording does.
pub fn is_header(line: &[u8]) -> bool {
    line.starts_with(b"relayd recording ")
}

fn from(words: &mut Words<'_>) -> Option<u64> {
    let word = words.pieces.next()?;
    let from = number_after("from=", word);
    let wanted = "from=N is wanted, or the end of the line";
    Some(words.said(from, word, wanted, 0) as u64)
}

/// The words with which every recording begins.
fn begin(words: &mut Words<'_>) {
    let wanted = "a recording begins with relayd recording 1";
    words.one_of(&[("relayd", ())], wanted, ());
    words.one_of(&[("recording", ())], wanted, ());
    let version = words.word(wanted);
    let wanted = match number(version) {
        Some(1) => return,
        Some(later) if later > 1 => "a newer relayd made it, and this one knows 1 alone",
        _ => wanted,
    };
    words.refuse(Some(version), wanted);
}

fn sizes(words: &mut Words<'_>) -> [usize; 6] {
    let mut sizes = [0; 6];
    for index in 0..6 {
        let (key, least, most, wanted) = SIZES[index];
        let word = words.word(wanted);
        match number_after(key, word) {
            Some(value) if least <= value && value <= most => sizes[index] = value,
            _ => words.refuse(Some(word), wanted),
        }
    }
    sizes
}
