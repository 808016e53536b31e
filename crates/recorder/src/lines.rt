//! Which line of a recording goes into which of its files.
ghost use Rattle.std.specs.Prelude.{◌≡◌, ◌≤◌, ◌+◌, ◌∷◌, [], List, OnOk, IfOk, false, length, max};
ghost use Rattle.record_lines.specs.{Parts.{AddsParts, Are}, declared.act.Record.Record};
ghost use Rattle.recorder.specs.Lines.{HoldsLines, header_line, is_full, record_line};

use arrayvec::ArrayString;
use record_lines::{Act, Header, MAX_RECORD, Parts, Record};
use std::fmt::Write as _;
use std::io::{self, ErrorKind};

const MAX_LINE: usize = MAX_RECORD + 1;

const MAX_HEADER: usize = 256;

/// The least room that a file may have.
const LEAST: u64 = 1_024;

/// Puts the lines of a recording into its files, each of which begins with a header. A line that has no room in a file,
/// or would stand after the record `full`, begins the next one.
#[derive(Drop)]
pub struct Lines<P> {
    parts: P,
    header: Header,
    /// The most bytes of a file, and how many the last one has.
    most: u64,
    length: u64,
    /// The greatest count of all records.
    greatest: u64,
    /// Whether the last file ends with the record `full`.
    is_over: bool,
    ghost enough: { 1024 ≤ most },
}

impl<P: Parts> Lines<P> {
    /// Puts the header into the first file, which is there and empty. A file gets at most `most` bytes, or 1,024 if
    /// that is more.
    pub fn begin(parts: P, header: Header, most: u64) -> io::Result<Lines<P>>
        ensures held { IfOk result (λ l. Are (P.texts parts) ([] ∷ [])
            → HoldsLines header l.most [] (P.texts l.parts) l.length l.greatest l.is_over) }
        ensures header { IfOk result (λ l. l.header ≡ header) }
        ensures most { IfOk result (λ l. l.most ≡ max most 1024) }
    {
        let text = header_line(&header)?;
        let mut lines = Lines {
            parts,
            header,
            most: most.max(LEAST),
            length: 0,
            greatest: 0,
            is_over: false,
        };
        lines.add(text.as_str().as_bytes())?;
        Ok(lines)
    }

    /// Puts the line of a record after the others.
    pub fn put(&mut self, record: &Record) -> io::Result<()>
        ensures held { OnOk result ((records : List Record)
            → HoldsLines self.old.header self.old.most records (P.texts self.old.parts) self.old.length self.old.greatest
            self.old.is_over
            → HoldsLines self.new.header self.new.most (record.now ∷ records) (P.texts self.new.parts) self.new.length
            self.new.greatest self.new.is_over) }
        ensures same { (self.new.header ≡ self.old.header) × (self.new.most ≡ self.old.most) }
    {
        let line = line_of(record)?;
        self.make_room(line.len() as u64)?;
        self.add(line.as_str().as_bytes())?;
        self.greatest = self.greatest.max(record.after);
        self.is_over = is_full(&record.act);
        Ok(())
    }

    /// Begins the next file, if the last one has no room for that many bytes, or is over.
    fn make_room(&mut self, length: u64) -> io::Result<()>
        requires { length ≤ 256 }
        ensures held { OnOk result ((records : List Record)
            → HoldsLines self.old.header self.old.most records (P.texts self.old.parts) self.old.length self.old.greatest
            self.old.is_over
            → HoldsLines self.new.header self.new.most records (P.texts self.new.parts) self.new.length self.new.greatest
            self.new.is_over) }
        ensures room { OnOk result (self.new.length + length ≤ self.new.most) }
        ensures open { OnOk result (self.new.is_over ≡ false) }
        ensures same { (self.new.header ≡ self.old.header) × (self.new.most ≡ self.old.most) × (self.new.greatest ≡ self.old.greatest) }
    {
        let has_room = length <= self.most.saturating_sub(self.length) && self.length <= self.most;
        if has_room && !self.is_over {
            return Ok(());
        }
        let text = header_line(&Header {
            from: Some(self.greatest),
            ..self.header
        })?;
        self.parts.begin_next()?;
        self.length = 0;
        self.is_over = false;
        self.add(text.as_str().as_bytes())?;
        Ok(())
    }

    /// Adds this to the last file.
    fn add(&mut self, bytes: &[u8]) -> io::Result<()>
        requires { self.old.length + length bytes.now ≤ self.old.most }
        ensures added { OnOk result (AddsParts bytes.now (P.texts self.old.parts) (P.texts self.new.parts)) }
        ensures length { self.new.length ≡ self.old.length + length bytes.now }
        ensures same { (self.new.header ≡ self.old.header) × (self.new.most ≡ self.old.most) × (self.new.greatest ≡ self.old.greatest) }
        ensures over { self.new.is_over ≡ self.old.is_over }
    {
        self.length += bytes.len() as u64;
        self.parts.add(bytes)
    }

    /// What was put can be read once this returns.
    pub(crate) fn flush(&mut self) -> io::Result<()> {
        self.parts.flush()
    }
}

fn is_full(act: &Act) -> bool
    ensures { result ≡ is_full act.now }
{
    matches!(act, Act::Full)
}

/// The line of a header.
fn header_line(header: &Header) -> io::Result<ArrayString<MAX_HEADER>>
    ensures { IfOk result (λ text. text.bytes ≡ header_line header.now) }
{
    let mut text = ArrayString::<MAX_HEADER>::new();
    match writeln!(text, "{header}") {
        Ok(()) => Ok(text),
        Err(_) => Err(io::Error::from(ErrorKind::WriteZero)),
    }
}

fn line_of(record: &Record) -> io::Result<ArrayString<MAX_LINE>>
    ensures { IfOk result (λ line. line.bytes ≡ record_line record.now) }
{
    let mut line = ArrayString::<MAX_LINE>::new();
    match writeln!(line, "{record}") {
        Ok(()) => Ok(line),
        Err(_) => Err(io::Error::from(ErrorKind::WriteZero)),
    }
}
