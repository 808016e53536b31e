// How a script ends whose reader or writer fails, at a point that the test picks.
use crate::all_well;
use script::Simulator;
use std::alloc::{AllocError, Global};
use std::io::{self, ErrorKind, Read, Write};
use std::test::Fail;
use tools::{Causes, Outcome, ScriptFault, Simulate};

/// How many bytes a run may write. A test allocates them before the run.
const ROOM: usize = 4096;

/// The script of one direction from its first byte to its shutdown.
const SCRIPT: &[u8] = b"flow ring=4\narrive 616263\nroom\nread 3\nfin\nwrote 3\nend\nshut";

const REPORT: &[u8] = b"up sent=616263 ring=- unread=- end=yes shut=yes\n";

/// A reader that gives one byte at each read. The read with the number `fails` fails.
#[derive(Drop)]
struct Source<'a> {
    rest: &'a [u8],
    reads: usize,
    fails: usize,
    kind: ErrorKind,
}

impl<'a> Source<'a> {
    fn whole(bytes: &'a [u8]) -> Source<'a> {
        Source::failing_once(bytes, usize::MAX, ErrorKind::Other)
    }

    /// A reader that gives this many bytes, then one error, and then the rest.
    fn failing_once(bytes: &'a [u8], length: usize, kind: ErrorKind) -> Source<'a> {
        Source {
            rest: bytes,
            reads: 0,
            fails: length,
            kind,
        }
    }

    /// How many reads were made, the failed one included.
    fn reads(&self) -> usize {
        self.reads
    }
}

impl Read for Source<'_> {
    fn read(&mut self, buffer: &mut [u8]) -> io::Result<usize> {
        let read = self.reads;
        self.reads = read.wrapping_add(1);
        if read == self.fails {
            return Err(io::Error::from(self.kind));
        }
        let count = self.rest.len().min(buffer.len()).min(1);
        let (piece, rest) = self.rest.split_at(count);
        buffer[..count].copy_from_slice(piece);
        self.rest = rest;
        Ok(count)
    }
}

/// A writer into memory that it allocates at the start. It takes `left` more bytes. After these, a flush or a write
/// fails.
#[derive(Drop)]
struct Sink {
    taken: Vec<u8>,
    left: usize,
}

impl Sink {
    /// A writer that takes this many bytes, and then fails.
    fn failing_after(alloc: Global, length: usize) -> Result<Sink, AllocError> {
        Ok(Sink {
            taken: Vec::with_capacity(alloc, length)?,
            left: length,
        })
    }

    fn into_taken(self) -> Vec<u8> {
        self.taken
    }
}

impl Write for Sink {
    fn write(&mut self, bytes: &[u8]) -> io::Result<usize> {
        if self.left == 0 && !bytes.is_empty() {
            return Err(io::Error::from(ErrorKind::BrokenPipe));
        }
        let count = bytes.len().min(self.left);
        self.taken.extend_from_slice(&bytes[..count])?;
        self.left -= count;
        Ok(count)
    }

    fn flush(&mut self) -> io::Result<()> {
        if self.left == 0 {
            return Err(io::Error::from(ErrorKind::StorageFull));
        }
        Ok(())
    }
}

/// Drops each cause.
struct NoCauses;

impl Causes for NoCauses {
    fn add(&self, _cause: &str) {}
}

#[derive(Drop)]
struct Run {
    ended: Result<Outcome, ScriptFault>,
    output: Vec<u8>,
}

impl Run {
    /// Whether the run wrote the report at its end, and more before it exactly if `each` step is shown.
    fn reports(&self, each: bool) -> bool {
        matches!(self.ended, Ok(Outcome::Report))
            && self.output.as_slice().ends_with(REPORT)
            && (self.output.len() > REPORT.len()) == each
    }

    fn read_nothing(&self) -> bool {
        matches!(self.ended, Err(ScriptFault::Read)) && self.output.is_empty()
    }

    /// Whether the run wrote these bytes, and then could not write.
    fn wrote_only(&self, bytes: &[u8]) -> bool {
        matches!(self.ended, Err(ScriptFault::Write)) && self.output.as_slice() == bytes
    }

    /// Whether memory ran out: whether a line begins with `o`, as only `out of memory` does. The writer may have cut
    /// that line.
    fn is_out_of_memory(&self) -> bool {
        let mut last = b'\n';
        for byte in self.output.as_slice() {
            if last == b'\n' && *byte == b'o' {
                return true;
            }
            last = *byte;
        }
        false
    }
}

/// Runs a script on a reader and a writer, and shows each step if `each`. If memory runs out, the test fails with that
/// error, not by an unexpected text.
fn play(
    alloc: Global,
    each: bool,
    source: &mut Source<'_>,
    mut sink: Sink,
) -> Result<Run, AllocError> {
    let ended = Simulator.simulate(alloc, each, source, &mut sink, &NoCauses);
    let run = Run {
        ended,
        output: sink.into_taken(),
    };
    if run.is_out_of_memory() {
        Err(AllocError)
    } else {
        Ok(run)
    }
}

/// Whether a reader that fails after this many bytes is reported at once, with nothing written and nothing more read.
fn is_read_to(alloc: Global, length: usize, kind: ErrorKind) -> Result<bool, AllocError> {
    let mut source = Source::failing_once(SCRIPT, length, kind);
    let sink = Sink::failing_after(alloc, ROOM)?;
    let run = play(alloc, false, &mut source, sink)?;
    Ok(run.read_nothing() && source.reads() == length.saturating_add(1))
}

fn are_reported(alloc: Global, length: usize) -> Result<bool, AllocError> {
    let mut all = true;
    for kind in [
        ErrorKind::Interrupted,
        ErrorKind::OutOfMemory,
        ErrorKind::Other,
    ] {
        all = all && is_read_to(alloc, length, kind)?;
    }
    Ok(all)
}

fn readers_fail(alloc: Global) -> Result<bool, AllocError> {
    let mut all = true;
    for length in 0..=SCRIPT.len() {
        all = all && are_reported(alloc, length)?;
    }
    Ok(all)
}

// Any error is reported at once, even an interruption, and even if the reader would give the rest afterwards.
#[test]
fn a_reader_that_fails(rt: HostRuntime) -> Result<(), Fail> {
    all_well(readers_fail(rt.alloc()))
}

/// Runs the script with a writer that fails after this many bytes.
fn writes(alloc: Global, each: bool, length: usize) -> Result<Run, AllocError> {
    let sink = Sink::failing_after(alloc, length)?;
    play(alloc, each, &mut Source::whole(SCRIPT), sink)
}

/// Whether a writer's failure after any number of bytes is reported, also at the flush after the last byte, and what
/// was written stays.
fn is_reported(alloc: Global, each: bool) -> Result<bool, AllocError> {
    let whole = writes(alloc, each, ROOM)?;
    let output = whole.output.as_slice();
    let mut all = whole.reports(each);
    for length in 0..=output.len() {
        all = all && writes(alloc, each, length)?.wrote_only(&output[..length]);
    }
    Ok(all)
}

// The second of these runs flushes each line that it writes.
#[test]
fn a_writer_that_fails(rt: HostRuntime) -> Result<(), Fail> {
    all_well(is_reported(rt.alloc(), false))?;
    all_well(is_reported(rt.alloc(), true))
}
