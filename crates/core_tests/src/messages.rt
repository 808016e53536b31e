// A line that is too long, a fault's text, and a message of a level that is off.
use crate::all_well;
use log::sink::Discard;
use log::{Level, Logged};
use relay_log::log_peer;
use sizes::{ClientsAt, ServerFault};
use std::alloc::{AllocError, Global};
use std::cell::Cell;
use std::fmt::{self, Write};
use std::test::Fail;
use writer_queue::LogLine;

/// Whether a line that is longer than any line of the program is cut at its limit, and before a character that would
/// have one byte there.
fn is_cut(alloc: Global) -> Result<bool, AllocError> {
    let mut line = LogLine::new();
    for _ in 0..80 {
        let _added = line.write_str("1\u{e4}4567");
    }
    let text = format!(in alloc; "{line}")?;
    Ok(text.len() == 466 && text.ends_with("671..."))
}

// refuses line_is_cut_too_early: a long line is cut before it is full
// refuses printed_text_is_lost: what is printed into a line is lost
#[test]
fn a_line_is_cut_where_it_is_full(rt: HostRuntime) -> Result<(), Fail> {
    all_well(is_cut(rt.alloc()))
}

/// Whether the fault that no run of a test makes has its text.
fn is_told(alloc: Global) -> Result<bool, AllocError> {
    Ok(format!(in alloc; "{}", ServerFault::Worn)?.as_str() == "claims worn")
}

#[test]
fn a_worn_seat_is_told(rt: HostRuntime) -> Result<(), Fail> {
    all_well(is_told(rt.alloc()))
}

/// An address that records that it was printed.
#[derive(Drop)]
struct Noting(Cell<bool>);

impl fmt::Display for Noting {
    fn fmt<W: fmt::Write>(&self, f: &mut fmt::Formatter<W>) -> fmt::Result {
        self.0.set(true);
        f.write_str("192.0.2.7:50000")
    }
}

#[test]
fn no_text_is_made_for_a_level_that_is_off(rt: HostRuntime) -> Result<(), Fail> {
    let from = Noting(Cell::new(false));
    let log = Logged::new(&rt, Level::Info, Discard);
    log_peer(&log, ClientsAt::Debug, 0, 1, &from, &None);
    all_well(Ok(!from.0.get()))
}
