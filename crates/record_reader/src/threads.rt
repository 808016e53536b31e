//! How many threads were at work at once: a turn is made by the poller of its slot, while the poller does nothing
//! else, or by a worker.
use crate::order::first_overlap;
use crate::recording::{Numbered, Recording, count_before, sort};
use record_lines::{Act, Made, Record};
use sizes::OWN_BUDGET;
use std::alloc::AllocError;
use tools::ReplayFault;

/// What one thread did at a slot without a break: a turn, with the closing that follows it, or another closing.
#[derive(Clone, Copy)]
struct Span {
    /// The poller of the slot, and whether the poller did this for certain.
    poller: usize,
    is_pollers: bool,
    line: u64,
    from: u64,
    to: u64,
    calls: usize,
    is_over: bool,
}

/// A thread begins work at this count, or has ended it.
#[derive(Clone, Copy)]
struct Change {
    count: u64,
    line: u64,
    begins: bool,
    /// The poller that may have done it. None: a worker did.
    poller: Option<usize>,
}

/// Refuses with `Broken` a turn for which no thread is left.
pub fn check_threads(recording: &Recording) -> Result<(), ReplayFault> {
    let spans = all_spans(recording)?;
    match first_beyond(recording, spans.as_slice())? {
        Some(line) => Err(recording.broken(line, "more turns at once than threads")),
        None => Ok(()),
    }
}

fn all_spans(recording: &Recording) -> Result<Vec<Span>, AllocError> {
    let mut spans = Vec::new(recording.alloc);
    for slot in 0..recording.header.slots {
        add_spans(&mut spans, recording, slot)?;
    }
    for span in spans.as_mut_slice().iter_mut() {
        // A span that has not ended lasts up to the first count that no record has: its next act may have it.
        if !span.is_over {
            span.to = span.to.max(recording.whole);
        }
    }
    Ok(spans)
}

/// The line of the first span for which no thread is left.
fn first_beyond(recording: &Recording, spans: &[Span]) -> Result<Option<u64>, AllocError> {
    let mut changes = Vec::new(recording.alloc);
    for poller in 0..recording.header.pollers {
        let acts = acts_of_poller(recording, spans, poller)?;
        if let Some(numbered) = acts.get(first_overlap(acts.as_slice())) {
            return Ok(Some(numbered.line));
        }
        add_changes(&mut changes, acts.as_slice(), spans, poller)?;
    }
    changes.sort_by_key(|change: &Change| change.count)?;
    first_over(recording, changes.as_slice())
}

/// What a poller did for certain, in order.
fn acts_of_poller(
    recording: &Recording,
    spans: &[Span],
    poller: usize,
) -> Result<Vec<Numbered>, AllocError> {
    let mut acts = Vec::new(recording.alloc);
    acts.extend_from_slice(recording.poller(poller))?;
    for span in spans {
        if span.is_pollers && span.poller == poller {
            let (before, after, act) = (span.from, span.to, Act::Begin(0));
            let record = Record { before, after, act };
            acts.push(Numbered {
                line: span.line,
                record,
            })?;
        }
    }
    sort(&mut acts)?;
    Ok(acts)
}

/// Adds the beginnings and ends of the other spans at a poller's slots. The poller did these acts.
fn add_changes(
    changes: &mut Vec<Change>,
    acts: &[Numbered],
    spans: &[Span],
    poller: usize,
) -> Result<(), AllocError> {
    for span in spans {
        if !span.is_pollers && span.poller == poller {
            add(changes, acts, span)?;
        }
    }
    Ok(())
}

fn add(changes: &mut Vec<Change>, acts: &[Numbered], span: &Span) -> Result<(), AllocError> {
    let is_own = span.calls <= OWN_BUDGET && !is_busy(acts, span.from, span.to);
    let begins = Change {
        count: span.from,
        line: span.line,
        begins: true,
        poller: if is_own { Some(span.poller) } else { None },
    };
    let ends = Change {
        count: span.to,
        begins: false,
        ..begins
    };
    changes.extend_from_slice(&[begins, ends])
}

/// Whether a poller, which did these acts one after the other, did one between these two counts.
pub fn is_busy(acts: &[Numbered], from: u64, to: u64) -> bool {
    matches!(acts.get(count_before(acts, from, true)), Some(act) if act.record.before < to)
}

/// Adds what was done at a slot. Two spans are the poller's for certain: a turn that spent the own budget, but not the
/// workers', and the closing of a connection that came to nothing.
fn add_spans(spans: &mut Vec<Span>, recording: &Recording, slot: usize) -> Result<(), AllocError> {
    let mut is_first = true;
    let failed = recording.failed.is_some();
    let poller = recording.split.poller_of(slot);
    let mut last = Act::Ended;
    for numbered in recording.slot(slot) {
        let act = numbered.record.act;
        let begins = begins_span(&last, &act, failed);
        match spans.last_mut() {
            Some(span) if !is_first && !begins => span.go_on(&numbered.record),
            Some(span) if !is_first && matches!((last, act), (Act::End(_), Act::Begin(_))) => {
                span.is_pollers = span.calls == OWN_BUDGET && OWN_BUDGET < recording.header.budget;
            }
            _ => {}
        }
        if begins {
            spans.push(Span::new(numbered, poller, failed))?;
            is_first = false;
        }
        last = act;
    }
    Ok(())
}

/// Whether an act begins a span. A drop after a turn's end belongs to that turn, unless the relay failed.
fn begins_span(last: &Act, act: &Act, failed: bool) -> bool {
    match act {
        Act::Begin(_) => true,
        Act::Wire(_, Made::Drop) => {
            failed || !matches!(last, Act::End(_) | Act::Wire(_, Made::Drop))
        }
        _ => false,
    }
}

impl Span {
    fn new(first: &Numbered, poller: usize, failed: bool) -> Span {
        let is_turn = matches!(first.record.act, Act::Begin(_));
        Span {
            poller,
            is_pollers: !is_turn && !failed,
            line: first.line,
            from: first.record.before,
            to: first.record.after,
            calls: 0,
            is_over: !is_turn,
        }
    }

    fn go_on(&mut self, record: &Record) {
        match record.act {
            Act::Poller(_, _) => return,
            Act::Wire(_, Made::Settle | Made::Drop) | Act::End(_) => self.is_over = true,
            _ => self.calls = self.calls.saturating_add(1),
        }
        self.to = record.after;
    }
}

/// The line of the first change after which more is in progress than all threads can do: each poller does one thing of
/// its own, and the workers do the rest.
fn first_over(recording: &Recording, changes: &[Change]) -> Result<Option<u64>, AllocError> {
    let mut own = vec![in recording.alloc; 0usize; recording.header.pollers]?;
    let mut workers: usize = 0;
    for change in changes {
        let is_own = match change.poller {
            Some(poller) => is_only(own.get_mut(poller), change.begins),
            None => false,
        };
        if !is_own {
            step(&mut workers, change.begins);
        }
        if workers > recording.header.workers {
            return Ok(Some(change.line));
        }
    }
    Ok(None)
}

/// Returns whether the poller has one thing at most in progress.
fn is_only(own: Option<&mut usize>, begins: bool) -> bool {
    match own {
        Some(own) => step(own, begins) <= 1,
        None => false,
    }
}

/// Counts up or down. Returns the greater of the old and new number.
fn step(number: &mut usize, up: bool) -> usize {
    let before = *number;
    *number = if up {
        before.saturating_add(1)
    } else {
        before.saturating_sub(1)
    };
    before.max(*number)
}
