//! What is written of a recording.
use crate::entry::opened;
use crate::machine::{Flaw, Machine};
use crate::results::{Flawed, Results, Whose};
use crate::slot_replay::Phase;
use record_reader::{LeftOut, Numbered, Recording};
use std::alloc::{AllocError, Global};
use std::io::Write;
use tools::{Judged, ReplayFault, Wanted};
use world::Event;
use world_text::{Page, Piece, event_reason, put_event, put_header};

const AT_ONCE: usize = 256;

/// Writes what is wanted of a recording of runs.
pub(crate) fn write_results<W: Write>(
    output: &mut W,
    results: &Results,
    recording: &Recording,
) -> Result<(), ReplayFault> {
    let alloc = recording.alloc;
    match (results.wanted, &results.machine) {
        (Wanted::Script(_, _), Some(machine)) => {
            write_script(output, early(alloc, "# ", recording.rest.left_out), machine)
        }
        (Wanted::Script(slot, generation), None) => {
            let there = there(recording.slot(slot));
            Err(not_there(alloc, recording.header.slots, slot, generation, there))
        }
        _ => write(output, totals(results, recording).finish()),
    }
}

/// Writes a line that says what is left out of a file that follows other parts of its recording.
pub(crate) fn write_left_out<W: Write>(
    output: &mut W,
    alloc: Global,
    left_out: Option<LeftOut>,
) -> Result<(), ReplayFault> {
    write(output, early(alloc, "", left_out).finish())
}

/// That line, after `mark`.
fn early(alloc: Global, mark: &'static str, left_out: Option<LeftOut>) -> Page {
    let mut page = Page::new(alloc);
    put_early(&mut page, mark, left_out);
    page
}

fn put_early(page: &mut Page, mark: &'static str, left_out: Option<LeftOut>) {
    if let Some(left_out) = left_out {
        page.put(&[
            Piece::Text(mark),
            Piece::Named("begins after count ", left_out.from),
            Piece::Named(": ", left_out.records),
            Piece::Named(" records, of ", left_out.connections),
            Piece::Text(" connections, are left out\n"),
        ]);
    }
}

/// The fault of a recording that has no such connection. `there`: the generations of the first one and of the last one
/// that were opened in the slot.
pub(crate) fn not_there(
    alloc: Global,
    slots: usize,
    slot: usize,
    generation: u64,
    there: Option<(u64, u64)>,
) -> ReplayFault {
    let mut page = Page::new(alloc);
    page.put(&[
        Piece::Number(slot as u64),
        Piece::Named(".", generation),
        Piece::Text(" is not there: "),
    ]);
    put_opened(&mut page, slots, slot, there);
    match page.finish() {
        Ok(cause) => ReplayFault::Unknown(cause),
        Err(error) => ReplayFault::from(error),
    }
}

/// Puts which connections were opened in a slot.
fn put_opened(page: &mut Page, slots: usize, slot: usize, there: Option<(u64, u64)>) {
    match there {
        Some((first, last)) => page.put(&[
            Piece::Named("slot ", slot as u64),
            Piece::Named(" has generations ", first),
            Piece::Named(" to ", last),
            Piece::Text(" (--ends lists all)"),
        ]),
        None if slot < slots => {
            page.put(&[Piece::Text("nothing was opened in that slot (--ends lists all)")]);
        }
        None => {
            page.put(&[Piece::Named("the relay has slots 0 to ", slots.saturating_sub(1) as u64)]);
        }
    }
}

/// The generations of the first connection and of the last one that these records opened.
fn there(records: &[Numbered]) -> Option<(u64, u64)> {
    let mut there = None;
    for numbered in records {
        if let Some((_, generation)) = opened(&numbered.record.act) {
            there = Some(with_opened(there, generation));
        }
    }
    there
}

/// The generations of the first connection and of the last one, with one more that was opened.
pub(crate) fn with_opened(there: Option<(u64, u64)>, generation: u64) -> (u64, u64) {
    match there {
        Some((first, _)) => (first, generation),
        None => (generation, generation),
    }
}

/// Writes which record fits nowhere and why: in people's words, or for the machine, and then with the script that leads
/// there, and the event that was refused.
pub(crate) fn write_flaw<W: Write>(
    output: &mut W,
    wanted: Wanted,
    flawed: &Flawed,
    flaw: Flaw,
    machine: &Machine,
    left_out: Option<LeftOut>,
) -> Result<(), ReplayFault> {
    if matches!(wanted, Wanted::Totals) {
        write(output, in_words(flawed, flaw, machine, left_out))
    } else {
        write_script(
            output,
            first_lines(flawed, flaw, machine, left_out)?,
            machine,
        )
    }
}

/// Writes a script after what stands before it, and after it the event that was refused, if one was.
fn write_script<W: Write>(
    output: &mut W,
    before: Page,
    machine: &Machine,
) -> Result<(), ReplayFault> {
    let mut header = before;
    put_header(&mut header, &machine.history.limits());
    write(output, header.finish())?;
    for events in machine.history.events().chunks(AT_ONCE) {
        write(output, script_of(machine.alloc, events).finish())?;
    }
    write(output, refused(machine).finish())
}

fn refused(machine: &Machine) -> Page {
    let mut page = Page::new(machine.alloc);
    if let Some(event) = &machine.refused {
        put_line(&mut page, event);
    }
    page
}

/// Writes a text, if there was memory for it.
pub(crate) fn write<W: Write>(
    output: &mut W,
    text: Result<String, AllocError>,
) -> Result<(), ReplayFault> {
    match text {
        Ok(text) => write_text(output, text.as_str()),
        Err(error) => Err(ReplayFault::from(error)),
    }
}

pub(crate) fn write_text<W: Write>(output: &mut W, text: &str) -> Result<(), ReplayFault> {
    match output.write_all(text.as_bytes()) {
        Ok(()) => Ok(()),
        Err(_) => Err(ReplayFault::Write),
    }
}

/// Nothing more is written of a recording that is judged so.
pub(crate) fn flush<W: Write>(output: &mut W, judged: Judged) -> Result<Judged, ReplayFault> {
    match output.flush() {
        Ok(()) => Ok(judged),
        Err(_) => Err(ReplayFault::Write),
    }
}

fn totals(results: &Results, recording: &Recording) -> Page {
    let mut page = Page::new(recording.alloc);
    page.put(&[
        Piece::Number(results.connections),
        Piece::Named(" connections, ", results.counts.sum()),
        Piece::Text(" events: each is a run of the machine\n"),
    ]);
    put_early(&mut page, "", recording.rest.left_out);
    if matches!(results.wanted, Wanted::Steps) {
        results.counts.put_lines(&mut page);
    }
    let [client_read, target_read, client_written, target_written] = results.moved;
    page.put(&[
        Piece::Named("read client=", client_read),
        Piece::Named(" target=", target_read),
        Piece::Named(" written client=", client_written),
        Piece::Named(" target=", target_written),
        Piece::Text("\n"),
    ]);
    put_left_out(&mut page, recording);
    page
}

fn put_left_out(page: &mut Page, recording: &Recording) {
    if let Some(line) = recording.rest.cut {
        page.put(&[Piece::Named("line ", line), Piece::Text(" is cut off\n")]);
    }
    if recording.left_out > 0 {
        page.put(&[
            Piece::Number(recording.left_out as u64),
            Piece::Text(" records after the first lost one are left out\n"),
        ]);
    }
}

fn script_of(alloc: Global, events: &[Event]) -> Page {
    let mut page = Page::new(alloc);
    for event in events {
        put_line(&mut page, event);
    }
    page
}

fn put_line(page: &mut Page, event: &Event) {
    put_event(page, event);
    page.put(&[Piece::Text("\n")]);
}

/// Whose record fits nowhere, which it is and why, and what is left out.
fn first_lines(
    flawed: &Flawed,
    flaw: Flaw,
    machine: &Machine,
    left_out: Option<LeftOut>,
) -> Result<Page, AllocError> {
    let mut page = Page::new(machine.alloc);
    put_whose(&mut page, flawed.whose, "# p", "# ", ".");
    put_record(&mut page, machine.alloc, "", &flawed.numbered, ": ")?;
    put_reason(&mut page, flaw, machine);
    put_early(&mut page, "# ", left_out);
    Ok(page)
}

/// Puts whose record it is: a poller's, or of a connection, whose slot and generation stand after these texts.
fn put_whose(
    page: &mut Page,
    whose: Whose,
    poller: &'static str,
    slot: &'static str,
    generation: &'static str,
) {
    match whose {
        Whose::Poller(number) => page.put(&[Piece::Named(poller, number as u64)]),
        Whose::Slot(number, of) => page.put(&[
            Piece::Named(slot, number as u64),
            Piece::Named(generation, of),
        ]),
    }
}

/// Whose record fits nowhere, which it is, the one before it, why, and what could stand there.
fn in_words(
    flawed: &Flawed,
    flaw: Flaw,
    machine: &Machine,
    left_out: Option<LeftOut>,
) -> Result<String, AllocError> {
    let mut page = Page::new(machine.alloc);
    put_whose(&mut page, flawed.whose, "poller ", "slot ", ", generation ");
    page.put(&[Piece::Text(": this is no run of the machine\n")]);
    put_early(&mut page, "", left_out);
    if let Some(before) = &flawed.before {
        put_record(&mut page, machine.alloc, "after", before, "\n")?;
    }
    put_record(
        &mut page,
        machine.alloc,
        "wrong",
        &flawed.numbered,
        "\nwhy: ",
    )?;
    put_reason(&mut page, flaw, machine);
    match flawed.phase {
        Some(phase) if !matches!(flaw, Flaw::NextCall) => put_expected(&mut page, phase, machine),
        _ => {}
    }
    page.put(&[Piece::Text("more: relayd replay --steps shows what leads there\n")]);
    page.finish()
}

/// Puts a record and its line between these texts.
fn put_record(
    page: &mut Page,
    alloc: Global,
    before: &'static str,
    numbered: &Numbered,
    after: &'static str,
) -> Result<(), AllocError> {
    let record = numbered.record;
    let record = format!(in alloc; "{record}")?;
    page.put(&[
        Piece::Text(before),
        Piece::Named(": line ", numbered.line),
        Piece::Text(": "),
        Piece::Text(record.as_str()),
        Piece::Text(after),
    ]);
    Ok(())
}

/// Puts what could stand in the place of the record, by what the slot was at before it.
fn put_expected(page: &mut Page, phase: Phase, machine: &Machine) {
    page.put(&[Piece::Text("expected: ")]);
    let expected = match phase {
        Phase::Calling(_) if machine.next_call().is_some() => return put_next_call(page, machine),
        Phase::Free => "an opening in this slot, of its next generation\n",
        Phase::Open =>
            "begin, for an opening, a report, a spent budget or a sweep that had no turn yet\n",
        Phase::Calling(_) => "end, since the turn has no call left\n",
        Phase::Settling => "settle, since the turn left no call\n",
        Phase::Void(None) | Phase::Closing(None) => "drop, of both ends\n",
        Phase::Void(Some(_)) | Phase::Closing(Some(_)) => "drop, of the other end\n",
    };
    page.put(&[Piece::Text(expected)]);
}

/// Puts why the record fits nowhere, and ends the line.
fn put_reason(page: &mut Page, flaw: Flaw, machine: &Machine) {
    let why = match (flaw, &machine.refused) {
        (Flaw::Because(why), _) => why,
        (Flaw::Refused, Some(event)) => {
            put_event(page, event);
            page.put(&[Piece::Text(": ")]);
            event_reason(machine.world(), event)
        }
        _ => return put_next_call(page, machine),
    };
    page.put(&[Piece::Text(why), Piece::Text("\n")]);
}

fn put_next_call(page: &mut Page, machine: &Machine) {
    let Some(next) = machine.next_call() else {
        return page.put(&[Piece::Text("no call comes next\n")]);
    };
    let bytes = match next.bytes {
        0 => Piece::Text(""),
        bytes => Piece::Named(" ", bytes as u64),
    };
    page.put(&[
        Piece::Text(next.call.side().name()),
        Piece::Text(" "),
        Piece::Text(next.call.kind().name()),
        bytes,
        Piece::Text(" comes next\n"),
    ]);
}
