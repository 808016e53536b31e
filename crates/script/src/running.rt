ghost use Rattle.std.specs.{Prelude.{◌≡◌, ◌≢◌, ◌+◌, IfErr, IfSome, Ok, Err}, Io.KnownBytes.Appends};
ghost use Rattle.script.specs.{Runs.{error_line, LeadsTo, WritesReport, AnswersFault, WritesFault, EveryByte, EveryEnd, EveryRun, EveryRunIsSound, reached_report}, Scripts.most_of_script};
ghost use Rattle.input.specs.Texts.{TakesAtMost};

use crate::causes::add_cause;
use crate::{Fault, Reached, parse, run_each};
use input::InputFault;
use relay_core::laws::{
    answers_keep_place, failures_are_told, live_pairs_rest, only_overdue_pairs_expire,
};
use std::alloc::Global;
use std::io::{Read, Write};
use tools::{Causes, MAX_SCRIPT, Outcome, ScriptFault, Simulate};
use world::laws::every_run_holds;

/// The most bytes of a word that are shown to a person.
pub(crate) const MAX_SHOWN: usize = 64;

/// Runs scripts, by [`run`] and [`run_each`].
#[derive(Clone, Copy)]
pub struct Simulator;

impl Simulate for Simulator {
    ghost reports = { λ _. WritesReport };

    ghost refuses = { λ _. WritesFault };

    fn simulate<R: Read, W: Write, C: Causes>(
        &self,
        alloc: Global,
        each: bool,
        reader: &mut R,
        writer: &mut W,
        causes: &C,
    ) -> Result<Outcome, ScriptFault> {
        if each {
            run_each(alloc, reader, writer, causes)
        } else {
            run(alloc, reader, writer, causes)
        }
    }
}

/// Reads a script to its end, or to one byte more than a script may have. Then writes the report of the state after
/// the script, or the one line of its fault.
///
/// It makes at most 1,048,577 reads. Any error of the reader, even one that a signal causes, is [`ScriptFault::Read`]
/// at once. If memory runs out, the line is `out of memory`. That never happens for an input without a byte, nor, once
/// the input was read, for one that is too long, or whose header or first line after it is malformed.
///
/// `causes` is given the fault's cause before anything is written, if a cause is known and there is memory for it; but
/// not if memory runs out before the script was read, or for its output.
pub fn run<R: Read, W: Write, C: Causes>(
    alloc: Global,
    reader: &mut R,
    writer: &mut W,
    causes: &C,
) -> Result<Outcome, ScriptFault>
    // What is written is the report of the script that was read, or the line of its fault, or that memory ran out, and
    // nothing else.
    ensures report { result ≡ Ok Outcome.Report
        → IfSome (R.remaining reader.old)
        (λ text. WritesReport text (W.contents writer.old) (W.contents writer.new)) }
    ensures refused { result ≡ Ok Outcome.Refused
        → IfSome (R.remaining reader.old) (λ text. WritesFault text (W.contents writer.old) (W.contents writer.new)) }
    ensures unread { result ≡ Err ScriptFault.Read → writer.new ≡ writer.old }
    ensures taken { TakesAtMost (most_of_script + 1) (R.remaining reader.old) (R.remaining reader.new) }

    // In every script of one direction, the bytes that arrived are the sent bytes, then the ring, then the unread
    // bytes; and the end is passed on only after every byte.
    ensures every_byte { IfSome (R.remaining reader.old) EveryByte }
    ensures every_end { IfSome (R.remaining reader.old) EveryEnd }

    // In every script of a world, the headline and what it depends on hold for its events and for the world after
    // them.
    ensures every_run { IfSome (R.remaining reader.old) EveryRun }
{
    every_run_is_sound();
    // One byte too many is enough to know that a script is too long.
    match input::read_at_most(alloc, reader, MAX_SCRIPT + 1) {
        Ok(text) => answer(alloc, text.as_slice(), writer, causes),
        Err(fault) => answer_unread(writer, fault),
    }
}

/// Answers for a script that was not read: writes a line only if memory for it ran out.
pub(crate) fn answer_unread<W: Write>(
    writer: &mut W,
    fault: InputFault,
) -> Result<Outcome, ScriptFault>
    ensures memory { result ≡ Ok Outcome.Refused → fault ≡ InputFault.NoMemory }
    ensures told { result ≡ Ok Outcome.Refused → Appends (W.contents writer.old) (W.contents writer.new) (error_line Fault.NoMemory) }
    ensures report { result ≢ Ok Outcome.Report }
    ensures unread { result ≡ Err ScriptFault.Read → writer.new ≡ writer.old }
{
    match fault {
        InputFault::NoMemory => tell_fault(writer, Fault::NoMemory),
        InputFault::Unreadable => Err(ScriptFault::Read),
    }
}

/// Writes the report of the state after the script that a text stands for; or gives the cause of the script's fault to
/// `causes`, and then writes the fault's one line.
pub fn answer<W: Write, C: Causes>(
    alloc: Global,
    text: &[u8],
    writer: &mut W,
    causes: &C,
) -> Result<Outcome, ScriptFault>
    ensures report { result ≡ Ok Outcome.Report → WritesReport text.now (W.contents writer.old) (W.contents writer.new) }
    ensures refused { result ≡ Ok Outcome.Refused → AnswersFault text.now (W.contents writer.old) (W.contents writer.new) }
    ensures err { IfErr result (λ fault. fault ≡ ScriptFault.Write) }
{
    match compute(alloc, text) {
        Ok(reached) => tell_report(alloc, writer, &reached),
        Err(fault) => {
            add_cause(alloc, text, fault, causes);
            tell_fault(writer, fault)
        }
    }
}

#[tactic(auto, using(crate::proofs::Telling::by_script))]
fn compute(alloc: Global, text: &[u8]) -> Result<Reached, Fault>
    ensures { LeadsTo text.now result }
{
    parse(alloc, text)?.carry_out(alloc)
}

/// Writes the report of a state, or that memory for the report ran out.
fn tell_report<W: Write>(
    alloc: Global,
    writer: &mut W,
    reached: &Reached,
) -> Result<Outcome, ScriptFault>
    ensures report { result ≡ Ok Outcome.Report → Appends (W.contents writer.old) (W.contents writer.new) (reached_report reached.now) }
    ensures refused { result ≡ Ok Outcome.Refused → Appends (W.contents writer.old) (W.contents writer.new) (error_line Fault.NoMemory) }
    ensures err { IfErr result (λ fault. fault ≡ ScriptFault.Write) }
{
    match reached.report(alloc) {
        Ok(report) => write_report(writer, report.as_bytes()),
        Err(error) => tell_fault(writer, Fault::from(error)),
    }
}

/// Writes the line of a fault. That takes no memory, so each fault is written as itself.
pub(crate) fn tell_fault<W: Write>(writer: &mut W, fault: Fault) -> Result<Outcome, ScriptFault>
    ensures report { result ≢ Ok Outcome.Report }
    ensures refused { result ≡ Ok Outcome.Refused → Appends (W.contents writer.old) (W.contents writer.new) (error_line fault) }
    ensures err { IfErr result (λ fault. fault ≡ ScriptFault.Write) }
{
    if write!(writer, "{fault}\n").is_err() || writer.flush().is_err() {
        return Err(ScriptFault::Write);
    }
    Ok(Outcome::Refused)
}

fn write_report<W: Write>(writer: &mut W, report: &[u8]) -> Result<Outcome, ScriptFault>
    ensures report { result ≡ Ok Outcome.Report → Appends (W.contents writer.old) (W.contents writer.new) report.now }
    ensures refused { result ≢ Ok Outcome.Refused }
    ensures err { IfErr result (λ fault. fault ≡ ScriptFault.Write) }
{
    if writer.write_all(report).is_err() || writer.flush().is_err() {
        return Err(ScriptFault::Write);
    }
    Ok(Outcome::Report)
}

/// The headline, and the tickets, rest, table and edges on which it depends, hold after every list of events that can
/// happen.
fn every_run_is_sound()
    ensures { EveryRunIsSound }
{
    every_run_holds();
    answers_keep_place();
    failures_are_told();
    live_pairs_rest();
    only_overdue_pairs_expire();
}
