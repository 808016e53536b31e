//! A run that shows each step.
ghost use Rattle.std.specs.Prelude.{◌≡◌, ◌≢◌, ◌+◌, Err};
ghost use Rattle.input.specs.Texts.{TakesAtMost};
ghost use Rattle.script.specs.Scripts.{most_of_script};

use crate::causes::add_cause;
use crate::machine::Machine;
use crate::running::{answer_unread, tell_fault};
use crate::{Fault, Script, parse};
use script_text::Lines;
use std::alloc::{AllocError, Global};
use std::io::{Read, Write};
use tools::{Causes, MAX_SCRIPT, Outcome, ScriptFault};

/// Does what [`run`](crate::run) does, but shows each step in place of the report at the end. For the header and then
/// for each step, it writes the line of the script, as `> LINE`, and below it the lines that the report has after that
/// line and not before. It writes these before it makes the next step.
///
/// The faults are those of `run`. If a step is not allowed, what was written before stays, and the line of the fault
/// follows. `causes` is given a fault's cause before its line.
pub fn run_each<R: Read, W: Write, C: Causes>(
    alloc: Global,
    reader: &mut R,
    writer: &mut W,
    causes: &C,
) -> Result<Outcome, ScriptFault>
    ensures unread { result ≡ Err ScriptFault.Read → writer.new ≡ writer.old }
    ensures taken { TakesAtMost (most_of_script + 1) (R.remaining reader.old) (R.remaining reader.new) }
{
    match input::read_at_most(alloc, reader, MAX_SCRIPT + 1) {
        Ok(text) => answer_each(alloc, text.as_slice(), writer, causes),
        Err(fault) => answer_unread(writer, fault),
    }
}

/// Shows the steps, as `show`. If the script has a fault, gives its cause to `causes`, and writes the fault's line.
fn answer_each<W: Write, C: Causes>(
    alloc: Global,
    text: &[u8],
    writer: &mut W,
    causes: &C,
) -> Result<Outcome, ScriptFault>
    ensures { result ≢ Err ScriptFault.Read }
{
    match show(alloc, text, writer) {
        Ok(true) => Ok(Outcome::Report),
        Ok(false) => Err(ScriptFault::Write),
        Err(fault) => {
            add_cause(alloc, text, fault, causes);
            tell_fault(writer, fault)
        }
    }
}

/// Shows each step of the script that a text is, or those before the first that is refused. False if a write failed.
fn show<W: Write>(alloc: Global, text: &[u8], writer: &mut W) -> Result<bool, Fault> {
    let script = parse(alloc, text)?;
    let lines = Lines::new(text);
    match &script {
        Script::Flow(script) => {
            let transfer = script.open(alloc)?;
            show_steps(alloc, lines, transfer, script.steps(), writer)
        }
        Script::World(script) => {
            let world = script.open(alloc)?;
            show_steps(alloc, lines, world, script.events(), writer)
        }
    }
}

/// Shows the state before the first step, and then each step, or those before the first that is refused.
fn show_steps<M: Machine, W: Write>(
    alloc: Global,
    mut lines: Lines<'_>,
    mut machine: M,
    steps: &[M::Step],
    writer: &mut W,
) -> Result<bool, Fault> {
    if !put(alloc, writer, &mut lines, machine.report(alloc)?)? {
        return Ok(false);
    }
    for step in steps {
        let changes = machine.show(alloc, step)?;
        if !put(alloc, writer, &mut lines, changes)? {
            return Ok(false);
        }
    }
    Ok(true)
}

/// Writes the next line of a script after a mark, and then a text, and flushes. False if that failed.
fn put<W: Write>(
    alloc: Global,
    writer: &mut W,
    lines: &mut Lines<'_>,
    text: String,
) -> Result<bool, AllocError> {
    let line = match lines.next() {
        Some(line) => line.text,
        None => &[],
    };
    let parts: [&[u8]; 4] = [b"> ", line, b"\n", text.as_bytes()];
    let shown = parts.concat(alloc)?;
    Ok(writer.write_all(shown.as_slice()).is_ok() && writer.flush().is_ok())
}
