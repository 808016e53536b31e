ghost use Rattle.std.specs.Prelude.{◌<◌, IsErrOf, IsTrue, Some};
ghost use Rattle.script_text.specs.{Headers.SizesFit, Events.{step_of, event_of}};
ghost use Rattle.script.specs.{Faults.GivesBy, Scripts.{BeginsWell, begins_well, reads_on, headed, parsed, plan_of, steps_of, events_of, said_by, said_lines, starts_with}};

use crate::{Fault, FlowScript, Script, WorldScript};
use script_text::{
    Header, Lines, NotRead, NumberedEvent, NumberedStep, read_event, read_header, read_step,
};
use std::alloc::Global;
use tools::MAX_SCRIPT;

/// The script that a text stands for, or its first fault: first that it is too long, then that no line says anything,
/// then the first malformed line of the whole text. Or that memory ran out, but only for a text that begins with a
/// good header and a good line after it.
pub fn parse(alloc: Global, text: &[u8]) -> Result<Script, Fault>
    ensures script { GivesBy said_by (parsed text.now) result }
    ensures memory { IsErrOf result Fault.NoMemory → BeginsWell text.now }
{
    if text.len() > MAX_SCRIPT {
        return Err(Fault::TooLong);
    }
    plan(alloc, Lines::new(text))
}

fn plan(alloc: Global, mut lines: Lines) -> Result<Script, Fault>
    ensures script { GivesBy said_by (plan_of lines.entry) result }
    ensures memory { IsErrOf result Fault.NoMemory → IsTrue (begins_well lines.entry) }
{
    let Some(first) = lines.next() else {
        return Err(Fault::NoWorld);
    };
    match read_header(first.text) {
        Err(_) => Err(Fault::Malformed(first.number)),
        Ok(header) => headed(alloc, header, lines),
    }
}

fn headed(alloc: Global, header: Header, lines: Lines) -> Result<Script, Fault>
    requires { SizesFit header }
    ensures script { GivesBy said_by (headed header lines.entry) result }
    ensures memory { IsErrOf result Fault.NoMemory → IsTrue (reads_on (Some header) lines.entry) }
{
    match header {
        Header::Flow(ring) => match steps(alloc, lines) {
            Ok(steps) => Ok(Script::Flow(FlowScript::new(ring, steps))),
            Err(fault) => Err(fault),
        },
        Header::World(limits) => match events(alloc, lines) {
            Ok(events) => Ok(Script::World(WorldScript::new(limits, events))),
            Err(fault) => Err(fault),
        },
    }
}

fn steps(alloc: Global, mut lines: Lines) -> Result<Vec<NumberedStep>, Fault>
    ensures steps { GivesBy (λ steps. steps.items) (steps_of lines.entry) result }
    ensures memory { IsErrOf result Fault.NoMemory → IsTrue (starts_with step_of lines.entry) }
{
    let mut steps = Vec::new(alloc);
    while let Some(line) = lines.next() {
        let step = match read_step(alloc, line.text) {
            Ok(step) => step,
            Err(NotRead::Malformed(_)) => return Err(Fault::Malformed(line.number)),
            Err(NotRead::NoMemory) => return Err(Fault::NoMemory),
        };
        steps.push(NumberedStep {
            line: line.number,
            step,
        })?;
    }
    Ok(steps)
}

fn events(alloc: Global, mut lines: Lines) -> Result<Vec<NumberedEvent>, Fault>
    ensures events { GivesBy (λ events. said_lines events.items) (events_of lines.entry) result }
    ensures memory { IsErrOf result Fault.NoMemory → IsTrue (starts_with event_of lines.entry) }
{
    let mut events = Vec::new(alloc);
    while let Some(line) = lines.next() {
        let event = match read_event(alloc, line.text) {
            Ok(event) => event,
            Err(NotRead::Malformed(_)) => return Err(Fault::Malformed(line.number)),
            Err(NotRead::NoMemory) => return Err(Fault::NoMemory),
        };
        events.push(NumberedEvent {
            line: line.number,
            event,
        })?;
    }
    Ok(events)
}
