use crate::script::print_transfer;
use crate::world_script::happen;
use crate::{Fault, Transfer};
use script_text::{NumberedEvent, NumberedStep, Step};
use std::alloc::{AllocError, Global};
use world::World;
use world_text::{
    NOT_HERE, Outline, end_reason, ended_reason, event_reason, print, read_reason, room_reason,
    wrote_reason,
};

/// A state on which steps are made, and which has a report.
pub(crate) trait Machine: Drop {
    /// A step, with the number of its line.
    type Step;

    /// Makes a step, or gives the fault of its line.
    fn make(&mut self, step: &Self::Step) -> Result<(), Fault>;

    /// Makes a step, and returns the lines that the report has after it and not before; or returns a fault.
    fn show(&mut self, alloc: Global, step: &Self::Step) -> Result<String, Fault>;

    /// The report of the state. Fails only if memory for it ran out.
    fn report(&self, alloc: Global) -> Result<String, AllocError>;

    /// Why a step is not allowed in this state, for a person.
    fn reason(&self, step: &Self::Step) -> &'static str;
}

impl Machine for Transfer {
    type Step = NumberedStep;

    fn make(&mut self, step: &NumberedStep) -> Result<(), Fault> {
        self.carry_out(step)
    }

    fn show(&mut self, alloc: Global, step: &NumberedStep) -> Result<String, Fault> {
        let before = mark(self);
        self.carry_out(step)?;
        if mark(self) == before {
            return Ok(String::new(alloc));
        }
        Ok(print_transfer(alloc, self)?)
    }

    fn report(&self, alloc: Global) -> Result<String, AllocError> {
        print_transfer(alloc, self)
    }

    fn reason(&self, step: &NumberedStep) -> &'static str {
        let flow = &self.flow;
        match &step.step {
            Step::Arrive(_) | Step::Fin => ended_reason(&self.source),
            Step::Room => room_reason(&self.destination),
            Step::Read(_) | Step::End if flow.end_seen() => "the end of input was read",
            Step::Read(count) => read_reason(&self.source, self.read_size(), *count),
            Step::End => end_reason(&self.source),
            Step::Wrote(count, _) => {
                wrote_reason(&self.destination, flow.lead_len(), flow.len(), *count)
            }
            Step::Shut if !flow.end_seen() => "the end of input was not read",
            Step::Shut if !flow.is_drained() => "bytes are in the ring",
            Step::Shut if flow.is_shut() => "the destination is shut down",
            Step::Shut => NOT_HERE,
        }
    }
}

/// Numbers that differ if a step has changed the report: a step adds to a list or takes from it.
fn mark(transfer: &Transfer) -> [usize; 5] {
    let flow = &transfer.flow;
    [
        transfer.destination.taken().len(),
        flow.len(),
        transfer.source.unread().len(),
        flow.end_seen() as usize,
        flow.is_shut() as usize,
    ]
}

impl Machine for World {
    type Step = NumberedEvent;

    fn make(&mut self, step: &NumberedEvent) -> Result<(), Fault> {
        happen(self, step)
    }

    fn show(&mut self, alloc: Global, step: &NumberedEvent) -> Result<String, Fault> {
        let outline = Outline::new(alloc, self, &step.event)?;
        happen(self, step)?;
        Ok(outline.changes(alloc, self)?)
    }

    fn report(&self, alloc: Global) -> Result<String, AllocError> {
        print(alloc, self)
    }

    fn reason(&self, step: &NumberedEvent) -> &'static str {
        event_reason(self, &step.event)
    }
}
