ghost use Rattle.std.specs.Prelude.{◌≡◌, ◌≤◌, IfOk, IsErrOf, IsTrue};
ghost use Rattle.kernel_model.specs.Outcome.{Meets, MeetsAlways};
ghost use Rattle.script.specs.{Faults.Carries, Transfers.{new_transfer, stepped, line_stepped, step_takes_memory, takes_memory, read_size}};

use crate::Fault;
use flow::Flow;
use kernel_model::{End, Refusal, Reply};
use relay_core::MAX_READ;
use script_text::{NumberedStep, Step};
use std::alloc::{AllocError, Global};
use token::Side;

/// One direction: a source, a ring, and a destination that is connected.
#[derive(Drop)]
pub struct Transfer {
    /// The socket that the relay reads from.
    pub source: End,
    /// What was read and not yet written.
    pub flow: Flow,
    /// The socket that the relay writes to.
    pub destination: End,
}

impl Transfer {
    /// One direction before its first step, with a ring of at most `ring` bytes. Fails only if memory ran out.
    pub fn new(alloc: Global, ring: usize) -> Result<Transfer, AllocError>
        requires least { 1 ≤ ring }
        requires most { ring ≤ 65536 }
        ensures { IfOk result (λ transfer. transfer ≡ new_transfer ring) }
    {
        Ok(Transfer {
            source: End::new(alloc, Side::Client),
            flow: Flow::new(alloc, ring, &[])?,
            destination: End::new(alloc, Side::Target),
        })
    }

    /// Makes one step, or refuses it and changes nothing.
    pub fn step(&mut self, step: &Step) -> Result<(), Refusal>
        ensures outcome { Meets (stepped self.old step.now) self.old self.new result }
        ensures memory { IsErrOf result Refusal.NoMemory → IsTrue (takes_memory step.now) }
    {
        match step {
            Step::Arrive(bytes) => {
                self.source.arrive(bytes.as_slice())?;
            }
            Step::Fin => {
                self.source.fin()?;
            }
            Step::Room => {
                self.destination.room()?;
            }
            Step::Read(count) => self.read(*count)?,
            Step::End => self.end()?,
            Step::Wrote(count, full) => {
                self.destination
                    .write(self.flow.front(), Reply::Wrote(*count, *full))?;
                self.flow.drop_front(*count);
            }
            Step::Shut => self.shut()?,
        }
        Ok(())
    }

    /// Makes the step of a line, or gives the fault of that line.
    pub(crate) fn carry_out(&mut self, numbered: &NumberedStep) -> Result<(), Fault>
        ensures { Carries (step_takes_memory self.old numbered.now) (line_stepped self.old numbered.now) self.old result self.new }
    {
        match self.step(&numbered.step) {
            Ok(()) => Ok(()),
            Err(Refusal::NotAllowed) => Err(Fault::NotAllowed(numbered.line, numbered.step.word())),
            Err(Refusal::NoMemory) => Err(Fault::NoMemory),
        }
    }

    /// The most bytes that the next read asks for.
    pub(crate) fn read_size(&self) -> usize
        ensures { result ≡ read_size self.now.flow }
    {
        self.flow.free().min(MAX_READ)
    }

    /// The read from the source gives bytes, which go into the ring.
    fn read(&mut self, count: usize) -> Result<(), Refusal>
        ensures { MeetsAlways (stepped self.old (Step.Read count)) self.old self.new result }
    {
        let most = self.read_size();
        if self.flow.end_seen() {
            return Err(Refusal::NotAllowed);
        }
        let Some(bytes) = self.source.bytes_read(most, count) else {
            return Err(Refusal::NotAllowed);
        };
        self.flow.take_in(bytes);
        self.source.read(most, Reply::Bytes(count))
    }

    /// The read from the source gives the end of input.
    fn end(&mut self) -> Result<(), Refusal>
        ensures { MeetsAlways (stepped self.old Step.End) self.old self.new result }
    {
        let most = self.read_size();
        if self.flow.end_seen() {
            return Err(Refusal::NotAllowed);
        }
        self.source.read(most, Reply::End)?;
        self.flow.mark_end();
        Ok(())
    }

    /// The end is passed on to the destination.
    fn shut(&mut self) -> Result<(), Refusal>
        ensures { MeetsAlways (stepped self.old Step.Shut) self.old self.new result }
    {
        if !self.flow.end_seen() || !self.flow.is_drained() || self.flow.is_shut() {
            return Err(Refusal::NotAllowed);
        }
        self.destination.shut(Reply::Shut)?;
        self.flow.mark_shut();
        Ok(())
    }
}
