//! A connection is opened in a slot.
ghost use Rattle.std.specs.Prelude.{◌≤◌, IfSome};
ghost use Rattle.world.specs.States.{IsWithinLimits};

use crate::machine::{Flaw, Machine};
use crate::results::Results;
use crate::slot_replay::{Phase, SlotReplay, State};
use crate::turns::dropped_next;
use record_lines::{Act, Header, Made, Opening, Polling, Record};
use record_reader::{Numbered, Recording, begun_before};
use std::mem;
use token::{MAX_GENERATION, Side};
use world::{Event, Lead, Limits, Polling as Polled};

/// The least and the greatest length of a PROXY line.
const LEAST_LEAD: usize = 32;

const MOST_LEAD: usize = 56;

impl SlotReplay<'_> {
    /// The front was asked to open a connection here.
    pub(crate) fn open(
        &mut self,
        results: &mut Results,
        record: Record,
        generation: u64,
        opening: Opening,
    ) -> Result<(), Flaw> {
        if !matches!(self.state.phase, Phase::Free) {
            return Err(Flaw::Because("the slot is not free"));
        }
        if generation != self.state.generation.saturating_add(1) {
            return Err(Flaw::Because("the generation is not the slot's next one"));
        }
        if !matches!(opening, Opening::Opened) {
            return Ok(());
        }
        // An end of it is dropped before its first turn: then the connection came to nothing.
        if dropped_next(self.next) == Some(generation) {
            self.state.void = generation;
            self.state.free_from = record.after;
            self.state.phase = Phase::Void(None);
            return Ok(());
        }
        let machine = machine_before(self.findings.recording, self.next, generation)?;
        results.take(self.slot, mem::replace(&mut self.machine, machine));
        self.enter(record, generation);
        self.machine.come_in()?;
        self.machine.put(Event::Poll(Polled::Open))
    }

    /// A connection begins, at the earliest second that the round can have read.
    fn enter(&mut self, record: Record, generation: u64) {
        let acts = self.findings.recording.poller(self.poller);
        let since = last_wait(begun_before(acts, record.before));
        let (earliest, latest) = self.findings.clock.between(since, record.before);
        self.posted = self.last;
        self.state = State {
            phase: Phase::Open,
            generation,
            void: self.state.void,
            taken_from: record.after,
            taken_by: record.after,
            free_from: record.after,
            base: earliest,
            latest,
            moved: latest,
        };
    }
}

/// The count after the last wait of the poller that did these acts. The round has read its second since. A report has
/// the counts of its wait.
fn last_wait(acts: &[Numbered]) -> u64 {
    for last in acts.iter().rev() {
        if !matches!(
            last.record.act,
            Act::Poller(_, Polling::Accept(_) | Polling::Open(_, _, _))
        ) {
            return last.record.after;
        }
    }
    0
}

/// A world in which the connection of this generation, whose acts are next, is opened next.
fn machine_before(
    recording: &Recording,
    next: &[Numbered],
    generation: u64,
) -> Result<Machine, Flaw> {
    // Stand-ins for the PROXY line, whose length the first write to the target shows.
    let bytes = [b'-'; MOST_LEAD];
    let lead = if recording.header.proxy {
        Lead::new(&bytes[..first_offer(next, generation)]).unwrap_or(Lead::NONE)
    } else {
        Lead::NONE
    };
    match limits_of(&recording.header, generation, lead) {
        Some(limits) => Ok(Machine::new(recording.alloc, limits)?),
        None => Err(Flaw::Because("no connection has such a generation")),
    }
}

/// How many bytes the first write to the target offers, or the nearest length that a PROXY line has.
fn first_offer(next: &[Numbered], generation: u64) -> usize
    ensures { result ≤ MOST_LEAD }
{
    for numbered in next {
        match numbered.record.act {
            Act::Poller(_, _) => break,
            Act::Wire(token, Made::Write(length, _)) => {
                if token.side() == Side::Target && token.generation() == generation {
                    return length.max(LEAST_LEAD).min(MOST_LEAD);
                }
            }
            _ => {}
        }
    }
    LEAST_LEAD
}

/// The limits of a world of one slot, in which this generation is opened next. None if no relay has such.
pub(crate) fn limits_of(header: &Header, generation: u64, lead: Lead) -> Option<Limits>
    ensures { IfSome result (λ limits. IsWithinLimits limits) }
{
    let (ring, budget, idle) = (header.ring, header.budget, header.idle);
    if ring == 0 || ring > 65_536 || budget == 0 || budget > 1_024 {
        return None;
    }
    if generation == 0 || generation > MAX_GENERATION {
        return None;
    }
    Some(Limits {
        slots: 1,
        workers: 1,
        ring,
        budget,
        generation: generation - 1,
        idle,
        lead,
    })
}
