//! The turns of a slot's connection.
use crate::machine::Flaw;
use crate::slot_replay::{Phase, SlotReplay, State};
use record_lines::{Act as Recorded, Made, Record};
use record_reader::{Numbered, OWN_BUDGET, is_busy};
use token::Side;
use world::{Act, Event};

impl SlotReplay<'_> {
    /// A turn begins: its slot must have a note by then.
    pub(crate) fn begin(&mut self, record: Record) -> Result<(), Flaw> {
        match self.state.phase {
            Phase::Open => {}
            Phase::Free => return Err(Flaw::Because("no connection is open in the slot")),
            _ => return Err(Flaw::Because("the turn before has not ended")),
        }
        let since = self.gather_notes(record.before)?;
        let (earliest, latest) = self.findings.clock.between(since, record.before);
        let state = &mut self.state;
        state.latest = latest;
        state.taken_from = since;
        state.taken_by = record.before;
        state.phase = Phase::Calling(0);
        self.pass_to(earliest)?;
        self.machine.claim()
    }

    fn pass_to(&mut self, second: u64) -> Result<(), Flaw> {
        let now = self.now();
        if self.findings.recording.header.idle == 0 || second <= now {
            return Ok(());
        }
        self.machine.put(Event::Tick(second - now))
    }

    fn now(&self) -> u64 {
        self.state
            .base
            .saturating_add(self.machine.world().second())
    }

    /// A turn has made its calls.
    pub(crate) fn end(&mut self, record: Record) -> Result<(), Flaw> {
        let Phase::Calling(calls) = self.state.phase else {
            return Err(Flaw::Because("no turn is in progress"));
        };
        self.state.free_from = record.after;
        if self.machine.is_over() {
            self.state.phase = Phase::Closing(None);
            return Ok(());
        }
        if self.machine.next_call().is_some() {
            return self.end_due(calls);
        }
        if dropped_next(self.next).is_some() {
            self.pass_to(self.state.latest)?;
            self.state.phase = Phase::Closing(None);
            return self.machine.put(Event::Work(0, Act::Expire));
        }
        self.state.phase = Phase::Settling;
        self.check_idle()
    }

    /// A turn that ends with a call left must have spent its budget. It posts a note for the next turn.
    fn end_due(&mut self, calls: usize) -> Result<(), Flaw> {
        let budget = self.findings.recording.header.budget;
        if calls != budget && calls != OWN_BUDGET.min(budget) {
            return Err(Flaw::Because("a call is left, and the budget is not spent"));
        }
        self.posted = self.last;
        self.state.phase = Phase::Open;
        self.machine.work(&[Act::Post, Act::Release])
    }

    /// Refuses a turn that has no call left and leaves a connection that is past the idle limit.
    fn check_idle(&self) -> Result<(), Flaw> {
        let limit = self.findings.recording.header.idle;
        if limit > 0 && self.now().saturating_sub(self.state.moved) >= limit {
            return Err(Flaw::Because("the connection is past the idle limit, and is left open"));
        }
        Ok(())
    }

    /// A turn has ended quiet, which the target's wire records. After that the slot is released.
    pub(crate) fn settle(&mut self, side: Side, record: Record) -> Result<(), Flaw> {
        if !matches!(self.state.phase, Phase::Settling) {
            return Err(Flaw::Because("no turn has ended quiet"));
        }
        if side != Side::Target {
            return Err(Flaw::Because("of a client's end no settle is recorded"));
        }
        self.state.free_from = record.after;
        self.state.phase = Phase::Open;
        self.machine.put(Event::Work(0, Act::Release))
    }

    /// An end is dropped. After the second one the slot is free.
    pub(crate) fn drop_end(&mut self, side: Side, record: Record) -> Result<(), Flaw> {
        let recording = self.findings.recording;
        let has_failed = recording.has_failed(record.before);
        let acts = recording.poller(self.poller);
        if !self.state.drop_end(side, record.before, has_failed, acts)? {
            return Ok(());
        }
        self.note_while_held()?;
        self.state.phase = Phase::Free;
        self.machine.work(&[Act::Close, Act::Retire, Act::Free])
    }

    /// Refuses what is left to do in the slot. A note is refused at the record that posted it.
    pub(crate) fn rest(&mut self) -> Result<(), Flaw> {
        match self.state.phase {
            Phase::Free => return Ok(()),
            Phase::Open => {}
            Phase::Void(_) => return Err(Flaw::Because("the other end is not dropped")),
            _ => return Err(Flaw::Because("its turn has not ended")),
        }
        if let Some(post) = self.posts.rest(&self.state) {
            self.note(post)?;
        }
        if self.machine.has_notes() {
            self.last = self.posted;
            return Err(Flaw::Because("no turn took the note of this"));
        }
        if self.machine.world().movable(0) {
            return Err(Flaw::Because("the connection could move"));
        }
        Ok(())
    }
}

impl State {
    /// Drops an end. Returns true if that closes a connection that a turn has ended. `acts` are the poller's.
    fn drop_end(
        &mut self,
        side: Side,
        count: u64,
        has_failed: bool,
        acts: &[Numbered],
    ) -> Result<bool, Flaw> {
        let (first, by_turn) = match self.phase {
            Phase::Closing(first) => (first, true),
            Phase::Void(first) => (first, false),
            Phase::Open if has_failed => {
                self.void = self.generation;
                (None, false)
            }
            _ => return Err(Flaw::Because("the connection has not ended")),
        };
        match first {
            Some(other) if side == other => {
                return Err(Flaw::Because("the same end is dropped twice"));
            }
            Some(_) if by_turn => return Ok(true),
            Some(_) => self.phase = Phase::Free,
            None if by_turn => {
                self.phase = Phase::Closing(Some(side));
                self.taken_by = count;
            }
            None if !has_failed && is_busy(acts, self.free_from.saturating_add(1), count) => {
                return Err(Flaw::Because("its poller did something else before it closed this"));
            }
            None => self.phase = Phase::Void(Some(side)),
        }
        Ok(false)
    }
}

/// The generation of the connection of which the next act drops an end, if it does.
pub(crate) fn dropped_next(next: &[Numbered]) -> Option<u64> {
    match next {
        [first, ..] => match first.record.act {
            Recorded::Wire(token, Made::Drop) => Some(token.generation()),
            _ => None,
        },
        [] => None,
    }
}
