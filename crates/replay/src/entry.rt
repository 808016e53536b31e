//! One connection, followed record by record.
ghost use Rattle.std.specs.Prelude.{◌≡◌, ◌++◌, ◌∷◌, [], ℕ, List, true, false};
ghost use Rattle.record_lines.specs.declared.act.Act.{Act, TheVariants.Ended};
ghost use Rattle.record_reader.specs.{Accounts.{IsAccount}, Moments.{IsTimes, Moment}};

use crate::live::{put_live, put_times};
use record_lines::{Act, Opening, Polling, Record};
use record_reader::{Account, Times};
use relay_core::Fault;
use relay_log::{Done, Failed};
use std::alloc::{AllocError, Global};
use token::{Name, Side};
use world_text::{Page, Piece};

/// A connection that was opened, and what has become of it.
#[derive(Clone, Copy)]
pub(crate) struct Entry {
    pub slot: usize,
    pub generation: u64,
    pub account: Account,
    pub times: Times,
    /// The count before its last turn, and the one before its first end was dropped.
    begun: u64,
    closed: u64,
    /// The count after the first report of its target, and after the last report of either end.
    first_of_target: u64,
    last: u64,
}

impl Entry {
    /// A connection that was opened at this time. `has_lead`: its target is first sent a line.
    pub(crate) fn new(slot: usize, generation: u64, has_lead: bool, at: u64) -> Entry
        ensures account { IsAccount [] result.account }
        ensures times { IsTimes at [] result.times }
    {
        Entry {
            slot,
            generation,
            account: Account::new(has_lead),
            times: Times::new(at),
            begun: 0,
            closed: u64::MAX,
            first_of_target: u64::MAX,
            last: 0,
        }
    }

    /// A report of it follows, or an act of its turns or of its ends, at this time.
    pub(crate) fn add(&mut self, record: &Record, at: u64) {
        match record.act {
            Act::Poller(_, Polling::Reported(Name::End(token))) => {
                self.report(token.side(), record, at);
            }
            Act::Poller(_, _) => {}
            _ => self.act(record, at),
        }
    }

    /// An act of its turns or of its ends follows, at this time.
    fn act(&mut self, record: &Record, at: u64)
        ensures told { (acts : List Act) → IsAccount acts self.old.account
            → IsAccount (acts ++ record.now.act ∷ []) self.new.account }
        ensures times { (opened : ℕ) → (moments : List Moment) → IsTimes opened moments self.old.times
            → IsTimes opened (moments ++ record { at = at; act = record.now.act } ∷ []) self.new.times }
        ensures slot { self.new.slot ≡ self.old.slot }
        ensures generation { self.new.generation ≡ self.old.generation }
    {
        self.account = self.account.after(&record.act);
        self.times = self.times.after(at, &record.act);
        if matches!(record.act, Act::Begin(_)) {
            self.begun = record.before;
        }
        if self.account.dropped {
            self.closed = self.closed.min(record.before);
        }
    }

    /// An end was reported, at this time.
    fn report(&mut self, side: Side, record: &Record, at: u64)
        ensures times { (opened : ℕ) → (moments : List Moment) → IsTimes opened moments self.old.times
            → IsTimes opened (moments ++ record { at = at; act = record.now.act } ∷ []) self.new.times }
        ensures account { self.new.account ≡ self.old.account }
        ensures slot { self.new.slot ≡ self.old.slot }
        ensures generation { self.new.generation ≡ self.old.generation }
    {
        self.times = self.times.after(at, &record.act);
        self.last = self.last.max(record.after);
        if side == Side::Target {
            self.first_of_target = self.first_of_target.min(record.after);
        }
    }

    /// What has become of it, as a line: as the log says it, or that it is open, and its times. One that was closed
    /// without a turn has none. `failed` is the count after the first wait for reports that failed, and `now` the last
    /// time in the recording. None: it has no times.
    pub(crate) fn line(
        &self,
        alloc: Global,
        failed: Option<u64>,
        now: Option<u64>,
    ) -> Result<String, AllocError> {
        if self.account.dropped && !self.account.had_turn {
            return Ok(String::new(alloc));
        }
        let end = self.end_text(alloc, failed)?;
        let mut page = Page::new(alloc);
        page.put(&[Piece::Text(end.as_str())]);
        if let Some(now) = now {
            put_times(&mut page, &self.times_by(now));
        }
        page.put(&[Piece::Text("\n")]);
        page.finish()
    }

    /// Its times: if it is open, the silence lasts up to this time.
    fn times_by(&self, now: u64) -> Times
        ensures open { self.now.account.dropped ≡ false → (opened : ℕ) → (moments : List Moment) → IsTimes opened moments self.now.times
            → IsTimes opened (moments ++ record { at = now; act = Ended } ∷ []) result }
        ensures closed { self.now.account.dropped ≡ true → result ≡ self.now.times }
    {
        if self.account.dropped {
            self.times
        } else {
            self.times.after(now, &Act::Ended)
        }
    }

    fn end_text(&self, alloc: Global, failed: Option<u64>) -> Result<String, AllocError> {
        let (slot, generation) = (self.slot, self.generation);
        if let Some(fault) = self.fault(failed) {
            let failed = Failed {
                slot,
                generation,
                fault,
            };
            return format!(in alloc; "{failed}");
        }
        let (up, down) = (self.account.target.written, self.account.client.written);
        if self.account.client.shut && self.account.target.shut {
            let done = Done {
                slot,
                generation,
                up,
                down,
            };
            return format!(in alloc; "{done}");
        }
        let mut page = Page::new(alloc);
        put_live(&mut page, self);
        page.finish()
    }

    /// Why it failed. One that a turn closed without a failed call was past the idle limit.
    fn fault(&self, failed: Option<u64>) -> Option<Fault> {
        let account = &self.account;
        let is_done = account.client.shut && account.target.shut;
        if account.fault.is_some() || is_done || !account.dropped {
            return account.fault;
        }
        if self.closed > failed.unwrap_or(u64::MAX) {
            return None;
        }
        Some(Fault::Idle)
    }

    /// Whether a report has come since its last turn.
    pub(crate) fn is_due(&self) -> bool {
        self.last > self.begun
    }

    /// Whether its target is connected: a call has shown it, or a turn that began after a report of the target ended
    /// quiet. epoll reports a socket that was not connected only if the connect has completed or failed.
    pub(crate) fn is_connected(&self) -> bool {
        self.account.is_shown() || self.account.is_quiet && self.first_of_target < self.begun
    }
}

/// The slot and the generation of a connection that an act opened.
pub(crate) fn opened(act: &Act) -> Option<(usize, u64)> {
    match *act {
        Act::Poller(_, Polling::Open(slot, generation, Opening::Opened)) => Some((
            slot, generation,
        )),
        _ => None,
    }
}

/// The slot of which an act is, if it is a report of an end, or of a turn or an end; and its generation, if it has one.
pub(crate) fn whose(act: &Act) -> Option<(usize, Option<u64>)> {
    match *act {
        Act::Poller(_, Polling::Reported(Name::End(token))) | Act::Wire(token, _) => {
            Some((token.slot(), Some(token.generation())))
        }
        Act::Begin(slot) | Act::End(slot) => Some((slot, None)),
        _ => None,
    }
}
