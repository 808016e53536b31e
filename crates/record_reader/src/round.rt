//! What a poller does in a round, one act after the other: it waits for reports once, and then accepts connections,
//! each of which it opens at once.
use crate::recording::{Last, Recording, count_before};
use record_lines::{Accepted, Act, Made, Opening, Polling, Record};
use sizes::MAX_ACCEPTS;
use std::alloc::AllocError;
use std::mem;
use token::{Name, Token};
use tools::ReplayFault;

#[derive(Drop)]
struct Round<'a> {
    recording: &'a Recording,
    /// The generation of the last connection that the poller opened in each slot, 0 where it opened none.
    opened: Vec<u64>,
    /// The count before the wait with which the round began, whether the wait failed, and what it has reported so far.
    began: u64,
    failed: bool,
    reported: Vec<Name>,
    /// Whether the time of the wait may come next.
    may_time: bool,
    /// How many calls of accept(2) are left.
    accepts: usize,
    /// Whether an accepted connection is in hand.
    accepted: bool,
}

/// Refuses with `Broken` what a poller does not do in its round.
pub fn check_rounds(recording: &Recording) -> Result<(), ReplayFault> {
    for poller in 0..recording.header.pollers {
        let mut round = Round {
            recording,
            opened: vec![in recording.alloc; 0; recording.header.slots]?,
            began: 0,
            failed: false,
            reported: Vec::new(recording.alloc),
            may_time: false,
            accepts: 0,
            accepted: false,
        };
        round.check(poller)?;
    }
    Ok(())
}

impl Round<'_> {
    fn check(&mut self, poller: usize) -> Result<(), ReplayFault> {
        let acts = self.recording.poller(poller);
        for numbered in acts {
            if let Some(why) = self.act(&numbered.record)? {
                return Err(self.recording.broken(numbered.line, why));
            }
        }
        match acts.last() {
            Some(last) if self.accepted && matches!(self.recording.last, Last::Ended) => {
                let why = "the accepted connection is never opened";
                Err(self.recording.broken(last.line, why))
            }
            _ => Ok(()),
        }
    }

    /// Why an act cannot follow those before it. None if it can.
    fn act(&mut self, record: &Record) -> Result<Option<&'static str>, AllocError> {
        let Act::Poller(_, did) = record.act else {
            return Ok(None);
        };
        let may_time = mem::take(&mut self.may_time);
        Ok(match did {
            Polling::Reported(name) => return self.report(name),
            Polling::Time(_) if may_time => None,
            Polling::Time(_) => Some("a time follows a wait that gave reports"),
            _ if self.failed => Some("a poller ends once its wait for reports has failed"),
            Polling::Accept(answer) => self.accept(answer),
            Polling::Open(slot, generation, opening) => self.open(slot, generation, opening),
            _ => self.begin(record.before, did),
        })
    }

    fn begin(&mut self, count: u64, did: Polling) -> Option<&'static str> {
        if self.accepted {
            return Some("the accepted connection is opened before the next wait");
        }
        self.began = count;
        self.failed = matches!(did, Polling::Failed);
        self.may_time = matches!(did, Polling::Gave(count) if count > 0);
        self.reported.clear();
        self.accepts = MAX_ACCEPTS;
        None
    }

    fn report(&mut self, name: Name) -> Result<Option<&'static str>, AllocError> {
        if let Name::End(token) = name {
            match self.opened.get(token.slot()) {
                Some(opened) if token.generation() == *opened && !self.is_closed(token) => {}
                // It was opened in a part before this file.
                Some(0) if self.recording.header.from.is_some() => {}
                _ => return Ok(Some("what is reported was not open when the wait began")),
            }
        }
        if self.reported.contains(&name) {
            return Ok(Some("a wait reports each end once"));
        }
        self.reported.push(name)?;
        Ok(None)
    }

    /// Whether this end, of the last connection in its slot, was closed when the wait began.
    fn is_closed(&self, token: Token) -> bool {
        let acts = self.recording.slot(token.slot());
        let ended = count_before(acts, self.began, true);
        for back in 1..3 {
            let Some(last) = acts.get(ended.wrapping_sub(back)) else {
                return false;
            };
            match last.record.act {
                Act::Poller(_, Polling::Open(_, generation, _)) => {
                    return generation > token.generation();
                }
                Act::Wire(other, Made::Drop) if other == token => return true,
                _ => {}
            }
        }
        false
    }

    /// After a starved accept(2) the round calls it no more.
    fn accept(&mut self, answer: Accepted) -> Option<&'static str> {
        if self.accepts == 0 {
            return Some("no more calls of accept(2) are made in this round");
        }
        self.accepts -= 1;
        match answer {
            Accepted::Taken => self.accepted = true,
            Accepted::Starved => self.accepts = 0,
            Accepted::Blocked | Accepted::Again => {}
        }
        None
    }

    fn open(&mut self, slot: usize, generation: u64, opening: Opening) -> Option<&'static str> {
        if !mem::take(&mut self.accepted) {
            return Some("no accepted connection is in hand");
        }
        if matches!(opening, Opening::Opened) {
            if let Some(opened) = self.opened.get_mut(slot) {
                *opened = generation;
            }
        }
        None
    }
}
