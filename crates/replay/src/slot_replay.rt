ghost use Rattle.std.specs.Prelude.{OnOk};
ghost use Rattle.replay.specs.Traces.{AreRuns, IsConnection};

use crate::machine::{Flaw, Machine};
use crate::posts::{Posts, posts_at};
use crate::results::{Flawed, Results, Whose};
use crate::trace::{connection_len, is_connection};
use record_lines::{Act, Made, Polling, Record};
use record_reader::{Clock, Last, Numbered, Post, Recording};
use token::{Side, Token};

/// What was found out of a recording before its slots are replayed.
#[derive(Clone, Copy)]
pub(crate) struct Findings<'a> {
    pub recording: &'a Recording,
    pub clock: &'a Clock,
    pub posts: &'a [Vec<Post>],
    /// Whether nothing may be left to do.
    pub rests: bool,
}

/// Where the replay of a slot stands.
#[derive(Clone, Copy)]
pub(crate) enum Phase {
    /// No connection is open.
    Free,
    /// A connection came to nothing, or the relay failed while it was open. This end of it was dropped, if any.
    Void(Option<Side>),
    /// A connection is open, and no turn of it is in progress.
    Open,
    /// A turn is in progress, and has made this many calls.
    Calling(usize),
    /// A turn has ended quiet, and its sockets are being settled.
    Settling,
    /// A turn has ended the connection. This end of it was dropped, if any.
    Closing(Option<Side>),
}

/// What is known of the connection in a slot, or of the last one there.
#[derive(Clone, Copy)]
pub(crate) struct State {
    pub phase: Phase,
    /// The generation of the last open connection, 0 at first; and of the last one that came to nothing.
    pub generation: u64,
    pub void: u64,
    /// Between these two counts the last turn took its notes.
    pub taken_from: u64,
    pub taken_by: u64,
    /// The slot was released after this count.
    pub free_from: u64,
    /// The second at which the world began; the latest second that the last turn, and the last movement, can have had.
    pub base: u64,
    pub latest: u64,
    pub moved: u64,
}

/// A slot that is replayed.
#[derive(Drop)]
pub(crate) struct SlotReplay<'a> {
    pub findings: Findings<'a>,
    pub slot: usize,
    pub poller: usize,
    /// The acts that follow the one at hand.
    pub next: &'a [Numbered],
    pub posts: Posts<'a>,
    pub state: State,
    /// The record at hand, and the last one that posted.
    pub last: Numbered,
    pub posted: Numbered,
    /// The record before the one at hand, and what the slot was at then.
    pub before: Option<Numbered>,
    pub phase: Phase,
    /// The world of the connection. It begins with the slot free, as the connection before left it.
    pub machine: Machine,
}

impl State {
    const NEW: State = State {
        phase: Phase::Free,
        generation: 0,
        void: 0,
        taken_from: 0,
        taken_by: 0,
        free_from: 0,
        base: 0,
        latest: 0,
        moved: 0,
    };

    /// The slot before its first act. In a file that follows other parts, connections may have been there.
    fn before(from: Option<u64>, first: &Act) -> State {
        match (from, first) {
            (Some(_), Act::Poller(_, Polling::Open(_, generation, _))) => State {
                generation: generation.saturating_sub(1),
                ..State::NEW
            },
            _ => State::NEW,
        }
    }

    fn has(&self, token: Token) -> bool {
        match self.phase {
            Phase::Free => false,
            Phase::Void(_) => token.generation() == self.void,
            _ => token.generation() == self.generation,
        }
    }
}

fn wire_of(act: &Act) -> Option<(Token, Made)> {
    match act {
        Act::Wire(token, made) => Some((*token, *made)),
        _ => None,
    }
}

impl<'a> SlotReplay<'a> {
    /// A slot to replay, whose first act is this one.
    pub(crate) fn new(
        findings: Findings<'a>,
        slot: usize,
        first: Numbered,
        machine: Machine,
    ) -> SlotReplay<'a> {
        let poller = findings.recording.split.poller_of(slot);
        let posted = first;
        SlotReplay {
            findings,
            slot,
            poller,
            next: findings.recording.slot(slot),
            posts: Posts {
                reports: posts_at(findings.posts, slot),
                sweeps: posts_at(findings.posts, findings.recording.at_poller(poller)),
            },
            state: State::before(findings.recording.header.from, &first.record.act),
            last: first,
            posted,
            before: None,
            phase: Phase::Free,
            machine,
        }
    }

    /// The record at hand fits nowhere.
    pub(crate) fn flawed(&self) -> Flawed {
        Flawed {
            whose: Whose::Slot(self.slot, self.state.generation),
            numbered: self.last,
            before: self.before,
            phase: Some(self.phase),
        }
    }

    /// Replays all records of the slot.
    pub(crate) fn run(
        &mut self,
        recording: &Recording,
        records: &'a [Numbered],
        results: &mut Results,
    ) -> Result<(), Flaw>
        ensures runs { OnOk result (AreRuns recording.now.header recording.now.failed records.now) }
    {
        let mut rest = records;
        while !rest.is_empty() {
            let (connection, next) = rest.split_at(connection_len(rest));
            self.replay_connection(recording, connection, results)?;
            rest = next;
        }
        self.before = None;
        self.phase = self.state.phase;
        if self.findings.rests {
            self.rest()?;
        }
        match (self.state.phase, self.findings.recording.last) {
            (Phase::Free, _) | (_, Last::Stopped | Last::Full) => Ok(()),
            _ => Err(Flaw::Because("the relay has ended, and the connection is not closed")),
        }
    }

    fn replay_connection(
        &mut self,
        recording: &Recording,
        records: &'a [Numbered],
        results: &mut Results,
    ) -> Result<(), Flaw>
        ensures runs { OnOk result (IsConnection recording.now.header recording.now.failed records.now) }
    {
        self.next = records;
        for _act in 0..records.len() {
            let Some((first, next)) = self.next.split_first() else {
                break;
            };
            if self.last.line != first.line {
                self.before = Some(self.last);
            }
            self.phase = self.state.phase;
            self.last = *first;
            self.next = next;
            self.act(first.record, results)?;
        }
        if is_connection(recording, &self.machine.history, records)? {
            Ok(())
        } else {
            Err(Flaw::Because("the records are not those of the run"))
        }
    }

    fn act(&mut self, record: Record, results: &mut Results) -> Result<(), Flaw> {
        if let Some((token, made)) = wire_of(&record.act) {
            return self.wire(record, token, made);
        }
        match record.act {
            Act::Poller(_, Polling::Open(_, generation, opening)) => {
                self.open(results, record, generation, opening)
            }
            Act::Begin(_) => self.begin(record),
            _ => self.end(record),
        }
    }

    fn wire(&mut self, record: Record, token: Token, made: Made) -> Result<(), Flaw> {
        if !self.state.has(token) {
            return Err(Flaw::Because("it is no end of the connection in the slot"));
        }
        match made {
            Made::Settle => self.settle(token.side(), record),
            Made::Drop => self.drop_end(token.side(), record),
            made => self.call(token.side(), made),
        }
    }
}
