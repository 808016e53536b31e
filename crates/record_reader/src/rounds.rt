//! Which reports the pollers got, which sweeps they may have made, and when they posted.
use crate::clock::Clock;
use crate::reading::fault;
use crate::recording::{Last, Numbered, Recording, add, begun_before, lists};
use record_lines::{Act, Polling, Record};
use sizes::MAX_BATCH;
use token::Name;
use tools::ReplayFault;

/// What a poller may have posted: by a report, or by the sweep of the round after a poll.
#[derive(Clone, Copy)]
pub struct Post {
    /// The place of the report or of the poll among what the poller did.
    pub place: usize,
    /// The generation of the end that was reported. None for a sweep.
    pub generation: Option<u64>,
    /// The count after the poll, and the count before the poller's next act but its reports: the post was made between
    /// them.
    pub from: u64,
    pub to: u64,
    /// From this count on this post, or for a sweep this or one before it, was certainly made. None: it is in doubt.
    pub since: Option<u64>,
}

#[derive(Clone, Copy)]
struct Rounds<'a> {
    recording: &'a Recording,
    clock: &'a Clock,
    poller: usize,
    /// The last poll, and how many of its reports are still to come.
    poll: Option<Post>,
    missing: usize,
    swept: Swept,
}

/// What was posted in the rounds of a recording: a list for each slot, of the reports that its poller got of it, and
/// after them one for each poller, of its sweeps. A sweep posts to each slot in which the poller had opened a
/// connection.
///
/// Refuses with `Broken` for a poll with other reports than it gave.
pub fn find_posts(recording: &Recording, clock: &Clock) -> Result<Vec<Vec<Post>>, ReplayFault> {
    let mut posts = lists(recording.alloc, recording.lists.len())?;
    for poller in 0..recording.header.pollers {
        let mut rounds = Rounds {
            recording,
            clock,
            poller,
            poll: None,
            missing: 0,
            swept: Swept::before(recording, clock, next_count(recording.poller(poller), 0)),
        };
        rounds.find(posts.as_mut_slice())?;
    }
    Ok(posts)
}

/// The count before the first of these acts that begins at this count or later.
fn next_count(acts: &[Numbered], count: u64) -> u64 {
    match acts.get(begun_before(acts, count).len()) {
        Some(next) => next.record.before,
        None => u64::MAX,
    }
}

impl Rounds<'_> {
    fn find(&mut self, posts: &mut [Vec<Post>]) -> Result<(), ReplayFault> {
        for (place, numbered) in self.recording.poller(self.poller).iter().enumerate() {
            match self.act(place, &numbered.record) {
                Ok(Some((at, post))) => add(posts, at, post)?,
                Ok(None) => {}
                Err(why) => return Err(self.recording.broken(numbered.line, why)),
            }
        }
        if self.missing > 0 && matches!(self.recording.last, Last::Ended) {
            let text = "reports of the last poll are missing";
            return Err(fault(String::from_str(self.recording.alloc, text)));
        }
        Ok(())
    }

    /// Returns what an act of the poller adds, and to which list.
    fn act(
        &mut self,
        place: usize,
        record: &Record,
    ) -> Result<Option<(usize, Post)>, &'static str> {
        let count = match record.act {
            Act::Poller(_, Polling::Reported(name)) => return self.report(
                place,
                record.after,
                name,
            ),
            Act::Poller(_, Polling::Time(_)) => return Ok(None),
            _ if self.missing > 0 => return Err("reports of the poll before it are wanted"),
            Act::Poller(_, Polling::Gave(count)) => count,
            Act::Poller(_, Polling::Interrupted) => 0,
            _ => return Ok(None),
        };
        if count > MAX_BATCH {
            return Err("a poll gives 256 reports at most");
        }
        self.missing = count;
        Ok(self.begin(place, record))
    }

    fn begin(&mut self, place: usize, record: &Record) -> Option<(usize, Post)> {
        // The poller posts before its next act. The poll's reports, which have its counts, are passed over.
        let acts = self.recording.poller(self.poller);
        let poll = Post {
            place,
            generation: None,
            from: record.after,
            to: next_count(acts, record.before.saturating_add(1)),
            since: Some(record.after),
        };
        let sweep = self.sweep(&poll);
        self.poll = Some(poll);
        sweep
    }

    /// The sweep that the round after a poll made, by the second that the round before it read. If that is in doubt,
    /// it may have made none.
    fn sweep(&mut self, poll: &Post) -> Option<(usize, Post)> {
        let limit = self.recording.header.idle;
        let round = self.poll?;
        if limit == 0 {
            return None;
        }
        let seconds = self.clock.between(round.from, round.to);
        let since = self.swept.pass(limit, seconds, poll.from)?;
        Some((
            self.recording.at_poller(self.poller),
            Post { since, ..*poll },
        ))
    }

    /// Returns the post for a report, and its slot.
    fn report(
        &mut self,
        place: usize,
        after: u64,
        name: Name,
    ) -> Result<Option<(usize, Post)>, &'static str> {
        let poll = match self.poll {
            Some(poll) if self.missing > 0 && poll.from == after => poll,
            _ => return Err("its poll is wanted before it"),
        };
        self.missing = self.missing.saturating_sub(1);
        match name {
            Name::End(token) => {
                let report = Post {
                    place,
                    generation: Some(token.generation()),
                    ..poll
                };
                Ok(Some((token.slot(), report)))
            }
            _ => Ok(None),
        }
    }
}

/// When a poller last made a sweep. Before the first one: when its thread began.
#[derive(Clone, Copy)]
struct Swept {
    /// The earliest and the latest second of the last sweep.
    first: u64,
    last: u64,
    /// The earliest and the latest of the last certain sweep.
    certain: (u64, u64),
    /// The count from which on a later sweep may have been made. None: none was.
    since: Option<u64>,
}

impl Swept {
    /// A sweep, or the beginning of the thread, was between these two seconds.
    fn at((first, last): (u64, u64)) -> Swept {
        Swept {
            first,
            last,
            certain: (first, last),
            since: None,
        }
    }

    /// The first act of a poller has this count before it. In a file that follows other parts it may have made sweeps,
    /// or begun, at any time before.
    fn before(recording: &Recording, clock: &Clock, count: u64) -> Swept {
        let (first, last) = clock.between(0, count);
        let first = if recording.header.from.is_some() {
            0
        } else {
            first
        };
        Swept::at((first, last))
    }

    /// A round read a second between these two, and makes its posts from this count on: a sweep, if the limit has
    /// passed since the last one. Returns None if it makes none, and else what `Post::since` says of it.
    fn pass(&mut self, limit: u64, (least, most): (u64, u64), from: u64) -> Option<Option<u64>> {
        if most.saturating_sub(self.first) < limit {
            return None;
        }
        let since = self.since.unwrap_or(from);
        if least.saturating_sub(self.last) >= limit {
            *self = Swept::at((least, most));
            return Some(Some(from));
        }
        self.since = Some(since);
        self.last = self.last.max(most);
        // If this round makes none, the last sweep is less than the limit ago.
        self.first = self
            .first
            .max(least.saturating_sub(limit).saturating_add(1));
        let (first, last) = self.certain;
        if self.first <= last {
            return Some(None);
        }
        *self = Swept::at((self.first.max(first.saturating_add(limit)), self.last));
        Some(Some(since))
    }
}
