//! The notes of a slot. What its poller was given becomes a note when a turn needs one, and a report no later than it
//! can have been posted.
use crate::machine::Flaw;
use crate::slot_replay::{SlotReplay, State};
use record_lines::{Act, Polling};
use record_reader::Post;
use token::{Name, Side, Token};
use world::{Event, Polling as Polled, Reported};

/// Posts that the world has not had, in order.
#[derive(Clone, Copy)]
pub(crate) struct Queue<'a>(pub &'a [Post]);

/// What the poller of a slot may have posted there.
#[derive(Clone, Copy)]
pub(crate) struct Posts<'a> {
    pub reports: Queue<'a>,
    pub sweeps: Queue<'a>,
}

fn is_after(post: &Post, state: &State) -> bool {
    matches!(post.since, Some(since) if since >= state.taken_by && is_of(post, state))
}

/// Whether a report is of this connection, or a sweep can have come after the last turn took its notes.
fn is_of(post: &Post, state: &State) -> bool {
    match post.generation {
        Some(generation) => generation == state.generation,
        None => post.to > state.taken_from,
    }
}

/// The posts of the list with this number.
pub(crate) fn posts_at(lists: &[Vec<Post>], at: usize) -> Queue<'_> {
    match lists.get(at) {
        Some(list) => Queue(list.as_slice()),
        None => Queue(&[]),
    }
}

impl Queue<'_> {
    /// The first post that can be for the connection, if it can have come before this count. Removes the posts before
    /// it, which never can be.
    fn first(&mut self, state: &State, before: u64) -> Option<Post> {
        for _post in 0..self.0.len() {
            let (first, next) = self.0.split_first()?;
            if first.from >= before {
                return None;
            }
            if is_of(first, state) {
                return Some(*first);
            }
            self.0 = next;
        }
        None
    }

    fn take(&mut self) -> Option<Post> {
        let (first, next) = self.0.split_first()?;
        self.0 = next;
        Some(*first)
    }

    fn first_after(&self, state: &State) -> Option<Post> {
        for post in self.0 {
            if is_after(post, state) {
                return Some(*post);
            }
        }
        None
    }
}

impl Posts<'_> {
    /// The next post before a turn that begins at this count: a report that came while the slot was held; or, if the
    /// slot has no note, the report or the sweep that can have come by now, and had to come first.
    fn next(&mut self, state: &State, before: u64, has_notes: bool) -> Option<Post> {
        let report = self.reports.first(state, before);
        match report {
            Some(report) if report.to <= state.free_from => return self.reports.take(),
            _ if has_notes => return None,
            _ => {}
        }
        match (report, self.sweeps.first(state, before)) {
            (None, None) => None,
            (Some(report), Some(sweep)) if sweep.to < report.to => self.sweeps.take(),
            (None, Some(_)) => self.sweeps.take(),
            (Some(_), _) => self.reports.take(),
        }
    }

    /// The next report that can have come before the last turn took its notes.
    fn next_held(&mut self, state: &State) -> Option<Post> {
        let _report = self.reports.first(state, state.taken_by)?;
        self.reports.take()
    }

    /// The first report, or else sweep, that was certainly posted after the last turn took its notes.
    pub(crate) fn rest(&self, state: &State) -> Option<Post> {
        let report = self.reports.first_after(state);
        report.or(self.sweeps.first_after(state))
    }
}

impl SlotReplay<'_> {
    /// A turn begins at this count, so the slot must have a note by then. Returns the count from which on the turn can
    /// have had its ticket.
    pub(crate) fn gather_notes(&mut self, before: u64) -> Result<u64, Flaw> {
        let mut since = self.state.free_from;
        for _post in 0..self.posts.reports.0.len().saturating_add(1) {
            let has_notes = self.machine.has_notes();
            let Some(post) = self.posts.next(&self.state, before, has_notes) else {
                break;
            };
            if !has_notes {
                since = since.max(post.from);
            }
            self.note(post)?;
        }
        if self.machine.has_notes() {
            Ok(since)
        } else {
            Err(Flaw::Because("no note is left for this turn"))
        }
    }

    /// Posts whatever can have been reported of the connection before its slot is free.
    pub(crate) fn note_while_held(&mut self) -> Result<(), Flaw> {
        for _post in 0..self.posts.reports.0.len() {
            let Some(post) = self.posts.next_held(&self.state) else {
                break;
            };
            self.note(post)?;
        }
        Ok(())
    }

    pub(crate) fn note(&mut self, post: Post) -> Result<(), Flaw> {
        let Some(numbered) = self.findings.recording.poller(self.poller).get(post.place) else {
            return Ok(());
        };
        self.posted = *numbered;
        match end_reported(&numbered.record.act) {
            Some((own, side)) => self.machine.deliver(Name::End(own), Reported::End(0, side)),
            None => self.machine.put(Event::Poll(Polled::Sweep(0))),
        }
    }
}

/// The name of the reported end in the world of its slot.
fn end_reported(act: &Act) -> Option<(Token, Side)> {
    let Act::Poller(_, Polling::Reported(Name::End(token))) = act else {
        return None;
    };
    match Token::pack(0, token.side(), token.generation()) {
        Ok(own) => Some((own, token.side())),
        Err(_) => None,
    }
}
