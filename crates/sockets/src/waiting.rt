//! How a poller waits for reports, which nothing else does (epoll_wait(2)), and passes them on.
ghost use Rattle.std.specs.Prelude.{◌≡◌, ◌↔◌, ◌≤◌, ◌+◌, ◌++◌, IfOk, IsTrue, OnErr, [], length, false, vec_len, vec_capacity};
ghost use Rattle.mio.specs.Events.{items, capacity as events_capacity};
ghost use Rattle.shared.specs.Told.{millis_of};
ghost use Rattle.token.specs.Numbers.{name_of};
ghost use Rattle.sockets.specs.Fronts.{end_in, heard_of, names_reading, numbers, ArePassedOn, WaitFails, Gave, PassedOn};

use mio::event::Event;
use mio::{Events, Poll, Registry};
use readiness::{Heard, Reports};
use shared::Waiting;
use sizes::MAX_BATCH;
use std::alloc::{AllocError, Global};
use std::io;
use std::time::Duration;
use token::{Name, Token, unpack};

/// What reports on sockets. The trait leaves open what a step changes, so only steps lead from one to another.
pub trait Reporter {
    ghost use Rattle.sockets.specs.Fronts.{Step};

    // This step was made of the first, and left the second.
    ghost did: { Step → Self → Self → Type 0 };

    /// The sockets on which it reports.
    fn registry(&self) -> &Registry;

    /// Waits for this many milliseconds, if nothing ends the wait before.
    fn wait(&mut self, events: &mut Events, millis: u64) -> io::Result<()>
        ensures did { did (Gave millis (items events.new)) self.old self.new }
        ensures count { length (items events.new) ≤ events_capacity events.old }
        ensures none { OnErr result (items events.new ≡ []) }
        ensures capacity { events_capacity events.new ≡ events_capacity events.old };

    /// If the event names reading, sets the word of the end that its number names.
    fn pass_on(&mut self, told: &Reports, event: &Event) -> Option<Heard>
        ensures did { did (PassedOn event.now) self.old self.new }
        ensures heard { result ≡ heard_of told.now event.now };
}

impl Reporter for Poll {
    ghost did = { λ _ _ _. Unit {0} };

    fn registry(&self) -> &Registry {
        self.registry()
    }

    fn wait(&mut self, events: &mut Events, millis: u64) -> io::Result<()> {
        self.poll(events, Some(Duration::from_millis(millis)))
    }

    fn pass_on(&mut self, told: &Reports, event: &Event) -> Option<Heard> {
        match end_of(event.token().0 as u64) {
            Some(end) if names_reading(event) => told.tell(&mut (), end.slot(), end.side()),
            Some(_) | None => None,
        }
    }
}

/// A poller's waits for reports.
#[derive(Drop)]
pub(crate) struct Waiter<P = Poll> {
    pub(crate) poll: P,
    // What the last wait gave, whether it failed, and not by a signal, and for how many milliseconds it was to last.
    pub(crate) events: Events,
    failed: bool,
    waited: u64,
    // The longest wait, in milliseconds.
    longest: u64,
}

impl Waiter {
    pub(crate) fn new(alloc: Global, poll: Poll, longest: u64) -> Result<Waiter, AllocError>
        ensures fresh { IfOk result (λ made. (items made.events ≡ []) × (made.failed ≡ false) × (made.waited ≡ 0)) }
        ensures longest { IfOk result (λ made. made.longest ≡ longest) }
        ensures capacity { IfOk result (λ made. events_capacity made.events ≡ MAX_BATCH) }
    {
        Ok(Waiter {
            poll,
            events: Events::with_capacity(alloc, MAX_BATCH)?,
            failed: false,
            waited: 0,
            longest,
        })
    }
}

impl<P: Reporter> Waiter<P> {
    /// Waits for reports once, for as long as is asked for.
    pub(crate) fn wait(&mut self, wait: Waiting) -> io::Result<()>
        ensures asked { P.did (Gave (millis_of wait self.old.longest) (items self.new.events)) self.old.poll self.new.poll }
        ensures waited { self.new.waited ≡ millis_of wait self.old.longest }
        ensures longest { self.new.longest ≡ self.old.longest }
        ensures failed { IsTrue self.new.failed ↔ WaitFails result }
        ensures count { length (items self.new.events) ≤ events_capacity self.old.events }
        ensures none { OnErr result (items self.new.events ≡ []) }
        ensures capacity { events_capacity self.new.events ≡ events_capacity self.old.events }
    {
        self.waited = wait.millis(self.longest);
        let answer = self.poll.wait(&mut self.events, self.waited);
        self.failed = has_failed(&answer);
        answer
    }
}

/// Whether a wait failed. A signal that ends a wait is no failure.
fn has_failed(answer: &io::Result<()>) -> bool
    ensures { IsTrue result ↔ WaitFails answer.now }
{
    match answer {
        Ok(()) => false,
        Err(error) => error.kind() != io::ErrorKind::Interrupted,
    }
}

/// Passes these events on, and appends their numbers to the batch.
pub(crate) fn put_numbers<P: Reporter>(
    batch: &mut Vec<u64>,
    poll: &mut P,
    events: &Events,
    told: &Reports,
)
    requires { vec_len batch.old + length (items events.now) ≤ vec_capacity batch.old }
    ensures passed_on { ArePassedOn P.did (items events.now) poll.old poll.new }
    ensures numbers { batch.new.items ≡ batch.old.items ++ numbers (items events.now) }
    ensures capacity { vec_capacity batch.new ≡ vec_capacity batch.old }
{
    for event in events.iter().as_slice() {
        poll.pass_on(told, event);
        batch.push_reserved(event.token().0 as u64);
    }
}

fn end_of(number: u64) -> Option<Token>
    ensures { result ≡ end_in (name_of number) }
{
    match unpack(number)? {
        Name::End(end) => Some(end),
        Name::Listener | Name::Waker => None,
    }
}

/// Whether an event names reading: something to read, a failure, or a close by the peer, which a read finds out.
fn names_reading(event: &Event) -> bool
    ensures { result ≡ names_reading event.now }
{
    event.is_readable() || event.is_error() || event.is_read_closed() || event.is_write_closed()
}
