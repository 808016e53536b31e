//! What a poller keeps and logs of accepting connections.
ghost use Rattle.std.specs.Prelude.{◌≡◌, IfSome, Some};
ghost use Rattle.rounds.specs.Episodes.{all_logged_at, dropped_at, dropped_for, drops_owed, follows, is_counted, owed_line, no_drops, no_episodes, no_tally, owed, owed_for, tally_of, logged_at, with_tally, AreLogged};
ghost use Rattle.log.specs.declared.level.Level.TheVariants as level;

use crate::dropping::Owed;
use relay_log::Logs;
use sizes::Cause;

/// Conditions of a poller that were logged when they began, and still last.
#[derive(Drop)]
pub struct Episodes {
    /// Whether it was logged that accept(2) is starved, and no connection was opened since.
    pub(crate) starved: bool,
    /// Whether all the poller's slots were found taken while a client waited, and accept(2) has not found the backlog
    /// empty since.
    pub(crate) full: bool,
    /// Which drops were logged, or are counted.
    pub(crate) drops: Drops,
}

impl Episodes {
    pub(crate) fn none() -> Episodes
        ensures { result ≡ no_episodes }
    {
        Episodes {
            starved: false,
            full: false,
            drops: Drops::none(),
        }
    }
}

/// The drops of one cause.
#[derive(Drop)]
pub struct Tally {
    /// The second of the last drop, if one came since a connection was opened.
    last: Option<u64>,
    /// The second of the last line.
    line: u64,
    /// How many drops are counted, but in no line yet.
    more: u64,
}

impl Tally {
    fn none() -> Tally
        ensures { result ≡ no_tally }
    {
        Tally {
            last: None,
            line: 0,
            more: 0,
        }
    }

    fn is_counted(&self, second: u64) -> bool
        ensures { result ≡ is_counted second self.now }
    {
        self.more > 0 || follows(second, self.last)
    }

    /// Adds a drop at this second. Returns the line that must be logged, if the drop is not counted.
    fn add(&mut self, cause: Cause, second: u64) -> Option<Owed>
        ensures tally { self.new ≡ dropped_at second self.old }
        ensures owed { result ≡ owed_for cause second self.old }
    {
        let is_counted = self.is_counted(second);
        self.last = Some(second);
        if is_counted {
            self.more = self.more.saturating_add(1);
            return None;
        }
        self.line = second;
        Some(Owed::new(cause, 0))
    }

    /// Clears the count and returns its line. None if no drop is counted, or this second has had a line.
    fn counted_line(&mut self, cause: Cause, second: u64) -> Option<Owed>
        ensures tally { self.new ≡ logged_at second self.old }
        ensures owed { result ≡ owed cause (drops_owed second self.old) }
        ensures logged { drops_owed second self.new ≡ 0 }
    {
        if self.line == second || self.more == 0 {
            return None;
        }
        let more = self.more;
        self.line = second;
        self.more = 0;
        Some(Owed::new(cause, more))
    }

    /// Returns the line for what is counted, if any drop is. The next drop has a line of its own again.
    fn end(&mut self, cause: Cause) -> Option<Owed>
        ensures tally { self.new ≡ no_tally }
        ensures owed { result ≡ owed cause self.old.more }
    {
        let more = self.more;
        *self = Tally::none();
        if more == 0 {
            return None;
        }
        Some(Owed::new(cause, more))
    }
}

fn follows(second: u64, last: Option<u64>) -> bool
    ensures { result ≡ follows second last }
{
    match last {
        None => false,
        Some(last) => second < last || second - last < 2,
    }
}

/// The drops of a poller, by their causes.
#[derive(Drop)]
pub struct Drops {
    memory: Tally,
    connect: Tally,
    register: Tally,
    address: Tally,
}

impl Drops {
    pub(crate) fn none() -> Drops
        ensures { result ≡ no_drops }
    {
        Drops {
            memory: Tally::none(),
            connect: Tally::none(),
            register: Tally::none(),
            address: Tally::none(),
        }
    }

    /// Adds a drop for this cause at this second. Returns the line that must be logged, if the drop is not counted.
    pub(crate) fn add(&mut self, cause: Cause, second: u64) -> Option<Owed>
        ensures drops { self.new ≡ dropped_for cause second self.old }
        ensures owed { result ≡ owed_for cause second (tally_of cause self.old) }
    {
        match cause {
            Cause::Memory => self.memory.add(cause, second),
            Cause::Connect => self.connect.add(cause, second),
            Cause::Register => self.register.add(cause, second),
            Cause::Address => self.address.add(cause, second),
        }
    }

    /// Logs at this second what is counted of each cause, unless the second has had a line of that cause.
    pub(crate) fn log_counted(&mut self, rt: &impl Logs, second: u64)
        ensures logged { self.new ≡ all_logged_at second self.old }
        ensures all { AreLogged second self.new }
    {
        log_owed(rt, self.tell_of(Cause::Memory, second));
        log_owed(rt, self.tell_of(Cause::Connect, second));
        log_owed(rt, self.tell_of(Cause::Register, second));
        log_owed(rt, self.tell_of(Cause::Address, second));
    }

    fn tell_of(&mut self, cause: Cause, second: u64) -> Option<Owed>
        ensures drops { self.new ≡ with_tally cause (logged_at second (tally_of cause self.old)) self.old }
        ensures owed { result ≡ owed cause (drops_owed second (tally_of cause self.old)) }
        ensures logged { drops_owed second (tally_of cause self.new) ≡ 0 }
    {
        match cause {
            Cause::Memory => self.memory.counted_line(cause, second),
            Cause::Connect => self.connect.counted_line(cause, second),
            Cause::Register => self.register.counted_line(cause, second),
            Cause::Address => self.address.counted_line(cause, second),
        }
    }

    /// Logs all that is counted. The next drop of each cause has a line of its own again.
    pub(crate) fn end(&mut self, rt: &impl Logs)
        ensures { self.new ≡ no_drops }
    {
        log_owed(rt, self.end_of(Cause::Memory));
        log_owed(rt, self.end_of(Cause::Connect));
        log_owed(rt, self.end_of(Cause::Register));
        log_owed(rt, self.end_of(Cause::Address));
    }

    fn end_of(&mut self, cause: Cause) -> Option<Owed>
        ensures drops { self.new ≡ with_tally cause no_tally self.old }
        ensures owed { result ≡ owed cause (tally_of cause self.old).more }
    {
        match cause {
            Cause::Memory => self.memory.end(cause),
            Cause::Connect => self.connect.end(cause),
            Cause::Register => self.register.end(cause),
            Cause::Address => self.address.end(cause),
        }
    }
}

fn log_owed<L: Logs>(rt: &L, owed: Option<Owed>)
    ensures { IfSome owed (λ line. L.logged rt.now level.Warn (Some (owed_line line))) }
{
    if let Some(owed) = owed {
        owed.log(rt);
    }
}
