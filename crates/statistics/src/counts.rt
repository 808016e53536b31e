//! What is counted, and what an event adds to it.
ghost use Rattle.std.specs.Prelude.{◌≡◌, ◌*◌, ◌<◌, ◌^◌};
ghost use Rattle.statistics.specs.Counts.{counts_after, at, counts_closed, failed_as, failed_at, failed_of, kind_number, live_at, moved, place_of, plus, raised, verdict_counted};

use crate::event::Event;
use relay_core::{Fault, Verdict};
use token::{Kind, Side};

/// What is counted.
#[derive(Clone, Copy)]
pub enum Count {
    /// Bytes written to targets.
    Up,
    /// Bytes written to clients.
    Down,
    /// Of `Up` and `Down`: bytes of connections that have ended.
    UpEnded,
    DownEnded,
    /// Connections that are done.
    Done,
    /// Connections that failed because they moved nothing for the idle limit.
    Idle,
    /// Connections that failed by a call on this side's socket, in this way.
    Broken(Side, Kind),
    /// Accepted connections that were closed unopened.
    Dropped,
    /// Connections that were opened.
    Opened,
}

pub(crate) const COUNTS: usize = 24;

impl Count {
    /// Its place among a slot's numbers, which are read in this order: `Opened` is last.
    pub fn place(self) -> usize
        ensures place { result ≡ place_of self }
        ensures inside { result < 24 }
    {
        match self {
            Count::Up => 0,
            Count::Down => 1,
            Count::UpEnded => 2,
            Count::DownEnded => 3,
            Count::Done => 4,
            Count::Idle => 5,
            Count::Broken(side, kind) => 6 + (8 * side.bit() as usize + number(kind)),
            Count::Dropped => 22,
            Count::Opened => 23,
        }
    }
}

fn number(kind: Kind) -> usize
    ensures number { result ≡ kind_number kind }
    ensures inside { result < 8 }
{
    match kind {
        Kind::Reset => 0,
        Kind::Pipe => 1,
        Kind::Aborted => 2,
        Kind::Refused => 3,
        Kind::NotConnected => 4,
        Kind::TimedOut => 5,
        Kind::Zero => 6,
        Kind::Other => 7,
    }
}

/// What was counted at one slot, or at several: a number for each [`Count`], at its place. A number that has reached
/// 2^64 - 1 stays there.
#[derive(Clone, Copy, PartialEq, Eq)]
pub struct Counts {
    pub numbers: [u64; COUNTS],
}

impl Counts {
    /// Nothing was counted.
    pub const NONE: Counts = Counts {
        numbers: [0; COUNTS],
    };

    /// The number of this count.
    pub fn at(&self, count: Count) -> u64
        ensures { result ≡ at count self.now }
    {
        self.numbers[count.place()]
    }

    /// The counts after this event.
    pub fn after(self, event: Event) -> Counts
        ensures { result ≡ counts_after event self }
    {
        let mut counts = self;
        match event {
            Event::Dropped => counts.raise(Count::Dropped),
            Event::Opened => counts.raise(Count::Opened),
            Event::Moved { up, down } => counts.move_to(up, down),
            Event::Ended { verdict, up, down } => {
                counts.move_to(up, down);
                counts.close();
                counts.count_verdict(verdict);
            }
        }
        counts
    }

    fn raise(&mut self, count: Count)
        ensures { self.new ≡ raised count self.old }
    {
        self.numbers[count.place()] = self.at(count).saturating_add(1);
    }

    fn move_to(&mut self, up: u64, down: u64)
        ensures { self.new ≡ moved up down self.old }
    {
        self.numbers[Count::Up.place()] = self.at(Count::UpEnded).saturating_add(up);
        self.numbers[Count::Down.place()] = self.at(Count::DownEnded).saturating_add(down);
    }

    fn close(&mut self)
        ensures { self.new ≡ counts_closed self.old }
    {
        self.numbers[Count::UpEnded.place()] = self.at(Count::Up);
        self.numbers[Count::DownEnded.place()] = self.at(Count::Down);
    }

    fn count_verdict(&mut self, verdict: Verdict)
        ensures { self.new ≡ verdict_counted verdict self.old }
    {
        match verdict {
            Verdict::Live => {}
            Verdict::Done => self.raise(Count::Done),
            Verdict::Failed(Fault::Idle) => self.raise(Count::Idle),
            Verdict::Failed(Fault::Broken { side, kind, .. }) => {
                self.raise(Count::Broken(side, kind));
            }
        }
    }

    /// The sums of these counts and others.
    pub(crate) fn plus(self, more: &Counts) -> Counts
        ensures { result ≡ plus self more.now }
    {
        let mut sums = self;
        for place in 0..COUNTS {
            sums.numbers[place] = self.numbers[place].saturating_add(more.numbers[place]);
        }
        sums
    }

    /// How many connections failed by a call on this side's socket.
    pub(crate) fn failed_at(&self, side: Side) -> u128
        ensures failed { result ≡ failed_at side self.now }
        ensures fits { result < 8 * 2 ^ 64 }
    {
        self.broken(side, Kind::Reset)
            + (self.broken(side, Kind::Pipe)
                + (self.broken(side, Kind::Aborted)
                    + (self.broken(side, Kind::Refused)
                        + (self.broken(side, Kind::NotConnected)
                            + (self.broken(side, Kind::TimedOut)
                                + (self.broken(side, Kind::Zero)
                                    + self.broken(side, Kind::Other)))))))
    }

    /// How many connections failed in this way by a call on either side's socket.
    pub(crate) fn failed_as(&self, kind: Kind) -> u128
        ensures { result ≡ failed_as kind self.now }
    {
        self.broken(Side::Client, kind) + self.broken(Side::Target, kind)
    }

    /// How many connections failed.
    pub(crate) fn failed(&self) -> u128
        ensures failed { result ≡ failed_of self.now }
        ensures fits { result < 17 * 2 ^ 64 }
    {
        self.failed_at(Side::Client) + (self.failed_at(Side::Target) + self.wide(Count::Idle))
    }

    fn broken(&self, side: Side, kind: Kind) -> u128
        ensures number { result ≡ at (Count.Broken side kind) self.now }
        ensures fits { result < 2 ^ 64 }
    {
        self.wide(Count::Broken(side, kind))
    }

    /// The number of this count, as one of those that are added up.
    pub(crate) fn wide(&self, count: Count) -> u128
        ensures number { result ≡ at count self.now }
        ensures fits { result < 2 ^ 64 }
    {
        u128::from(self.at(count))
    }

    /// How many of one slot's connections are open: 0 or 1.
    pub fn live(&self) -> u64
        ensures { result ≡ live_at self.now }
    {
        let ended = self.wide(Count::Done) + self.failed();
        if self.wide(Count::Opened) > ended {
            1
        } else {
            0
        }
    }
}
