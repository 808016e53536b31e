//! The sums of the counts, and their line of the log.
ghost use Rattle.std.specs.Prelude.{◌≡◌};
ghost use Rattle.statistics.specs.Counts.{added, no_sums, figure_number};

use crate::counts::{Count, Counts};
use crate::gauge::Levels;
use std::fmt::{self, Display};
use token::{Kind, Side};

/// A number that the sums have, or that is made of them.
#[derive(Clone, Copy)]
pub enum Figure {
    /// Connections that are open.
    Open,
    /// How many can be.
    Slots,
    /// Connections that are open, are done or have failed.
    Opened,
    /// Connections that failed, by a call or by the idle limit.
    Failed,
    /// Connections that failed by a call on this side's socket.
    At(Side),
    /// Connections that failed in this way by a call on either side's socket.
    As(Kind),
    Of(Count),
    /// The most connections that were open at once.
    MostOpen,
    /// The seconds with all slots taken.
    FullSeconds,
    /// The seconds in which clients waited, since accept(2) lacked descriptors or memory.
    WaitingSeconds,
    /// The records that a recording lacks.
    LostRecords,
}

/// The numbers of the line, in order, as they are written.
static COLUMNS: [(&str, Figure); 16] = [
    ("open", Figure::Open),
    ("slots", Figure::Slots),
    ("opened", Figure::Opened),
    ("done", Figure::Of(Count::Done)),
    ("failed", Figure::Failed),
    ("dropped", Figure::Of(Count::Dropped)),
    ("client", Figure::At(Side::Client)),
    ("target", Figure::At(Side::Target)),
    ("refused", Figure::As(Kind::Refused)),
    ("reset", Figure::As(Kind::Reset)),
    ("timedout", Figure::As(Kind::TimedOut)),
    ("idle", Figure::Of(Count::Idle)),
    ("up", Figure::Of(Count::Up)),
    ("down", Figure::Of(Count::Down)),
    ("waited", Figure::WaitingSeconds),
    ("lost", Figure::LostRecords),
];

/// The sums of what was counted at `slots` slots. It prints as the line of the statistics.
#[derive(Clone, Copy)]
pub struct Totals {
    pub slots: usize,
    /// Connections that are open.
    pub live: u64,
    pub levels: Levels,
    pub sums: Counts,
}

impl Totals {
    /// Nothing was counted yet.
    pub(crate) fn none(slots: usize) -> Totals
        ensures { result ≡ no_sums slots Levels.NONE Counts.NONE }
    {
        Totals {
            slots,
            live: 0,
            levels: Levels::NONE,
            sums: Counts::NONE,
        }
    }

    /// The sums with another slot's counts.
    pub(crate) fn with(self, counts: &Counts) -> Totals
        ensures { result ≡ added counts.now self }
    {
        Totals {
            slots: self.slots,
            live: self.live.saturating_add(counts.live()),
            levels: self.levels,
            sums: self.sums.plus(counts),
        }
    }

    /// The number of this kind.
    pub fn number(&self, figure: Figure) -> u128
        ensures { result ≡ figure_number figure self.now }
    {
        match figure {
            Figure::Open => u128::from(self.live),
            Figure::Slots => self.slots as u128,
            Figure::Opened => {
                u128::from(self.live) + (self.sums.wide(Count::Done) + self.sums.failed())
            }
            Figure::Failed => self.sums.failed(),
            Figure::At(side) => self.sums.failed_at(side),
            Figure::As(kind) => self.sums.failed_as(kind),
            Figure::Of(count) => self.sums.wide(count),
            Figure::MostOpen => u128::from(self.levels.most),
            Figure::FullSeconds => u128::from(self.levels.full_seconds),
            Figure::WaitingSeconds => u128::from(self.levels.waiting_seconds),
            Figure::LostRecords => u128::from(self.levels.lost),
        }
    }
}

impl Display for Totals {
    fn fmt<W: fmt::Write>(&self, f: &mut fmt::Formatter<W>) -> fmt::Result {
        f.write_str("stats")?;
        for (name, figure) in &COLUMNS {
            let number = self.number(*figure);
            write!(f, " {name}={number}")?;
        }
        Ok(())
    }
}
