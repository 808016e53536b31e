//! How many connections are open, the most that were, for how long all slots were taken or clients waited, and how
//! many records are lost, in memory that threads share.
ghost use Rattle.statistics.specs.Counts.{Entered, Heard, IsGauged, IsLookedAt, Left, Lost, Passed, Shown, Starved, Told, Turn, Waited};

use crate::event::Event;
use std::sync::atomic::Ordering::SeqCst;
use std::sync::atomic::{AtomicBool, AtomicU64};

/// What a gauge has kept.
#[derive(Clone, Copy)]
pub struct Levels {
    /// The most connections that were open at once.
    pub most: u64,
    /// The seconds with all slots taken.
    pub full_seconds: u64,
    /// The seconds in which clients waited, since accept(2) lacked descriptors or memory.
    pub waiting_seconds: u64,
    /// The records that a recording lacks.
    pub lost: u64,
}

impl Levels {
    /// Nothing was open.
    pub const NONE: Levels = Levels {
        most: 0,
        full_seconds: 0,
        waiting_seconds: 0,
        lost: 0,
    };
}

/// Memory for these numbers, which threads share. No clause can name what it holds, so the trait leaves open what a
/// step does. What is proved over any such memory says which steps are made on it.
pub trait Gauge {
    // This step, with what it read, was made on this gauge: one act, between what was done before it and after it.
    ghost did: { Turn → Self → Self.Acts → Self.Acts → Type 0 };

    /// What has been done so far.
    type Acts;

    /// One more connection is open.
    fn enter(&self, acts: &mut Self::Acts)
        ensures { did Entered self.now acts.old acts.new };

    /// One connection less is open.
    fn leave(&self, acts: &mut Self::Acts)
        ensures { did Left self.now acts.old acts.new };

    /// One more second has passed with all slots taken.
    fn pass(&self, acts: &mut Self::Acts)
        ensures { did Passed self.now acts.old acts.new };

    /// How many connections are open.
    fn open(&self, acts: &mut Self::Acts) -> u64
        ensures { did (Shown result) self.now acts.old acts.new };

    /// accept(2) lacked descriptors or memory.
    fn starve(&self, acts: &mut Self::Acts)
        ensures { did Starved self.now acts.old acts.new };

    /// Whether accept(2) has lacked some since the last look.
    fn was_starved(&self, acts: &mut Self::Acts) -> bool
        ensures { did (Heard result) self.now acts.old acts.new };

    /// One more second has passed in which accept(2) lacked some.
    fn wait(&self, acts: &mut Self::Acts)
        ensures { did Waited self.now acts.old acts.new };

    /// One more record is lost.
    fn lose(&self, acts: &mut Self::Acts)
        ensures { did Lost self.now acts.old acts.new };

    /// What it has kept.
    fn levels(&self, acts: &mut Self::Acts) -> Levels
        ensures { did (Told result) self.now acts.old acts.new };
}

/// A gauge of atomic numbers.
#[derive(Drop)]
pub struct AtomicGauge {
    open: AtomicU64,
    most: AtomicU64,
    full_seconds: AtomicU64,
    is_starved: AtomicBool,
    waiting_seconds: AtomicU64,
    lost: AtomicU64,
}

impl AtomicGauge {
    /// Nothing is open.
    pub fn zero() -> AtomicGauge {
        AtomicGauge {
            open: AtomicU64::new(0),
            most: AtomicU64::new(0),
            full_seconds: AtomicU64::new(0),
            is_starved: AtomicBool::new(false),
            waiting_seconds: AtomicU64::new(0),
            lost: AtomicU64::new(0),
        }
    }
}

impl Gauge for AtomicGauge {
    ghost did = { λ _ _ _ _. Unit {0} };

    type Acts = ();

    fn enter(&self, _acts: &mut ()) {
        let open = self.open.fetch_add(1, SeqCst).saturating_add(1);
        raise(&self.most, open);
    }

    fn leave(&self, _acts: &mut ()) {
        self.open.fetch_sub(1, SeqCst);
    }

    fn pass(&self, _acts: &mut ()) {
        self.full_seconds.fetch_add(1, SeqCst);
    }

    fn open(&self, _acts: &mut ()) -> u64 {
        self.open.load(SeqCst)
    }

    fn starve(&self, _acts: &mut ()) {
        self.is_starved.store(true, SeqCst);
    }

    fn was_starved(&self, _acts: &mut ()) -> bool {
        self.is_starved.swap(false, SeqCst)
    }

    fn wait(&self, _acts: &mut ()) {
        self.waiting_seconds.fetch_add(1, SeqCst);
    }

    fn lose(&self, _acts: &mut ()) {
        self.lost.fetch_add(1, SeqCst);
    }

    fn levels(&self, _acts: &mut ()) -> Levels {
        Levels {
            most: self.most.load(SeqCst),
            full_seconds: self.full_seconds.load(SeqCst),
            waiting_seconds: self.waiting_seconds.load(SeqCst),
            lost: self.lost.load(SeqCst),
        }
    }
}

/// The most tries to raise a number. A try fails only if another thread has raised it, and it rises no higher than
/// there are slots, which are 4,096 at most.
const MAX_RAISES: usize = 4_097;

/// Raises a number to this one, if it is lower.
fn raise(number: &AtomicU64, to: u64) {
    for _try in 0..MAX_RAISES {
        let now = number.load(SeqCst);
        if now >= to || number.compare_exchange(now, to, SeqCst, SeqCst).is_ok() {
            return;
        }
    }
}

/// Keeps an event of a connection.
pub(crate) fn keep<G: Gauge>(gauge: &G, acts: &mut G::Acts, event: Event)
    ensures { IsGauged G.did event gauge.now acts.old acts.new }
{
    match event {
        Event::Opened => gauge.enter(acts),
        Event::Ended { .. } => gauge.leave(acts),
        Event::Dropped | Event::Moved { .. } => {}
    }
}

/// Looks whether all of these slots are taken, and whether accept(2) has lacked descriptors or memory since the last
/// look, and adds a second to each that is so.
pub(crate) fn look<G: Gauge>(gauge: &G, acts: &mut G::Acts, slots: usize)
    ensures { IsLookedAt G.did slots gauge.now acts.old acts.new }
{
    if gauge.open(acts) >= slots as u64 {
        gauge.pass(acts);
    }
    if gauge.was_starved(acts) {
        gauge.wait(acts);
    }
}
