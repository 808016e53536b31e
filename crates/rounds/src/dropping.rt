//! An accepted connection that is closed unopened.
ghost use Rattle.std.specs.Prelude.{◌≡◌, ◌<◌, Some};
ghost use Rattle.rounds.specs.Episodes.{dropped_for, owed_line};
ghost use Rattle.log.specs.declared.level.Level.TheVariants as level;

use crate::episodes::Drops;
use relay_log::{Logs, log_drop, log_drops};
use sizes::Cause;
use std::marker::Model;

/// A line that must be logged. This value cannot be dropped, and only [`Owed::log`] takes it.
pub(crate) struct Owed {
    cause: Cause,
    /// How many drops the line counts. 0 for the line about one drop.
    more: u64,
}

impl Owed {
    /// The line that counts this many drops, or with 0 the line about one drop.
    pub(crate) fn new(cause: Cause, more: u64) -> Owed
        ensures { result ≡ record { cause = cause; more = more } }
    {
        Owed { cause, more }
    }

    pub(crate) fn log<L: Logs>(self, rt: &L)
        ensures { L.logged rt.now level.Warn (Some (owed_line self)) }
    {
        let Owed { cause, more } = self;
        if more == 0 {
            log_drop(rt, cause);
        } else {
            log_drops(rt, cause, more);
        }
    }
}

/// An accepted connection is closed unopened. That was logged with its cause, or is counted for a later line. Only
/// [`Dropped::log`] makes this value, and only [`Uncounted::count_dropped`](crate::Uncounted::count_dropped) takes it.
/// It cannot be dropped.
///
/// In a clause it is the cause.
pub(crate) struct Dropped {
    cause: Cause,
}

impl Model for Dropped {
    ghost use Rattle.sizes.specs.declared.cause.Cause.{Cause};

    ghost Value = { Cause };

    ghost view = { λ d. d.cause };
}

impl Dropped {
    /// Logs why a connection is closed unopened at this second, or counts the drop for a later line.
    pub(crate) fn log(rt: &impl Logs, drops: &mut Drops, cause: Cause, second: u64) -> Dropped
        ensures cause { result ≡ cause }
        ensures drops { drops.new ≡ dropped_for cause second drops.old }
    {
        if let Some(owed) = drops.add(cause, second) {
            owed.log(rt);
        }
        Dropped { cause }
    }

    /// The statistics have counted the drop.
    pub(crate) fn spend(self) {
        let Dropped { cause: _ } = self;
    }
}
