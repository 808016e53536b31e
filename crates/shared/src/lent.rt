//! What turns and rounds are lent: a clock with the idle limit, and a gate.
ghost use Rattle.std.specs.Prelude.{◌≡◌, ℕ};

use engine::Moment;
use relay_core::Pair;

/// A clock that counts whole seconds. It may stand still or go back: then no connection fails early, and no round
/// sweeps early.
pub trait Clock {
    // Whether the clock may show this second. By default it may show any.
    ghost tells: { Self → ℕ → Type 0 } = { λ _ _. Unit {0} };

    /// The present second. This never waits.
    fn second(&self) -> u64
        ensures { tells self.now result };
}

/// A server's clock and idle limit.
#[derive(Clone, Copy)]
pub struct Timing<'a, C> {
    /// The clock that shows the second.
    pub clock: &'a C,
    /// The idle limit, in seconds. A connection fails if it has moved nothing for this long and no call is worth
    /// trying. 0: there is no limit.
    pub limit: u64,
}

impl<'a, C: Clock> Timing<'a, C> {
    /// The present moment. Nothing else reads the clock: each turn and each round calls this once.
    pub fn moment(&self) -> Moment
        ensures told { C.tells self.now.clock.now result.second }
        ensures limit { result.limit ≡ self.now.limit }
    {
        Moment {
            second: self.clock.second(),
            limit: self.limit,
        }
    }
}

/// Called once all threads have been started, and around each turn: for what is printed, recorded or checked then.
///
/// A turn shows its gate the connection's pair, which calls may change and nothing can copy. So a clause that asks for
/// the pair as it was before the calls says that the gate was called before them.
pub trait Gate {
    ghost use Rattle.std.specs.Prelude.{ℕ};
    ghost use Rattle.relay_core.specs.Pairs.{PairState};

    // `before_turn` was called for a slot, with this pair. The defaults promise nothing: over any gate, a proof has
    // such a fact only from a call that was made.
    ghost began: { Self → ℕ → PairState → Type 0 } = { λ _ _ _. Unit {0} };

    // `after_turn` was called for a slot, with this pair.
    ghost ended: { Self → ℕ → PairState → Type 0 } = { λ _ _ _. Unit {0} };

    /// All threads have been started. The thread that serves calls this before it polls.
    fn all_started(&self) {}

    /// A turn at this slot is about to make its calls. They begin with this pair.
    fn before_turn(&self, slot: usize, pair: &Pair)
        ensures { began self.now slot pair.now };

    /// A turn at this slot has made its calls. They left this pair.
    fn after_turn(&self, slot: usize, pair: &Pair)
        ensures { ended self.now slot pair.now };
}
