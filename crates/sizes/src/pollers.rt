//! How many threads poll.
ghost use Rattle.std.specs.Prelude.{◌≡◌, ◌*◌, ◌≤◌};
ghost use Rattle.sizes.specs.Pollers.{pollers_for};

/// On average a poller has at least this many slots, unless the relay has fewer.
const SLOTS_OF_ONE: usize = 64;

/// How many threads poll in a relay with this many slots and workers: as many as there are workers, but at most one
/// for each 64 slots, and at least one.
#[tactic(auto, using(crate::proofs::FewPollers::are_few))]
pub fn pollers_for(slots: usize, workers: usize) -> usize
    requires slots { 1 ≤ slots }
    requires workers { (1 ≤ workers) × (workers ≤ 16) }
    ensures pollers { result ≡ pollers_for slots workers }
    ensures range { (1 ≤ result) × (result ≤ workers) }
    ensures few { result * result ≤ slots }
{
    (slots / SLOTS_OF_ONE).min(workers).max(1)
}
