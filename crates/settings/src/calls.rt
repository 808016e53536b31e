//! How many calls a turn may make.
ghost use Rattle.std.specs.Prelude.{◌≡◌, ◌≤◌};
ghost use Rattle.settings.specs.Calls.{calls_for, least_calls};

/// The fewest calls that a turn may make: one for each of a connection's four flags. A turn begins with all four up,
/// and may spend a call on each only to hear "would block". With fewer calls such a turn would end with a flag up, be
/// due again, and move nothing for ever.
pub const LEAST_CALLS: usize = 4;

/// How many calls a turn may make at most by this `budget`: as many as it says, but at least [`LEAST_CALLS`].
pub fn calls_for(budget: u32) -> usize
    requires { budget ≤ 1024 }
    ensures calls { result ≡ calls_for budget }
    ensures range { (least_calls ≤ result) × (result ≤ 1024) }
{
    (budget as usize).max(LEAST_CALLS)
}
