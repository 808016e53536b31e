//! The limits and fixed numbers of pollers and their turns.

/// The most reports that one poll gives.
pub const MAX_BATCH: usize = 256;

/// The most tries of accept(2) in one round. The tickets in hand wait for them.
pub const MAX_ACCEPTS: usize = 4;

/// The most own turns of a poller after one round.
pub const MAX_OWN_TURNS: usize = 32;

/// The most calls of one own turn. The reports of other connections wait for them.
pub const OWN_BUDGET: usize = 8;

/// How many of a slot's next tickets go to the workers once its turn has spent the own budget.
pub const HEAVY_MARKS: u8 = 16;

/// How many light tickets stay with the poller before it looks for a worker that sleeps.
pub const FIRST_LIGHT: usize = 16;

/// The number under which the listening socket is reported.
pub const LISTENER: u64 = 0;

/// The number under which the waker is reported.
pub const WAKER: u64 = 1;
