//! The sizes of a world, and the limits of one event.
use crate::lead::Lead;

/// The most bytes that one arrival brings.
pub(crate) const MAX_BYTES: usize = 1_024;

/// The most seconds that pass at once.
pub(crate) const MAX_TICK: u64 = 4_294_967_295;

/// The sizes of a world: 1 to 64 slots, 1 to 16 workers, a ring of 1 to 65,536 bytes for each direction, a budget of 1
/// to 1,024 calls per turn; the generation at which every slot starts, at most 2^47 - 2; the idle limit in seconds,
/// after which a connection that moves nothing may be failed (0: never); and the lead of each connection.
#[derive(Clone, Copy)]
pub struct Limits {
    pub slots: usize,
    pub workers: usize,
    pub ring: usize,
    pub budget: usize,
    pub generation: u64,
    pub idle: u64,
    pub lead: Lead,
}
