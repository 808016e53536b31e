/// The highest slot number.
pub const MAX_SLOT: usize = 32_767;

/// The highest generation of a slot, 2^47 - 1.
pub const MAX_GENERATION: u64 = 140_737_488_355_327;

/// How many numbers one generation has: one for each side of each slot.
pub(crate) const NUMBERS_PER_GENERATION: u64 = 65_536;
