//! The limits of the claim words, and what the bits of a word are worth.

/// The maximum number of slots.
pub(crate) const MAX_SLOTS: usize = 32_768;

/// The most seats, which are the threads that may share the words.
pub(crate) const MAX_SEATS: usize = 32;

/// How often one seat may post. So all seats together never overflow a word.
pub(crate) const MAX_POSTS: u64 = 1 << 56;

/// What a word has for a slot that is held.
pub(crate) const HELD: u64 = 1;

/// What a word has for a slot that is free.
pub(crate) const FREE: u64 = 2;

/// What a word has for each note that waits.
pub(crate) const NOTE: u64 = 4;

/// The word of a slot at the start: free, and marked as held.
pub(crate) const UNUSED: u64 = FREE + HELD;
