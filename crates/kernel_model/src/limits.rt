/// The most connections that can wait at the listener.
pub const MAX_BACKLOG: usize = 4_096;

/// The most names that one poll gives.
pub const MAX_POLLED: usize = 256;
