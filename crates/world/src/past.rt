//! What the machine keeps of a closed connection.
use kernel_model::Sockets;
use relay_core::Verdict;

/// A closed connection: its slot and generation, how it ended, and its two ends as they were.
#[derive(Drop)]
pub struct Past {
    pub slot: usize,
    pub generation: u64,
    pub verdict: Verdict,
    pub ends: Sockets,
}
