//! The two ends of one connection, and their descriptors.
use crate::end::End;

/// The descriptors of a connection's two ends.
#[derive(Clone, Copy)]
pub struct Descriptors {
    pub client: usize,
    pub target: usize,
}

/// A connection's two ends.
#[derive(Drop)]
pub struct Sockets {
    pub client: End,
    pub target: End,
}
