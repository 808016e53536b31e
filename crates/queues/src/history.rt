// What an end of a queue knows about its own calls. It exists only in proofs: no value of it is ever made.
use std::collections::LinkedList;

/// The items that one end has put and has taken, each with its place: how many items all ends had put before it.
pub struct History<T> {
    /// Whether no other end has been made yet.
    pub alone: bool,
    pub put: LinkedList<(u64, T)>,
    pub taken: LinkedList<(u64, T)>,
}
