// What waits in the queue of tickets.

/// The right to try a slot.
#[derive(Clone, Copy, PartialEq, Eq)]
pub struct Ticket {
    /// The slot to try.
    pub slot: usize,
    /// The slot's generation when the ticket was made.
    pub generation: u64,
}
