/// The right to try a slot's connection, if it has this generation.
#[derive(Clone, Copy)]
pub struct Ticket {
    pub slot: usize,
    pub generation: u64,
}

/// Who holds a slot.
#[derive(Clone, Copy)]
pub enum Holder {
    Nobody,
    /// The worker with this number.
    By(usize),
    /// The slot has no connection, so nobody may hold it. It counts as held.
    Free,
}

/// What a worker is doing.
#[derive(Clone, Copy)]
pub enum Doing {
    Idle,
    /// It took this ticket from the ready queue.
    Tries(Ticket),
    /// It holds a slot, with this many calls left in its turn.
    Holds(usize, usize),
    /// It closed the connection of a slot, and still holds the slot.
    Closed(usize),
    /// It retired a slot, and has to put it into the free queue.
    Retired(usize),
}
