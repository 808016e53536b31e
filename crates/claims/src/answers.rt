// What the calls answer.

/// What a post found.
#[derive(Clone, Copy)]
pub enum Posted {
    /// No note waited, and the slot was neither held nor free. The caller has to put a ticket for the slot.
    Wake,
    /// A ticket for the slot is under way, or its present or next holder will find the note.
    Quiet,
    /// This seat has posted 2^56 times, and nothing was done.
    Worn,
}

/// What a claim found.
#[derive(Clone, Copy)]
pub enum Claimed {
    /// The caller's seat now holds the slot.
    Held,
    /// The slot was held, or free, and nothing has changed.
    Busy,
}

/// What a release found.
#[derive(Clone, Copy)]
pub enum Released {
    /// Notes wait. The caller has to put a ticket for the slot.
    Wake,
    /// No note waited.
    Quiet,
}

/// What an adoption found.
#[derive(Clone, Copy, PartialEq, Eq)]
pub enum Adopted {
    /// The slot was free, and the caller's seat now holds it.
    Adopted,
    /// The slot was not free, and nothing has changed.
    NotFree,
}
