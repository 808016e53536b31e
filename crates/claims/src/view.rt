// The view of a seat: what its thread knows. It exists only in proofs: no value of it is ever made.
use std::collections::LinkedList;

/// One exchange at a slot: its kind, with what it answered.
pub enum Exchange {
    /// A post, and whether it answered Wake.
    Post(bool),
    /// A claim that found the slot held.
    Busy,
    /// A claim that found it not held, and the notes that waited.
    Held(u64),
    /// A take, and its notes.
    Take(u64),
    /// A release, and whether it answered Wake.
    Release(bool),
    /// A retire.
    Retire,
    /// An adopt that found the slot free, and the notes that waited.
    Adopted(u64),
    /// An adopt that found it not free.
    NotFree,
}

/// What one seat has done at one slot, as its exchanges there say.
pub struct Account {
    /// Its posts.
    pub posted: u64,
    /// The notes that its takes answered.
    pub taken: u64,
    /// The answers Wake that it got, each of which obliges it to put a ticket.
    pub minted: u64,
    /// Its claims that found notes, each of which uses up a ticket.
    pub redeemed: u64,
    /// Whether it holds the slot.
    pub holds: bool,
    /// Notes that it knows are waiting, while it holds the slot.
    pub known: u64,
    /// Its adopts that found the slot free.
    pub adopts: u64,
    /// Its retires.
    pub retires: u64,
}

/// What one seat has done at all slots.
pub struct View {
    /// For each slot its exchanges there, in order.
    pub traces: LinkedList<LinkedList<Exchange>>,
    /// How many further seats it may still make.
    pub spare: u64,
}
