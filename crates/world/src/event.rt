//! What can happen in the machine, by the actor that causes it.
use kernel_model::{Accepting, Reply};
use token::{Name, Side};

/// One event of the machine, by the actor that causes it.
#[derive(Drop)]
pub enum Event {
    /// This many seconds pass, 1 to 2^32 - 1.
    Tick(u64),
    /// The network changes something at one end of the connection in a slot.
    Network(usize, Side, Change),
    /// A report is queued without cause.
    Spurious(Reported),
    /// A queued report is withdrawn before a poll gives it.
    Vanish(Reported),
    /// Something happens at the listener.
    Listen(Listening),
    /// The poller does something.
    Poll(Polling),
    /// The worker with this number does something.
    Work(usize, Act),
}

/// What the network does to an end.
#[derive(Drop)]
pub enum Change {
    /// Bytes arrive, 1 to 1,024.
    Arrive(Vec<u8>),
    /// The end of input arrives.
    Fin,
    /// An error arrives, such as a reset by the peer.
    Reset,
    /// The end gets room for writes.
    Room,
}

/// What a report is about.
#[derive(Clone, Copy)]
pub enum Reported {
    Listener,
    Waker,
    /// One end of the connection in a slot.
    End(usize, Side),
}

/// What happens at the listener.
#[derive(Clone, Copy)]
pub enum Listening {
    /// A client connects, and waits.
    Connect,
    /// The poller calls accept(2), and gets this reply.
    Accept(Accepting),
    /// The poller drops the connection that it accepted.
    Drop,
}

/// What the poller does.
#[derive(Drop)]
pub enum Polling {
    /// Opens a free slot for the connection that was accepted.
    Open,
    /// Takes these names from the queue as a batch, at most 256.
    Poll(Vec<Name>),
    /// Delivers the first name of the batch.
    Deliver,
    /// Posts to this slot, so that a worker looks whether its connection is past the idle limit.
    Sweep(usize),
    /// It puts the first ticket in its hand into the ready queue.
    Put,
}

/// What a worker does.
#[derive(Clone, Copy)]
pub enum Act {
    /// It puts the first ticket in its hand into the ready queue.
    Put,
    /// Takes the first ticket from the ready queue.
    Pop,
    /// Tries to hold the slot of its ticket.
    Claim,
    /// Takes the notes of its slot.
    Take,
    /// Makes the connection's next call, which gets this reply.
    Call(Reply),
    /// Posts a note to its slot, since its budget is spent.
    Post,
    /// Releases its slot.
    Release,
    /// Fails the connection of its slot, which moved nothing for the idle limit and has no call to make.
    Expire,
    /// Closes the connection of its slot.
    Close,
    /// Retires its slot, which is free from then on.
    Retire,
    /// Puts the slot that it retired into the free queue.
    Free,
}
