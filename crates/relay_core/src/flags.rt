/// What the relay knows about one socket's readiness. Edge-triggered epoll(7) reports a change once, so a flag stays
/// set, and its call is tried, until a try is answered "would block".
#[derive(Clone, Copy)]
pub struct Flags {
    /// A read is worth trying.
    pub read: bool,
    /// A write is worth trying, and so is asking whether the connect has completed.
    pub write: bool,
}

impl Flags {
    /// Both calls are worth trying.
    pub const READY: Flags = Flags {
        read: true,
        write: true,
    };
}
