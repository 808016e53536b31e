/// What the listening socket replies to accept(2).
#[derive(Clone, Copy)]
pub enum Accepting {
    /// The connection that waited longest.
    Accepted,
    /// Nobody waits (EAGAIN).
    Blocked,
    /// This connection is gone, or a signal came first: another try may succeed (ECONNABORTED, EINTR).
    Again,
    /// Descriptors or memory are used up for now (EMFILE, ENFILE, ENOBUFS, ENOMEM).
    Starved,
}
