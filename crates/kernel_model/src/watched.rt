/// What a kernel reports on.
#[derive(Clone, Copy)]
pub enum Watched {
    /// The listening socket.
    Listener,
    /// The waker, with which another thread ends a wait for reports.
    Waker,
    /// The end with this descriptor.
    End(usize),
}
