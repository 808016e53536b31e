//! What a socket of the model replies to a call.
use token::Kind;

/// What a socket replies to a call: counts stand for the bytes (`specs/Replies.antt`).
#[derive(Clone, Copy)]
pub enum Reply {
    /// To a read: this many bytes, at least one (read(2)).
    Bytes(usize),
    /// To a read: end of input.
    End,
    /// To a write: it took this many bytes, at least one; if `true`, no room is left (write(2)).
    Wrote(usize, bool),
    /// To the question whether the connect has completed: it has (connect(2)).
    Joined,
    /// To a shutdown: sending is shut down (shutdown(2)).
    Shut,
    /// To a read, a write or a join: nothing could be done now (EAGAIN).
    Blocked,
    /// To any call: a signal came first, and nothing was done (EINTR).
    Interrupted,
    /// To any call: it failed. Only a write may fail by taking 0 bytes.
    Failed(Kind),
}
