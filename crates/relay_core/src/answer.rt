//! What a socket answered to a call.
ghost use Rattle.std.specs.Prelude.{◌≡◌};
ghost use Rattle.relay_core.specs.Replies.{reply_of, moves};

use token::Kind;

/// What a socket answered to a call.
#[derive(Clone, Copy)]
pub enum Answer<'a> {
    /// A read gave these bytes, at least one.
    Bytes(&'a [u8]),
    /// A read met the end of input.
    End,
    /// A write took this many of the bytes that it was offered, at least one.
    Wrote(usize),
    /// The socket is connected.
    Joined,
    /// The end of input was passed on.
    Shut,
    /// The call would have had to wait (EAGAIN).
    Blocked,
    /// A signal interrupted the call, and nothing moved (EINTR).
    Interrupted,
    /// The call failed.
    Failed(Kind),
}

impl Answer<'_> {
    /// Whether the answer moved the connection: any but Blocked, Interrupted and Failed does.
    pub fn moves(self) -> bool
        ensures { result ≡ moves (reply_of self.entry) }
    {
        match self {
            Answer::Blocked | Answer::Interrupted | Answer::Failed(_) => false,
            _ => true,
        }
    }
}
