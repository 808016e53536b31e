//! The kinds of failure of a call, with their words.
ghost use Rattle.std.specs.{Prelude.{◌≡◌, ◌≢◌, IfSome, IfNone}, Str.bytes_eq};
ghost use Rattle.token.specs.{Kinds.{kind_name, kind_named}, declared.kind.Kind.Kind};

/// The message about a word that names no kind.
pub const KIND_WANTED: &str =
    "one of aborted, notconnected, other, pipe, refused, reset, timedout and zero is wanted";

/// How a call on a socket failed: the kinds that the relay distinguishes.
#[derive(Clone, Copy, PartialEq, Eq)]
pub enum Kind {
    /// The peer reset the connection (ECONNRESET).
    Reset,
    /// The peer no longer reads (EPIPE).
    Pipe,
    /// The connection was aborted (ECONNABORTED).
    Aborted,
    /// Nobody listens at the address (ECONNREFUSED).
    Refused,
    /// The socket is not connected (ENOTCONN).
    NotConnected,
    /// The peer did not answer in time (ETIMEDOUT).
    TimedOut,
    /// A write took none of the bytes that it was given.
    Zero,
    /// Any other error.
    Other,
}

impl Kind {
    /// The word for this kind.
    pub fn name(self) -> &'static str
        ensures { result.now ≡ kind_name self }
    {
        match self {
            Kind::Reset => "reset",
            Kind::Pipe => "pipe",
            Kind::Aborted => "aborted",
            Kind::Refused => "refused",
            Kind::NotConnected => "notconnected",
            Kind::TimedOut => "timedout",
            Kind::Zero => "zero",
            Kind::Other => "other",
        }
    }

    /// The kind that `word` names, or None.
    pub fn named(word: &[u8]) -> Option<Kind>
        ensures value { result ≡ kind_named word.now }

        // What follows from `value`:
        ensures some { IfSome result (λ kind. word.now ≡ kind_name kind) }
        ensures none { IfNone result ((kind : Kind) → word.now ≢ kind_name kind) }
    {
        if names(Kind::Reset, word) {
            Some(Kind::Reset)
        } else if names(Kind::Pipe, word) {
            Some(Kind::Pipe)
        } else if names(Kind::Aborted, word) {
            Some(Kind::Aborted)
        } else if names(Kind::Refused, word) {
            Some(Kind::Refused)
        } else if names(Kind::NotConnected, word) {
            Some(Kind::NotConnected)
        } else if names(Kind::TimedOut, word) {
            Some(Kind::TimedOut)
        } else if names(Kind::Zero, word) {
            Some(Kind::Zero)
        } else if names(Kind::Other, word) {
            Some(Kind::Other)
        } else {
            None
        }
    }
}

fn names(kind: Kind, word: &[u8]) -> bool
    ensures { result ≡ bytes_eq word.now (kind_name kind) }
{
    word == kind.name().as_bytes()
}
