//! What a relay did.
ghost use Rattle.std.specs.Prelude.{◌≡◌};
ghost use Rattle.record_lines.specs.Texts.{accepted_name, opening_name, yes_or_no};

use token::{Kind, Name, Token};

/// An act, and the values of the recording's count just before and just after it.
#[derive(Clone, Copy)]
pub struct Record {
    pub before: u64,
    pub after: u64,
    pub act: Act,
}

/// What happened.
#[derive(Clone, Copy)]
pub enum Act {
    /// The poller with this number did this.
    Poller(usize, Polling),
    /// The clock showed this second, to a turn or to a round.
    Second(u64),
    /// The beginning of a turn at this slot.
    Begin(usize),
    /// The end of a turn at this slot.
    End(usize),
    /// This was done with the wire of an end.
    Wire(Token, Made),
    /// The relay ended, and everything is recorded, in parts everything since the last gap. This is the last record.
    Ended,
    /// A record found no room. This is the last record, or in parts the last of its part.
    Full,
}

/// What a poller did.
#[derive(Clone, Copy)]
pub enum Polling {
    /// A wait for reports gave this many.
    Gave(usize),
    /// A signal ended a wait for reports.
    Interrupted,
    /// A wait for reports failed.
    Failed,
    /// When the last wait gave reports, in microseconds since the recording began.
    Time(u64),
    /// The last wait reported this.
    Reported(Name),
    /// What accept(2) answered.
    Accept(Accepted),
    /// The front was asked to open a connection in this slot, under this generation.
    Open(usize, u64, Opening),
}

/// What accept(2) answered: a connection, or why none (`Unaccepted` of `shared`).
#[derive(Clone, Copy)]
pub enum Accepted {
    Taken,
    Blocked,
    Again,
    Starved,
}

/// Whether a front opened a connection.
#[derive(Clone, Copy)]
pub enum Opening {
    Opened,
    /// The connection to the target could not be started.
    Connect,
    /// A socket could not be registered for reports.
    Register,
}

/// What was done with a wire.
#[derive(Clone, Copy)]
pub enum Made {
    /// A read of at most this many bytes. Its answer is a number of bytes, the end, or no success.
    Read(usize, Answer),
    /// A write that offered this many bytes. Its answer is a number of bytes, or no success.
    Write(usize, Answer),
    /// The question whether the socket is connected.
    Join(Answer),
    /// A shutdown. Its answer is never `Blocked`.
    Shut(Answer),
    /// The wire settled, since a turn had ended quiet.
    Settle,
    /// The wire was dropped, which closes its socket.
    Drop,
}

/// What a wire answered.
#[derive(Clone, Copy, PartialEq, Eq)]
pub enum Answer {
    /// This many bytes moved.
    Moved(usize),
    /// The end of input.
    End,
    /// The socket is connected.
    Joined,
    /// The end of input was passed on.
    Shut,
    /// The call would have had to wait.
    Blocked,
    /// A signal interrupted the call.
    Interrupted,
    /// The call failed.
    Failed(Kind),
}

impl Accepted {
    /// The word for it in a recording.
    pub(crate) fn name(self) -> &'static str
        ensures { result.now ≡ accepted_name self }
    {
        match self {
            Accepted::Taken => "ok",
            Accepted::Blocked => "blocked",
            Accepted::Again => "again",
            Accepted::Starved => "starved",
        }
    }
}

impl Opening {
    /// The word for it in a recording.
    pub(crate) fn name(self) -> &'static str
        ensures { result.now ≡ opening_name self }
    {
        match self {
            Opening::Opened => "ok",
            Opening::Connect => "connect",
            Opening::Register => "register",
        }
    }
}

/// The word for a truth value.
pub(crate) fn yes_or_no(is_so: bool) -> &'static str
    ensures { result.now ≡ yes_or_no is_so }
{
    if is_so { "yes" } else { "no" }
}
