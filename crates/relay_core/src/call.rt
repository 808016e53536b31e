//! The calls for which a pair may ask.
ghost use Rattle.std.specs.Prelude.{◌≡◌};
ghost use Rattle.relay_core.specs.Calls.{side_of, kind_of, call_name, direction_of};

use token::{Direction, Side};

/// A call on one of a connection's two sockets. It never waits.
#[derive(Clone, Copy, PartialEq, Eq)]
pub enum Call {
    /// write(2): sends this side what [`Pair::offer`](crate::Pair::offer) lends.
    Write(Side),
    /// Asks, before a shutdown(2), whether this side's connect(2) has completed.
    Join(Side),
    /// shutdown(2) with `SHUT_WR`: passes the end of input on to this side.
    Shut(Side),
    /// read(2) from this side, of at most this many bytes.
    Read(Side, usize),
}

/// Which of the four calls a [`Call`] is.
#[derive(Clone, Copy, PartialEq, Eq)]
pub enum CallKind {
    /// write(2).
    Write,
    /// The question whether connect(2) has completed.
    Join,
    /// shutdown(2).
    Shut,
    /// read(2).
    Read,
}

impl CallKind {
    /// The word for this call in reports and log messages.
    pub fn name(self) -> &'static str
        ensures { result.now ≡ call_name self }
    {
        match self {
            CallKind::Write => "write",
            CallKind::Join => "join",
            CallKind::Shut => "shut",
            CallKind::Read => "read",
        }
    }
}

impl Call {
    /// The side on whose socket the call is made.
    pub fn side(self) -> Side
        ensures { result ≡ side_of self }
    {
        match self {
            Call::Write(side) | Call::Join(side) | Call::Shut(side) | Call::Read(side, _) => side,
        }
    }

    /// Which of the four calls it is.
    pub fn kind(self) -> CallKind
        ensures { result ≡ kind_of self }
    {
        match self {
            Call::Write(_) => CallKind::Write,
            Call::Join(_) => CallKind::Join,
            Call::Shut(_) => CallKind::Shut,
            Call::Read(_, _) => CallKind::Read,
        }
    }

    /// A read serves the direction from its side, any other call the direction to its side.
    pub fn direction(self) -> Direction
        ensures { result ≡ direction_of self }
    {
        match self {
            Call::Read(Side::Client, _) => Direction::Up,
            Call::Read(Side::Target, _) => Direction::Down,
            _ if self.side() == Side::Client => Direction::Down,
            _ => Direction::Up,
        }
    }
}
