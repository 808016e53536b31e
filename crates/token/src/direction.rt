//! The two directions of a connection.
ghost use Rattle.std.specs.Prelude.{◌≡◌};
ghost use Rattle.token.specs.Sides.{opposite, source, destination};

use crate::side::Side;

/// One of the two ways in which bytes travel through a connection.
#[derive(Clone, Copy, PartialEq, Eq)]
pub enum Direction {
    /// From the client to the target.
    Up,
    /// From the target to the client.
    Down,
}

impl Direction {
    /// The way back.
    pub fn other(self) -> Direction
        ensures { result ≡ opposite self }
    {
        match self {
            Direction::Up => Direction::Down,
            Direction::Down => Direction::Up,
        }
    }

    /// The side that the bytes come from.
    pub fn source(self) -> Side
        ensures { result ≡ source self }
    {
        match self {
            Direction::Up => Side::Client,
            Direction::Down => Side::Target,
        }
    }

    /// The side that the bytes go to.
    pub fn destination(self) -> Side
        ensures { result ≡ destination self }
    {
        match self {
            Direction::Up => Side::Target,
            Direction::Down => Side::Client,
        }
    }
}
