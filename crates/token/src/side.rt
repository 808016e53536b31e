//! The two ends of a connection.
ghost use Rattle.std.specs.Prelude.{◌≡◌, ◌≢◌, IfSome, IfNone};
ghost use Rattle.token.specs.{Sides.{other_side, side_name, side_named, side_number}, declared.side.Side.Side};

/// One of the two ends of a connection.
#[derive(Clone, Copy, PartialEq, Eq)]
pub enum Side {
    /// The end that connected to the relay.
    Client,
    /// The end to which the relay connected.
    Target,
}

impl Side {
    /// The other side.
    pub fn other(self) -> Side
        ensures { result ≡ other_side self }
    {
        match self {
            Side::Client => Side::Target,
            Side::Target => Side::Client,
        }
    }

    /// The word for the side.
    pub fn name(self) -> &'static str
        ensures { result.now ≡ side_name self }
    {
        match self {
            Side::Client => "client",
            Side::Target => "target",
        }
    }

    /// The side that `word` names, or None.
    pub fn named(word: &[u8]) -> Option<Side>
        ensures value { result ≡ side_named word.now }

        // What follows from `value`:
        ensures some { IfSome result (λ side. word.now ≡ side_name side) }
        ensures none { IfNone result ((side : Side) → word.now ≢ side_name side) }
    {
        if word == Side::Client.name().as_bytes() {
            Some(Side::Client)
        } else if word == Side::Target.name().as_bytes() {
            Some(Side::Target)
        } else {
            None
        }
    }

    /// The side's bit in a token: 0 for the client, 1 for the target.
    pub fn bit(self) -> u64
        ensures { result ≡ side_number self }
    {
        match self {
            Side::Client => 0,
            Side::Target => 1,
        }
    }
}
