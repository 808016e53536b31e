//! What has become of a connection, and why one failed.
use crate::call::CallKind;
use token::{Kind, Side};

/// Why a connection failed.
#[derive(Clone, Copy, PartialEq, Eq)]
pub enum Fault {
    /// A call failed.
    Broken {
        /// The side on whose socket the call was made.
        side: Side,
        /// Which call it was.
        call: CallKind,
        /// How it failed.
        kind: Kind,
    },
    /// The connection moved nothing for the idle limit.
    Idle,
}

/// What has become of a connection.
#[derive(Clone, Copy, PartialEq, Eq)]
pub enum Verdict {
    /// Not failed, and an end of input is still to come or to be passed on.
    Live,
    /// Both ends of input were passed on.
    Done,
    /// A call failed, or the connection moved nothing for the idle limit.
    Failed(Fault),
}
