//! Why a client was dropped.
ghost use Rattle.std.specs.Prelude.{◌≡◌};
ghost use Rattle.sizes.specs.Causes.{cause_name};

use std::alloc::AllocError;

/// The cause of a drop: why no connection was opened for a client that was accepted.
#[derive(Clone, Copy, PartialEq, Eq)]
pub enum Cause {
    /// Memory ran out.
    Memory,
    /// The connection to the target could not be started (connect(2)).
    Connect,
    /// A socket could not be registered for reports (epoll_ctl(2)).
    Register,
    /// The PROXY line lacks an address: the client's, or the one on which the client was accepted, is unknown or no
    /// IPv4 address (accept(2), getsockname(2)).
    Address,
}

impl From<AllocError> for Cause {
    ghost use Rattle.sizes.specs.declared.cause.Cause.TheVariants.{Memory};

    ghost from_gives = { λ _ cause. cause ≡ Memory };

    fn from(_error: AllocError) -> Cause {
        Cause::Memory
    }
}

impl Cause {
    /// The word for the cause.
    pub fn name(self) -> &'static str
        ensures { result.now ≡ cause_name self }
    {
        match self {
            Cause::Memory => "memory",
            Cause::Connect => "connect",
            Cause::Register => "register",
            Cause::Address => "address",
        }
    }
}
