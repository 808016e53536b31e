//! Why a server ended early.
ghost use Rattle.std.specs.Prelude.{◌≡◌};
ghost use Rattle.sizes.specs.declared.faults.ServerFault.TheVariants.{NoMemory};

use std::alloc::{AllocError, AllocFailed};
use thiserror::Error;

/// Why a server failed, or ended early.
#[derive(Clone, Copy, Debug, PartialEq, Eq, Error)]
pub enum ServerFault {
    /// The listening socket could not be made (socket(2), bind(2), listen(2)).
    #[error("listen: failed")]
    Listen,
    /// The system could not report on sockets (epoll_create1(2), eventfd(2), epoll_ctl(2), epoll_wait(2)).
    #[error("poll: failed")]
    Poll,
    /// A thread could not be started.
    #[error("threads: failed")]
    Threads,
    /// A thread has posted 2^56 notes, the most that the claim words allow.
    #[error("claims worn")]
    Worn,
    /// Memory ran out.
    #[error("out of memory")]
    NoMemory,
}

impl From<AllocError> for ServerFault {
    ghost from_gives = { λ _ fault. fault ≡ NoMemory };

    fn from(_error: AllocError) -> ServerFault {
        ServerFault::NoMemory
    }
}

impl<T: Drop> From<AllocFailed<T>> for ServerFault {
    ghost from_gives = { λ _ fault. fault ≡ NoMemory };

    fn from(_error: AllocFailed<T>) -> ServerFault {
        ServerFault::NoMemory
    }
}
