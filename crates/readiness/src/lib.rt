//! What a wire knows of its socket by the reports that the poller took: whether a read is worth a system call.
//!
//! After a read that would block, the system reports the socket again when something can be read there (epoll(7),
//! edge-triggered), and the report names reading. Until then a read would give the same answer, so the wire answers
//! "would block" without a system call. It keeps an [`Attention`], and looks at what the poller passed on ([`Reports`])
//! by a [`Told`]: `looks` and `heed` of `SocketWire` (`wire.rt` of `sockets`), for all checks of `tests/relay`:
//! ```
//! if self.attention.reads() { return true; }
//! let told = self.stream.is_told();
//! self.attention.look(told);    // it reads again if a report named reading
//! Class::Blocked if call == CallKind::Read => self.attention.rest(),
//! Class::Failed(_) => { self.attention.wake(); .. }
//! ```
//! [`laws`] says that this misses nothing, over an end of the modelled kernel, in every order of the steps of the
//! network, the system, the poller and the wire.
#![tactic(auto)]

mod attention;
pub mod laws;
mod reports;
mod word;

pub use attention::Attention;
pub use reports::{Reports, Told};
pub use word::{Flag, Heard};
