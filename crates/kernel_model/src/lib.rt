//! A model of the kernel's side of connections: what can arrive at a socket, which replies a socket may give to a call,
//! and which reports a readiness queue gives.
//!
//! An [`End`] is one stream socket in non-blocking mode, as plain values. A [`Kernel`] has the open ends of a process
//! by descriptor, each with its token; the queue of the names to report; and a listening socket. Nothing here happens
//! by itself: each call is given a change or a reply. So in `Transfer` of `script` (`transfer.rt`;
//! `tests/program/reports`):
//! ```
//! source: End::new(alloc, Side::Client),
//! self.source.arrive(bytes.as_slice())?;            // the network
//! self.source.read(most, Reply::Bytes(count))       // the relay's read, and its answer
//! self.destination.shut(Reply::Shut)?;
//! ```
//! If no kernel could make that change, or give that reply, the call is refused with [`Refusal::NotAllowed`]
//! (`specs/Ends.antt`, `specs/Replies.antt`, `specs/Kernel.antt`), and only otherwise, if its comment says so, with
//! [`Refusal::NoMemory`]. A refused call changes nothing. The rules follow epoll(7), read(2), write(2), shutdown(2),
//! connect(2) and accept(2).
#![tactic(auto)]

mod accepting;
mod both;
mod change;
mod connecting;
mod end;
mod kernel;
mod limits;
mod queue;
mod refusal;
mod reply;
mod sockets;
mod watched;

pub use accepting::Accepting;
pub use both::{Descriptors, Sockets};
pub use end::End;
pub use kernel::{Kernel, Open};
pub use limits::{MAX_BACKLOG, MAX_POLLED};
pub use refusal::Refusal;
pub use reply::Reply;
pub use watched::Watched;
