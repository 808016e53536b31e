//! The front over the system's sockets: a listener ([`bind`]), which may be one that the program was started with
//! ([`take_passed`]); a connection to the target for each client; and epoll(7) ([`open_all`]). All sockets are
//! edge-triggered, and nothing waits except [`Front::poll`](shared::Front::poll).
//!
//! - [`Sockets`] is the front of one poller, and [`Forwarding`] says where it connects clients. All fronts share one
//!   listening socket ([`Bound`]), and each leaves clients to fronts that have fewer (`loads`). [`Wakers`] wakes the
//!   poller of a slot, and a [`Stop`] all pollers.
//! - [`SocketWire`] is one end of a connection: a socket, and what is known of it. After a read that would block it
//!   reads again only once its front has reported something to read (`readiness`).
//!
//! # Inside
//!
//! An event names reading if it says that something can be read, or that the socket has failed or was closed
//! (`names_reading`). It sets the word of the end that its number names, if any (`Reporter::pass_on`: `heard`): a
//! socket is registered under its token's number, with that token's word (`watch`: `registered`). A socket that was
//! passed is looked at before it is used (`look_at`).
#![tactic(auto)]

mod bound;
mod delay;
mod failure;
mod forwarding;
mod limits;
mod loads;
mod options;
mod passed;
mod poll;
mod socket;
mod stop;
mod stream;
mod waiting;
mod wire;

pub use bound::{Bound, bind};
pub use forwarding::{Dial, Forwarding, Patience};
pub use passed::{Passed, take_passed};
pub use poll::{Sockets, Wakers, open_all};
pub use socket::Socket;
pub use stop::Stop;
pub use stream::Stream;
pub use wire::SocketWire;
