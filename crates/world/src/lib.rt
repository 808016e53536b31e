//! The whole relay as a pure machine: the network, the kernel with its readiness queue, the poller, the workers, and
//! the slots with their connections.
//!
//! A [`World`] starts from its [`Limits`], and changes by one [`Event`] at a time. Every choice is part of the event:
//! what the network brings, which names a poll gives, what a call is answered. So [`World::step`] has one outcome, or
//! refuses the event and changes nothing. [`World::play`] makes a list of events happen, and [`replay`] does so from
//! the opening world on, as in `replays.rt` of `core_tests`, where the event at `wrong` cannot happen:
//! ```
//! match replay(alloc, limits(), events.as_slice()) {
//!     Ok(world) => Ok(wrong == 100 && world.second() == 150 && world.past().len() == 5),
//!     Err((at, Refusal::NotAllowed)) => Ok(at == wrong),
//!     Err(refused) => Err(refused),
//! }
//! ```
//! [`World::movable`] says whether a connection could move, and [`World::due`] whether it is due to be tried. A slot
//! has its holder and its notes, not one atomic number.
//!
//! With an idle limit the machine also has time: it starts at second 0, and ticks raise the second. A slot that was
//! ever opened may be swept, which posts to it as a report does, and the worker that holds a connection without a call
//! to make fails it, if it has moved nothing for the limit.
#![tactic(auto)]

mod actors;
mod connection;
mod due;
mod event;
pub mod laws;
mod lead;
mod limits;
mod network;
mod past;
mod poller;
mod readers;
mod replaying;
mod slot;
mod step;
mod worker;
mod working;
mod world;

pub use actors::{Doing, Holder, Ticket};
pub use connection::Connection;
pub use event::{Act, Change, Event, Listening, Polling, Reported};
pub use lead::Lead;
pub use limits::Limits;
pub use past::Past;
pub use replaying::replay;
pub use slot::Slot;
pub use worker::Worker;
pub use world::World;
