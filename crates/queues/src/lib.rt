//! The queues between the threads of a relay: one of tickets for the slots that have work, and one of free slots.
//!
//! Each value of a queue is one thread's end of it. Any end may put and any may take, and no lock is held. In the test
//! `each_ticket_is_taken_once` (`tickets.rt` of `core_tests`) two threads put and two take, at a queue with room for 8:
//! ```
//! let mut ends = ReadyQueue::new(rt.alloc(), 8, 32)?;
//! if end.put(rt, ticket(slot, generation)).is_ok() { .. }
//! match taker.end.take(rt) {
//!     Ok(ticket) => note(taker, ticket),
//!     Err(_) => break,
//! }
//! ```
//! `take` sleeps while there is no ticket, and refuses once the queue was closed (`close`) and then found empty.
//!
//! # The queue rule
//!
//! Each item that is put gets a place: the number of items that were put before it. Between any two steps, in every
//! schedule, this is true of a queue and of what all its ends have put and taken:
//!
//! 1. Each place below the number of puts got an item once. The places that were taken are the first ones, each once.
//! 2. An item that was taken at a place is the item that was put there.
//! 3. The queue holds the items of the other places, in order.
//! 4. The places of what one end has put rise, and so do those of what it has taken.
//!
//! So each ticket was taken once or is there, first in, first out. At one moment of a call that gives [`Full`] the
//! queue was full, and of one that gives [`Empty`] it was empty (`moment.rt`). Only tests show that a call returns.
//!
//! # How an end sleeps, and who wakes it
//!
//! One word has a bit for each end that is idle. An end that is about to park in [`ReadyQueue::take`] sets its bit,
//! looks at the queue again, and only then parks. A put first pushes its ticket, and then clears the lowest bit that is
//! set and unparks that end. So at most one end is woken for a ticket, and no ticket is left while all ends sleep:
//! either the put finds the bit, or the end's second look finds the ticket. [`laws`] says so of all ends together, act
//! by act (`specs/Sleep.antt`).
//!
//! After each `take` that gave a ticket, the end's first put wakes nobody: the end itself comes back, and takes one
//! ticket. Each later put wakes an end, and so does each put of an end that never calls `take`. An end that has tickets
//! to put may first look whether any end sleeps ([`ReadyQueue::all_busy`]).
//!
//! # Inside
//!
//! [`IdleEnds`] has all of this for any place that items are put into ([`Put`]) and looked at ([`Source`]): the queue
//! of tickets, and the queues of `writer_queue` with the writer as their one end that takes.
//!
//! The order of the steps is kept by values that only the step before gives (`steps.rt`). A `Wake`, which can be
//! neither copied nor dropped, is made only once an item was put (`push`), or `close` has set its mark (`wake_all`),
//! and becomes [`Spent`]: it unparked the end whose bit it cleared (`wake`), or one look found no bit (`look_for`). An
//! end has a bit and a parker of its own ([`EndNumber`]). It announces that it is idle only if it read that the queue
//! was open and then looked in vain (`announce`: `open`), sleeps once for each announcement, after it looked in vain
//! again (`look`, `sleep`: `parked`), and then clears its bit (`rise`). Its next put counts on it to come back exactly
//! if its last `take` gave a ticket and it has put nothing since (`comes_back`). An end that found an item passes a
//! wake on that was spent on it (`withdraw`); one that slept looks again.
#![tactic(auto)]

mod end;
mod flags;
mod free;
mod history;
mod idle;
pub mod laws;
mod moment;
mod queue;
mod rule;
mod steps;
mod ticket;

pub use free::FreeQueue;
pub use idle::{Closed, EndNumber, EndNumbers, IdleEnds};
pub use moment::{Empty, Full};
pub use queue::ReadyQueue;
pub use steps::{AllBusy, Drained, Put, Source, Spent};
pub use ticket::Ticket;
