//! A server's threads: what each is made of, its loop, and how the fault of one ends all ([`run_threads`]).
//!
//! Rounds are in `rounds`, turns in `turns`. Here the parts of a server are divided among the threads (`divide`), and
//! each thread makes its rounds, or takes its tickets, until all is over.
//!
//! # Inside
//!
//! A worker's turn puts a slot only into the queue of the slot's poller (`Worker::turn`: `gives`), and leaves none in
//! hand (`given`). It sleeps for a ticket only if it has no ticket in hand, unless the queue was full (`take`: `put`).
//!
//! Why a loop ended is a value that cannot be dropped (`Ended`); only `ending.rt` makes it or takes it apart.
//! `Context::end` takes it: a fault is recorded under its thread's number, and the mark is set at which all threads
//! look, as a token of that mark shows; a thread that met a fault or found one closes the queue of tickets (`told`),
//! and wakes every poller (`woken`). What it told (`Told`) is what `run` returns; a poller that leaves has told before.
//!
//! A poller counts its sweeps from a second that the clock gave (`PollerThread::run`: `made`). If it finds that no more
//! connections may be opened, it wakes every poller (`stop_if_asked`: `woken`).
#![tactic(auto)]

mod context;
mod dividing;
mod ending;
mod faults;
mod joining;
mod polling;
mod running;
mod working;

pub use context::StopFlag;
pub use joining::Outcome;
pub use running::{Server, run_threads};
