//! Tickets become turns. The thread that takes a ticket claims its slot, and runs the connection there on its two
//! wires. A worker does so with a ticket of the queue ([`worker_turn`]). A poller's thread runs the light tickets of
//! its rounds itself ([`own_turn`]), and puts the others into the queue ([`share_tickets`]).
//!
//! One thread at a time holds a slot (`claims`), so a connection's two sockets and its pair are never touched by two
//! threads at once, and no note is lost between them. What it is lent is in `shared`; `rounds` makes the tickets.
//!
//! # Inside
//!
//! - A turn plays a connection only if both the slot and the generation are the ticket's (`run`: `own`). What is put
//!   back or closed is what was taken out (`Visit`). Its bytes, or its end, are counted at its slot (`counted`).
//! - A slot is released once for each `Back`, which says that no connection of it is out of its place (`leave`:
//!   `back`). A ticket is put, and a slot is given back, once the seat no longer holds the slot (`put_ticket`:
//!   `released`; `give_back`: `retired`), and a slot only once its connection is closed (`Closed`). Then the poller is
//!   woken (`wake_if_ended`). What is in hand is put oldest first, until nothing is left or the queue is full
//!   (`put_tickets`, `give_slots` of `shared`: `all`), as the answer shows ([`HandPut`]).
//! - The function that takes the notes and makes the calls (`play`) is passed no allocator, and no `Wait`, so that it
//!   waits for no lock. The connection's place is locked before `play`, and again after it.
//! - If workers run light tickets, one after the first 16 is kept only after a look of its own, which found no end of
//!   the ready queue asleep (`keep`: `early`, `alone`; `AllBusy` of `queues`). An own turn makes at most 8 calls
//!   (`own_turn`: `turn`).
#![tactic(auto)]

mod giving;
mod gone;
mod own_turns;
mod visit;
mod worker;

pub use own_turns::{own_turn, share_tickets};
pub use worker::{HandPut, Worked, worker_turn};
