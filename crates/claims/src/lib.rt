//! Claim words: many threads, one holder per slot, and no note lost.
//!
//! A server has slots, one for each connection, and threads that work on them. A thread that learns of something to do
//! at a slot posts a note there. A thread that has a ticket for the slot claims it, takes its notes, works, and
//! releases it. This crate keeps one word per slot, `4 * notes + 2 * free + held`. Each call is one atomic exchange on
//! one word, by the caller's own seat. No call waits, and only [`Claims::open`] allocates memory. In the test
//! `every_note_is_taken_once` (`words.rt` of `core_tests`) eight threads post, and a ninth holds the slot meanwhile:
//! ```
//! let (claims, mut seats) = Claims::open(rt.alloc(), 1, POSTERS + 1)?;
//! if claims.adopt(&mut holder, 0) != Adopted::Adopted { .. }
//! let _answer = claims.post(seat, 0);                   // 80,000 in all
//! sum = sum.wrapping_add(claims.take(&mut seat, 0));    // 80,000 at last
//! ```
//!
//! # The rule
//!
//! The exchanges of all seats at a slot stand in one order, the slot's history. Between any two exchanges, in every
//! schedule, the history leads from the word of an unused slot to the present word, and each exchange has answered what
//! the word that it found says. The history has the exchanges of each seat in that seat's order: the seat's trace. And
//! each seat takes, releases and retires only what it holds by its trace. From this follows for each slot:
//!
//! 1. The notes that wait are those that were posted and not taken. So none is dropped and none appears twice.
//! 2. A slot that is held and not free has exactly one holder. Any other slot has none. A free slot is marked as held.
//! 3. While notes wait at a slot that is not marked as held, exactly one ticket for it is out. Otherwise none is. A
//!    ticket is out from the answer Wake, which obliges the caller to put one, until the claim that finds the notes.
//! 4. Until its take, a holder knows of the notes that its claim or adopt found, and of those that it has posted since.
//!    At least as many wait, so the take answers at least that number.
//! 5. A seat has posted at most 2^56 times, and there are at most 32 seats, so no word overflows.
//! 6. A slot is free at the start and after each retire, until it is adopted: before any call its word is 3.
//!
//! Each call makes exactly one exchange, whatever it answers, but a post that answers Worn none. That is true of the
//! source: in machine code an exchange may be a loop.
//!
//! # The exchanges, and the race that each closes
//!
//! - `post` adds 4. Of two posts at once, one finds no note, and only that one answers Wake, so one ticket is made. If
//!   the count were read and then written, one of the notes could be lost.
//! - `claim` sets the bit `held`. Of two claims at once, one finds it clear. If a claim looked first and stored later,
//!   both could get in.
//! - `take` clears all but the two lowest bits, and answers how many notes that were. A later note stays in the word.
//! - `release` clears `held`, and answers by the word that it found. An earlier post is in that word, so the releaser
//!   answers Wake. A later post finds the slot not held, and answers Wake itself. If a release looked first and stored
//!   later, a post in between would find the slot held and answer Quiet, and nobody would come for its note.
//! - `retire` sets `free` and leaves `held`, in one step. No claim can come between the end of the old connection and
//!   the mark that the slot is free, and a late post there answers Quiet, so that no ticket is made for it.
//! - `adopt` clears `free` and leaves `held`. Of two adopts at once, one finds the slot free, and no claim can get in
//!   before the holder has set up the new connection. The holder can still take late notes of the old connection.
//!
//! It is not promised that Busy or NotFree was necessary. Nor is any order between threads that never synchronized, or
//! progress. A seat that is dropped while it holds a slot leaves the slot held. [`Claims::peek`] makes no exchange.
//!
//! [`laws`] says in plain words what follows from the rule, `specs/Calls.antt` which exchange each answer is, and
//! `proofs/Seats.antt` how what a seat holds carries over from call to call.
#![tactic(auto)]

mod answers;
mod calls;
pub mod laws;
mod limits;
mod opening;
mod rule;
mod seat;
mod view;
mod word;

pub use answers::{Adopted, Claimed, Posted, Released};
pub use calls::Claims;
pub use opening::OpenFault;
pub use seat::ClaimSeat;
