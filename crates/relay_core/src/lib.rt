//! The core as a pure value: which call comes next on which of a connection's two sockets, and what each answer does.
//!
//! A [`Pair`] is one connection. It makes no calls itself. Its owner asks for the next call ([`Pair::next`]), makes it,
//! and gives the [`Answer`] back. So `turn_with` and `read` of `engine`, run by `session.rt` of `core_tests`:
//! ```
//! let Some(call) = pair.next() else { .. };
//! match wire.read(&mut buffer[..most]) {
//!     Ok(0) => pair.answer(Call::Read(side, most), Answer::End, now),
//!     Ok(count) => pair.answer(Call::Read(side, most), Answer::Bytes(&buffer[..count]), now),
//!     Err(error) => ..
//! }
//! ```
//! A write offers what [`Pair::offer`] lends. Only the answer "would block", never a short count, keeps a call from
//! being tried again before the next report ([`Pair::note`], epoll(7)). `ARCHITECTURE.md` follows one byte ("The relay
//! in one file").
//!
//! A pair may be made with a lead: bytes that the target is sent before the client's own, as [`proxy_line`] makes them.
//! [`Pair::expire`] fails a pair that has moved nothing for the idle limit, and has nothing left to try.
//!
//! The definitions are in `specs/`: the pair in `Pairs.antt`, the order of work in `Order.antt`, what each answer does
//! in `Replies.antt`, runs in `Runs.antt`, and what follows in `Laws.antt`. [`laws`] states each law as a contract.
#![tactic(auto)]

mod answer;
mod call;
mod flags;
pub mod laws;
mod pair;
mod proxy;
mod verdict;

pub use answer::Answer;
pub use call::{Call, CallKind};
pub use flags::Flags;
pub use pair::{MAX_READ, Pair};
pub use proxy::proxy_line;
pub use token::{Direction, Kind, Side};
pub use verdict::{Fault, Verdict};
