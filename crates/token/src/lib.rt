//! The types that every layer of the relay shares, and the names that stand in reports, each packed into one number.
//!
//! A connection has two [`Side`]s and two [`Direction`]s, and a call on one of its sockets fails with a [`Kind`]. A
//! [`Token`] names one end of a connection: by the slot, the side and the slot's generation. The generation tells a
//! report for this connection from a late report for an earlier connection in the same slot. epoll(7) is given each
//! [`Name`] as a number, as each row of the test `numbers` (`values.rt` of `core_tests`) has one:
//! ```
//! match Token::pack(slot, side, generation) {
//!     Ok(token) => token.value() == number && unpack(number) == Some(Name::End(token)),
//!     Err(_) => false,
//! }
//! ```
#![tactic(auto)]

mod direction;
mod kind;
mod limits;
mod name;
mod side;
mod token;

pub use direction::Direction;
pub use kind::{KIND_WANTED, Kind};
pub use limits::{MAX_GENERATION, MAX_SLOT};
pub use name::{Name, unpack};
pub use side::Side;
pub use token::{Token, TokenFault, next_gen};
