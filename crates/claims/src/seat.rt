// The seat of one thread.
ghost use Rattle.std.specs.Prelude.{◌≡◌, ◌↔◌, ◌<◌, ◌^◌, IsTrue};
ghost use Rattle.claims.specs.Seats.{account_at, posts_of};

use crate::limits::MAX_POSTS;
use crate::view::View;
use atomic_table::Seat;
use std::marker::Model;

/// A seat at the claim words of one `open`, with which one thread makes its calls.
///
/// In a clause a seat is its table, and its trace of each slot: the exchanges that it has made there, in order. Only
/// its own calls change its traces. A seat can be moved into a thread.
#[derive(Drop)]
pub struct ClaimSeat {
    pub(crate) seat: Seat<(), View>,
    // How many times this seat has posted.
    pub(crate) posts: u64,
    // For each slot, whether this seat holds it: the words name no holder.
    pub(crate) held: Vec<bool>,
}

impl Model for ClaimSeat {
    ghost use Rattle.claims.specs.Seats.{SeatState, seat_state, SeatOk};

    ghost Value = { SeatState };

    ghost view = { λ s. seat_state s.seat.table_id s.seat.me.0 };

    ghost invariant = { λ s. SeatOk s.posts s.held.items s.seat.table_id s.seat.me.0 };
}

impl ClaimSeat {
    /// Whether this seat holds the slot: after Held or Adopted, until `release` or `retire`.
    pub fn holds(&self, slot: usize) -> bool
        requires { slot < self.now.table.words }
        ensures { result ≡ (account_at self.now slot).holds }
    {
        self.held[slot]
    }

    /// Whether this seat has posted 2^56 times, so that it posts no more.
    pub fn is_worn(&self) -> bool
        ensures { IsTrue result ↔ (posts_of self.now ≡ 2 ^ 56) }
    {
        self.posts == MAX_POSTS
    }
}
