//! A relay's recording that was read ([`Recording`]), and whether threads can have done what it says.
//!
//! `reading` reads the file into the lists of `recording`, but for what `beginning` leaves out, and `order` finds where
//! they are no longer complete. What no thread does is refused: two acts at once (`order`), a turn that read no second
//! (`clock`), an act that has no place in its round (`round`), more turns at once than threads (`threads`), a read of
//! which nobody heard (`reads`). `rounds` finds what was posted when: for reports, and in sweeps.
//!
//! An [`Account`] is what a connection has come to, by its records alone, in a few numbers, and [`Times`] is when.
#![tactic(auto)]

mod account;
mod beginning;
mod clock;
mod order;
mod reading;
mod reads;
mod recording;
mod round;
mod rounds;
mod threads;
mod times;

pub use account::{Account, Half, Waits};
pub use beginning::LeftOut;
pub use clock::{Clock, times_of};
pub use order::put_in_order;
pub use reading::{Rest, Sizes, Take, read, read_each};
pub use reads::check_reads;
pub use recording::{Last, Numbered, Recording, begun_before};
pub use round::check_rounds;
pub use rounds::{Post, find_posts};
pub use sizes::OWN_BUDGET;
pub use threads::{check_threads, is_busy};
pub use times::Times;
