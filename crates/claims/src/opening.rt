// `Claims::open`: the words as they start, and a seat for each thread.
ghost use Rattle.std.specs.Prelude.{◌≡◌, ◌-◌, ◌<◌, ◌↔◌, IfOk, OnOk, IsErrOf, false, replicate};
ghost use Rattle.claims.specs.{Views.unused_view, Seats.fresh_seat, Laws.{IsWithin, IsOutside, OpensLawful}};

use crate::calls::{Claims, Words};
use crate::limits::{MAX_SEATS, MAX_SLOTS, UNUSED};
use crate::rule::NextSeat;
use crate::seat::ClaimSeat;
use crate::view::View;
use atomic_table::{Seat, Table};
use std::alloc::{AllocError, Global};
use thiserror::Error;

/// Why `Claims::open` made nothing.
#[derive(Debug, Drop, Error)]
pub enum OpenFault {
    /// The number of slots is 0 or over 32,768. It is checked first.
    #[error("the number of slots is not from 1 to 32768")]
    SlotRange,
    /// The number of seats is 0 or over 32.
    #[error("the number of seats is not from 1 to 32")]
    SeatRange,
    /// Memory ran out for the words or for the seats.
    #[error("out of memory")]
    NoMemory,
}

impl Claims {
    /// Makes a word for each slot, free and without notes, and all seats that these words ever have.
    ///
    /// Errors are checked in this order: a number of slots that is not from 1 to 32,768 (`SlotRange`), a number of
    /// seats that is not from 1 to 32 (`SeatRange`), and too little memory (`NoMemory`).
    pub fn open(
        alloc: Global,
        slots: usize,
        seats: usize,
    ) -> Result<(Claims, Vec<ClaimSeat>), OpenFault>
        ensures slot_range { IsErrOf result OpenFault.SlotRange ↔ IsOutside 1 32768 slots }
        ensures seat_range { IsErrOf result OpenFault.SeatRange ↔ (IsWithin 1 32768 slots × IsOutside 1 32 seats) }
        ensures in_range { OnOk result (IsWithin 1 32768 slots × IsWithin 1 32 seats) }
        ensures opened { IfOk result (λ made. (made.0.words ≡ slots) × (made.1.items ≡ replicate seats (fresh_seat made.0))) }
        ensures lawful { IfOk result (λ made. OpensLawful slots made.1.items) }
    {
        if slots < 1 || MAX_SLOTS < slots {
            return Err(OpenFault::SlotRange);
        }
        if seats < 1 || MAX_SEATS < seats {
            return Err(OpenFault::SeatRange);
        }
        match words_and_seats(alloc, slots, seats) {
            Ok(both) => Ok(both),
            Err(AllocError) => Err(OpenFault::NoMemory),
        }
    }
}

#[tactic(auto, using(crate::proofs::Steps::Rule::opening_rule))]
fn words_and_seats(
    alloc: Global,
    slots: usize,
    seats: usize,
) -> Result<(Claims, Vec<ClaimSeat>), AllocError>
    requires slots { IsWithin 1 32768 slots }
    requires seats { IsWithin 1 32 seats }
    ensures { IfOk result (λ made. (made.0.words ≡ slots) × (made.1.items ≡ replicate seats (fresh_seat made.0))) }
{
    let words = vec![in alloc; UNUSED; slots]?;
    let made = Table::of_words(alloc, words.as_slice(), &(slots, seats));
    drop(words);
    let (table, first) = made?;
    let all = all_seats(alloc, &table, first, slots, seats)?;
    Ok((Claims { table }, all))
}

// All seats: each but the last is made by a split of the first.
fn all_seats(
    alloc: Global,
    table: &Words,
    mut first: Seat<(), View>,
    slots: usize,
    seats: usize,
) -> Result<Vec<ClaimSeat>, AllocError>
    requires slots { IsWithin 1 32768 slots × (table.now.shared.table_id.words ≡ slots) × (table.now.shared.key.0 ≡ slots) }
    requires seats { IsWithin 1 32 seats }
    requires first { (first.table_id ≡ table.now.shared.table_id) × (first.me.0 ≡ unused_view slots (seats - 1)) }
    ensures { IfOk result (λ all. all.items ≡ replicate seats (fresh_seat table.now.shared.table_id)) }
{
    let mut all = Vec::with_capacity(alloc, seats)?;
    for _made in 1..seats {
        let next = table.shared.split_seat::<NextSeat>(&mut first);
        all.push_reserved(seat_of(alloc, next, slots)?);
    }
    all.push_reserved(seat_of(alloc, first, slots)?);
    Ok(all)
}

fn seat_of(alloc: Global, seat: Seat<(), View>, slots: usize) -> Result<ClaimSeat, AllocError>
    requires words { seat.table_id.words ≡ slots }
    requires unused { seat.me.0 ≡ unused_view slots 0 }
    ensures { IfOk result (λ s. s ≡ fresh_seat seat.table_id) }
{
    let held = vec![in alloc; false; slots]?;
    Ok(ClaimSeat {
        seat,
        posts: 0,
        held,
    })
}
