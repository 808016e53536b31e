// One claim word, through each call; and eight threads that post notes while a ninth takes them all.
ghost use Rattle.std.specs.Prelude.{◌≡◌, ◌<◌, All};
ghost use Rattle.claims.specs.Seats.{Holds};

use self::Call::{Adopt, Claim, Post, Release, Retire, Take};
use crate::all_well;
use claims::{Adopted, ClaimSeat, Claimed, Claims, Posted, Released};
use std::alloc::{AllocError, Global};
use std::test::Fail;
use std::thread;

/// A call, and the answer that it must get.
#[derive(Clone, Copy)]
enum Call {
    Post(Posted),
    Claim(Claimed),
    Take(u64),
    Release(Released),
    Retire,
    Adopt(Adopted),
}

/// Each row: whether the second seat makes the call, the call, and the word after it.
static ROWS: [(bool, Call, u64); 15] = [
    (false, Post(Posted::Quiet), 7),
    (false, Adopt(Adopted::Adopted), 5),
    (true, Adopt(Adopted::NotFree), 5),
    (false, Take(1), 1),
    (false, Post(Posted::Quiet), 5),
    (false, Release(Released::Wake), 4),
    (false, Claim(Claimed::Held), 5),
    (true, Claim(Claimed::Busy), 5),
    (false, Take(1), 1),
    (false, Release(Released::Quiet), 0),
    (false, Post(Posted::Wake), 4),
    (false, Post(Posted::Quiet), 8),
    (false, Claim(Claimed::Held), 9),
    (false, Take(2), 1),
    (false, Retire, 3),
];

/// Makes a call at slot 0, if it may be made. Returns true if it was made and got its answer.
fn is_answered(claims: &Claims, seat: &mut ClaimSeat, call: Call) -> bool
    requires same { seat.old.table ≡ claims.now }
    requires inside { 1 < claims.now.words }
    ensures { seat.new.table ≡ seat.old.table }
{
    match call {
        Post(wanted) => claims.post(seat, 0) == wanted,
        Claim(wanted) => claims.claim(seat, 0) == wanted,
        Adopt(wanted) => claims.adopt(seat, 0) == wanted,
        Take(wanted) => seat.holds(0) && !seat.holds(1) && claims.take(seat, 0) == wanted,
        Release(wanted) => seat.holds(0) && claims.release(seat, 0) == wanted,
        Retire => {
            let holds = seat.holds(0);
            if holds {
                claims.retire(seat, 0);
            }
            holds
        }
    }
}

/// Makes the calls of all rows. Returns true if each row is right.
fn go(claims: &Claims, first: &mut ClaimSeat, second: &mut ClaimSeat) -> bool
    requires first { first.old.table ≡ claims.now }
    requires second { second.old.table ≡ claims.now }
    requires inside { 1 < claims.now.words }
{
    for (by_another, call, word) in &ROWS {
        let answered = if *by_another {
            is_answered(claims, second, *call)
        } else {
            is_answered(claims, first, *call)
        };
        if !answered || claims.peek(0) != *word {
            return false;
        }
    }
    true
}

/// Whether all rows are right at the first of two slots, with two of three seats, and the other slot stays free. For
/// 32,769 slots no words are opened.
fn goes_through_its_row(alloc: Global) -> Result<bool, AllocError> {
    let Ok((claims, mut seats)) = Claims::open(alloc, 2, 3) else {
        return Err(AllocError);
    };
    let (Some(mut first), Some(mut second)) = (seats.pop(), seats.pop()) else {
        return Ok(false);
    };
    Ok(
        Claims::open(alloc, 32_769, 1).is_err()
            && claims.slots() == 2
            && claims.peek(0) == 3
            && go(&claims, &mut first, &mut second)
            && claims.peek(1) == 3,
    )
}

// refuses holds_looks_at_another_slot: `holds` says of each slot whether the seat holds slot 0
// refuses open_one_slot_too_many: words are opened for one slot more than may be
// refuses retire_sets_nothing: a retired slot is not marked as free
// refuses words_opened_otherwise: an unused word says held and not free
// refuses slots_counts_values: `slots` returns how many values the table has
#[test]
fn one_word_goes_through_its_row(rt: HostRuntime) -> Result<(), Fail> {
    all_well(goes_through_its_row(rt.alloc()))
}

const POSTERS: usize = 8;

const POSTS_EACH: usize = 10_000;

fn post_many(claims: &Claims, seat: &mut ClaimSeat)
    requires same { seat.old.table ≡ claims.now }
    requires inside { 0 < claims.now.words }
{
    for _ in 0..POSTS_EACH {
        let _answer = claims.post(seat, 0);
    }
}

/// Makes this many takes. Returns the sum of their answers, and the seat.
fn take_many(claims: &Claims, mut seat: ClaimSeat, takes: usize) -> (u64, ClaimSeat)
    requires same { seat.table ≡ claims.now }
    requires inside { 0 < claims.now.words }
    requires holder { Holds seat 0 }
    ensures { (result.1.table ≡ claims.now) × Holds result.1 0 }
{
    let mut sum = 0u64;
    for _ in 0..takes {
        sum = sum.wrapping_add(claims.take(&mut seat, 0));
    }
    (sum, seat)
}

#[test]
fn every_note_is_taken_once(rt: HostRuntime) -> Result<(), Fail> {
    let (claims, mut seats) = Claims::open(rt.alloc(), 1, POSTERS + 1)?;
    let Some(mut holder) = seats.pop() else {
        return Err(Fail::from("there is no seat"));
    };
    if claims.adopt(&mut holder, 0) != Adopted::Adopted {
        return Err(Fail::from("the slot is not free"));
    }
    let table = &claims;
    let posters = seats.as_mut_slice();
    let ((during, holder), ()) = thread::join(
        &rt,
        || -> (u64, ClaimSeat)
            requires { (holder.table ≡ table.now) × Holds holder 0 × (0 < table.now.words) }
            ensures { (result.1.table ≡ table.entry.now) × Holds result.1 0 }
        { take_many(table, holder, POSTS_EACH) },
        || -> ()
            requires { All (λ s. s.table ≡ table.now) posters.now × (0 < table.now.words) }
        {
            thread::for_each_mut(
                &rt,
                posters,
                POSTERS,
                &|_, seat| -> ()
                    requires { (seat.now.table ≡ table.now) × (0 < table.now.words) }
                { post_many(table, seat) },
            )
        },
    );
    let (last, _holder) = take_many(&claims, holder, 1);
    all_well(Ok(during.wrapping_add(last) == 80_000 && claims.peek(0) == 1))
}
