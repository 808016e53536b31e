// The calls on the claim words, each one atomic exchange.
ghost use Rattle.std.specs.Prelude.{◌≡◌, ◌≢◌, ◌↔◌, ◌<◌, ◌≤◌, ◌^◌, [], ◌∷◌};
ghost use Rattle.claims.specs.{Words.{post, claim, take, release, retire, adopt}, Seats.{account_at, posts_of, Holds, Adds, Stepped}, Calls.{PostChange, ClaimChange, ReleaseChange, AdoptChange}};
ghost use Rattle.claims.specs.declared.view.Exchange.TheVariants as exchange;

use crate::answers::{Adopted, Claimed, Posted, Released};
use crate::limits::{FREE, HELD, MAX_POSTS, NOTE};
use crate::rule::{Adopt, Claim, OneHolder, Post, Release, Retire, Take};
use crate::seat::ClaimSeat;
use crate::view::View;
use crate::word::{is_free, is_held, notes, posted, released};
use atomic_table::Table;
use std::alloc::Global;
use std::marker::Model;

pub(crate) type Words = Table<(), View, (usize, usize), OneHolder, Global>;

/// The claim words of a table of slots, which the threads share by `&`.
///
/// Each call takes a seat of the same `open`, and a slot below the number of slots. In a clause a `Claims` is the
/// identity of its table, whose `words` is the number of slots.
#[derive(Drop)]
pub struct Claims {
    pub(crate) table: Words,
}

impl Model for Claims {
    ghost use Rattle.std.specs.Prelude.{◌≡◌};
    ghost use Rattle.claims.specs.Seats.{TableId};

    ghost Value = { TableId };

    ghost view = { λ c. c.table.shared.table_id };

    ghost invariant = { λ c. c.table.shared.key.0 ≡ c.table.shared.table_id.words };
}

impl Claims {
    /// The number of slots.
    pub fn slots(&self) -> usize
        ensures { result ≡ self.now.words }
    {
        self.table.word_count()
    }

    /// The word of a slot, for tests. It promises nothing: another exchange may already have changed the word.
    pub fn peek(&self, slot: usize) -> u64
        requires { slot < self.now.words }
    {
        self.table.shared.peek(slot)
    }

    /// Leaves a note at the slot.
    ///
    /// Wake obliges the caller to put a ticket for the slot. A post by the slot's holder answers Quiet. Worn: this seat
    /// has posted 2^56 times before, and nothing was done.
    pub fn post(&self, seat: &mut ClaimSeat, slot: usize) -> Posted
        requires same { seat.old.table ≡ self.now }
        requires inside { slot < self.now.words }
        ensures change { PostChange slot seat.old result seat.new }
        ensures lawful { result ≢ Posted.Worn → Stepped post slot seat.old seat.new }
        ensures worn { result ≡ Posted.Worn ↔ posts_of seat.old ≡ 2 ^ 56 }
    {
        if seat.posts == MAX_POSTS {
            return Posted::Worn;
        }
        let words = &self.table.shared;
        let found = words.fetch_add::<Post>(&mut seat.seat, slot, NOTE);
        seat.posts += 1;
        posted(found)
    }

    /// Takes hold of the slot for the caller's seat, unless it is held or free.
    ///
    /// Held redeems the ticket for the slot's notes, if any waited. Busy changes nothing.
    pub fn claim(&self, seat: &mut ClaimSeat, slot: usize) -> Claimed
        requires same { seat.old.table ≡ self.now }
        requires inside { slot < self.now.words }
        ensures change { ClaimChange slot seat.old result seat.new }
        ensures lawful { Stepped claim slot seat.old seat.new }
    {
        let words = &self.table.shared;
        let found = words.fetch_or::<Claim>(&mut seat.seat, slot, HELD);
        if is_held(found) {
            return Claimed::Busy;
        }
        seat.held[slot] = true;
        Claimed::Held
    }

    /// Takes all notes of a slot that the caller's seat holds, and answers how many there were.
    ///
    /// A seat takes at most 2^61 notes in all at one slot, so the sum of its answers fits a `u64`.
    pub fn take(&self, seat: &mut ClaimSeat, slot: usize) -> u64
        requires same { seat.old.table ≡ self.now }
        requires inside { slot < self.now.words }
        requires holder { Holds seat.old slot }
        ensures change { Adds slot (exchange.Take result ∷ []) seat.old seat.new }
        ensures known { (account_at seat.old slot).known ≤ result }
        ensures few { (account_at seat.new slot).taken ≤ 2 ^ 61 }
        ensures lawful { Stepped take slot seat.old seat.new }
    {
        let words = &self.table.shared;
        let found = words.fetch_and::<Take>(&mut seat.seat, slot, FREE + HELD);
        notes(found)
    }

    /// Releases a slot that the caller's seat holds, so that others can claim it.
    ///
    /// Wake obliges the caller to put a ticket for the slot.
    pub fn release(&self, seat: &mut ClaimSeat, slot: usize) -> Released
        requires same { seat.old.table ≡ self.now }
        requires inside { slot < self.now.words }
        requires holder { Holds seat.old slot }
        ensures change { ReleaseChange slot seat.old result seat.new }
        ensures lawful { Stepped release slot seat.old seat.new }
    {
        let words = &self.table.shared;
        let found = words.fetch_and::<Release>(&mut seat.seat, slot, !HELD);
        seat.held[slot] = false;
        released(found)
    }

    /// Releases a slot that the caller's seat holds and leaves it free, so that it can only be adopted.
    pub fn retire(&self, seat: &mut ClaimSeat, slot: usize)
        requires same { seat.old.table ≡ self.now }
        requires inside { slot < self.now.words }
        requires holder { Holds seat.old slot }
        ensures change { Adds slot (exchange.Retire ∷ []) seat.old seat.new }
        ensures lawful { Stepped retire slot seat.old seat.new }
    {
        let words = &self.table.shared;
        words.fetch_or::<Retire>(&mut seat.seat, slot, FREE);
        seat.held[slot] = false;
    }

    /// Takes hold of a free slot for the caller's seat. NotFree changes nothing.
    pub fn adopt(&self, seat: &mut ClaimSeat, slot: usize) -> Adopted
        requires same { seat.old.table ≡ self.now }
        requires inside { slot < self.now.words }
        ensures change { AdoptChange slot seat.old result seat.new }
        ensures lawful { Stepped adopt slot seat.old seat.new }
    {
        let words = &self.table.shared;
        let found = words.fetch_and::<Adopt>(&mut seat.seat, slot, !FREE);
        if is_free(found) {
            seat.held[slot] = true;
            Adopted::Adopted
        } else {
            Adopted::NotFree
        }
    }
}
