//! For each slot, a place where its connection waits between two turns. The thread whose seat holds a slot takes the
//! [`Berth`] out, works on it, and puts it back before it releases the slot.
//!
//! Each place has a lock, since a value that threads share by `&` can be moved in and out only under a lock. The lock
//! is never contended: only a slot's holder may touch its place. So locking it is one atomic exchange, and unlocking it
//! another.
//!
//! No clause can name what a place holds, since another seat may have held the slot meanwhile. So only tests show that
//! the next holder takes out the berth that was put in.
ghost use Rattle.std.specs.Prelude.{◌≡◌, ◌<◌, IfOk, OnOk, IfErr, OnErr, IsSome, IsNone, Some};
ghost use Rattle.claims.specs.Seats.{Holds};

use claims::ClaimSeat;
use relay_core::Pair;
use std::alloc::{AllocError, Global};
use std::marker::{Model, PhantomData};
use std::sync::{Mutex, MutexGuard, Wait};

/// A connection: its pair and its two wires. Dropping it closes what its wires own.
#[derive(Drop)]
pub struct Berth<C, T> {
    pub pair: Pair,
    /// The second in which it was opened.
    pub second: u64,
    pub client: C,
    pub target: T,
}

/// The place already held a berth. This berth was refused.
#[derive(Drop)]
pub struct Occupied<B>(pub B);

/// A place for each slot, empty or with one berth, which only the acts `A` reach ([`Moves`](crate::Moves)). So code
/// over any acts reaches no place by others. The threads share the places by `&`. A berth is boxed, since it has some
/// 460 bytes, and a turn hands it on several times.
///
/// In a clause it is the number of slots.
#[derive(Drop)]
pub struct Places<C, T, A = ()> {
    places: Vec<Mutex<Option<Box<Berth<C, T>>>>>,
    by: PhantomData<A>,
}

impl<C, T, A> Model for Places<C, T, A> {
    ghost use Rattle.std.specs.Prelude.{ℕ, vec_len};

    ghost Value = { ℕ };

    ghost view = { λ p. vec_len p.places };
}

impl<C, T, A> Places<C, T, A> {
    /// An empty place for each of `slots` slots. This allocates all the memory that the places ever use, and fails only
    /// if there is not enough.
    pub fn new(alloc: Global, slots: usize) -> Result<Places<C, T, A>, AllocError>
    where
        C: Drop,
        T: Drop,
        ensures { IfOk result (λ places. places ≡ slots) }
    {
        let mut places = Vec::with_capacity(alloc, slots)?;
        for _slot in 0..slots {
            places.push_reserved(Mutex::new(None));
        }
        Ok(Places {
            places,
            by: PhantomData,
        })
    }

    /// Puts a berth into the place of a slot that the caller's seat holds. If another is there, Occupied gives this one
    /// back, and the place is as it was.
    pub(crate) fn put_in(
        &self,
        rt: &impl Wait,
        seat: &ClaimSeat,
        slot: usize,
        berth: Box<Berth<C, T>>,
    ) -> Result<(), Occupied<Box<Berth<C, T>>>>
        requires inside { slot < self.now }
        requires holder { Holds seat.now slot }
        ensures given_back { IfErr result (λ given. given.0 ≡ berth) }
    {
        let mut place = self.place(rt, seat, slot);
        fill(&mut place, berth)
    }

    /// Takes the berth out of the place of a slot that the caller's seat holds. None: the place was empty.
    pub(crate) fn take_out(
        &self,
        rt: &impl Wait,
        seat: &ClaimSeat,
        slot: usize,
    ) -> Option<Box<Berth<C, T>>>
        requires inside { slot < self.now }
        requires holder { Holds seat.now slot }
    {
        self.place(rt, seat, slot).take()
    }

    fn place(
        &self,
        rt: &impl Wait,
        _holder: &ClaimSeat,
        slot: usize,
    ) -> MutexGuard<'_, Option<Box<Berth<C, T>>>>
        requires inside { slot < self.now }
        requires holder { Holds _holder.now slot }
    {
        self.places[slot].lock(rt)
    }
}

// The wires need not be droppable, so the berth cannot be lost here.
fn fill<C, T>(
    place: &mut Option<Box<Berth<C, T>>>,
    berth: Box<Berth<C, T>>,
) -> Result<(), Occupied<Box<Berth<C, T>>>>
    ensures put { OnOk result (IsNone place.old × (place.new ≡ Some berth)) }
    ensures given_back { IfErr result (λ given. given.0 ≡ berth) }
    ensures unchanged { OnErr result (place.new ≡ place.old) }
    ensures occupied { OnErr result (IsSome place.old) }
{
    if place.is_some() {
        return Err(Occupied(berth));
    }
    match place.replace(berth) {
        None => Ok(()),
        Some(old) => Err(Occupied(old)),
    }
}
