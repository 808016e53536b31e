ghost use Rattle.std.specs.Prelude.{◌≡◌, ◌≤◌, [], ◌∷◌, ◌++◌, IfOk, IfSome};
ghost use Rattle.claims.specs.Seats.{fresh_seat};
ghost use Rattle.shared.specs.{Hands.empty_hand, Posts.AreFresh, Told.{ended_by, moved_by}};

use crate::front::Front;
use crate::hand::Hand;
use crate::places::Places;
use claims::{ClaimSeat, Claims};
use queues::{FreeQueue, ReadyQueue};
use relay_core::{MAX_READ, Pair};
use sizes::ClientsAt;
use statistics::{Event, Statistics};
use std::alloc::{AllocError, Global};
use std::sync::Arc;
use std::sync::atomic::AtomicUsize;
use std::sync::atomic::Ordering::SeqCst;

/// What all threads of a server share. Its places are reached by the acts `A` alone.
#[derive(Drop)]
pub struct Shared<F: Front, A = ()> {
    /// Who holds which slot, and how many notes wait there.
    pub claims: Claims,
    /// The place of each slot's connection.
    pub places: Places<F::Client, F::Target, A>,
    /// What ends a poller's wait for reports.
    pub waker: F::Waker,
    /// The most calls that one turn makes, 1 to 1,024. A server's is 4 or more.
    pub budget: usize,
    /// Where connections are counted, with a place for each slot; None if they are not.
    pub statistics: Option<Arc<Statistics>>,
    /// How many pollers are full.
    pub full: Fullness,
    /// Whether workers that sleep run light tickets, too. They do not if at least two threads poll, and at least as
    /// many as work.
    pub shares_light: bool,
    /// Which lines the log gets about clients, and at which level.
    pub clients: ClientsAt,
    pub ghost sized: { places ≡ claims.words },
    pub ghost least_budget: { 1 ≤ budget },
    pub ghost most_budget: { budget ≤ 1024 },
}

/// How many pollers are full: a client waited there while all their slots were taken.
#[derive(Drop)]
pub struct Fullness {
    pollers: usize,
    full: AtomicUsize,
}

impl Fullness {
    /// None of these pollers is full.
    pub fn new(pollers: usize) -> Fullness {
        Fullness {
            pollers,
            full: AtomicUsize::new(0),
        }
    }

    /// Counts one more full poller. Returns true if now all are full.
    pub fn enter(&self) -> bool {
        self.full.fetch_add(1, SeqCst).saturating_add(1) == self.pollers
    }

    /// Counts one full poller less.
    pub fn leave(&self) {
        self.full.fetch_sub(1, SeqCst);
    }
}

/// A front whose threads may count events. Every front implements this trait, which leaves open what `counted` and
/// `starved` mean: over any front, a proof has such a fact only from a call that was made. Of a given front the fact
/// says nothing.
pub trait Counting: Front {
    ghost use Rattle.std.specs.Prelude.{ℕ};
    ghost use Rattle.statistics.specs.declared.event.Event.{Event};

    ghost counted: { ℕ → Event → Type 0 } = { λ _ _. Unit {0} };

    ghost starved: { Type 0 } = { Unit {0} };

    /// Counts the event, if the server has statistics.
    fn count(statistics: Option<&Statistics>, slot: usize, event: Event)
        ensures { counted slot event };

    /// Notes that accept(2) lacked descriptors or memory, if the server has statistics.
    fn starve(statistics: Option<&Statistics>)
        ensures { starved };
}

impl<F: Front> Counting for F {
    fn count(statistics: Option<&Statistics>, slot: usize, event: Event) {
        if let Some(statistics) = statistics {
            statistics.count(&mut (), slot, event);
        }
    }

    fn starve(statistics: Option<&Statistics>) {
        if let Some(statistics) = statistics {
            statistics.starve(&mut ());
        }
    }
}

impl<F: Front + Counting, A> Shared<F, A> {
    /// Counts an event at a slot that the thread holds, or for a drop, that the poller has in hand.
    pub fn count(&self, slot: usize, event: Event)
        ensures { F.counted slot event }
    {
        F::count(self.statistics.as_deref(), slot, event);
    }

    /// Notes that accept(2) lacked descriptors or memory.
    pub fn starve(&self)
        ensures { F.starved }
    {
        F::starve(self.statistics.as_deref());
    }
}

/// A turn has left a connection open, with this pair.
pub fn moved_by(pair: &Pair) -> Event
    ensures { result ≡ moved_by pair.now }
{
    let (up, down) = pair.counts();
    Event::Moved { up, down }
}

/// A connection has ended, with this pair.
pub fn ended_by(pair: &Pair) -> Event
    ensures { result ≡ ended_by pair.now }
{
    let (up, down) = pair.counts();
    Event::Ended {
        verdict: pair.verdict(),
        up,
        down,
    }
}

/// What one thread owns.
#[derive(Drop)]
pub struct Own {
    /// Its seat at the claim words.
    pub seat: ClaimSeat,
    /// Its end of the queue of tickets.
    pub ready: ReadyQueue,
    /// Its end of a free queue: a poller's own, or for a worker, that of the poller to which its turn gives.
    pub free: FreeQueue,
    /// What it has put into no queue yet.
    pub hand: Hand,
    /// What its turns read into.
    pub buffer: Box<[u8; MAX_READ]>,
}

/// What the threads of a server are made from: a seat and an end of the queue of tickets for each.
#[derive(Drop)]
pub struct Parts {
    pub seats: Vec<ClaimSeat>,
    pub ready: Vec<ReadyQueue>,
}

impl Parts {
    /// What the next thread owns, with a hand of this capacity and this end of a free queue. None if the parts are used
    /// up.
    pub fn next_own<F: Front>(
        &mut self,
        alloc: Global,
        shared: &Shared<F>,
        capacity: usize,
        free: FreeQueue,
    ) -> Result<Option<Own>, AllocError>
        requires { AreFresh shared.now.claims self.old.seats.items }
        ensures left { AreFresh shared.now.claims self.new.seats.items }
        ensures next { IfOk result (λ next. IfSome next (λ own. own.seat ≡ fresh_seat shared.now.claims)) }
        ensures hand { IfOk result (λ next. IfSome next (λ own. own.hand ≡ empty_hand capacity)) }
        ensures ready { IfOk result (λ next. IfSome next (λ own. self.old.ready.items ≡ self.new.ready.items ++ own.ready ∷ [])) }
        ensures free { IfOk result (λ next. IfSome next (λ own. own.free ≡ free)) }
    {
        let (hand, buffer) = hand_and_buffer(alloc, capacity)?;
        let Some((seat, ready)) = self.next_seat(&shared.claims) else {
            return Ok(None);
        };
        Ok(Some(Own {
            seat,
            ready,
            free,
            hand,
            buffer,
        }))
    }

    fn next_seat(&mut self, _claims: &Claims) -> Option<(ClaimSeat, ReadyQueue)>
        requires { AreFresh _claims.now self.old.seats.items }
        ensures left { AreFresh _claims.now self.new.seats.items }
        ensures next { IfSome result (λ next. next.0 ≡ fresh_seat _claims.now) }
        ensures ready { IfSome result (λ next. self.old.ready.items ≡ self.new.ready.items ++ next.1 ∷ []) }
    {
        let seat = self.seats.pop()?;
        let ready = self.ready.pop()?;
        Some((seat, ready))
    }
}

fn hand_and_buffer(
    alloc: Global,
    capacity: usize,
) -> Result<(Hand, Box<[u8; MAX_READ]>), AllocError>
    ensures { IfOk result (λ both. both.0 ≡ empty_hand capacity) }
{
    let hand = Hand::new(alloc, capacity)?;
    Ok((hand, Box::new(alloc, [0; MAX_READ])?))
}
