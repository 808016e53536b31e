//! Divides what a server is made of among its threads.
ghost use Rattle.std.specs.{Prelude.{◌≡◌, ◌≤◌, [], All, Contains, drop, map, IfOk, IfSome, OnOk}, Arc.arc_value, List.range_with_len};
ghost use Rattle.claims.specs.Seats.{fresh_seat};
ghost use Rattle.shared.specs.{Hands.empty_hand, Posts.AreFresh};
ghost use Rattle.threads.specs.{Divided.{hand_of_poller, numbered, IsEndOf, AreLeft, HasOneOfEach, PairsOff, ends_of}, Served.{IsDivided, poller_part, worker_part}};

use crate::polling::PollerThread;
use crate::running::Server;
use crate::working::{Owned, Worker};
use queues::FreeQueue;
use rounds::Poller;
use shared::{Front, Own, Parts, Shared};
use sizes::MAX_BATCH;
use std::alloc::{AllocError, Global};
use std::marker::Model;
use std::sync::Arc;

/// How many tickets, and how many slots, fit into a worker's hand. Few stay there: the queues have room for all.
const WORKER_HAND: usize = 2;

/// What no thread has been given yet.
#[derive(Drop)]
pub struct Rest {
    pub parts: Parts,
    /// For each poller, the ends of its free queue that are left.
    pub free: Vec<Vec<FreeQueue>>,
}

impl Model for Rest {
    ghost use Rattle.std.specs.Prelude.{map};
    ghost use Rattle.threads.specs.Divided.{RestState};

    ghost Value = { RestState };

    ghost view = { λ r. record { parts = r.parts; free = map (λ ends. ends.items) r.free.items } };
}

/// Makes a thread for each poller, with an end of the poller's free queue, and the workers, each with an end of every
/// such queue, the first poller's first. A poller's thread has the poller's number, and the first is the last one here.
/// The workers have the numbers after those.
///
/// Refuses if memory or parts run out, or if a poller's table is not as long as there are slots.
pub fn divide<F: Front + Drop>(
    alloc: Global,
    server: Server<F>,
) -> Result<(Vec<PollerThread<F>>, Vec<Worker<F>>), AllocError>
    ensures { IfOk result (λ made. IsDivided (fresh_seat server.shared.claims) (map (λ ends. ends.items) server.free.items)
        server.pollers.items server.workers (map (λ p. poller_part p.number p.poller p.own) made.0.items)
        (map (λ w. worker_part w.number w.owned) made.1.items)) }
{
    let Server {
        shared,
        parts,
        free,
        pollers,
        workers,
        ..
    } = server;
    let shared = Arc::new(alloc, shared)?;
    let mut rest = Rest { parts, free };
    let first = pollers.len();
    let pollers = pollers_of(alloc, &shared, &mut rest, pollers)?;
    let workers = workers_of(alloc, &shared, &mut rest, first, workers)?;
    Ok((pollers, workers))
}

/// The threads of the pollers, the last poller's first.
fn pollers_of<F: Front + Drop>(
    alloc: Global,
    shared: &Arc<Shared<F>>,
    rest: &mut Rest,
    mut pollers: Vec<Poller<F>>,
) -> Result<Vec<PollerThread<F>>, AllocError>
    requires { AreFresh (arc_value shared.now).claims rest.old.parts.seats.items }
    ensures fresh { OnOk result (AreFresh (arc_value shared.now).claims rest.new.parts.seats.items) }
    ensures pollers { IfOk result (λ threads. map (λ thread. (thread.number, thread.poller)) threads.items ≡ numbered pollers.items) }
    ensures own { IfOk result (λ threads. All (λ thread. (thread.own.seat ≡ fresh_seat (arc_value shared.now).claims)
        × IsEndOf rest.old.free thread.number thread.own.free) threads.items) }
    ensures left { OnOk result (AreLeft rest.old.free rest.new.free) }
{
    let mut threads = Vec::with_capacity(alloc, pollers.len())?;
    while let Some(poller) = pollers.pop() {
        let thread = thread_of(alloc, shared, rest, pollers.len(), poller)?;
        threads.push_reserved(thread);
    }
    Ok(threads)
}

/// The thread of a poller. Refuses a table whose length is not the number of slots; `build` makes none.
fn thread_of<F: Front + Drop>(
    alloc: Global,
    shared: &Arc<Shared<F>>,
    rest: &mut Rest,
    number: usize,
    poller: Poller<F>,
) -> Result<PollerThread<F>, AllocError>
    requires { AreFresh (arc_value shared.now).claims rest.old.parts.seats.items }
    ensures fresh { OnOk result (AreFresh (arc_value shared.now).claims rest.new.parts.seats.items) }
    ensures made { IfOk result (λ thread. (thread.number ≡ number) × (thread.poller ≡ poller)) }
    ensures seat { IfOk result (λ thread. thread.own.seat ≡ fresh_seat (arc_value shared.now).claims) }
    ensures hand { IfOk result (λ thread. (arc_value shared.now).claims.words ≤ 32768
        → thread.own.hand ≡ empty_hand (hand_of_poller (arc_value shared.now).claims.words)) }
    ensures slots { IfOk result (λ thread. IsEndOf rest.old.free thread.number thread.own.free) }
    ensures left { OnOk result (AreLeft rest.old.free rest.new.free) }
{
    let slots = shared.claims.slots();
    if poller.table().len() != slots {
        return Err(AllocError);
    }
    let (shared, own) = rest.next_own(alloc, shared, number, poller_hand(slots))?;
    Ok(PollerThread {
        shared,
        number,
        own,
        poller,
    })
}

/// How many tickets, and how many slots, fit into a poller's hand: all that two rounds may put there.
fn poller_hand(slots: usize) -> usize
    ensures { slots ≤ 32768 → result ≡ hand_of_poller slots }
{
    slots.saturating_mul(2).saturating_add(2 * MAX_BATCH)
}

/// The threads of this many workers, numbered from `first` on.
fn workers_of<F: Front + Drop>(
    alloc: Global,
    shared: &Arc<Shared<F>>,
    rest: &mut Rest,
    first: usize,
    workers: usize,
) -> Result<Vec<Worker<F>>, AllocError>
    requires { AreFresh (arc_value shared.now).claims rest.old.parts.seats.items }
    ensures numbers { IfOk result (λ made. map (λ worker. worker.number) made.items ≡ range_with_len first workers) }
    ensures own { IfOk result (λ made. All (λ worker. (worker.owned.own.seat ≡ fresh_seat (arc_value shared.now).claims)
        × HasOneOfEach rest.old.free (ends_of worker.owned)) made.items) }
{
    // The parts run out long before the numbers do.
    if usize::MAX - first < workers {
        return Err(AllocError);
    }
    let mut made = Vec::with_capacity(alloc, workers)?;
    for index in 0..workers {
        let others = rest.other_ends(alloc)?;
        let (shared, own) = rest.next_own(alloc, shared, 0, WORKER_HAND)?;
        let worker = Worker {
            shared,
            number: first + index,
            owned: Owned { own, others },
        };
        made.push_reserved(worker);
    }
    Ok(made)
}

impl Rest {
    /// What the next thread shares with all others, and what it owns, with an end of this poller's free queue.
    fn next_own<F: Front>(
        &mut self,
        alloc: Global,
        shared: &Arc<Shared<F>>,
        poller: usize,
        capacity: usize,
    ) -> Result<(Arc<Shared<F>>, Own), AllocError>
        requires { AreFresh (arc_value shared.now).claims self.old.parts.seats.items }
        ensures fresh { OnOk result (AreFresh (arc_value shared.now).claims self.new.parts.seats.items) }
        ensures shared { IfOk result (λ made. arc_value made.0 ≡ arc_value shared.now) }
        ensures own { IfOk result (λ made. made.1.seat ≡ fresh_seat (arc_value shared.now).claims) }
        ensures hand { IfOk result (λ made. made.1.hand ≡ empty_hand capacity) }
        ensures slots { IfOk result (λ made. IsEndOf self.old.free poller made.1.free) }
        ensures left { OnOk result (AreLeft self.old.free self.new.free) }
    {
        let Some(free) = self.next_end(poller) else {
            return Err(AllocError);
        };
        let same = Arc::try_clone(shared)?;
        match self.parts.next_own(alloc, shared, capacity, free)? {
            Some(own) => Ok((same, own)),
            None => Err(AllocError),
        }
    }

    /// An end of each queue but the first poller's, in order.
    fn other_ends(&mut self, alloc: Global) -> Result<Vec<FreeQueue>, AllocError>
        ensures parts { OnOk result (self.new.parts ≡ self.old.parts) }
        ensures ends { IfOk result (λ ends. PairsOff Contains (drop 1 self.old.free) ends.items []) }
        ensures left { OnOk result (AreLeft self.old.free self.new.free) }
    {
        let pollers = self.free.len();
        let mut ends = Vec::with_capacity(alloc, pollers)?;
        for poller in 1..pollers {
            match self.next_end(poller) {
                Some(free) => ends.push(free)?,
                None => return Err(AllocError),
            }
        }
        Ok(ends)
    }

    /// The next end of this poller's free queue, if one is left.
    fn next_end(&mut self, poller: usize) -> Option<FreeQueue>
        ensures parts { self.new.parts ≡ self.old.parts }
        ensures end { IfSome result (λ free. IsEndOf self.old.free poller free) }
        ensures left { AreLeft self.old.free self.new.free }
    {
        self.free.get_mut(poller)?.pop()
    }
}
