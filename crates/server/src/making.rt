//! What a server is made of, before its threads run.
ghost use Rattle.std.specs.Prelude.{◌≡◌, ◌↔◌, ◌+◌, ◌-◌, ◌<◌, ◌≤◌, ◌∷◌, length, replicate, map, IfOk, IfErr, IsTrue};
ghost use Rattle.claims.specs.Seats.{fresh_seat};
ghost use Rattle.queues.specs.Steps.{unused, opened as filled, AreNew};
ghost use Rattle.server.specs.{Limits.{SharesLight, share_of}, Begins.{all_begun, begun, ThreadsBegin}};
ghost use Rattle.sizes.specs.{Splits.{each_part, parts_of}, Pollers.pollers_for};
ghost use Rattle.settings.specs.Calls.{calls_for};

use claims::Claims;
use queues::{FreeQueue, ReadyQueue};
use rounds::{Opening, Poller};
use settings::{Settings, calls_for};
use shared::{Front, Fullness, Parts, Places, Shared};
use sizes::{ClientsAt, ServerFault, Split, pollers_for};
use std::alloc::{AllocError, Global};
use std::sync::Wait;
use threads::Server;

/// How the settings deal the slots of a server to its pollers.
pub fn split_of(settings: &Settings) -> Split
    ensures slots { result.slots ≡ settings.now.slots }
    ensures pollers { parts_of result.slots result.size ≡ pollers_for settings.now.slots settings.now.workers }
{
    let pollers = pollers_for(settings.slots, settings.workers);
    Split::new(settings.slots, pollers)
}

/// A server as the settings say, with a poller for each part of `split`, so with one at least. Of addresses, log and
/// idle limit it looks at none: the fronts and [`run_threads`](threads::run_threads) have these. `fronts` has the front
/// of each, in the order of the parts. If `stop_after` is 0, each poller may open 2^64 - 1 connections; else each has a
/// share of it: these add up to it, and differ by one at most. A turn may make at least four calls, whatever `budget`
/// says. Nothing is counted, and clients are logged at level debug, until the caller sets `shared.statistics` and
/// `shared.clients`.
///
/// Refuses with `NoMemory` alone; then the fronts and the waker are dropped, and nothing is left.
pub fn build<F: Front + Drop, R: Wait>(
    rt: &R,
    alloc: Global,
    settings: &Settings,
    split: Split,
    fronts: Vec<F>,
    waker: F::Waker,
) -> Result<Server<F>, ServerFault>
    requires slots { split.slots ≡ settings.now.slots }
    requires fronts { length fronts.items ≡ parts_of split.slots split.size }
    ensures slots { IfOk result (λ made. made.shared.claims.words ≡ settings.now.slots) }
    ensures budget { IfOk result (λ made. made.shared.budget ≡ calls_for settings.now.budget) }
    ensures waker { IfOk result (λ made. made.shared.waker ≡ waker) }
    ensures threads { IfOk result (λ made. ThreadsBegin settings.now split made.shared.claims made.parts
        (map (λ ends. ends.items) made.free.items)) }
    ensures pollers { IfOk result (λ made. made.pollers.items ≡ all_begun settings.now split 0 (map F.seen fronts.items)) }
    ensures workers { IfOk result (λ made. made.workers ≡ settings.now.workers) }
    ensures light { IfOk result (λ made. IsTrue made.shared.shares_light
        ↔ SharesLight (parts_of split.slots split.size) settings.now.workers) }
    ensures split { IfOk result (λ made. made.split ≡ split) }
    ensures refused { IfErr result (λ fault. fault ≡ ServerFault.NoMemory) }
{
    let threads = split.pollers() + settings.workers;
    let pollers = pollers_of(alloc, settings, split, fronts)?;
    let free = frees_of(rt, alloc, split, settings.workers)?;
    let (shared, parts) = shared_of(alloc, settings, threads, waker, split.pollers())?;
    Ok(Server {
        shared,
        parts,
        free,
        pollers,
        split,
        workers: settings.workers,
    })
}

/// For each part of the slots, the ends of its free queue, which holds them: one for its poller, one for each worker.
fn frees_of(
    rt: &impl Wait,
    alloc: Global,
    split: Split,
    workers: usize,
) -> Result<Vec<Vec<FreeQueue>>, AllocError>
    requires { workers ≤ 31 }
    ensures { IfOk result (λ all. map (λ ends. ends.items) all.items
        ≡ each_part split.slots split.size (λ part. filled part.first part.slots
        ∷ replicate workers (unused part.slots))) }
{
    let pollers = split.pollers();
    let mut frees = Vec::with_capacity(alloc, pollers)?;
    for number in 0..pollers {
        let part = split.part(number);
        let ends = FreeQueue::new(rt, alloc, part.first, part.slots, workers + 1)?;
        frees.push(ends)?;
    }
    Ok(frees)
}

/// A poller for each part of the slots, in order.
fn pollers_of<F: Front + Drop>(
    alloc: Global,
    settings: &Settings,
    split: Split,
    fronts: Vec<F>,
) -> Result<Vec<Poller<F>>, AllocError>
    requires { length fronts.items ≡ parts_of split.slots split.size }
    ensures { IfOk result (λ all. all.items ≡ all_begun settings.now split 0 (map F.seen fronts.items)) }
{
    let count = split.pollers();
    let mut pollers = Vec::with_capacity(alloc, count)?;
    let mut number = 0;
    for front in fronts {
        pollers.push(poller_of(alloc, settings, split, number, front)?)?;
        number += 1;
    }
    Ok(pollers)
}

/// A poller that opens connections in its part of the slots, and no more than its share of all.
fn poller_of<F: Front + Drop>(
    alloc: Global,
    settings: &Settings,
    split: Split,
    number: usize,
    front: F,
) -> Result<Poller<F>, AllocError>
    requires number { number < parts_of split.slots split.size }
    ensures { IfOk result (λ poller. poller ≡ begun settings.now split number (F.seen front)) }
{
    let most = share_of(settings.stop_after, split.pollers(), number);
    let part = split.part(number);
    let opening = Opening {
        ring: settings.ring,
        proxy: settings.proxy,
    };
    Poller::new(alloc, front, settings.slots, part, opening, most)
}

/// How many connections the poller with this number may open, of the `stop_after` of the server; there 0 is no limit.
fn share_of(stop_after: u32, pollers: usize, number: usize) -> u64
    requires { 1 ≤ pollers }
    ensures { result ≡ share_of stop_after pollers number }
{
    if stop_after == 0 {
        return u64::MAX;
    }
    let (all, pollers) = (u64::from(stop_after), pollers as u64);
    if (number as u64) < all % pollers {
        all / pollers + 1
    } else {
        all / pollers
    }
}

/// What the threads share, some of which are pollers, and for each thread a seat and an end of the ready queue.
fn shared_of<F: Front>(
    alloc: Global,
    settings: &Settings,
    threads: usize,
    waker: F::Waker,
    pollers: usize,
) -> Result<(Shared<F>, Parts), ServerFault>
    requires threads { (1 ≤ threads) × (threads ≤ 32) }
    ensures slots { IfOk result (λ made. made.0.claims.words ≡ settings.now.slots) }
    ensures budget { IfOk result (λ made. made.0.budget ≡ calls_for settings.now.budget) }
    ensures waker { IfOk result (λ made. made.0.waker ≡ waker) }
    ensures seats { IfOk result (λ made. made.1.seats.items ≡ replicate threads (fresh_seat made.0.claims)) }
    ensures ready { IfOk result (λ made. AreNew threads settings.now.slots made.1.ready.items) }
    ensures light { IfOk result (λ made. IsTrue made.0.shares_light ↔ SharesLight pollers settings.now.workers) }
    ensures refused { IfErr result (λ fault. fault ≡ ServerFault.NoMemory) }
{
    let places = Places::new(alloc, settings.slots)?;
    let ready = ReadyQueue::new(alloc, settings.slots, threads)?;
    let Ok((claims, seats)) = Claims::open(alloc, settings.slots, threads) else {
        return Err(ServerFault::NoMemory);
    };
    let shared = Shared {
        claims,
        places,
        waker,
        budget: calls_for(settings.budget),
        statistics: None,
        full: Fullness::new(pollers),
        shares_light: shares_light(pollers, settings.workers),
        clients: ClientsAt::Debug,
    };
    Ok((shared, Parts { seats, ready }))
}

/// Whether workers run light tickets, too. If at least two threads poll, and no fewer than work, a sleeping worker does
/// not show that a processor is idle: the worker would wait for one, and so would its tickets.
fn shares_light(pollers: usize, workers: usize) -> bool
    ensures { IsTrue result ↔ SharesLight pollers workers }
{
    pollers < 2 || pollers < workers
}
