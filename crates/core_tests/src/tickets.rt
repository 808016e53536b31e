// Many threads at one queue.
use crate::all_well;
use queues::{ReadyQueue, Ticket};
use std::alloc::AllocError;
use std::sync::Wait;
use std::test::Fail;
use std::thread;

const EACH: u64 = 500;

fn ticket(slot: usize, generation: u64) -> Ticket {
    Ticket { slot, generation }
}

/// Puts tickets of one slot, in rising order of their generation.
fn put_all(rt: &impl Wait, end: &mut ReadyQueue, slot: usize) {
    for generation in 1..=EACH {
        for _ in rt.forever() {
            if end.put(rt, ticket(slot, generation)).is_ok() {
                break;
            }
            thread::yield_now();
        }
    }
}

/// An end that takes, and which tickets it took of each slot. A slot's generations have to rise.
#[derive(Drop)]
struct Taker {
    end: ReadyQueue,
    taken: [[bool; 500]; 2],
    last: [u64; 2],
    is_rising: bool,
}

fn note(taker: &mut Taker, ticket: Ticket) {
    let slot = ticket.slot % 2;
    taker.is_rising = taker.is_rising && taker.last[slot] < ticket.generation;
    taker.last[slot] = ticket.generation;
    taker.taken[slot][(ticket.generation % EACH) as usize] = true;
}

fn take_all(rt: &impl Wait, taker: &mut Taker) {
    for _ in rt.forever() {
        match taker.end.take(rt) {
            Ok(ticket) => note(taker, ticket),
            Err(_) => break,
        }
    }
}

fn begin(end: Option<ReadyQueue>) -> Result<Taker, AllocError> {
    Ok(Taker {
        end: end.ok_or(AllocError)?,
        taken: [[false; 500]; 2],
        last: [0; 2],
        is_rising: true,
    })
}

/// Whether exactly one taker took each ticket, and both took in order.
fn are_all_taken_once([one, other]: &[Taker; 2]) -> bool {
    let mut all = one.is_rising && other.is_rising;
    for slot in 0..2 {
        for place in 0..500 {
            all = all && one.taken[slot][place] != other.taken[slot][place];
        }
    }
    all
}

// The two ends that take have the highest numbers. They sleep while the queue is empty, and its closing wakes them.
#[test]
fn each_ticket_is_taken_once(rt: HostRuntime) -> Result<(), Fail> {
    let mut ends = ReadyQueue::new(rt.alloc(), 8, 32)?;
    let mut takers = [begin(ends.pop())?, begin(ends.pop())?];
    ends.truncate(2);
    let (taking, putting) = (&mut takers[..], ends.as_mut_slice());
    thread::join(
        &rt,
        || thread::for_each_mut(&rt, taking, 2, &|_, taker| take_all(&rt, taker)),
        || {
            thread::for_each_mut(&rt, putting, 2, &|slot, end| put_all(&rt, end, slot));
            for end in putting.iter_mut() {
                end.close();
            }
        },
    );
    all_well(Ok(are_all_taken_once(&takers)))
}
