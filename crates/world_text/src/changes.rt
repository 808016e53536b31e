//! The lines of a report that an event changes.

use crate::page::{Page, Piece, put_all};
use crate::report::{
    put_place, put_queue_lines, put_rest_line, put_standing, put_way, put_worker, taken, unread,
};
use std::alloc::{AllocError, Global};
use token::{Direction, Name};
use world::{Doing, Event, Polling, Reported, World};

/// The part of a report, before an event, that this event may change. It has no other slot or worker, and no bytes, so
/// the time for an event does not depend on these.
#[derive(Drop)]
pub struct Outline {
    worker: usize,
    slot: usize,
    /// The lines of the queues, the worker and the slot.
    lines: String,
    up: Way,
    down: Way,
    past: usize,
}

/// Stands for no worker or no slot.
const NONE: usize = usize::MAX;

/// What tells whether the line of one direction changes: whether there is a connection, how many bytes each part of
/// the line has, and whether the end was read and passed on. An event adds bytes to a part or takes some.
type Way = [usize; 7];

impl Outline {
    /// The part that this event may change, before the event.
    pub fn new(alloc: Global, world: &World, event: &Event) -> Result<Outline, AllocError> {
        let worker = match event {
            Event::Work(worker, _) => *worker,
            _ => NONE,
        };
        let slot = slot_of(world, event).unwrap_or(NONE);
        Ok(Outline {
            worker,
            slot,
            lines: lines(alloc, world, worker, slot)?,
            up: way(world, slot, Direction::Up),
            down: way(world, slot, Direction::Down),
            past: world.past().len(),
        })
    }

    /// The lines of the report after the event that were not in the report before, in their order.
    pub fn changes(&self, alloc: Global, world: &World) -> Result<String, AllocError> {
        let after = lines(alloc, world, self.worker, self.slot)?;
        let mut page = Page::new(alloc);
        let mut before = self.lines.as_str().split('\n');
        for line in after.as_str().split('\n') {
            if before.next() != Some(line) {
                page.put(&[Piece::Text(line), Piece::Text("\n")]);
            }
        }
        self.put_way(&mut page, world, self.up, Direction::Up);
        self.put_way(&mut page, world, self.down, Direction::Down);
        if let Some(past) = world.past().get(self.past..) {
            put_all(&mut page, past);
        }
        page.finish()
    }

    /// Adds the line of one direction if it has changed.
    fn put_way(&self, page: &mut Page, world: &World, before: Way, direction: Direction) {
        if let Some(connection) = world.connection(self.slot) {
            if way(world, self.slot, direction) != before {
                put_way(page, self.slot, world, connection, direction);
            }
        }
    }
}

/// The slot whose lines an event may change.
fn slot_of(world: &World, event: &Event) -> Option<usize> {
    match event {
        Event::Network(slot, _, _)
        | Event::Spurious(Reported::End(slot, _))
        | Event::Vanish(Reported::End(slot, _))
        | Event::Poll(Polling::Sweep(slot)) => Some(*slot),
        Event::Poll(Polling::Open) => world.free_slots().first().copied(),
        Event::Poll(Polling::Deliver) => match world.batch().first() {
            Some(Name::End(token)) => Some(token.slot()),
            _ => None,
        },
        Event::Work(worker, _) => match world.workers().get(*worker)?.doing() {
            Doing::Idle => None,
            Doing::Tries(ticket) => Some(ticket.slot),
            Doing::Holds(slot, _) | Doing::Closed(slot) | Doing::Retired(slot) => Some(slot),
        },
        // A report or a ticket that is passed on is still of its connection, so no line of a slot changes.
        Event::Poll(Polling::Poll(_) | Polling::Put)
        | Event::Tick(_)
        | Event::Spurious(_)
        | Event::Vanish(_)
        | Event::Listen(_) => None,
    }
}

fn lines(alloc: Global, world: &World, worker: usize, slot: usize) -> Result<String, AllocError> {
    let mut page = Page::new(alloc);
    put_queue_lines(&mut page, world);
    if let Some(there) = world.workers().get(worker) {
        put_worker(&mut page, worker, there);
    }
    if let Some(there) = world.slots().get(slot) {
        match there.connection() {
            None => put_rest_line(&mut page, slot, there),
            Some(connection) => {
                put_place(&mut page, slot, there, connection);
                put_standing(&mut page, world, slot, there);
            }
        }
    }
    page.finish()
}

fn way(world: &World, slot: usize, direction: Direction) -> Way {
    let Some(connection) = world.connection(slot) else {
        return [0; 7];
    };
    let (kernel, pair) = (world.kernel(), &connection.pair);
    [
        1,
        taken(kernel.end(connection.descriptor(direction.destination()))).len(),
        pair.lead_len(direction),
        pair.ring_len(direction),
        unread(kernel.end(connection.descriptor(direction.source()))).len(),
        pair.end_seen(direction) as usize,
        pair.is_shut(direction) as usize,
    ]
}
