//! What a thread has in hand, and how it puts that into the queues.
ghost use Rattle.std.specs.Prelude.{◌≡◌, ◌+◌, ◌<◌, ◌≤◌, ◌↔◌, [], ◌∷◌, ◌++◌, length, drop, slice_get, IsTrue, IsSome, IfOk, OnOk};
ghost use Rattle.shared.specs.{Hands.{empty_hand, ticket_room, HasRoom, Shrank}, Outgoing.outgoing};

use circular_buffer::HeapCircularBuffer;
use queues::{FreeQueue, Full, ReadyQueue, Ticket};
use std::alloc::{AllocError, Global};
use std::marker::Model;
use std::sync::Wait;

/// What a thread has put into no queue yet, oldest first: tickets that it keeps or that a queue refused, and free
/// slots.
#[derive(Drop)]
pub struct Hand {
    tickets: HeapCircularBuffer<Ticket>,
    slots: HeapCircularBuffer<usize>,
}

impl Model for Hand {
    ghost use Rattle.std.specs.Prelude.{◌≡◌, ◌≤◌, length};
    ghost use Rattle.shared.specs.Hands.{HandState};

    ghost Value = { HandState };

    ghost view = { λ h. record { tickets = h.tickets.items; slots = h.slots.items; capacity = h.tickets.capacity } };

    ghost invariant = { λ h. (h.slots.capacity ≡ h.tickets.capacity) × (length h.tickets.items ≤ h.tickets.capacity)
        × (length h.slots.items ≤ h.slots.capacity) };
}

impl Hand {
    /// Empty, for at most `capacity` tickets and as many slots. No later call allocates memory.
    pub fn new(alloc: Global, capacity: usize) -> Result<Hand, AllocError>
        ensures { IfOk result (λ hand. hand ≡ empty_hand capacity) }
    {
        Ok(Hand {
            tickets: HeapCircularBuffer::with_capacity(alloc, capacity)?,
            slots: HeapCircularBuffer::with_capacity(alloc, capacity)?,
        })
    }

    /// Whether one more ticket and one more slot fit.
    pub fn has_room(&self) -> bool
        ensures { IsTrue result ↔ HasRoom self.now }
    {
        self.tickets.len() < self.tickets.capacity() && self.slots.len() < self.slots.capacity()
    }

    /// Whether one more slot fits.
    pub fn has_slot_room(&self) -> bool
        ensures { IsTrue result ↔ (length self.now.slots < self.now.capacity) }
    {
        self.slots.len() < self.slots.capacity()
    }

    /// How many more tickets fit.
    pub fn room(&self) -> usize
        ensures { result ≡ ticket_room self.now }
    {
        self.tickets.capacity() - self.tickets.len()
    }

    /// How many tickets there are.
    pub fn tickets(&self) -> usize
        ensures { result ≡ length self.now.tickets }
    {
        self.tickets.len()
    }

    /// How many slots it has.
    pub fn slots(&self) -> usize
        ensures { result ≡ length self.now.slots }
    {
        self.slots.len()
    }

    /// Adds a ticket at the back.
    pub fn keep_ticket(&mut self, ticket: Ticket)
        requires { length self.old.tickets < self.old.capacity }
        ensures { self.new ≡ record self.old { tickets = self.old.tickets ++ ticket ∷ [] } }
    {
        let _ = self.tickets.try_push_back(ticket);
    }

    /// Adds a slot at the back.
    pub fn keep_slot(&mut self, slot: usize)
        requires { length self.old.slots < self.old.capacity }
        ensures { self.new ≡ record self.old { slots = self.old.slots ++ slot ∷ [] } }
    {
        let _ = self.slots.try_push_back(slot);
    }

    /// Puts a ticket back at the front.
    pub fn return_ticket(&mut self, ticket: Ticket)
        requires { length self.old.tickets < self.old.capacity }
        ensures { self.new ≡ record self.old { tickets = ticket ∷ self.old.tickets } }
    {
        let _ = self.tickets.try_push_front(ticket);
    }

    /// Puts a slot back at the front.
    pub fn return_slot(&mut self, slot: usize)
        requires { length self.old.slots < self.old.capacity }
        ensures { self.new ≡ record self.old { slots = slot ∷ self.old.slots } }
    {
        let _ = self.slots.try_push_front(slot);
    }

    /// Takes the oldest ticket.
    pub fn take_ticket(&mut self) -> Option<Ticket>
        ensures value { result ≡ slice_get self.old.tickets 0 }
        ensures room { IsSome result → length self.new.tickets < self.new.capacity }
        ensures left { self.new ≡ record self.old { tickets = drop 1 self.old.tickets } }
    {
        self.tickets.pop_front()
    }

    /// Takes the oldest slot.
    pub fn take_slot(&mut self) -> Option<usize>
        ensures value { result ≡ slice_get self.old.slots 0 }
        ensures room { IsSome result → length self.new.slots < self.new.capacity }
        ensures left { self.new ≡ record self.old { slots = drop 1 self.old.slots } }
    {
        self.slots.pop_front()
    }
}

/// Puts the tickets in hand, oldest first. If the queue was full, what it refused stays in hand with all after it.
pub fn put_tickets<R: Wait>(
    rt: &R,
    ready: &mut ReadyQueue,
    hand: &mut Hand,
) -> Result<(), Full<Ticket>>
    ensures tickets { outgoing ready.new.history hand.new.tickets ≡ outgoing ready.old.history hand.old.tickets }
    ensures took { ready.new.history.taken ≡ ready.old.history.taken }
    ensures all { OnOk result (hand.new.tickets ≡ []) }
    ensures slots { hand.new.slots ≡ hand.old.slots }
    ensures shrank { Shrank hand.old hand.new }
{
    for _ticket in 0..hand.tickets() {
        let Some(ticket) = hand.take_ticket() else {
            return Ok(());
        };
        if let Err(full) = ready.put(rt, ticket) {
            hand.return_ticket(full.0);
            return Err(full);
        }
    }
    Ok(())
}

/// Gives back the slots in hand, oldest first. If the queue was full, what it refused stays in hand with all after it.
pub fn give_slots<R: Wait>(rt: &R, free: &mut FreeQueue, hand: &mut Hand) -> Result<(), Full<usize>>
    ensures slots { outgoing free.new.history hand.new.slots ≡ outgoing free.old.history hand.old.slots }
    ensures took { free.new.history.taken ≡ free.old.history.taken }
    ensures all { OnOk result (hand.new.slots ≡ []) }
    ensures tickets { hand.new.tickets ≡ hand.old.tickets }
    ensures shrank { Shrank hand.old hand.new }
{
    for _slot in 0..hand.slots() {
        let Some(slot) = hand.take_slot() else {
            return Ok(());
        };
        if let Err(full) = free.give(rt, slot) {
            hand.return_slot(full.0);
            return Err(full);
        }
    }
    Ok(())
}
