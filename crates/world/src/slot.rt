//! A slot of the machine: its connection, its holder and its notes.
#![tactic(auto, using(std::proofs::lemmas::Option::gets, std::proofs::lemmas::Grind::common_steps))]

use crate::actors::Holder;
use crate::connection::Connection;
use kernel_model::{Kernel, Refusal, Reply};
use std::alloc::{AllocError, Global};
use std::marker::Model;

/// A slot: its connection, if it has one, its holder and its notes.
#[derive(Drop)]
pub struct Slot {
    pub(crate) generation: u64,
    pub(crate) connection: Option<Connection>,
    pub(crate) holder: Holder,
    pub(crate) notes: Vec<u64>,
}

impl Model for Slot {
    ghost use Rattle.world.specs.Slots.{SlotState};

    ghost Value = { SlotState };

    ghost view = { λ p. record { generation = p.generation; connection = p.connection; holder = p.holder; notes = p.notes.items } };
}

impl Slot {
    ghost use Rattle.std.specs.{Prelude.{◌≡◌, OnOk, OnErr, IsErrOf, IsTrue, Some, None}, Option.option_copied};
    ghost use Rattle.kernel_model.specs.{Ends.is_nonempty, Outcome.{Meets, MeetsAlways, Tells}, Replies.needs_memory};
    ghost use Rattle.world.specs.{Slots.is_held, States.unused, Steps.{with_note, brings_ticket, noted_slot, expired_place, OpenSlot, slot_call}};

    /// A slot without a connection.
    pub fn new(alloc: Global, generation: u64) -> Slot
        ensures { result ≡ unused generation }
    {
        Slot {
            generation,
            connection: None,
            holder: Holder::Free,
            notes: Vec::new(alloc),
        }
    }

    /// The generation of the connection that was opened last in the slot; before any, the limits' generation.
    pub fn generation(&self) -> u64
        ensures { result ≡ self.now.generation }
    {
        self.generation
    }

    /// The connection in the slot.
    pub fn connection(&self) -> Option<&Connection>
        ensures { option_copied result ≡ self.now.connection }
    {
        self.connection.as_ref()
    }

    /// Who holds the slot.
    pub fn holder(&self) -> Holder
        ensures { result ≡ self.now.holder }
    {
        self.holder
    }

    /// The slot's notes, oldest first. Each is the generation that the note is for.
    pub fn notes(&self) -> &[u64]
        ensures { result.now ≡ self.now.notes }
    {
        self.notes.as_slice()
    }

    /// Whether the slot is free or held by a worker.
    pub fn is_held(&self) -> bool
        ensures { result ≡ is_held self.now.holder }
    {
        match self.holder {
            Holder::Nobody => false,
            Holder::By(_) | Holder::Free => true,
        }
    }

    /// Whether the slot has a note.
    pub fn has_notes(&self) -> bool
        ensures { result ≡ is_nonempty self.now.notes }
    {
        !self.notes.is_empty()
    }

    /// Adds a note. An error changes nothing.
    pub fn note(&mut self, generation: u64) -> Result<(), AllocError>
        ensures noted { OnOk result (self.new ≡ with_note self.old generation) }
        ensures kept { OnErr result (self.new ≡ self.old) }
    {
        self.notes.push(generation)?;
        Ok(())
    }

    /// Adds a note. Returns whether the note makes a ticket: it does if it is the first, and the slot is neither held
    /// nor free. An error changes nothing.
    pub(crate) fn post(&mut self, generation: u64) -> Result<bool, Refusal>
        ensures { Tells (Some (record { value = with_note self.old generation; told = brings_ticket self.old })) self.old self.new result }
    {
        let is_quiet = self.is_held() || self.has_notes();
        self.note(generation)?;
        Ok(!is_quiet)
    }

    /// Opens a new connection in the slot, for this generation, with these notes. Nobody holds the slot then.
    pub(crate) fn open(&mut self, generation: u64, connection: Connection, notes: Vec<u64>)
        ensures { self.new ≡ record { generation = generation; connection = Some connection; holder = Holder.Nobody; notes = notes.items } }
    {
        self.generation = generation;
        self.connection = Some(connection);
        self.holder = Holder::Nobody;
        self.notes = notes;
    }

    pub(crate) fn clear(&mut self)
        ensures { self.new ≡ record self.old { connection = None } }
    {
        self.connection = None;
    }

    /// Removes all notes. If there was a note, every call is worth trying again. Refuses with `NotAllowed`, and
    /// changes nothing, if the slot has no connection.
    pub fn take_notes(&mut self) -> Result<(), Refusal>
        ensures { MeetsAlways (noted_slot self.old) self.old self.new result }
    {
        let any = self.has_notes();
        match &mut self.connection {
            Some(connection) => connection.hear(any),
            None => return Err(Refusal::NotAllowed),
        }
        self.notes.clear();
        Ok(())
    }

    /// Fails the connection ([`Connection::expire`]). Refuses with `NotAllowed` also without one.
    pub fn expire(&mut self, now: u64, limit: u64) -> Result<(), Refusal>
        ensures { MeetsAlways (expired_place now limit self.old) self.old self.new result }
    {
        match &mut self.connection {
            Some(connection) => connection.expire(now, limit),
            None => Err(Refusal::NotAllowed),
        }
    }

    /// Makes the connection's next call ([`Connection::call`]). Refuses with `NotAllowed` also without a connection.
    #[tactic(auto, unfolding(crate::specs::Steps::slot_call))]
    pub fn call(&mut self, kernel: &mut Kernel, reply: Reply, now: u64) -> Result<(), Refusal>
        ensures outcome { Meets (slot_call now (record { kernel = kernel.old; place = self.old }) reply)
            (record { kernel = kernel.old; place = self.old }) (record { kernel = kernel.new; place = self.new })
            result }
        ensures memory { IsErrOf result Refusal.NoMemory → IsTrue (needs_memory reply) }
    {
        match &mut self.connection {
            Some(connection) => connection.call(kernel, reply, now),
            None => Err(Refusal::NotAllowed),
        }
    }
}
