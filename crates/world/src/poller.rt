// The poller's events.
#![tactic(auto, using(std::proofs::lemmas::Option::gets, std::proofs::lemmas::Grind::common_steps))]

ghost use Rattle.std.specs.Prelude.{◌≡◌};
ghost use Rattle.token.specs.Names.{last_generation};
ghost use Rattle.world.specs.Steps.{token_of};

use crate::actors::Ticket;
use crate::connection::Connection;
use crate::event::Polling;
use crate::world::World;
use kernel_model::Refusal;
use relay_core::Pair;
use std::alloc::AllocError;
use token::{MAX_GENERATION, Name, Side, Token};

impl World {
    ghost use Rattle.std.specs.Prelude.{◌≡◌, ◌<◌, length, slice_get, Some, IfOk, IsErrOf, IsTrue};
    ghost use Rattle.kernel_model.specs.{Outcome.Meets, Kernel.open_both};
    ghost use Rattle.relay_core.specs.Pairs.{fresh};
    ghost use Rattle.world.specs.{Leads.lead_at, Memory.{becomes_note, batch_length, grows, polling_allocates}, States.is_entry, Steps.{opened_world, opening_of, delivered, delivered_at, deliver, sweep, batched, put_by_poller, post_at, polled}};

    pub(crate) fn poll(&mut self, event: &Polling) -> Result<(), Refusal>
        ensures event { Meets (polled self.old event.now) self.old self.new result }
        ensures memory { IsErrOf result Refusal.NoMemory → IsTrue (polling_allocates self.old event.now) }
    {
        match event {
            Polling::Open => self.open(),
            Polling::Poll(names) => self.take_batch(names.as_slice()),
            Polling::Deliver => self.deliver(),
            Polling::Sweep(slot) => self.sweep(*slot),
            Polling::Put => self.put_by_poller(),
        }
    }

    fn open(&mut self) -> Result<(), Refusal>
        ensures { Meets (polled self.old Polling.Open) self.old self.new result }
    {
        if !self.accepted {
            return Err(Refusal::NotAllowed);
        }
        match self.free.first().copied() {
            Some(slot) => self.open_slot(slot),
            None => Err(Refusal::NotAllowed),
        }
    }

    fn open_slot(&mut self, slot: usize) -> Result<(), Refusal>
        requires { slice_get self.old.free 0 ≡ Some slot }
        ensures { Meets (opening_of self.old slot) self.old self.new result }
    {
        if slot >= self.slots.len() {
            return Err(Refusal::NotAllowed);
        }
        match self.table_entry(slot) {
            Some(old) if old < MAX_GENERATION => self.open_at(slot, old),
            Some(_) | None => Err(Refusal::NotAllowed),
        }
    }

    fn open_at(&mut self, slot: usize, old: u64) -> Result<(), Refusal>
        requires first { slice_get self.old.free 0 ≡ Some slot }
        requires inside { slot < length self.old.slots }
        requires before { slice_get self.old.table slot ≡ Some old }
        requires next { old < last_generation }
        ensures { Meets (opening_of self.old slot) self.old self.new result }
    {
        let generation = old + 1;
        let Some(client) = token_of(slot, Side::Client, generation) else {
            return Err(Refusal::NotAllowed);
        };
        let Some(target) = token_of(slot, Side::Target, generation) else {
            return Err(Refusal::NotAllowed);
        };
        self.open_with(slot, generation, client, target)
    }

    fn open_with(
        &mut self,
        slot: usize,
        generation: u64,
        client: Token,
        target: Token,
    ) -> Result<(), Refusal>
        requires first { slice_get self.old.free 0 ≡ Some slot }
        requires inside { slot < length self.old.slots }
        requires inside_table { slot < length self.old.table }
        ensures { Meets (Some (opened_world self.old slot generation (open_both self.old.kernel client target))) self.old self.new result }
    {
        self.hand.reserve(1)?;
        let notes = vec![in self.alloc; generation; 1]?;
        let pair = self.fresh_pair(slot, generation)?;
        let ends = self.kernel.open_both(client, target)?;
        self.hand.push_reserved(Ticket { slot, generation });
        self.accepted = false;
        self.free.remove(0);
        self.table[slot] = generation;
        self.slots[slot].open(generation, Connection { pair, ends }, notes);
        Ok(())
    }

    fn fresh_pair(&self, slot: usize, generation: u64) -> Result<Pair, AllocError>
        ensures { IfOk result (λ pair. pair ≡ fresh slot generation self.now.limits.ring self.now.second
            (lead_at self.now.limits.lead slot generation)) }
    {
        Pair::new(
            self.alloc,
            slot,
            generation,
            self.limits.ring,
            self.second,
            self.limits.lead.as_slice(),
        )
    }

    fn take_batch(&mut self, names: &[Name]) -> Result<(), Refusal>
        ensures event { Meets (batched self.old names.now) self.old self.new result }
        ensures memory { IsErrOf result Refusal.NoMemory → IsTrue (grows batch_length self.old (batched self.old names.now)) }
    {
        if !self.batch.is_empty() || !self.kernel.may_poll(names) {
            return Err(Refusal::NotAllowed);
        }
        self.batch.extend_from_slice(names)?;
        self.kernel.poll(names)
    }

    fn deliver(&mut self) -> Result<(), Refusal>
        ensures event { Meets (deliver self.old) self.old self.new result }
        ensures memory { IsErrOf result Refusal.NoMemory → IsTrue (becomes_note self.old (slice_get self.old.batch 0)) }
    {
        let Some(name) = self.batch.first() else {
            return Err(Refusal::NotAllowed);
        };
        let name = *name;
        self.deliver_name(name)?;
        self.batch.remove(0);
        Ok(())
    }

    fn deliver_name(&mut self, name: Name) -> Result<(), Refusal>
        ensures event { Meets (delivered self.old name) self.old self.new result }
        ensures batch { self.new.batch ≡ self.old.batch }
        ensures memory { IsErrOf result Refusal.NoMemory → IsTrue (becomes_note self.old (Some name)) }
    {
        match name {
            Name::Listener => {
                self.flag = true;
                Ok(())
            }
            Name::Waker => Ok(()),
            Name::End(token) => self.deliver_end(token),
        }
    }

    fn deliver_end(&mut self, token: Token) -> Result<(), Refusal>
        ensures event { Meets (delivered_at self.old token (slice_get self.old.table token.slot)) self.old self.new result }
        ensures batch { self.new.batch ≡ self.old.batch }
        ensures memory { IsErrOf result Refusal.NoMemory → IsTrue (is_entry (slice_get self.old.table token.slot) token.generation) }
    {
        match self.table_entry(token.slot()) {
            Some(generation) if generation == token.generation() => {
                self.post_at(token.slot(), generation)
            }
            Some(_) | None => Ok(()),
        }
    }

    /// The generation that the poller's table has for a slot.
    pub fn table_entry(&self, slot: usize) -> Option<u64>
        ensures { result ≡ slice_get self.now.table slot }
    {
        self.table.get(slot).copied()
    }

    fn post_at(&mut self, slot: usize, generation: u64) -> Result<(), Refusal>
        ensures event { Meets (post_at self.old slot generation) self.old self.new result }
        ensures batch { self.new.batch ≡ self.old.batch }
    {
        if slot >= self.slots.len() {
            return Err(Refusal::NotAllowed);
        }
        self.hand.reserve(1)?;
        if self.slots[slot].post(generation)? {
            self.hand.push_reserved(Ticket { slot, generation });
        }
        Ok(())
    }

    fn sweep(&mut self, slot: usize) -> Result<(), Refusal>
        ensures { Meets (sweep self.old slot) self.old self.new result }
    {
        if self.limits.idle == 0 {
            return Err(Refusal::NotAllowed);
        }
        match self.table_entry(slot) {
            Some(generation) if generation > 0 => self.post_at(slot, generation),
            Some(_) | None => Err(Refusal::NotAllowed),
        }
    }

    fn put_by_poller(&mut self) -> Result<(), Refusal>
        ensures { Meets (put_by_poller self.old self.old.hand) self.old self.new result }
    {
        if self.hand.is_empty() {
            return Err(Refusal::NotAllowed);
        }
        self.ready.reserve(1)?;
        let ticket = self.hand.remove(0);
        self.ready.push_reserved(ticket);
        Ok(())
    }
}

fn token_of(slot: usize, side: Side, generation: u64) -> Option<Token>
    ensures { result ≡ token_of slot side generation }
{
    Token::pack(slot, side, generation).ok()
}
