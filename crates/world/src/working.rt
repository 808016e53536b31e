// The workers' events.
#![tactic(auto, using(std::proofs::lemmas::Option::gets, std::proofs::lemmas::Grind::common_steps))]

ghost use Rattle.std.specs.Prelude.{◌≡◌};
ghost use Rattle.relay_core.specs.Pairs.{is_live};

use crate::actors::{Doing, Holder, Ticket};
use crate::event::Act;
use crate::past::Past;
use crate::world::World;
use kernel_model::{Refusal, Reply};
use relay_core::Verdict;
use token::MAX_GENERATION;

/// Whether a connection is neither done nor failed.
pub fn is_live(verdict: Verdict) -> bool
    ensures { result ≡ is_live verdict }
{
    match verdict {
        Verdict::Live => true,
        Verdict::Done | Verdict::Failed(_) => false,
    }
}

impl World {
    ghost use Rattle.std.specs.Prelude.{◌≡◌, ◌<◌, length, slice_get, option_map, Some, IsErrOf, IsTrue};
    ghost use Rattle.kernel_model.specs.{Outcome.{Meets, MeetsAlways}, Replies.needs_memory};
    ghost use Rattle.world.specs.{Acts.{busy, MeetsIn}, Memory.{act_allocates, grows, free_length}, Slots.WorkerState, Steps.{of_worker, claim, take, call, post, release, expire, closes_slot, retire, free, pop, worked}};

    pub(crate) fn work(&mut self, worker: usize, act: Act) -> Result<(), Refusal>
        ensures { MeetsIn (act_allocates self.old worker act) (worked self.old worker act) self.old self.new result }
    {
        if worker >= self.workers.len() {
            return Err(Refusal::NotAllowed);
        }
        match self.workers[worker].doing() {
            Doing::Idle => match act {
                Act::Put => self.put_by_worker(worker),
                Act::Pop => self.pop(worker),
                _ => Err(Refusal::NotAllowed),
            },
            Doing::Tries(ticket) => match act {
                Act::Claim => self.claim(worker, ticket),
                _ => Err(Refusal::NotAllowed),
            },
            Doing::Holds(slot, left) => self.act_holding(worker, slot, left, act),
            Doing::Closed(slot) => match act {
                Act::Retire => self.retire(worker, slot),
                _ => Err(Refusal::NotAllowed),
            },
            Doing::Retired(slot) => match act {
                Act::Free => self.free(worker, slot),
                _ => Err(Refusal::NotAllowed),
            },
        }
    }

    fn act_holding(
        &mut self,
        worker: usize,
        slot: usize,
        left: usize,
        act: Act,
    ) -> Result<(), Refusal>
        requires { slice_get self.old.workers worker ≡ Some (busy (Doing.Holds slot left)) }
        ensures { MeetsIn (act_allocates self.old worker act) (worked self.old worker act) self.old self.new result }
    {
        match act {
            Act::Take => self.take(slot, left),
            Act::Call(reply) => self.call(worker, slot, left, reply),
            Act::Post => self.post(slot, left),
            Act::Release => self.release(worker, slot, left),
            Act::Expire => self.expire(slot, left),
            Act::Close => self.close(worker, slot, left),
            _ => Err(Refusal::NotAllowed),
        }
    }

    fn put_by_worker(&mut self, worker: usize) -> Result<(), Refusal>
        requires { worker < length self.old.workers }
        ensures { Meets (worked self.old worker Act.Put) self.old self.new result }
    {
        let Some(ticket) = self.workers[worker].ticket() else {
            return Err(Refusal::NotAllowed);
        };
        self.ready.reserve(1)?;
        self.workers[worker].put();
        self.ready.push_reserved(ticket);
        Ok(())
    }

    fn pop(&mut self, worker: usize) -> Result<(), Refusal>
        requires { worker < length self.old.workers }
        ensures { MeetsAlways (of_worker self.old worker (λ (k : WorkerState). pop self.old worker k Doing.Idle)) self.old self.new result }
    {
        if !self.workers[worker].hand().is_empty() || self.ready.is_empty() {
            return Err(Refusal::NotAllowed);
        }
        let ticket = self.ready.remove(0);
        self.workers[worker].turn_to(Doing::Tries(ticket));
        Ok(())
    }

    fn claim(&mut self, worker: usize, ticket: Ticket) -> Result<(), Refusal>
        requires { slice_get self.old.workers worker ≡ Some (busy (Doing.Tries ticket)) }
        ensures { MeetsAlways (claim self.old worker (busy (Doing.Tries ticket)) (Doing.Tries ticket)) self.old self.new result }
    {
        if ticket.slot >= self.slots.len() {
            return Err(Refusal::NotAllowed);
        }
        if self.slots[ticket.slot].is_held() {
            self.workers[worker].turn_to(Doing::Idle);
        } else {
            self.slots[ticket.slot].holder = Holder::By(worker);
            self.workers[worker].turn_to(Doing::Holds(ticket.slot, self.limits.budget));
        }
        Ok(())
    }

    fn take(&mut self, slot: usize, left: usize) -> Result<(), Refusal>
        ensures { MeetsAlways (take self.old (Doing.Holds slot left)) self.old self.new result }
    {
        if slot >= self.slots.len() {
            return Err(Refusal::NotAllowed);
        }
        self.slots[slot].take_notes()?;
        Ok(())
    }

    fn call(&mut self, worker: usize, slot: usize, left: usize, reply: Reply) -> Result<(), Refusal>
        requires { slice_get self.old.workers worker ≡ Some (busy (Doing.Holds slot left)) }
        ensures { MeetsIn (needs_memory reply) (call self.old worker (busy (Doing.Holds slot left)) (Doing.Holds slot left)
            reply) self.old self.new result }
    {
        if left == 0 || slot >= self.slots.len() {
            return Err(Refusal::NotAllowed);
        }
        match self.slots[slot].call(&mut self.kernel, reply, self.second) {
            Ok(()) => {
                self.workers[worker].turn_to(Doing::Holds(slot, left - 1));
                Ok(())
            }
            Err(Refusal::NotAllowed) => Err(Refusal::NotAllowed),
            Err(Refusal::NoMemory) => Err(Refusal::NoMemory),
        }
    }

    fn post(&mut self, slot: usize, left: usize) -> Result<(), Refusal>
        ensures { Meets (post self.old (Doing.Holds slot left)) self.old self.new result }
    {
        let Some(connection) = self.connection(slot) else {
            return Err(Refusal::NotAllowed);
        };
        if !is_live(connection.pair.verdict()) {
            return Err(Refusal::NotAllowed);
        }
        let generation = connection.pair.generation();
        self.slots[slot].note(generation)?;
        Ok(())
    }

    fn release(&mut self, worker: usize, slot: usize, left: usize) -> Result<(), Refusal>
        requires { slice_get self.old.workers worker ≡ Some (busy (Doing.Holds slot left)) }
        ensures { MeetsAlways (release self.old worker (busy (Doing.Holds slot left)) (Doing.Holds slot left)) self.old self.new result }
    {
        let Some(connection) = self.connection(slot) else {
            return Err(Refusal::NotAllowed);
        };
        let noted = self.slots[slot].has_notes();
        if !connection.may_release(noted) {
            return Err(Refusal::NotAllowed);
        }
        let generation = self.slots[slot].generation();
        self.workers[worker].release(noted, slot, generation);
        self.slots[slot].holder = Holder::Nobody;
        Ok(())
    }

    fn expire(&mut self, slot: usize, left: usize) -> Result<(), Refusal>
        ensures { MeetsAlways (expire self.old (Doing.Holds slot left)) self.old self.new result }
    {
        if slot >= self.slots.len() {
            return Err(Refusal::NotAllowed);
        }
        self.slots[slot].expire(self.second, self.limits.idle)?;
        Ok(())
    }

    fn close(&mut self, worker: usize, slot: usize, left: usize) -> Result<(), Refusal>
        requires { slice_get self.old.workers worker ≡ Some (busy (Doing.Holds slot left)) }
        ensures { Meets (closes_slot self.old worker (busy (Doing.Holds slot left)) (Doing.Holds slot left)) self.old self.new result }
    {
        let Some(connection) = self.connection(slot) else {
            return Err(Refusal::NotAllowed);
        };
        let verdict = connection.pair.verdict();
        let generation = connection.pair.generation();
        let ends = connection.ends;
        if is_live(verdict) || !self.kernel.may_close_both(ends) {
            return Err(Refusal::NotAllowed);
        }
        self.past.reserve(1)?;
        let ends = self.kernel.close_both(ends)?;
        let past = Past {
            slot,
            generation,
            verdict,
            ends,
        };
        self.past.push_reserved(past);
        self.slots[slot].clear();
        self.workers[worker].turn_to(Doing::Closed(slot));
        Ok(())
    }

    fn retire(&mut self, worker: usize, slot: usize) -> Result<(), Refusal>
        requires { slice_get self.old.workers worker ≡ Some (busy (Doing.Closed slot)) }
        ensures { MeetsAlways (retire self.old worker (busy (Doing.Closed slot)) (Doing.Closed slot)) self.old self.new result }
    {
        if slot >= self.slots.len() {
            return Err(Refusal::NotAllowed);
        }
        self.slots[slot].holder = Holder::Free;
        self.workers[worker].turn_to(Doing::Retired(slot));
        Ok(())
    }

    fn free(&mut self, worker: usize, slot: usize) -> Result<(), Refusal>
        requires { slice_get self.old.workers worker ≡ Some (busy (Doing.Retired slot)) }
        ensures event { Meets (free self.old worker (busy (Doing.Retired slot)) (Doing.Retired slot)) self.old self.new result }
        ensures memory { IsErrOf result Refusal.NoMemory
            → IsTrue (grows free_length self.old
            (free self.old worker (busy (Doing.Retired slot)) (Doing.Retired slot))) }
    {
        if slot >= self.slots.len() {
            return Err(Refusal::NotAllowed);
        }
        if self.slots[slot].generation() < MAX_GENERATION {
            self.free.reserve(1)?;
            self.free.push_reserved(slot);
        }
        self.workers[worker].turn_to(Doing::Idle);
        Ok(())
    }
}
