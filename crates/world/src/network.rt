// What happens outside the relay: time, the network's changes, reports, and connections at the listener.
#![tactic(auto, using(std::proofs::lemmas::Option::gets, std::proofs::lemmas::Grind::common_steps))]

ghost use Rattle.std.specs.Prelude.{◌||◌, IsErrOf, IsTrue};
ghost use Rattle.kernel_model.specs.{Outcome.Meets, Kernel.queues_more};
ghost use Rattle.world.specs.{Memory.change_brings_bytes, Steps.change_at};

use crate::connection::Connection;
use crate::event::{Change, Listening, Reported};
use crate::limits::{MAX_BYTES, MAX_TICK};
use crate::world::World;
use kernel_model::{Accepting, Kernel, Refusal, Watched};
use token::Side;

impl World {
    ghost use Rattle.std.specs.{Prelude.{◌≡◌, IsErrOf, IsTrue}, Option.option_copied};
    ghost use Rattle.kernel_model.specs.Outcome.{Meets, MeetsAlways};
    ghost use Rattle.world.specs.{Memory.{grows, network_allocates, queue_length}, Steps.{connection_at, tick, network, watched_of, report_spurious, report_vanishes, may_accept, listen}};

    /// The connection in a slot.
    pub fn connection(&self, slot: usize) -> Option<&Connection>
        ensures { option_copied result ≡ connection_at self.now slot }
    {
        if slot < self.slots.len() {
            self.slots[slot].connection()
        } else {
            None
        }
    }

    /// Seconds pass, which is refused without an idle limit.
    pub(crate) fn tick(&mut self, seconds: u64) -> Result<(), Refusal>
        ensures { MeetsAlways (tick self.old seconds) self.old self.new result }
    {
        if self.limits.idle == 0 || seconds == 0 || seconds > MAX_TICK {
            return Err(Refusal::NotAllowed);
        }
        if seconds > u64::MAX - self.second {
            return Err(Refusal::NotAllowed);
        }
        self.second += seconds;
        Ok(())
    }

    pub(crate) fn network(
        &mut self,
        slot: usize,
        side: Side,
        change: &Change,
    ) -> Result<(), Refusal>
        ensures event { Meets (network self.old slot side change.now) self.old self.new result }
        ensures memory { IsErrOf result Refusal.NoMemory → IsTrue (network_allocates self.old slot side change.now) }
    {
        let Some(connection) = self.connection(slot) else {
            return Err(Refusal::NotAllowed);
        };
        let descriptor = connection.descriptor(side);
        change_at(&mut self.kernel, descriptor, change)
    }

    pub(crate) fn spurious(&mut self, who: Reported) -> Result<(), Refusal>
        ensures event { Meets (report_spurious self.old who) self.old self.new result }
        ensures memory { IsErrOf result Refusal.NoMemory → IsTrue (grows queue_length self.old (report_spurious self.old who)) }
    {
        match self.watched(who) {
            Some(watched) => self.kernel.spurious(watched),
            None => Err(Refusal::NotAllowed),
        }
    }

    pub(crate) fn vanish(&mut self, who: Reported) -> Result<(), Refusal>
        ensures { MeetsAlways (report_vanishes self.old who) self.old self.new result }
    {
        match self.watched(who) {
            Some(watched) => self.kernel.vanish(watched),
            None => Err(Refusal::NotAllowed),
        }
    }

    pub(crate) fn listen(&mut self, event: Listening) -> Result<(), Refusal>
        ensures event { Meets (listen self.old event) self.old self.new result }
        ensures memory { IsErrOf result Refusal.NoMemory → IsTrue (grows queue_length self.old (listen self.old event)) }
    {
        match event {
            Listening::Connect => self.kernel.connect_in(),
            Listening::Accept(reply) => self.accept(reply),
            Listening::Drop => {
                if !self.accepted {
                    return Err(Refusal::NotAllowed);
                }
                self.accepted = false;
                Ok(())
            }
        }
    }

    fn accept(&mut self, reply: Accepting) -> Result<(), Refusal>
        ensures { MeetsAlways (listen self.old (Listening.Accept reply)) self.old self.new result }
    {
        if !self.may_accept() {
            return Err(Refusal::NotAllowed);
        }
        self.kernel.accept(reply)?;
        match reply {
            Accepting::Accepted => self.accepted = true,
            Accepting::Blocked => self.flag = false,
            Accepting::Again | Accepting::Starved => {}
        }
        Ok(())
    }

    fn may_accept(&self) -> bool
        ensures { result ≡ may_accept self.now }
    {
        self.flag && !self.accepted && !self.free.is_empty()
    }

    fn watched(&self, who: Reported) -> Option<Watched>
        ensures { result ≡ watched_of self.now who }
    {
        match who {
            Reported::Listener => Some(Watched::Listener),
            Reported::Waker => Some(Watched::Waker),
            Reported::End(slot, side) => match self.connection(slot) {
                Some(connection) => Some(Watched::End(connection.descriptor(side))),
                None => None,
            },
        }
    }
}

fn change_at(kernel: &mut Kernel, descriptor: usize, change: &Change) -> Result<(), Refusal>
    ensures event { Meets (change_at kernel.old descriptor change.now) kernel.old kernel.new result }
    ensures memory { IsErrOf result Refusal.NoMemory
        → IsTrue (change_brings_bytes change.now || queues_more kernel.old (change_at kernel.old descriptor change.now)) }
{
    match change {
        Change::Arrive(bytes) => {
            if bytes.len() > MAX_BYTES {
                return Err(Refusal::NotAllowed);
            }
            kernel.arrive(descriptor, bytes.as_slice())
        }
        Change::Fin => kernel.fin(descriptor),
        Change::Reset => kernel.reset(descriptor),
        Change::Room => kernel.room(descriptor),
    }
}
