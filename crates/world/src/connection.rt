//! A connection of the machine, and what its turn does to it.
#![tactic(auto, using(std::proofs::lemmas::Option::gets, std::proofs::lemmas::Grind::common_steps))]

ghost use Rattle.std.specs.Prelude.{◌≡◌, Some, option_map};
ghost use Rattle.relay_core.specs.{Order.next_call, Replies.reply_of};
ghost use Rattle.world.specs.Calls.{told_of, plain};

use crate::working::is_live;
use kernel_model::{Descriptors, Kernel, Refusal, Reply};
use relay_core::{Answer, Call, Pair};
use token::Side;

/// A connection: the pair, and the descriptors of its two ends.
#[derive(Drop)]
pub struct Connection {
    pub pair: Pair,
    pub ends: Descriptors,
}

impl Connection {
    ghost use Rattle.std.specs.Prelude.{◌≡◌, if◌then◌else◌, IsErrOf, IsTrue};
    ghost use Rattle.relay_core.specs.{Pairs.noted, Replies.reply_of};
    ghost use Rattle.kernel_model.specs.{Outcome.{Meets, MeetsAlways}, Replies.needs_memory};
    ghost use Rattle.world.specs.{Calls.{descriptor, OpenConnection, made, replied, called}, Steps.{may_release, expired_connection}};

    /// The descriptor of the end on this side.
    pub fn descriptor(&self, side: Side) -> usize
        ensures { result ≡ descriptor self.now.ends side }
    {
        match side {
            Side::Client => self.ends.client,
            Side::Target => self.ends.target,
        }
    }

    /// If `any` note was taken, raises all flags: every call is worth trying again.
    pub fn hear(&mut self, any: bool)
        ensures { self.new ≡ (if any then record self.old { pair = noted self.old.pair } else self.old) }
    {
        if any {
            self.pair.note();
        }
    }

    /// Whether a worker may release the slot: the connection is live, and either it has no call to make, or the slot
    /// has a note (`noted`) for another try.
    #[tactic(auto, unfolding(crate::specs::Steps::may_release))]
    pub fn may_release(&self, noted: bool) -> bool
        ensures { result ≡ may_release self.now noted }
    {
        is_live(self.pair.verdict()) && (self.pair.next().is_none() || noted)
    }

    /// Fails the connection if it is live, has no call to make, and has moved nothing for `limit` seconds at the
    /// second `now`. Otherwise, and always if `limit` is 0, refuses with `NotAllowed` and changes nothing.
    pub fn expire(&mut self, now: u64, limit: u64) -> Result<(), Refusal>
        ensures { MeetsAlways (expired_connection now limit self.old) self.old self.new result }
    {
        if self.pair.expire(now, limit) {
            Ok(())
        } else {
            Err(Refusal::NotAllowed)
        }
    }

    /// Makes the next call on the kernel's end. The call gets this reply at the second `now`.
    ///
    /// Refuses with `NotAllowed` if there is no next call or it may not get this reply, and with `NoMemory` if there
    /// is no memory for the bytes that a write takes. A refusal changes nothing.
    #[tactic(auto, unfolding(crate::specs::Calls::called))]
    pub fn call(&mut self, kernel: &mut Kernel, reply: Reply, now: u64) -> Result<(), Refusal>
        ensures outcome { Meets (called now (record { kernel = kernel.old; connection = self.old }) reply)
            (record { kernel = kernel.old; connection = self.old })
            (record { kernel = kernel.new; connection = self.new }) result }
        ensures memory { IsErrOf result Refusal.NoMemory → IsTrue (needs_memory reply) }
    {
        match self.pair.next() {
            None => Err(Refusal::NotAllowed),
            Some(call) => match (call, reply) {
                (Call::Read(side, most), Reply::Bytes(count)) => {
                    self.read(kernel, side, most, count, now)
                }
                _ => self.make(kernel, call, reply, now),
            },
        }
    }

    /// Makes the next call, a read that brings `count` bytes.
    fn read(
        &mut self,
        kernel: &mut Kernel,
        side: Side,
        most: usize,
        count: usize,
        now: u64,
    ) -> Result<(), Refusal>
        requires { next_call self.old.pair ≡ Some (Call.Read side most) }
        ensures { MeetsAlways (replied now (record { kernel = kernel.old; connection = self.old }) (Call.Read side most)
            (Reply.Bytes count)) (record { kernel = kernel.old; connection = self.old })
            (record { kernel = kernel.new; connection = self.new }) result }
    {
        let call = Call::Read(side, most);
        let descriptor = self.descriptor(side);
        let Some(open) = kernel.end(descriptor) else {
            return Err(Refusal::NotAllowed);
        };
        let Some(bytes) = open.socket.bytes_read(most, count) else {
            return Err(Refusal::NotAllowed);
        };
        if !self.pair.fits(call, Answer::Bytes(bytes)) {
            return Err(Refusal::NotAllowed);
        }
        self.pair.answer(call, Answer::Bytes(bytes), now);
        kernel.read(descriptor, most, Reply::Bytes(count))
    }

    /// Makes the next call with a reply that brings no bytes.
    fn make(
        &mut self,
        kernel: &mut Kernel,
        call: Call,
        reply: Reply,
        now: u64,
    ) -> Result<(), Refusal>
        requires next { next_call self.old.pair ≡ Some call }
        requires no_bytes { told_of (record { kernel = kernel.old; connection = self.old }) call reply ≡ plain reply }
        ensures outcome { Meets (replied now (record { kernel = kernel.old; connection = self.old }) call reply)
            (record { kernel = kernel.old; connection = self.old })
            (record { kernel = kernel.new; connection = self.new }) result }
        ensures memory { IsErrOf result Refusal.NoMemory → IsTrue (needs_memory reply) }
    {
        let Some(answer) = plain(reply) else {
            return Err(Refusal::NotAllowed);
        };
        if !self.pair.fits(call, answer) {
            return Err(Refusal::NotAllowed);
        }
        self.ask(kernel, call, reply)?;
        self.pair.answer(call, answer, now);
        Ok(())
    }

    /// Makes a call on the kernel; the pair stays as it is.
    fn ask(&mut self, kernel: &mut Kernel, call: Call, reply: Reply) -> Result<(), Refusal>
        ensures kernel { Meets (made (record { kernel = kernel.old; connection = self.old }) call reply) kernel.old kernel.new result }
        ensures memory { IsErrOf result Refusal.NoMemory → IsTrue (needs_memory reply) }
        ensures pair { self.new ≡ self.old }
    {
        let descriptor = self.descriptor(call.side());
        match call {
            Call::Read(_, most) => kernel.read(descriptor, most, reply),
            Call::Write(side) => kernel.write(descriptor, self.pair.offer(side), reply),
            Call::Join(_) => kernel.join(descriptor, reply),
            Call::Shut(_) => kernel.shut(descriptor, reply),
        }
    }
}

/// The answer that the pair gets for a reply. None if the reply brings bytes.
fn plain(reply: Reply) -> Option<Answer<'static>>
    ensures { option_map reply_of result ≡ plain reply }
{
    match reply {
        Reply::Bytes(_) => None,
        Reply::End => Some(Answer::End),
        Reply::Wrote(count, _) => Some(Answer::Wrote(count)),
        Reply::Joined => Some(Answer::Joined),
        Reply::Shut => Some(Answer::Shut),
        Reply::Blocked => Some(Answer::Blocked),
        Reply::Interrupted => Some(Answer::Interrupted),
        Reply::Failed(kind) => Some(Answer::Failed(kind)),
    }
}
