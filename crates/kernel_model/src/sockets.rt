// What arrives at the open ends of a kernel, and the calls on them.
ghost use Rattle.std.specs.Prelude.{◌<◌, ◌||◌, IsErrOf, IsTrue};
ghost use Rattle.kernel_model.specs.{Outcome.{Meets, MeetsAlways}, Ends.EndState, Replies.needs_memory, Changes.{brings_bytes, change_of, told, lengthens, watch}, Kernel.{Registered, queues_more, changed, arrive, fin, reset, room, read, write, join, shut}};

use crate::change::Change;
use crate::kernel::{Kernel, Open};
use crate::queue::has;
use crate::refusal::Refusal;
use crate::reply::Reply;
use token::Name;

#[tactic(auto, using(std::proofs::lemmas::Option::gets, std::proofs::lemmas::Grind::common_steps))]
impl Kernel {
    /// Bytes arrive at an end, and are reported if reads are armed there.
    ///
    /// Refuses with `NotAllowed` if the descriptor is not open, if there are no bytes, and after the end of input or
    /// an error; and with `NoMemory` if a list cannot grow. A refusal changes nothing.
    pub fn arrive(&mut self, descriptor: usize, bytes: &[u8]) -> Result<(), Refusal>
        ensures { Meets (arrive self.old descriptor bytes.now) self.old self.new result }
    {
        self.change(descriptor, Change::Arrive(bytes))
    }

    /// The peer's end of input arrives at an end, and is reported if reads are armed there.
    ///
    /// Refuses with `NotAllowed` if the descriptor is not open, and if the end of input or an error arrived before;
    /// and with `NoMemory` if the queue has to grow and cannot. A refusal changes nothing.
    pub fn fin(&mut self, descriptor: usize) -> Result<(), Refusal>
        ensures outcome { Meets (fin self.old descriptor) self.old self.new result }
        ensures memory { IsErrOf result Refusal.NoMemory → IsTrue (queues_more self.old (fin self.old descriptor)) }
    {
        self.change(descriptor, Change::Fin)
    }

    /// An error arrives at an end, such as a reset by the peer, and is reported if reads or writes are armed there.
    ///
    /// Refuses with `NotAllowed` if the descriptor is not open, and if an error arrived before; and with `NoMemory` as
    /// [`Kernel::fin`]. A refusal changes nothing.
    pub fn reset(&mut self, descriptor: usize) -> Result<(), Refusal>
        ensures outcome { Meets (reset self.old descriptor) self.old self.new result }
        ensures memory { IsErrOf result Refusal.NoMemory → IsTrue (queues_more self.old (reset self.old descriptor)) }
    {
        self.change(descriptor, Change::Reset)
    }

    /// An end gets room for writes, which is reported if writes are armed there.
    ///
    /// Refuses with `NotAllowed` if the descriptor is not open, if there is room, and after an error; and with
    /// `NoMemory` as [`Kernel::fin`]. A refusal changes nothing.
    pub fn room(&mut self, descriptor: usize) -> Result<(), Refusal>
        ensures outcome { Meets (room self.old descriptor) self.old self.new result }
        ensures memory { IsErrOf result Refusal.NoMemory → IsTrue (queues_more self.old (room self.old descriptor)) }
    {
        self.change(descriptor, Change::Room)
    }

    fn change(&mut self, descriptor: usize, change: Change<'_>) -> Result<(), Refusal>
        ensures outcome { Meets (changed self.old descriptor (λ (e : EndState). change_of change.entry e)) self.old self.new result }
        ensures memory { IsErrOf result Refusal.NoMemory
            → IsTrue (brings_bytes change.entry || queues_more self.old
            (changed self.old descriptor (λ (e : EndState). change_of change.entry e))) }
    {
        if descriptor >= self.ends.len() {
            return Err(Refusal::NotAllowed);
        }
        match &mut self.ends[descriptor] {
            Some(open) => tell(open, &mut self.queue, change),
            None => Err(Refusal::NotAllowed),
        }
    }

    /// A read of at most `most` bytes gets this reply ([`End::read`]). Refuses with `NotAllowed`, and changes nothing,
    /// also if the descriptor is not open.
    pub fn read(&mut self, descriptor: usize, most: usize, reply: Reply) -> Result<(), Refusal>
        ensures { MeetsAlways (read self.old descriptor most reply) self.old self.new result }
    {
        if descriptor >= self.ends.len() {
            return Err(Refusal::NotAllowed);
        }
        match &mut self.ends[descriptor] {
            Some(open) => open.socket.read(most, reply),
            None => Err(Refusal::NotAllowed),
        }
    }

    /// A write of `offer` gets this reply ([`End::write`]). Refuses with `NotAllowed` also if the descriptor is not
    /// open. A refusal changes nothing.
    pub fn write(&mut self, descriptor: usize, offer: &[u8], reply: Reply) -> Result<(), Refusal>
        ensures outcome { Meets (write self.old descriptor offer.now reply) self.old self.new result }
        ensures memory { IsErrOf result Refusal.NoMemory → IsTrue (needs_memory reply) }
    {
        if descriptor >= self.ends.len() {
            return Err(Refusal::NotAllowed);
        }
        match &mut self.ends[descriptor] {
            Some(open) => open.socket.write(offer, reply),
            None => Err(Refusal::NotAllowed),
        }
    }

    /// The question whether the connect has completed gets this reply ([`End::join`]). Refuses with `NotAllowed`, and
    /// changes nothing, also if the descriptor is not open.
    pub fn join(&mut self, descriptor: usize, reply: Reply) -> Result<(), Refusal>
        ensures { MeetsAlways (join self.old descriptor reply) self.old self.new result }
    {
        if descriptor >= self.ends.len() {
            return Err(Refusal::NotAllowed);
        }
        match &mut self.ends[descriptor] {
            Some(open) => open.socket.join(reply),
            None => Err(Refusal::NotAllowed),
        }
    }

    /// A shutdown of sending gets this reply ([`End::shut`]). Refuses with `NotAllowed`, and changes nothing, also if
    /// the descriptor is not open.
    pub fn shut(&mut self, descriptor: usize, reply: Reply) -> Result<(), Refusal>
        ensures { MeetsAlways (shut self.old descriptor reply) self.old self.new result }
    {
        if descriptor >= self.ends.len() {
            return Err(Refusal::NotAllowed);
        }
        match &mut self.ends[descriptor] {
            Some(open) => open.socket.shut(reply),
            None => Err(Refusal::NotAllowed),
        }
    }
}

/// Makes a change at an open end, and queues its name if the change must be reported.
fn tell(registered: &mut Open, queue: &mut Vec<Name>, change: Change<'_>) -> Result<(), Refusal>
    ensures outcome { Meets (told change.entry (watch registered.old queue.old.items)) (watch registered.old queue.old.items)
        (watch registered.new queue.new.items) result }
    ensures memory { IsErrOf result Refusal.NoMemory → IsTrue (brings_bytes change.entry || lengthens
        (watch registered.old queue.old.items) (told change.entry (watch registered.old queue.old.items))) }
{
    if !registered.socket.may_change(change) {
        return Err(Refusal::NotAllowed);
    }
    let name = Name::End(registered.token);
    let is_new = registered.socket.will_report(change) && !has(&name, queue.as_slice());
    if is_new {
        queue.reserve(1)?;
    }
    registered.socket.change(change)?;
    if is_new {
        queue.push_reserved(name);
    }
    Ok(())
}
