// The kernel of one process. The calls on single ends are in `sockets.rt`.
ghost use Rattle.std.specs.{Prelude.{◌≡◌, ◌<◌, Some, IsSome, IsErrOf, IsTrue, ◌↔◌, position}, Option.{option_copied, is_none}};
ghost use Rattle.kernel_model.specs.{Outcome.{Meets, MeetsAlways, Tells, TellsAlways}, Names.has, Kernel.{Registered, queues_more, idle, end_at, lowest_free, open_end, close, name_watched, is_quiet, spurious, vanish, poll, connect_in, accept}};

use crate::accepting::Accepting;
use crate::connecting::place;
use crate::end::End;
use crate::limits::{MAX_BACKLOG, MAX_POLLED};
use crate::queue::{add, are_among, are_distinct, has, remove, remove_all};
use crate::refusal::Refusal;
use crate::watched::Watched;
use std::alloc::Global;
use std::marker::Model;
use token::{Name, Token};

/// An open end, with the token under which it is registered.
#[derive(Drop)]
pub struct Open {
    pub token: Token,
    pub socket: End,
}

impl Model for Open {
    ghost use Rattle.kernel_model.specs.Kernel.{Registered};

    ghost Value = { Registered };

    ghost view = { λ o. record { token = o.token; socket = o.socket } };
}

/// A kernel, as plain values.
#[derive(Drop)]
pub struct Kernel {
    pub(crate) alloc: Global,
    pub(crate) ends: Vec<Option<Open>>,
    pub(crate) queue: Vec<Name>,
    backlog: usize,
    armed: bool,
}

impl Model for Kernel {
    ghost use Rattle.kernel_model.specs.Kernel.{KernelState};

    ghost Value = { KernelState };

    ghost view = { λ k. record { ends = k.ends.items; queue = k.queue.items; backlog = k.backlog; armed = k.armed } };
}

#[tactic(auto, using(std::proofs::lemmas::Option::gets, std::proofs::lemmas::Grind::common_steps))]
impl Kernel {
    /// A kernel in which nothing is open or queued.
    pub fn new(alloc: Global) -> Kernel
        ensures { result ≡ idle }
    {
        Kernel {
            alloc,
            ends: Vec::new(alloc),
            queue: Vec::new(alloc),
            backlog: 0,
            armed: false,
        }
    }

    /// The open end of a descriptor.
    pub fn end(&self, descriptor: usize) -> Option<&Open>
        ensures { option_copied result ≡ end_at self.now.ends descriptor }
    {
        self.ends.get(descriptor)?.as_ref()
    }

    /// The names that are queued, oldest first.
    pub fn queue(&self) -> &[Name]
        ensures { result.now ≡ self.now.queue }
    {
        self.queue.as_slice()
    }

    /// Whether a name is queued.
    pub fn is_queued(&self, name: &Name) -> bool
        ensures { result ≡ has name.now self.now.queue }
    {
        has(name, self.queue.as_slice())
    }

    /// How many connections wait at the listener.
    pub fn backlog(&self) -> usize
        ensures { result ≡ self.now.backlog }
    {
        self.backlog
    }

    /// Opens an end and registers it under its token. Returns the lowest descriptor that was not open (open(2)).
    ///
    /// Refuses with `NoMemory`, and changes nothing, if the table of descriptors cannot grow.
    pub fn open_end(&mut self, token: Token) -> Result<usize, Refusal>
        ensures { Tells (Some (open_end self.old token)) self.old self.new result }
    {
        self.ends.reserve(1)?;
        Ok(place(self.alloc, &mut self.ends, token))
    }

    /// Closes an end, removes its name from the queue, and returns the end (close(2)). Refuses with `NotAllowed`, and
    /// changes nothing, if the descriptor is not open.
    pub fn close(&mut self, descriptor: usize) -> Result<End, Refusal>
        ensures { TellsAlways (close self.old descriptor) self.old self.new result }
    {
        if descriptor >= self.ends.len() {
            return Err(Refusal::NotAllowed);
        }
        match self.ends[descriptor].take() {
            None => Err(Refusal::NotAllowed),
            Some(Open { token, socket }) => {
                remove(&mut self.queue, &Name::End(token));
                Ok(socket)
            }
        }
    }

    /// A report is queued without cause.
    ///
    /// Refuses with `NotAllowed` if the descriptor is not open, and with `NoMemory` if the queue has to grow and
    /// cannot. A refusal changes nothing.
    pub fn spurious(&mut self, who: Watched) -> Result<(), Refusal>
        ensures outcome { Meets (spurious self.old who) self.old self.new result }
        ensures memory { IsErrOf result Refusal.NoMemory → IsTrue (queues_more self.old (spurious self.old who)) }
    {
        let Some(name) = self.name_of(who) else {
            return Err(Refusal::NotAllowed);
        };
        add(&mut self.queue, name)?;
        Ok(())
    }

    /// A queued report is withdrawn before a poll gives it. Refuses with `NotAllowed`, and changes nothing, if the
    /// report is not queued, or if a call could do something there.
    pub fn vanish(&mut self, who: Watched) -> Result<(), Refusal>
        ensures { MeetsAlways (vanish self.old who) self.old self.new result }
    {
        let Some(name) = self.name_of(who) else {
            return Err(Refusal::NotAllowed);
        };
        if !self.is_queued(&name) || !self.is_quiet(who) {
            return Err(Refusal::NotAllowed);
        }
        remove(&mut self.queue, &name);
        Ok(())
    }

    /// Whether a poll may give these names.
    pub fn may_poll(&self, names: &[Name]) -> bool
        ensures { IsTrue result ↔ IsSome (poll self.now names.now) }
    {
        names.len() <= MAX_POLLED && are_among(self.queue.as_slice(), names) && are_distinct(names)
    }

    /// A poll gives these names, and they leave the queue (epoll_wait(2)). Refuses with `NotAllowed`, and changes
    /// nothing, if there are more than [`MAX_POLLED`], or if a name is not queued or is there twice.
    pub fn poll(&mut self, names: &[Name]) -> Result<(), Refusal>
        ensures { MeetsAlways (poll self.old names.now) self.old self.new result }
    {
        if !self.may_poll(names) {
            return Err(Refusal::NotAllowed);
        }
        remove_all(&mut self.queue, names);
        Ok(())
    }

    /// A client connects, and waits at the listener (listen(2)).
    ///
    /// Refuses with `NotAllowed` if [`MAX_BACKLOG`] wait already, and with `NoMemory` if the queue has to grow and
    /// cannot. A refusal changes nothing.
    pub fn connect_in(&mut self) -> Result<(), Refusal>
        ensures outcome { Meets (connect_in self.old) self.old self.new result }
        ensures memory { IsErrOf result Refusal.NoMemory → IsTrue (queues_more self.old (connect_in self.old)) }
    {
        if self.backlog >= MAX_BACKLOG {
            return Err(Refusal::NotAllowed);
        }
        if self.armed {
            add(&mut self.queue, Name::Listener)?;
        }
        self.armed = false;
        self.backlog += 1;
        Ok(())
    }

    /// The listener gives this reply to accept(2). Refuses with `NotAllowed`, and changes nothing, if the reply is
    /// `Accepted` and nobody waits, or `Blocked` and somebody does.
    pub fn accept(&mut self, reply: Accepting) -> Result<(), Refusal>
        ensures { MeetsAlways (accept self.old reply) self.old self.new result }
    {
        match reply {
            Accepting::Accepted if self.backlog > 0 => self.backlog -= 1,
            Accepting::Blocked if self.backlog == 0 => self.armed = true,
            Accepting::Accepted | Accepting::Blocked => return Err(Refusal::NotAllowed),
            Accepting::Again | Accepting::Starved => {}
        }
        Ok(())
    }

    fn name_of(&self, who: Watched) -> Option<Name>
        ensures { result ≡ name_watched self.now who }
    {
        match who {
            Watched::Listener => Some(Name::Listener),
            Watched::Waker => Some(Name::Waker),
            Watched::End(descriptor) => Some(Name::End(self.end(descriptor)?.token)),
        }
    }

    fn is_quiet(&self, who: Watched) -> bool
        ensures { result ≡ is_quiet self.now who }
    {
        match who {
            Watched::Listener => self.backlog == 0,
            Watched::Waker => true,
            Watched::End(descriptor) => match self.end(descriptor) {
                Some(open) => !open.socket.is_readable() && !open.socket.is_writable(),
                None => true,
            },
        }
    }
}

/// The lowest descriptor that is not open.
pub fn lowest_free(ends: &[Option<Open>]) -> usize
    ensures { result ≡ lowest_free ends.now }
{
    match first_closed(ends) {
        Some(descriptor) => descriptor,
        None => ends.len(),
    }
}

fn first_closed(ends: &[Option<Open>]) -> Option<usize>
    ensures { result ≡ position is_none ends.now }
{
    ends.iter().position(|place| place.is_none())
}
