//! A socket as plain values: what the network does to it, and what it may reply to a call.
ghost use Rattle.std.specs.{Prelude.{◌≡◌, Ok, Err, IsErrOf, IsTrue, IsSome, IfSome, ◌↔◌, false, if◌then◌else◌}, Option.option_copied};
ghost use Rattle.kernel_model.specs.{Outcome.{guard, Meets, MeetsAlways, Tells, TellsAlways}, Ends.{IsTailOf, opened, is_readable, is_writable, arrival, finish, failure, new_room}, Changes.{brings_bytes, change_of}, Replies.{bytes_read, failed, blocked_write, wrote, after_read, after_write, needs_memory, after_join, after_shut}};

use crate::change::Change;
use crate::{Refusal, Reply};
use std::alloc::Global;
use std::marker::Model;
use std::mem;
use token::{Kind, Side};

/// One end of a connection: a stream socket as plain values.
#[derive(Drop)]
pub struct End {
    arrived: Vec<u8>,
    // How many bytes of `arrived` were read.
    read: usize,
    taken: Vec<u8>,
    fin: bool,
    err: bool,
    room: bool,
    shut: bool,
    read_armed: bool,
    write_armed: bool,
}

impl Model for End {
    ghost use Rattle.std.specs.Prelude.{◌≤◌, drop, vec_len};
    ghost use Rattle.kernel_model.specs.Ends.{EndState};

    ghost Value = { EndState };

    ghost view = { λ e. record {
      arrived = e.arrived.items;
      unread = drop e.read e.arrived.items;
      taken = e.taken.items;
      fin = e.fin;
      err = e.err;
      room = e.room;
      shut = e.shut;
      read_armed = e.read_armed;
      write_armed = e.write_armed;
    } };

    ghost invariant = { λ e. e.read ≤ vec_len e.arrived };
}

impl End {
    /// An end as it is when its connection opens. The client's end has room; the target's gets room when the connect
    /// completes.
    pub fn new(alloc: Global, side: Side) -> End
        ensures { result ≡ opened side }
    {
        End {
            arrived: Vec::new(alloc),
            read: 0,
            taken: Vec::new(alloc),
            fin: false,
            err: false,
            room: side == Side::Client,
            shut: false,
            read_armed: false,
            write_armed: false,
        }
    }

    /// Every byte that ever arrived.
    pub fn arrived(&self) -> &[u8]
        ensures { result.now ≡ self.now.arrived }
    {
        self.arrived.as_slice()
    }

    /// The bytes that were not read yet.
    pub fn unread(&self) -> &[u8]
        ensures value { result.now ≡ self.now.unread }
        ensures last { IsTailOf self.now.arrived result.now }
    {
        &self.arrived[self.read..]
    }

    /// Every byte that writes took.
    pub fn taken(&self) -> &[u8]
        ensures { result.now ≡ self.now.taken }
    {
        self.taken.as_slice()
    }

    /// Whether the peer's end of input has arrived.
    pub fn has_fin(&self) -> bool
        ensures { result ≡ self.now.fin }
    {
        self.fin
    }

    /// Whether an error has arrived, such as a reset by the peer.
    pub fn has_err(&self) -> bool
        ensures { result ≡ self.now.err }
    {
        self.err
    }

    /// Whether a write would take at least one byte.
    pub fn has_room(&self) -> bool
        ensures { result ≡ self.now.room }
    {
        self.room
    }

    /// Whether sending was shut down.
    pub fn is_shut(&self) -> bool
        ensures { result ≡ self.now.shut }
    {
        self.shut
    }

    /// Whether a read would not block: unread bytes, the end of input, or an error.
    pub fn is_readable(&self) -> bool
        ensures { result ≡ is_readable self.now }
    {
        self.read < self.arrived.len() || self.fin || self.err
    }

    /// Whether a write would not block: room, or an error.
    pub fn is_writable(&self) -> bool
        ensures { result ≡ is_writable self.now }
    {
        self.room || self.err
    }

    /// Whether these bytes may arrive from the peer.
    pub fn may_arrive(&self, bytes: &[u8]) -> bool
        ensures { IsTrue result ↔ IsSome (arrival self.now bytes.now) }
    {
        !bytes.is_empty() && !self.fin && !self.err
    }

    /// Bytes arrive from the peer. Returns whether their arrival must be reported.
    ///
    /// Refuses with `NotAllowed` if `bytes` is empty, or after the end of input or an error, and with `NoMemory` if
    /// the list of what arrived cannot grow. A refusal changes nothing.
    pub fn arrive(&mut self, bytes: &[u8]) -> Result<bool, Refusal>
        ensures { Tells (arrival self.old bytes.now) self.old self.new result }
    {
        if !self.may_arrive(bytes) {
            return Err(Refusal::NotAllowed);
        }
        self.arrived.extend_from_slice(bytes)?;
        Ok(self.report_read())
    }

    /// The peer's end of input arrives. Returns whether that must be reported. Refuses with `NotAllowed`, and changes
    /// nothing, if the end of input or an error arrived before.
    pub fn fin(&mut self) -> Result<bool, Refusal>
        ensures { TellsAlways (finish self.old) self.old self.new result }
    {
        if self.fin || self.err {
            return Err(Refusal::NotAllowed);
        }
        self.fin = true;
        Ok(self.report_read())
    }

    /// An error arrives, such as a reset by the peer. Returns whether that must be reported. Refuses with
    /// `NotAllowed`, and changes nothing, if an error arrived before.
    pub fn reset(&mut self) -> Result<bool, Refusal>
        ensures { TellsAlways (failure self.old) self.old self.new result }
    {
        if self.err {
            return Err(Refusal::NotAllowed);
        }
        self.err = true;
        let read = self.report_read();
        let write = self.report_write();
        Ok(read || write)
    }

    /// The end gets room for writes. Returns whether that must be reported. Refuses with `NotAllowed`, and changes
    /// nothing, if the end has room, or after an error.
    pub fn room(&mut self) -> Result<bool, Refusal>
        ensures { TellsAlways (new_room self.old) self.old self.new result }
    {
        if self.room || self.err {
            return Err(Refusal::NotAllowed);
        }
        self.room = true;
        Ok(self.report_write())
    }

    /// Whether the network may make this change.
    pub(crate) fn may_change(&self, change: Change<'_>) -> bool
        ensures { IsTrue result ↔ IsSome (change_of change.entry self.now) }
    {
        match change {
            Change::Arrive(bytes) => self.may_arrive(bytes),
            Change::Fin => !self.fin && !self.err,
            Change::Reset => !self.err,
            Change::Room => !self.room && !self.err,
        }
    }

    /// Whether a change that the network may make must be reported.
    pub(crate) fn will_report(&self, change: Change<'_>) -> bool
        ensures { IfSome (change_of change.entry self.now) (λ told. told.told ≡ result) }
    {
        match change {
            Change::Arrive(_) | Change::Fin => self.read_armed,
            Change::Reset => self.read_armed || self.write_armed,
            Change::Room => self.write_armed,
        }
    }

    /// The network makes this change. Returns whether that must be reported.
    pub(crate) fn change(&mut self, change: Change<'_>) -> Result<bool, Refusal>
        ensures outcome { Tells (change_of change.entry self.old) self.old self.new result }
        ensures memory { IsErrOf result Refusal.NoMemory → IsTrue (brings_bytes change.entry) }
    {
        match change {
            Change::Arrive(bytes) => self.arrive(bytes),
            Change::Fin => self.fin(),
            Change::Reset => self.reset(),
            Change::Room => self.room(),
        }
    }

    /// The bytes that a read of at most `most` bytes gives if it returns `count` of them. None if `count` is 0, or
    /// more than `most` or than the unread bytes.
    pub fn bytes_read(&self, most: usize, count: usize) -> Option<&[u8]>
        ensures { option_copied result ≡ bytes_read self.now most count }
    {
        if count == 0 || count > most {
            return None;
        }
        self.unread().get(..count)
    }

    /// A read of at most `most` bytes gets this reply (read(2)).
    ///
    /// Refuses with `NotAllowed`, and changes nothing, if a read may not get this reply: no bytes, or more than `most`
    /// or than are unread; the end of input before it has arrived or while bytes are unread; blocked while the end is
    /// readable; a failure of the kind `Zero`; or a reply to another call.
    pub fn read(&mut self, most: usize, reply: Reply) -> Result<(), Refusal>
        ensures { MeetsAlways (after_read self.old most reply) self.old self.new result }
    {
        match reply {
            Reply::Bytes(count) => self.give(most, count),
            Reply::End => allowed(self.read == self.arrived.len() && self.fin),
            Reply::Blocked => self.block_read(),
            Reply::Interrupted => Ok(()),
            Reply::Failed(kind) => allowed(kind != Kind::Zero),
            _ => Err(Refusal::NotAllowed),
        }
    }

    /// A write of `offer` gets this reply (write(2)).
    ///
    /// Refuses with `NotAllowed` if a write may not get this reply: a count without room, or a count that is 0 or more
    /// than was offered; blocked while the end is writable; or a reply to another call. Refuses with `NoMemory` if the
    /// write takes bytes and their list cannot grow. A refusal changes nothing.
    pub fn write(&mut self, offer: &[u8], reply: Reply) -> Result<(), Refusal>
        ensures outcome { Meets (after_write self.old offer.now reply) self.old self.new result }
        ensures memory { IsErrOf result Refusal.NoMemory → IsTrue (needs_memory reply) }
    {
        match reply {
            Reply::Wrote(count, full) => self.take(offer, count, full),
            Reply::Blocked => self.block_write(),
            Reply::Interrupted | Reply::Failed(_) => Ok(()),
            _ => Err(Refusal::NotAllowed),
        }
    }

    /// The question whether the connect has completed gets this reply (connect(2)).
    ///
    /// Refuses with `NotAllowed`, and changes nothing, if the question may not get this reply: joined without room;
    /// blocked while the end is writable; a failure of the kind `Zero`; or a reply to another call.
    pub fn join(&mut self, reply: Reply) -> Result<(), Refusal>
        ensures { MeetsAlways (after_join self.old reply) self.old self.new result }
    {
        match reply {
            Reply::Joined => allowed(self.room),
            Reply::Blocked => self.block_write(),
            Reply::Interrupted => Ok(()),
            Reply::Failed(kind) => allowed(kind != Kind::Zero),
            _ => Err(Refusal::NotAllowed),
        }
    }

    /// A shutdown of sending gets this reply (shutdown(2) with `SHUT_WR`).
    ///
    /// Refuses with `NotAllowed`, and changes nothing, if a shutdown may not get this reply: blocked, a failure of the
    /// kind `Zero`, or a reply to another call.
    pub fn shut(&mut self, reply: Reply) -> Result<(), Refusal>
        ensures { MeetsAlways (after_shut self.old reply) self.old self.new result }
    {
        match reply {
            Reply::Shut => {
                self.shut = true;
                Ok(())
            }
            Reply::Interrupted => Ok(()),
            Reply::Failed(kind) => allowed(kind != Kind::Zero),
            _ => Err(Refusal::NotAllowed),
        }
    }

    fn report_read(&mut self) -> bool
        ensures told { result ≡ self.old.read_armed }
        ensures cleared { self.new ≡ record self.old { read_armed = false } }
    {
        mem::replace(&mut self.read_armed, false)
    }

    fn report_write(&mut self) -> bool
        ensures told { result ≡ self.old.write_armed }
        ensures cleared { self.new ≡ record self.old { write_armed = false } }
    {
        mem::replace(&mut self.write_armed, false)
    }

    fn give(&mut self, most: usize, count: usize) -> Result<(), Refusal>
        ensures { MeetsAlways (after_read self.old most (Reply.Bytes count)) self.old self.new result }
    {
        if self.bytes_read(most, count).is_none() {
            return Err(Refusal::NotAllowed);
        }
        self.read += count;
        Ok(())
    }

    fn block_read(&mut self) -> Result<(), Refusal>
        ensures { MeetsAlways (after_read self.old 0 Reply.Blocked) self.old self.new result }
    {
        if self.is_readable() {
            return Err(Refusal::NotAllowed);
        }
        self.read_armed = true;
        Ok(())
    }

    fn take(&mut self, offer: &[u8], count: usize, full: bool) -> Result<(), Refusal>
        ensures { Meets (wrote self.old offer.now count full) self.old self.new result }
    {
        if !self.room || count == 0 || count > offer.len() {
            return Err(Refusal::NotAllowed);
        }
        self.taken.extend_from_slice(&offer[..count])?;
        self.room = !full;
        Ok(())
    }

    /// A write or a join would block.
    fn block_write(&mut self) -> Result<(), Refusal>
        ensures { MeetsAlways (blocked_write self.old) self.old self.new result }
    {
        if self.is_writable() {
            return Err(Refusal::NotAllowed);
        }
        self.write_armed = true;
        Ok(())
    }
}

/// Accepts or refuses a reply that changes nothing.
fn allowed(is_allowed: bool) -> Result<(), Refusal>
    ensures { result ≡ (if is_allowed then Ok tt else Err Refusal.NotAllowed) }
{
    if is_allowed {
        Ok(())
    } else {
        Err(Refusal::NotAllowed)
    }
}
