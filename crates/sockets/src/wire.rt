//! The wire over a system's socket.
ghost use Rattle.std.specs.{Prelude.{◌≡◌, true, false, Some, None, IfSome, OnOk, OnErr}, IoError.error_kind};
ghost use Rattle.token.specs.Names.{end_number};
ghost use Rattle.engine.specs.{Classes.{class_by, pending_kind, connected, counted}, Wires.call_gave};
ghost use Rattle.sockets.specs.Sockets.{HasAddress, IsOffered, Registered, Switches, Joins, Lifts, Limits, Probing, Waits, fresh_wire, patient, promptly, took, under, reads_after_error, goes_on_after, Looked};

use crate::delay::Delay;
use crate::failure::log_failure;
use crate::forwarding::Patience;
use crate::socket::Socket;
use crate::stream::Stream;
use engine::{Class, Tally, Wire, class_by};
use log::{Level, Log};
use mio::Registry;
use readiness::{Attention, Told};
use relay_core::CallKind;
use shared::Settle;
use std::io;
use std::marker::Model;
use std::net::SocketAddr;
use token::Token;

/// The wire over one system socket. A write is one system call, and so is a read, unless the wire knows its answer:
/// after a read that would block, the wire answers "would block" by itself until a report that names reading has come,
/// or a call fails.
///
/// It counts its answers by [`class_by`](engine::class_by). Its contract says which system calls it makes, but not
/// which bytes come: only the system knows.
#[derive(Drop)]
pub struct SocketWire<S = Socket> {
    stream: S,
    tally: Tally,
    delay: Delay,
    attention: Attention,
    peer: Option<SocketAddr>,
    watched: Option<Token>,
    patience: Patience,
    // The number of the system's error by which the last call failed, for the log.
    error: Option<i32>,
}

impl<S> Model for SocketWire<S> {
    ghost use Rattle.sockets.specs.Sockets.{Wired};

    ghost Value = { Wired S };

    ghost view = { λ w. record {
      stream = w.stream;
      socket = record {
        tally = w.tally;
        sending = w.delay;
        reads = w.attention;
        peer = w.peer;
        watched = w.watched;
        patience = w.patience;
      };
    } };
}

impl<S: Stream> SocketWire<S> {
    /// A client's socket, which is connected, and the client's address.
    pub fn accepted(stream: S, peer: SocketAddr) -> SocketWire<S>
        ensures { result ≡ record { stream = stream; socket = fresh_wire true (Some peer) } }
    {
        SocketWire::new(stream, true, Some(peer))
    }

    /// A target's socket, which is connecting.
    pub fn connecting(stream: S) -> SocketWire<S>
        ensures { result ≡ record { stream = stream; socket = fresh_wire false None } }
    {
        SocketWire::new(stream, false, None)
    }

    fn new(stream: S, joined: bool, peer: Option<SocketAddr>) -> SocketWire<S>
        ensures { result ≡ record { stream = stream; socket = fresh_wire joined peer } }
    {
        SocketWire {
            stream,
            tally: Tally::new(joined),
            delay: Delay::new(),
            attention: Attention::new(),
            peer,
            watched: None,
            patience: Patience::NONE,
            error: None,
        }
    }

    /// The socket.
    pub fn stream(&self) -> &S
        ensures { result.now ≡ self.now.stream }
    {
        &self.stream
    }

    /// The address of the client, if the wire is a client's.
    pub fn peer(&self) -> Option<SocketAddr>
        ensures { result ≡ self.now.socket.peer }
    {
        self.peer
    }

    /// Has the socket reported under a token's number ([`Stream::register`]). `told` is the word of that token. Without
    /// it the wire always reads.
    pub(crate) fn watch(
        &mut self,
        registry: &Registry,
        token: Token,
        told: Option<Told>,
    ) -> io::Result<()>
        requires told { IfSome told (λ word. word ≡ record { slot = token.slot; side = token.side }) }
        ensures registered { OnOk result (S.did (Registered (end_number token) told) self.old.stream self.new.stream) }
        ensures watched { OnOk result (self.new.socket ≡ under token self.old.socket) }
        ensures unwatched { OnErr result (self.new.socket ≡ self.old.socket) }
    {
        let number = mio::Token(token.value() as usize);
        self.stream.register(registry, number, told)?;
        self.watched = Some(token);
        Ok(())
    }

    /// Sets how long the socket waits for its peer. If the system refuses, that is logged at level debug, and the
    /// socket waits as the system does by itself.
    pub(crate) fn wait_for_peer<N: Log>(&mut self, rt: &N, patience: Patience)
        ensures waits { Waits S.did patience self.old.stream self.new.stream }
        ensures given { self.new.socket ≡ patient patience self.old.socket }
    {
        self.limit(rt, patience.connect);
        self.probe(rt, patience.keepalive);
        self.patience = patience;
    }

    fn limit<N: Log>(&mut self, rt: &N, seconds: Option<u32>)
        ensures limited { Limits S.did seconds self.old.stream self.new.stream }
        ensures same { self.new.socket ≡ self.old.socket }
    {
        let Some(seconds) = seconds else {
            return;
        };
        if let Err(error) = self.stream.give_up_after(u64::from(seconds) * 1000) {
            log_failure(rt, Level::Debug, "connect-timeout", &error);
        }
    }

    fn probe<N: Log>(&mut self, rt: &N, seconds: Option<u32>)
        ensures probed { Probing S.did seconds self.old.stream self.new.stream }
        ensures same { self.new.socket ≡ self.old.socket }
    {
        let Some(seconds) = seconds else {
            return;
        };
        if let Err(error) = self.stream.probe(seconds) {
            log_failure(rt, Level::Debug, "keepalive", &error);
        }
    }

    /// The socket is known to be connected. Its limit for connecting is lifted: it would also end a connection whose
    /// peer takes nothing.
    fn connect(&mut self)
        ensures connected { self.new.socket ≡ record self.old.socket { tally = connected self.old.socket.tally } }
        ensures lifted { Lifts S.did self.old.socket.patience.connect self.old.socket.tally.joined true self.old.stream self.new.stream }
    {
        let is_lifted = self.patience.connect.is_some() && !self.tally.joined();
        self.tally.connect();
        if is_lifted {
            let _ = self.stream.give_up_after(0);
        }
    }

    /// Keeps this error of the connection for the log.
    pub(crate) fn keep(&mut self, error: &io::Error)
        ensures { self.new ≡ self.old }
    {
        self.error = error.raw_os_error();
    }

    /// Keeps the error that the connection's other wire kept.
    pub(crate) fn keep_of(&mut self, other: &SocketWire<S>)
        ensures { self.new ≡ self.old }
    {
        self.error = other.error;
    }

    /// Whether the wire reads its socket. If not, it looks first, and reads from now on if there was a report that
    /// names reading.
    fn looks(&mut self) -> bool
        ensures kept { self.old.socket.reads ≡ true → (result ≡ true) × (self.new.stream ≡ self.old.stream) }
        ensures look { self.old.socket.reads ≡ false → S.did (Looked result) self.old.stream self.new.stream }
        ensures reads { self.new.socket ≡ record self.old.socket { reads = result } }
    {
        if self.attention.reads() {
            return true;
        }
        let told = self.stream.is_told();
        self.attention.look(told);
        told
    }

    /// Counts an error of a call by its class.
    #[inline(always)]
    fn refuse(&mut self, call: CallKind, error: &io::Error)
        ensures counted { self.new.socket.tally ≡ counted (class_by call self.old.socket.tally.joined (error_kind error.now))
            self.old.socket.tally }
        ensures reads { self.new.socket.reads ≡ reads_after_error call (class_by call self.old.socket.tally.joined (error_kind error.now))
            self.old.socket.reads }
        ensures joined { self.new.socket.tally.joined ≡ self.old.socket.tally.joined }
        ensures rest { self.new.socket ≡ record self.old.socket { tally = self.new.socket.tally; reads = self.new.socket.reads } }
        ensures stream { self.new.stream ≡ self.old.stream }
    {
        let kind = error.kind();
        let class = class_by(call, kind, self.tally.joined());
        self.heed(call, class, error);
        self.tally.refuse(call, kind);
    }

    /// After a read that would block, the wire stops reading. After a failure, which is kept for the log, it reads
    /// again.
    fn heed(&mut self, call: CallKind, class: Class, error: &io::Error)
        ensures { self.new ≡ record self.old {
          socket = record self.old.socket {
            reads = reads_after_error call class self.old.socket.reads;
          };
        } }
    {
        match class {
            Class::Interrupted => {}
            Class::Failed(_) => {
                self.attention.wake();
                self.keep(error);
            }
            Class::Blocked if call == CallKind::Read => self.attention.rest(),
            Class::Blocked => {}
        }
    }

    fn took(&mut self, count: usize, offered: usize)
        ensures counted { self.new.socket ≡ record self.old.socket {
          tally = took count offered self.old.socket.tally;
          reads = goes_on_after count offered self.old.socket.reads;
        } }
        ensures lifted { Lifts S.did self.old.socket.patience.connect self.old.socket.tally.joined self.new.socket.tally.joined
            self.old.stream self.new.stream }
    {
        if count > 0 {
            self.connect();
        } else if offered > 0 {
            self.attention.wake();
            self.tally.none_taken();
        }
    }

    /// In bulk the socket may wait for more from now on.
    fn offered(&mut self, bytes: usize)
        ensures offered { IsOffered bytes self.old.socket.sending self.new.socket.sending }
        ensures same { self.new.socket ≡ record self.old.socket { sending = self.new.socket.sending } }
        ensures switched { Switches S.did self.old.socket.sending.at_once self.new.socket.sending.at_once self.old.stream self.new.stream }
    {
        if self.delay.offer(bytes) {
            self.stream.send_at_once(false);
        }
    }
}

/// Refuses unless the socket is connected: with its pending error, or since it has no peer yet.
fn stand<S: Stream>(stream: &mut S) -> io::Result<()>
    ensures { Joins S.did (call_gave result) stream.old stream.new }
{
    if let Some(error) = stream.pending()? {
        return Err(failure(error));
    }
    stream.peer()?;
    Ok(())
}

/// The answer of a call that found this error pending on a socket: the system's own error, with its number, unless its
/// kind could mean something other than a failure.
fn failure(pending: io::Error) -> io::Error
    ensures { error_kind result ≡ pending_kind (error_kind pending) }
{
    let told = engine::pending(pending.kind());
    if told == pending.kind() {
        pending
    } else {
        io::Error::from(told)
    }
}

impl<S: Stream> Wire for SocketWire<S> {
    ghost use Rattle.engine.specs.Wires.{counts_alone};
    ghost use Rattle.sockets.specs.Sockets.{IsDone};

    ghost told = { λ w. counts_alone w.socket.tally.faults w.socket.tally.blocks };

    ghost does = { IsDone S.did };

    #[inline(always)]
    fn read(&mut self, buffer: &mut [u8]) -> io::Result<usize> {
        if !self.looks() {
            let blocked = io::ErrorKind::WouldBlock;
            self.tally.refuse(CallKind::Read, blocked);
            return Err(io::Error::from(blocked));
        }
        let answer = self.stream.read(buffer);
        match &answer {
            Ok(_) => self.connect(),
            Err(error) => self.refuse(CallKind::Read, error),
        }
        answer
    }

    #[inline(always)]
    fn write(&mut self, offer: &[u8]) -> io::Result<usize> {
        let answer = self.stream.write(offer);
        self.offered(offer.len());
        match &answer {
            Ok(count) => self.took(*count, offer.len()),
            Err(error) => self.refuse(CallKind::Write, error),
        }
        answer
    }

    fn shut_write(&mut self) -> io::Result<()> {
        let answer = self.stream.shut_write();
        if let Err(error) = &answer {
            self.refuse(CallKind::Shut, error);
        }
        answer
    }

    fn joined(&mut self) -> io::Result<()> {
        let answer = stand(&mut self.stream);
        match &answer {
            Ok(()) => self.connect(),
            Err(error) => self.refuse(CallKind::Join, error),
        }
        answer
    }

    fn faults(&self) -> u64 {
        self.tally.faults()
    }

    fn blocks(&self) -> u64 {
        self.tally.blocks()
    }
}

impl<S: Stream> Settle for SocketWire<S> {
    ghost is_at = { λ wire address. HasAddress S.did wire.stream (Some address) };

    fn settle(&mut self)
        ensures told { (self.new.socket.tally.faults ≡ self.old.socket.tally.faults)
            × (self.new.socket.tally.blocks ≡ self.old.socket.tally.blocks) }
        ensures settled { self.new.socket ≡ promptly self.old.socket }
        ensures switched { Switches S.did self.old.socket.sending.at_once true self.old.stream self.new.stream }
    {
        if self.delay.settle() {
            self.stream.send_at_once(true);
        }
    }

    fn error(&self) -> Option<i32> {
        self.error
    }

    fn is_connected(&self) -> Option<bool> {
        match self.stream.peer() {
            Ok(_) => Some(true),
            Err(error) if error.kind() == io::ErrorKind::NotConnected => Some(false),
            Err(_) => None,
        }
    }

    fn local(&self) -> Option<SocketAddr>
        ensures { HasAddress S.did self.now.stream result }
    {
        self.stream.local().ok()
    }
}
