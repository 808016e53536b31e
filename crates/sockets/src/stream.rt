//! What a wire needs of a system's socket.
ghost use Rattle.std.specs.{Prelude.{length, OnOk}, Io.WritesAtMost};
ghost use Rattle.engine.specs.Wires.{read_gave, write_gave, call_gave};
ghost use Rattle.sockets.specs.Sockets.{StreamMade, Called, Pending, Named, NamedHere, SentAtOnce, GivesUpAfter, Probes, Registered, Looked};
ghost use Rattle.engine.specs.Wires as ask;

use mio::{Registry, Token};
use readiness::Told;
use std::io;
use std::net::SocketAddr;

/// A stream socket of the system, and the word for its reports, as a wire uses them. Each method but `is_told` and
/// `probe` is one system call, which never waits.
///
/// Only the system knows what a call does, so the trait leaves that open. What is proved of a wire over any such
/// socket says which calls it makes, and that it gives their answers unchanged.
pub trait Stream {
    // What a system call may do: the call with its answer, and the socket before and after.
    ghost did: { StreamMade → Self → Self → Type 0 };

    /// read(2) into all of the buffer.
    fn read(&mut self, buffer: &mut [u8]) -> io::Result<usize>
        ensures most { WritesAtMost result buffer.new }
        ensures did { did (Called (ask.Read (length buffer.old)) (read_gave result buffer.new)) self.old self.new };

    /// write(2) of all that is offered.
    fn write(&mut self, offer: &[u8]) -> io::Result<usize>
        ensures most { WritesAtMost result offer.now }
        ensures did { did (Called (ask.Write offer.now) (write_gave result)) self.old self.new };

    /// shutdown(2) with `SHUT_WR`.
    fn shut_write(&mut self) -> io::Result<()>
        ensures { did (Called ask.Shut (call_gave result)) self.old self.new };

    /// The error that is pending on the socket (SO_ERROR of socket(7)).
    fn pending(&mut self) -> io::Result<Option<io::Error>>
        ensures { did (Pending result) self.old self.new };

    /// The address at the other end (getpeername(2)).
    fn peer(&self) -> io::Result<SocketAddr>
        ensures { did (Named result) self.now self.now };

    /// The address at this end (getsockname(2)), on which a client was accepted.
    fn local(&self) -> io::Result<SocketAddr>
        ensures { did (NamedHere result) self.now self.now };

    /// Has the socket send at once, or wait for more to send along (TCP_NODELAY of tcp(7)), if the system allows it.
    fn send_at_once(&mut self, at_once: bool)
        ensures { did (SentAtOnce at_once) self.old self.new };

    /// Has the connection fail if for this many milliseconds it is not made, or what it sent is not taken
    /// (TCP_USER_TIMEOUT of tcp(7)). With 0 the system's own limits hold.
    fn give_up_after(&mut self, millis: u64) -> io::Result<()>
        ensures { did (GivesUpAfter millis) self.old self.new };

    /// Has the peer probed once it is silent for this many seconds (SO_KEEPALIVE of socket(7)), by up to four system
    /// calls. The socket does not probe if the system refuses one.
    fn probe(&mut self, seconds: u32) -> io::Result<()>
        ensures { did (Probes seconds) self.old self.new };

    /// Has the socket reported for reading and writing, edge-triggered, under a token (epoll_ctl(2)). Its reports that
    /// name reading set the word `told`. Without that word, each look finds a report.
    fn register(&mut self, registry: &Registry, token: Token, told: Option<Told>) -> io::Result<()>
        ensures { OnOk result (did (Registered token.0 told) self.old self.new) };

    /// Looks whether a report that names reading came since the last look. This is no system call.
    fn is_told(&mut self) -> bool
        ensures { did (Looked result) self.old self.new };
}
