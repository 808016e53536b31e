//! The system's TCP socket as a `Stream`.
ghost use Rattle.std.specs.Prelude.{◌≡◌};

use crate::loads::Load;
use crate::options;
use crate::stream::Stream;
use mio::net::TcpStream;
use mio::{Interest, Registry, Token};
use readiness::Told;
use std::io;
use std::net::{Shutdown, SocketAddr};
use std::sync::Arc;

/// A TCP socket of the system, and the word for its reports.
#[derive(Drop)]
pub struct Socket {
    stream: TcpStream,
    told: Option<Told>,
    // A client's share of its poller's load.
    _share: Option<Arc<Load>>,
}

impl Socket {
    /// A socket that is not reported yet.
    pub fn new(stream: TcpStream) -> Socket
        ensures { result.stream ≡ stream }
    {
        Socket::of(stream, None)
    }

    pub(crate) fn of(stream: TcpStream, share: Option<Arc<Load>>) -> Socket
        ensures { result.stream ≡ stream }
    {
        Socket {
            stream,
            told: None,
            _share: share,
        }
    }

    /// Whether the socket sends at once (TCP_NODELAY of tcp(7)), as the system says.
    pub fn sends_at_once(&self) -> io::Result<bool> {
        self.stream.nodelay()
    }
}

impl Stream for Socket {
    ghost did = { λ _ old new. new.stream ≡ old.stream };

    fn read(&mut self, buffer: &mut [u8]) -> io::Result<usize> {
        io::Read::read(&mut self.stream, buffer)
    }

    fn write(&mut self, offer: &[u8]) -> io::Result<usize> {
        io::Write::write(&mut self.stream, offer)
    }

    fn shut_write(&mut self) -> io::Result<()> {
        self.stream.shutdown(Shutdown::Write)
    }

    fn pending(&mut self) -> io::Result<Option<io::Error>> {
        self.stream.take_error()
    }

    fn peer(&self) -> io::Result<SocketAddr> {
        self.stream.peer_addr()
    }

    fn local(&self) -> io::Result<SocketAddr> {
        self.stream.local_addr()
    }

    fn send_at_once(&mut self, at_once: bool) {
        let _ = self.stream.set_nodelay(at_once);
    }

    fn give_up_after(&mut self, millis: u64) -> io::Result<()> {
        options::give_up_after(&self.stream, millis)
    }

    fn probe(&mut self, seconds: u32) -> io::Result<()> {
        options::probe(&self.stream, seconds)
    }

    fn register(
        &mut self,
        registry: &Registry,
        token: Token,
        told: Option<Told>,
    ) -> io::Result<()> {
        let both = Interest::READABLE | Interest::WRITABLE;
        self.told = told;
        registry.register(&mut self.stream, token, both)
    }

    fn is_told(&mut self) -> bool {
        match &self.told {
            Some(told) => told.take(&mut ()),
            None => true,
        }
    }
}
