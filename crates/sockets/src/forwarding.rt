//! Where clients are connected to, and how long is waited for a peer.
ghost use Rattle.std.specs.Prelude.{◌≡◌};
ghost use Rattle.sockets.specs.{Fronts.IsAt, Sockets.unlimited};

use mio::Registry;
use mio::net::{TcpListener, TcpStream};
use settings::Settings;
use std::io;
use std::net::{Net, SocketAddr};

/// Where clients' connections go, whether targets are sent clients' addresses, and how long to wait for a peer.
#[derive(Clone, Copy)]
pub struct Forwarding {
    /// The address to which each client is connected.
    pub target: SocketAddr,
    /// Whether the targets are sent a line with the addresses of their clients' connections.
    pub proxy: bool,
    /// How long to wait for a peer that does not answer.
    pub patience: Patience,
}

impl Forwarding {
    /// As the settings say, with this patience.
    pub fn of(settings: &Settings, patience: Patience) -> Forwarding
        ensures target { IsAt settings.now.target result.target }
        ensures proxy { result.proxy ≡ settings.now.proxy }
        ensures patience { result.patience ≡ patience }
    {
        Forwarding {
            target: SocketAddr::from(settings.target),
            proxy: settings.proxy,
            patience,
        }
    }
}

/// How many seconds to wait for a peer that does not answer. `None` leaves it to the system.
#[derive(Clone, Copy)]
pub struct Patience {
    /// How long the connection to the target may take, 1 to 3600.
    pub connect: Option<u32>,
    /// How long a peer may be silent before the socket probes whether the peer is there, 1 to 32767.
    pub keepalive: Option<u32>,
}

impl Patience {
    /// As the system does by itself.
    pub const NONE: Patience = Patience {
        connect: None,
        keepalive: None,
    };

    /// The patience of a client's socket, which is connected: it has no limit for connecting.
    pub(crate) fn of_client(self) -> Patience
        ensures { result ≡ unlimited self }
    {
        Patience {
            connect: None,
            keepalive: self.keepalive,
        }
    }
}

/// A handle that starts and accepts connections. A thread can be started with a front that needs only this, but not
/// with `Net`. The trait leaves open what the system does.
pub trait Dial {
    ghost use Rattle.std.specs.{Prelude.{IfErr, IfOk}, declared.{io.Error.Error, net.SocketAddr.SocketAddr}};
    ghost use Rattle.mio.specs.declared.net.stream.TcpStream.{TcpStream};

    // This connection was started to this address, or accepted from it.
    ghost dialled: { SocketAddr → TcpStream → Type 0 };

    ghost accepted: { SocketAddr → TcpStream → Type 0 };

    // The system refused with this error: to start a connection, or to give one.
    ghost undialled: { Error → Type 0 };

    ghost unaccepted: { Error → Type 0 };

    /// Starts a connection to an address (socket(2), connect(2)).
    fn dial(&self, address: SocketAddr) -> io::Result<TcpStream>
        ensures dialled { IfOk result (dialled address) }
        ensures refused { IfErr result undialled };

    /// Accepts the next connection that waits (accept(2)). Gives its client's address, too.
    fn accept(&self, listener: &TcpListener) -> io::Result<(TcpStream, SocketAddr)>
        ensures accepted { IfOk result (λ made. accepted made.1 made.0) }
        ensures refused { IfErr result unaccepted };

    /// Fails if the process cannot have two descriptors more: those of a client and its target.
    fn look_for_two(&self, registry: &Registry) -> io::Result<()>
        ensures { IfErr result unaccepted };
}

impl<R: Net> Dial for R {
    ghost dialled = { λ _ _. Unit {0} };

    ghost accepted = { λ _ _. Unit {0} };

    ghost undialled = { λ _. Unit {0} };

    ghost unaccepted = { λ _. Unit {0} };

    fn dial(&self, address: SocketAddr) -> io::Result<TcpStream> {
        TcpStream::connect(self, address)
    }

    fn accept(&self, listener: &TcpListener) -> io::Result<(TcpStream, SocketAddr)> {
        listener.accept()
    }

    fn look_for_two(&self, registry: &Registry) -> io::Result<()> {
        let _client = registry.try_clone()?;
        let _target = registry.try_clone()?;
        Ok(())
    }
}
