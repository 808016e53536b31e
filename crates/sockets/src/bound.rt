//! The listening socket.
ghost use Rattle.std.specs.{Prelude.{◌≡◌, ◌↔◌, ◌<◌, IfOk, IfErr, IfNone, IfSome, IsTrue}, IoError.error_kind, Net.Socket.socket_port, declared.io.ErrorKind.TheVariants.PermissionDenied};
ghost use Rattle.sockets.specs.Fronts.{Agrees, IsAt, IsPassed};

use crate::passed::Passed;
use log::{Log, error};
use mio::net::TcpListener;
use settings::{Address, Settings};
use sizes::ServerFault;
use std::io;
use std::marker::Model;
use std::net::{Net, SocketAddr, SocketAddrV4};

/// The first port that needs no privilege, if the machine has it as usual.
const FIRST_FREE: u16 = 1_024;

/// A listening socket (listen(2)), and its address.
#[derive(Drop)]
pub struct Bound<L = TcpListener> {
    pub(crate) listener: L,
    asked: SocketAddr,
    address: SocketAddr,
}

impl<L> Model for Bound<L> {
    ghost use Rattle.sockets.specs.Fronts.{Listens};

    ghost Value = { Listens L };

    ghost view = { λ b. record { listener = b.listener; asked = b.asked; address = b.address } };
}

impl<L> Bound<L> {
    /// The address, with the port that the system chose if the settings ask for port 0.
    pub fn text(&self) -> SocketAddr
        ensures { result ≡ self.now.address }
    {
        self.address
    }
}

/// The socket on which a relay with these settings listens.
///
/// One that was passed has to be at the settings' address; port 0 there agrees with any. Without one the relay listens
/// by itself, with the longest backlog that the system allows. This works right after another server there has ended
/// (SO_REUSEADDR of socket(7)).
///
/// Refuses with `Listen` if the passed one is elsewhere, or if the system refuses. The cause was then logged, at level
/// error.
pub fn bind<R: Net + Log, L: Listening + Drop>(
    rt: &R,
    settings: &Settings,
    passed: Option<Passed<L>>,
) -> Result<Bound<L>, ServerFault>
    ensures asked { IfOk result (λ bound. IsAt settings.now.listen bound.asked) }
    ensures listens { IfNone passed (IfOk result (λ bound. L.listens bound.asked bound.listener)) }
    ensures passed { IfSome passed (λ given. IfOk result (λ bound. IsPassed given settings.now.listen bound)) }
    ensures refused { IfErr result (λ fault. fault ≡ ServerFault.Listen) }
{
    match passed {
        Some(passed) => adopt(rt, settings.listen, passed),
        None => listen_at(rt, SocketAddr::from(settings.listen)),
    }
}

/// A passed socket, if it is where the settings ask for one.
fn adopt<R: Log, L: Drop>(
    rt: &R,
    listen: Address,
    passed: Passed<L>,
) -> Result<Bound<L>, ServerFault>
    ensures asked { IfOk result (λ bound. IsAt listen bound.asked) }
    ensures passed { IfOk result (λ bound. IsPassed passed listen bound) }
    ensures refused { IfErr result (λ fault. fault ≡ ServerFault.Listen) }
{
    let (asked, address) = (SocketAddr::from(listen), passed.address);
    if !agrees(listen, address) {
        error!(rt; target: "relayd", "listen: {asked}: the socket that was passed listens at {address}");
        return Err(ServerFault::Listen);
    }
    Ok(Bound {
        listener: passed.listener,
        asked,
        address: SocketAddr::V4(address),
    })
}

/// Whether a socket at an address is where the settings ask for one.
fn agrees(listen: Address, address: SocketAddrV4) -> bool
    ensures { IsTrue result ↔ Agrees listen address }
{
    address.ip().octets() == listen.0 && (listen.1 == 0 || address.port() == listen.1)
}

fn listen_at<R: Net + Log, L: Listening + Drop>(
    rt: &R,
    address: SocketAddr,
) -> Result<Bound<L>, ServerFault>
    ensures asked { IfOk result (λ bound. bound.asked ≡ address) }
    ensures listens { IfOk result (λ bound. L.listens address bound.listener) }
    ensures refused { IfErr result (λ fault. fault ≡ ServerFault.Listen) }
{
    match listen(rt, address) {
        Ok(bound) => Ok(bound),
        Err(error) => {
            log_unbound(rt, address, &error);
            Err(ServerFault::Listen)
        }
    }
}

/// Logs why the relay cannot listen: with the privilege that is missing (ip(7), capabilities(7)), or what shows more.
fn log_unbound<N: Log>(rt: &N, address: SocketAddr, error: &io::Error) {
    let hint = match error.kind() {
        _ if needs_right(address, error) => ": a port below 1024 needs CAP_NET_BIND_SERVICE",
        io::ErrorKind::AddrNotAvailable => ": no interface here has it (ip addr)",
        io::ErrorKind::AddrInUse => ": ss -tan shows by what, also as the source of a connection",
        _ => "",
    };
    error!(rt; target: "relayd", "listen: {address}: {error}{hint}");
}

/// Whether a right is missing to listen at a port below 1024.
fn needs_right(address: SocketAddr, error: &io::Error) -> bool
    ensures { IsTrue result ↔ ((error_kind error.now ≡ PermissionDenied) × (socket_port address < 1024)) }
{
    error.kind() == io::ErrorKind::PermissionDenied && address.port() < FIRST_FREE
}

fn listen<R: Net, L: Listening + Drop>(rt: &R, asked: SocketAddr) -> io::Result<Bound<L>>
    ensures asked { IfOk result (λ bound. bound.asked ≡ asked) }
    ensures listens { IfOk result (λ bound. L.listens asked bound.listener) }
    ensures told { IfOk result (λ bound. L.told bound.address bound.listener) }
{
    let listener = L::listen(rt, asked)?;
    let address = listener.address()?;
    Ok(Bound {
        listener,
        asked,
        address,
    })
}

/// A socket that the system was asked to make listen at an address. Only the system knows at which address it listens,
/// so the trait leaves that open.
pub trait Listening: Sized {
    ghost use Rattle.std.specs.declared.net.SocketAddr.{SocketAddr};

    // `listens`: what the system makes when asked to. `told`: the system says that it listens at this address.
    ghost listens: { SocketAddr → Self → Type 0 };

    ghost told: { SocketAddr → Self → Type 0 };

    /// Listens at an address (socket(2), bind(2), listen(2)).
    fn listen<R: Net>(rt: &R, address: SocketAddr) -> io::Result<Self>
        ensures { IfOk result (λ listener. listens address listener) };

    /// The address at which it listens (getsockname(2)).
    fn address(&self) -> io::Result<SocketAddr>
        ensures { IfOk result (λ address. told address self.now) };
}

impl Listening for TcpListener {
    ghost listens = { λ _ _. Unit {0} };

    ghost told = { λ _ _. Unit {0} };

    fn listen<R: Net>(rt: &R, address: SocketAddr) -> io::Result<TcpListener> {
        TcpListener::bind(rt, address)
    }

    fn address(&self) -> io::Result<SocketAddr> {
        self.local_addr()
    }
}
