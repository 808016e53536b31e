//! A listening socket with which the program was started, as systemd passes one to a service (sd_listen_fds(3)).
ghost use Rattle.std.specs.Prelude.{◌≡◌, IfOk, IfErr, OnOk, true};
ghost use Rattle.sockets.specs.Fronts.{At, AreAllFound, Listened, OfTcp, Prompt};

use crate::options::{self, done};
use libc::net as system;
use libc::types::pollfd;
use log::{Log, error};
use mio::net::TcpListener;
use os::FromRawFd;
use sizes::ServerFault;
use std::marker::Model;
use std::net::{SocketAddr, SocketAddrV4};
use std::os::fd::{AsRawFd, OwnedFd};
use std::{fmt, io};

/// The number of the descriptor that is passed (`SD_LISTEN_FDS_START`).
const FIRST: i32 = 3;

/// A TCP socket over IPv4 that was passed to the program and listens, and its address.
#[derive(Drop)]
pub struct Passed<L = TcpListener> {
    pub(crate) listener: L,
    pub(crate) address: SocketAddrV4,
}

impl<L> Model for Passed<L> {
    ghost use Rattle.sockets.specs.Fronts.{GivenSocket};

    ghost Value = { GivenSocket L };

    ghost view = { λ p. record { listener = p.listener; address = p.address } };
}

impl<L> Passed<L> {
    pub fn address(&self) -> SocketAddrV4
        ensures { result ≡ self.now.address }
    {
        self.address
    }
}

/// Takes the socket that was passed as descriptor 3. It gets another number, and 3 is closed. The program must have
/// opened nothing before, so that this descriptor is nobody else's.
///
/// Refuses with `Listen` if 3 is not open, or is no TCP socket over IPv4 that listens. The cause was then logged, at
/// level error.
pub fn take_passed<R: Log>(rt: &R) -> Result<Passed, ServerFault>
    ensures { IfErr result (λ fault. fault ≡ ServerFault.Listen) }
{
    let taken = match take(FIRST) {
        Ok(socket) => look_at(TcpListener::from(socket)),
        Err(error) => Err(Unfit::System(error)),
    };
    match taken {
        Ok(passed) => Ok(passed),
        Err(unfit) => {
            error!(rt; target: "relayd", "listen: descriptor {FIRST}: {unfit}");
            Err(ServerFault::Listen)
        }
    }
}

/// What is open under this number, under another one; this one is closed.
fn take(number: i32) -> io::Result<OwnedFd> {
    let copy = os::duplicate(number);
    if copy < 0 {
        return Err(io::Error::from_raw_os_error(os::errno()));
    }
    libc::close(number);
    // The system has just given the copy's number, so it is open, and nobody else's.
    Ok(unsafe { OwnedFd::from_raw_fd(copy) })
}

/// Looks whether a relay can listen on a socket, and has its calls return at once.
fn look_at<L: Passable + Drop>(listener: L) -> Result<Passed<L>, Unfit>
    ensures { IfOk result (λ passed. AreAllFound L.found passed) }
{
    listener.look_for_tcp()?;
    let address = match listener.address()? {
        SocketAddr::V4(address) => address,
        SocketAddr::V6(_) => return Err(Unfit::NotIpv4),
    };
    if !listener.is_listening() {
        return Err(Unfit::Silent);
    }
    listener.wait_never()?;
    Ok(Passed { listener, address })
}

/// Why a relay cannot listen on what was passed.
#[derive(Drop)]
enum Unfit {
    System(io::Error),
    NotIpv4,
    Silent,
}

impl From<io::Error> for Unfit {
    fn from(error: io::Error) -> Unfit {
        Unfit::System(error)
    }
}

impl fmt::Display for Unfit {
    fn fmt<W: fmt::Write>(&self, f: &mut fmt::Formatter<W>) -> fmt::Result {
        match self {
            Self::System(error) => write!(f, "{error}; a TCP socket is wanted"),
            Self::NotIpv4 => f.write_str("is a socket over IPv6; write ListenStream=0.0.0.0:PORT"),
            Self::Silent => f.write_str("is a socket that does not listen"),
        }
    }
}

/// What may be a listening socket. Only the system knows what it is, so the trait leaves that open.
trait Passable {
    ghost use Rattle.sockets.specs.Fronts.{SocketFound};

    // The system says this of it, or has done this to it.
    ghost found: { SocketFound → Self → Type 0 };

    /// Fails if it is no TCP socket: no other has the option TCP_NODELAY (tcp(7)).
    fn look_for_tcp(&self) -> io::Result<()>
        ensures { OnOk result (found OfTcp self.now) };

    /// The address at which it is (getsockname(2)).
    fn address(&self) -> io::Result<SocketAddr>
        ensures { IfOk result (λ address. found (At address) self.now) };

    /// Whether it listens (poll(2)).
    fn is_listening(&self) -> bool
        ensures { result ≡ true → found Listened self.now };

    /// From now on accept(2) does not wait (O_NONBLOCK).
    fn wait_never(&self) -> io::Result<()>
        ensures { OnOk result (found Prompt self.now) };
}

impl Passable for TcpListener {
    ghost found = { λ _ _. Unit {0} };

    fn look_for_tcp(&self) -> io::Result<()> {
        options::look_for_tcp(self)
    }

    fn address(&self) -> io::Result<SocketAddr> {
        self.local_addr()
    }

    /// A socket of no connection reports a hang-up, and one of a connection that it takes bytes. One that listens
    /// reports at most a client.
    fn is_listening(&self) -> bool {
        let mut asked = [pollfd {
            fd: self.as_raw_fd(),
            events: system::POLLIN | system::POLLOUT,
            revents: 0,
        }];
        system::poll(&mut asked, 0) >= 0 && asked[0].revents & !system::POLLIN == 0
    }

    fn wait_never(&self) -> io::Result<()> {
        done(os::set_nonblocking(self.as_raw_fd(), true))
    }
}
