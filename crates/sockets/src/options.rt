//! The options of a TCP socket that neither the standard library nor `mio` sets.
ghost use Rattle.libc.specs.Net.{SockOption};

use crate::limits::PROBES;
use libc::net as system;
use mio::net::{TcpListener, TcpStream};
use std::io;
use std::os::fd::{AsRawFd, RawFd};

/// `Stream::give_up_after` of a socket. The most milliseconds that the system takes is 2^31 - 1.
pub(crate) fn give_up_after(socket: &TcpStream, millis: u64) -> io::Result<()> {
    let most = i32::MAX as u64;
    let value = millis.min(most) as u32;
    set(
        socket.as_raw_fd(),
        system::IPPROTO_TCP,
        system::TCP_USER_TIMEOUT,
        value,
    )
}

/// Has the peer probed once it is silent for this many seconds, then after each fifth of that, and given up after five
/// probes without an answer. The switch comes last, so that no socket probes by the system's own numbers.
pub(crate) fn probe(socket: &TcpStream, seconds: u32) -> io::Result<()> {
    let socket = socket.as_raw_fd();
    let between = (seconds / PROBES).max(1);
    set(socket, system::IPPROTO_TCP, system::TCP_KEEPIDLE, seconds)?;
    set(socket, system::IPPROTO_TCP, system::TCP_KEEPINTVL, between)?;
    set(socket, system::IPPROTO_TCP, system::TCP_KEEPCNT, PROBES)?;
    set(socket, system::SOL_SOCKET, system::SO_KEEPALIVE, 1)
}

/// Sets an option to a number (setsockopt(2)).
fn set(socket: RawFd, level: i32, option: i32, value: u32) -> io::Result<()>
    requires { SockOption level option }
{
    let mut bytes = [0; 16];
    bytes[..4].copy_from_slice(&value.to_ne_bytes());
    done(unsafe { system::setsockopt(socket, level, option, &bytes, 4) })
}

/// What the status of a system call says: below 0 it failed, and errno(3) has the error.
pub(crate) fn done(status: i32) -> io::Result<()> {
    if status < 0 {
        return Err(io::Error::from_raw_os_error(os::errno()));
    }
    Ok(())
}

/// Fails if a socket has no TCP_NODELAY, which each TCP socket has (getsockopt(2)).
pub(crate) fn look_for_tcp(socket: &TcpListener) -> io::Result<()> {
    let (socket, mut bytes, mut length) = (socket.as_raw_fd(), [0; 16], 16);
    let status = unsafe {
        system::getsockopt(
            socket,
            system::IPPROTO_TCP,
            system::TCP_NODELAY,
            &mut bytes,
            &mut length,
        )
    };
    done(status)
}
