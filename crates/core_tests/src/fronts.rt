// What fronts and wires over sockets answer, on loopback.
use crate::all_well;
use engine::Wire;
use log::sink::{Discard, Lines, Memory};
use log::{Level, Log, Logged};
use settings::parse;
use shared::{Front, Settle, Unopened, Waiting};
use sizes::{MAX_BATCH, ServerFault, Split};
use sockets::{Bound, Forwarding, Patience, SocketWire, Sockets, Stop, bind, open_all};
use std::alloc::{AllocError, Global};
use std::io::{self, ErrorKind, Write};
use std::net::{SocketAddr, TcpListener, TcpStream};
use std::test::Fail;
use token::{Side, Token};

/// Two fronts, and the address at which they listen.
#[derive(Drop)]
struct Fronts<'r> {
    fronts: Vec<Sockets<'r, HostRuntime>>,
    address: SocketAddr,
}

/// Opens fronts on loopback, at a port that the system picks, for these parts of the slots. They connect clients to
/// `target`.
fn fronts_to(
    rt: &HostRuntime,
    target: SocketAddr,
    split: Split,
) -> Result<Fronts<'_>, ServerFault> {
    let text = b"listen = \"127.0.0.1:0\"\ntarget = \"127.0.0.1:1\"\n";
    let settings = parse(rt.alloc(), text).map_err(|_| ServerFault::NoMemory)?;
    let bound: Bound = bind(rt, &settings, None)?;
    let address = bound.text();
    let forwarding = Forwarding {
        target,
        proxy: false,
        patience: Patience::NONE,
    };
    let (fronts, _wakers) = open_all(rt, rt.alloc(), bound, forwarding, split, &Stop::new())?;
    Ok(Fronts { fronts, address })
}

/// Polls until each of these numbers was reported, 100 times at most.
fn reports<F: Front>(alloc: Global, front: &mut F, numbers: &[u64]) -> io::Result<()> {
    let mut seen = Vec::new(alloc);
    let mut batch = Vec::with_capacity(alloc, MAX_BATCH)?;
    for _ in 0..100 {
        front.poll(&mut batch, Waiting::Long)?;
        seen.extend_from_slice(batch.as_slice())?;
        if numbers.iter().all(|number| seen.contains(number)) {
            return Ok(());
        }
    }
    Err(io::Error::from(ErrorKind::TimedOut))
}

fn kind<T>(answer: io::Result<T>) -> Result<T, ErrorKind> {
    answer.map_err(|error| error.kind())
}

/// Whether a read would block, since the peer is silent, and a write after a shutdown gets a broken pipe.
fn is_silent(wire: &mut SocketWire) -> bool {
    kind(wire.read(&mut [0; 4])) == Err(ErrorKind::WouldBlock)
        && wire.shut_write().is_ok()
        && kind(wire.write(b"a")) == Err(ErrorKind::BrokenPipe)
}

/// Whether a settled socket, which sends at once, may wait for more after four full offers.
fn may_wait_in_bulk(wire: &mut SocketWire) -> bool {
    wire.settle();
    for _offer in 0..4 {
        let _answer = wire.write(&[0; 16_384]);
    }
    kind(wire.stream().sends_at_once()) == Ok(false)
}

/// Opens a client's connection in slot 3. Returns the target's wire.
fn opened(
    log: &impl Log,
    front: &mut Sockets<'_, HostRuntime>,
    client: &mut SocketWire,
) -> Result<SocketWire, Unopened> {
    let token = |side| Token::pack(3, side, 1).map_err(|_| Unopened::Connect);
    let (near, far) = (token(Side::Client)?, token(Side::Target)?);
    Ok(front.open(log, client, near, far)?.target)
}

/// Whether the first call says that the target refused the connection, with the system's number (ECONNREFUSED).
fn is_refused(target: &mut SocketWire) -> bool {
    kind(target.joined()) == Err(ErrorKind::ConnectionRefused) && target.error() == Some(111)
}

/// Opens a client's connection, and waits until both ends were reported. Returns true if the target refuses, and a
/// second opening fails since the client is registered already (EEXIST).
fn opens_once(
    rt: &HostRuntime,
    log: &impl Log,
    front: &mut Sockets<'_, HostRuntime>,
    client: &mut SocketWire,
) -> io::Result<bool> {
    let Ok(mut target) = opened(log, front, client) else {
        return Ok(false);
    };
    reports(rt.alloc(), front, &[65_542, 65_543])?;
    let again = opened(log, front, client).err();
    Ok(is_refused(&mut target) && again == Some(Unopened::Register) && client.error() == Some(17))
}

/// Whether exactly one line was logged, about a registration. Without a line, memory for it ran out.
fn is_told(lines: &Lines) -> Result<bool, AllocError> {
    let line = lines.as_slice().first().ok_or(AllocError)?;
    Ok(line.as_str().starts_with("[DEBUG relayd] register: ") && lines.len() == 1)
}

/// Whether a byte of the peer is reported under the client's number alone, and later polls come to report nothing.
fn is_reported_once<F: Front>(
    alloc: Global,
    front: &mut F,
    mut peer: &TcpStream,
) -> io::Result<bool> {
    let mut batch = Vec::with_capacity(alloc, MAX_BATCH)?;
    peer.write_all(b"a")?;
    front.poll(&mut batch, Waiting::Long)?;
    let is_reported = batch.as_slice() == [65_542].as_slice();
    // That the peer has seen the end may be reported a little later.
    for _look in 0..100 {
        front.poll(&mut batch, Waiting::No)?;
        if batch.is_empty() {
            return Ok(is_reported);
        }
    }
    Ok(false)
}

/// Whether the wires of a client and of a target that refuses pass the checks above.
fn answer(
    rt: &HostRuntime,
    front: &mut Sockets<'_, HostRuntime>,
    peer: &TcpStream,
) -> io::Result<bool> {
    reports(rt.alloc(), front, &[0])?;
    let mut client = front.accept()?;
    let sink = Memory::new(rt.alloc());
    let log = Logged::new(rt, Level::Debug, &sink);
    let is_well = opens_once(rt, &log, front, &mut client)?
        && may_wait_in_bulk(&mut client)
        && is_silent(&mut client)
        && is_reported_once(rt.alloc(), front, peer)?;
    Ok(is_well && is_told(&sink.into_lines())?)
}

// refuses pending_error_swallowed: the error that is pending on a socket is overlooked
// refuses pending_error_without_its_number: a pending error is logged without the system's number
// refuses registers_cause_is_not_kept: the log does not say why a socket cannot be reported
// refuses poll_keeps_old_reports: the reports of the last poll stay in the batch
// refuses watched_under_swapped_tokens: the two sockets are registered under each other's token
// refuses sends_at_once_for_ever: a socket that sends at once goes on so in bulk
// The target is the address of `holder`, at which nobody listens. So it refuses.
#[test]
fn wires_answer_as_their_sockets(rt: HostRuntime) -> Result<(), Fail> {
    let listener = TcpListener::bind(&rt, "127.0.0.1:0")?;
    let holder = TcpStream::connect(&rt, listener.local_addr()?)?;
    let mut opened = fronts_to(&rt, holder.local_addr()?, Split::new(130, 2))?;
    let peer = TcpStream::connect(&rt, opened.address)?;
    match opened.fronts.first_mut() {
        Some(front) => all_well(Ok(answer(&rt, front, &peer)?)),
        None => all_well(Ok(false)),
    }
}

/// The clients' sockets, and the fronts' wires to them.
type Clients = Vec<(TcpStream, SocketWire)>;

/// Has a front accept `more` clients. Returns whether it then leaves the next client to others.
fn leaves_after(
    rt: &HostRuntime,
    address: SocketAddr,
    front: &mut Sockets<'_, HostRuntime>,
    clients: &mut Clients,
    more: usize,
) -> io::Result<bool> {
    for _client in 0..more {
        let peer = TcpStream::connect(rt, address)?;
        clients.push((peer, front.accept()?))?;
    }
    Ok(front.leaves())
}

fn open_first(
    front: &mut Sockets<'_, HostRuntime>,
    clients: &mut Clients,
) -> Result<SocketWire, Unopened> {
    match clients.first_mut() {
        Some((_peer, client)) => opened(&Discard, front, client),
        None => Err(Unopened::Connect),
    }
}

/// Whether a front leaves its next client to another, both of one slot: with 2 clients; with 4; with 4 while the other
/// is full; while it is empty; once it takes no more.
fn leaves(
    rt: &HostRuntime,
    address: SocketAddr,
    front: &mut Sockets<'_, HostRuntime>,
    others: &mut [Sockets<'_, HostRuntime>],
) -> io::Result<[bool; 5]> {
    let mut clients = Vec::new(rt.alloc());
    let Some(other) = others.first_mut() else {
        return Ok([true; 5]);
    };
    leaves_after(rt, address, front, &mut clients, 2)?;
    let _target = open_first(front, &mut clients);
    let with_two = front.leaves();
    let with_four = leaves_after(rt, address, front, &mut clients, 2)?;
    leaves_after(rt, address, other, &mut clients, 1)?;
    let beside_one = front.leaves();
    clients.truncate(4);
    let beside_none = front.leaves();
    other.stop_listening();
    Ok([with_two, with_four, beside_one, beside_none, front.leaves()])
}

// refuses clients_count_twice: a client counts twice among those that its poller has
// refuses full_pollers_are_left_clients: clients are left to pollers that are full or take no more
#[test]
fn fronts_leave_clients_to_others(rt: HostRuntime) -> Result<(), Fail> {
    let target = SocketAddr::from(([127, 0, 0, 1], 1));
    let mut opened = fronts_to(&rt, target, Split::new(2, 2))?;
    let address = opened.address;
    let left = match opened.fronts.as_mut_slice().split_first_mut() {
        Some((front, others)) => leaves(&rt, address, front, others)?,
        None => [true; 5],
    };
    all_well(Ok(left == [false, true, false, true, false]))
}
