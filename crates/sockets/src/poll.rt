//! A poller's front over epoll(7): it waits, accepts, connects and registers.
ghost use Rattle.std.specs.{Prelude.{◌≡◌, ◌≢◌, ◌↔◌, ◌⊎◌, IsTrue, if◌then◌else◌, ◌+◌, ◌-◌, ◌<◌, ◌≤◌, All, [], true, false, Some, None, IfOk, OnOk, IfErr, OnErr, Err, IsErrAnd, vec_len, vec_capacity}, Arc.arc_value, IoError.error_kind, declared.io.{Error.Error, ErrorKind.TheVariants.Interrupted}};
ghost use Rattle.sockets.specs.{Fronts.{longest_of, most_lacking, most_left, v4_of, IsFreshFront, LacksDescriptors, LacksMemory, IsLocal, IsRoute, MayTell, OnlyLacked, Polls, WaitEnded}, Sockets.{SameButWatched, fresh_wire, patient, under, unlimited}};
ghost use Rattle.shared.specs.{Told.{millis_of, unaccepted_of, Waited}, declared.front.{Unaccepted.TheVariants.Starved, Unopened.TheVariants.{Connect, Register}}};
ghost use Rattle.sizes.specs.Splits.{parts_of};

use crate::bound::Bound;
use crate::failure::{log_failure, log_unconnected};
use crate::forwarding::{Dial, Forwarding};
use crate::limits::{
    ENFILE, ENOBUFS, MAX_POLLERS, MOST_BUSY, MOST_LACKING, MOST_LEFT, SEVERAL, WAIT_MILLIS,
};
use crate::loads::Loads;
use crate::socket::Socket;
use crate::stop::{IsSet, Stop};
use crate::stream::Stream;
use crate::waiting::{Reporter, Waiter, put_numbers};
use crate::wire::SocketWire;
use libc::{EMFILE, ENOMEM, ENOSPC};
use log::{Level, Log};
use mio::net::TcpListener;
use mio::unix::SourceFd;
use mio::{Interest, Poll, Waker};
use readiness::{Reports, Told};
use shared::{Front, Opened, Route, Settle, Unopened, Waiting};
use sizes::{LISTENER, MAX_BATCH, ServerFault, Split, WAKER};
use std::alloc::{AllocError, Global};
use std::io;
use std::marker::Model;
use std::net::{Net, SocketAddr, SocketAddrV4};
use std::os::fd::AsRawFd;
use std::sync::Arc;
use std::thread::yield_now;
use token::Token;

/// The front of one poller over the system's sockets: the listening socket, which all pollers share, one target, and an
/// epoll(7) instance of its own.
#[derive(Drop)]
pub struct Sockets<'r, R, P = Poll> {
    rt: &'r R,
    // Its share of the listening socket, until it no longer listens.
    listener: Option<Arc<TcpListener>>,
    forwarding: Forwarding,
    // The words by which wires hear of their sockets' reports.
    told: Arc<Reports>,
    waiter: Waiter<P>,
    // How many clients each poller has, and this poller's number.
    loads: Arc<Loads>,
    poller: usize,
    // How many times in a row this poller has left a client.
    left: u8,
    // How many more times it answers as if accept(2) lacked memory, if no wait passes before.
    lacking: u8,
    // How many more polls gave several reports than few since it let other threads run, 0 at least.
    busy: u8,
}

impl<'r, R, P> Model for Sockets<'r, R, P> {
    ghost use Rattle.std.specs.{Prelude.◌≡◌, Option.is_some};
    ghost use Rattle.mio.specs.Events.{items, capacity as events_capacity};
    ghost use Rattle.sockets.specs.Fronts.{Watched, numbers};

    ghost Value = { Watched P };

    ghost view = { λ s. record {
      poll = s.waiter.poll;
      forwarding = s.forwarding;
      seen = record {
        reported = numbers (items s.waiter.events);
        failed = s.waiter.failed;
        waited = s.waiter.waited;
        longest = s.waiter.longest;
        listens = is_some s.listener;
        target = s.forwarding.target;
      };
      left = s.left;
      lacking = s.lacking;
    } };

    // The most reports that one wait gives, MAX_BATCH.
    ghost invariant = { λ s. events_capacity s.waiter.events ≡ 256 };
}

/// The wakers of all pollers, each for its poller's slots.
#[derive(Drop)]
pub struct Wakers {
    split: Split,
    each: Vec<Waker>,
}

impl Wakers {
    /// The stop is set: ends the wait of every poller, or its next wait if it does not wait now.
    pub(crate) fn wake_all(&self, _set: &IsSet) {
        for waker in self.each.iter() {
            let _ = waker.wake();
        }
    }
}

/// A front for each part of the slots, and the wakers for other threads, one of which is the stop. All fronts share one
/// bound socket, which is reported to each.
///
/// Refuses with `NoMemory`, and with `Poll` if the system cannot report on sockets (epoll_create1(2), eventfd(2),
/// epoll_ctl(2)); the cause was then logged, at level error. In both cases the listening socket is closed.
pub fn open_all<'r, R: Net + Log>(
    rt: &'r R,
    alloc: Global,
    bound: Bound,
    forwarding: Forwarding,
    split: Split,
    stop: &Stop,
) -> Result<(Vec<Sockets<'r, R>>, Arc<Wakers>), ServerFault>
    ensures count { IfOk result (λ made. vec_len made.0 ≡ parts_of split.slots split.size) }
    ensures opened { IfOk result (λ made. All (IsFreshFront forwarding (parts_of split.slots split.size)) made.0.items) }
    ensures wakers { IfOk result (λ made. (arc_value made.1).split ≡ split) }
    ensures refused { IfErr result (λ fault. (fault ≡ ServerFault.Poll) ⊎ (fault ≡ ServerFault.NoMemory)) }
{
    let shared = shared_of(alloc, bound.listener, split)?;
    fronts_of(rt, alloc, &shared, forwarding, split, stop)
}

/// What all fronts share.
#[derive(Drop)]
struct Shared {
    listener: Arc<TcpListener>,
    told: Arc<Reports>,
    loads: Arc<Loads>,
}

fn shared_of(alloc: Global, listener: TcpListener, split: Split) -> Result<Shared, AllocError> {
    Ok(Shared {
        listener: Arc::new(alloc, listener)?,
        told: Arc::new(alloc, Reports::new(alloc, split.slots())?)?,
        loads: Arc::new(alloc, Loads::new(alloc, split)?)?,
    })
}

/// The wakers, which the stop has, too.
fn wakers_of(
    alloc: Global,
    split: Split,
    each: Vec<Waker>,
    stop: &Stop,
) -> Result<Arc<Wakers>, AllocError>
    ensures { IfOk result (λ wakers. (arc_value wakers).split ≡ split) }
{
    let wakers = Arc::new(alloc, Wakers { split, each })?;
    stop.reach(wakers.clone()?);
    Ok(wakers)
}

fn fronts_of<'r, R: Net + Log>(
    rt: &'r R,
    alloc: Global,
    shared: &Shared,
    forwarding: Forwarding,
    split: Split,
    stop: &Stop,
) -> Result<(Vec<Sockets<'r, R>>, Arc<Wakers>), ServerFault>
    ensures count { IfOk result (λ made. vec_len made.0 ≡ parts_of split.slots split.size) }
    ensures opened { IfOk result (λ made. All (IsFreshFront forwarding (parts_of split.slots split.size)) made.0.items) }
    ensures wakers { IfOk result (λ made. (arc_value made.1).split ≡ split) }
    ensures refused { IfErr result (λ fault. (fault ≡ ServerFault.Poll) ⊎ (fault ≡ ServerFault.NoMemory)) }
{
    let pollers = split.pollers();
    let mut fronts = Vec::with_capacity(alloc, pollers)?;
    let mut wakers = Vec::with_capacity(alloc, pollers)?;
    for poller in 0..pollers {
        let (front, waker) = open_one(rt, alloc, shared, forwarding, poller, pollers)?;
        fronts.push_reserved(front);
        wakers.push_reserved(waker);
    }
    Ok((fronts, wakers_of(alloc, split, wakers, stop)?))
}

/// The front of this poller, one of this many, and its waker. If the system refuses a poll, that is logged.
fn open_one<'r, R: Net + Log>(
    rt: &'r R,
    alloc: Global,
    shared: &Shared,
    forwarding: Forwarding,
    poller: usize,
    pollers: usize,
) -> Result<(Sockets<'r, R>, Waker), ServerFault>
    ensures front { IfOk result (λ made. IsFreshFront forwarding pollers made.0) }
    ensures refused { IfErr result (λ fault. (fault ≡ ServerFault.Poll) ⊎ (fault ≡ ServerFault.NoMemory)) }
{
    match reports_on(rt, &shared.listener) {
        Ok((poll, waker)) => {
            let front = front_of(rt, alloc, shared, forwarding, poll, poller, pollers)?;
            Ok((front, waker))
        }
        Err(error) => {
            log_failure(rt, Level::Error, "poll", &error);
            Err(ServerFault::Poll)
        }
    }
}

fn front_of<'r, R>(
    rt: &'r R,
    alloc: Global,
    shared: &Shared,
    forwarding: Forwarding,
    poll: Poll,
    poller: usize,
    pollers: usize,
) -> Result<Sockets<'r, R>, AllocError>
    ensures { IfOk result (IsFreshFront forwarding pollers) }
{
    Ok(Sockets {
        rt,
        waiter: Waiter::new(alloc, poll, longest_of(pollers))?,
        listener: Some(Arc::try_clone(&shared.listener)?),
        told: Arc::try_clone(&shared.told)?,
        loads: Arc::try_clone(&shared.loads)?,
        forwarding,
        poller,
        left: 0,
        lacking: 0,
        busy: 0,
    })
}

/// Lets other threads run after enough busy polls (sched_yield(2)). Returns the new count. A poller under load never
/// sleeps, and would keep a shared processor for a whole slice of the scheduler.
fn let_others_run(busy: u8) -> u8 {
    if busy < MOST_BUSY {
        return busy;
    }
    yield_now();
    0
}

/// Counts a poll that gave this many reports. Few mean little load, or threads that would keep the processor anyway.
fn busy_after(busy: u8, reports: usize) -> u8 {
    if reports < SEVERAL {
        return busy.saturating_sub(1);
    }
    busy.saturating_add(1)
}

fn longest_of(pollers: usize) -> u64
    ensures { result ≡ longest_of pollers }
{
    pollers.min(MAX_POLLERS).max(2) as u64 * WAIT_MILLIS
}

impl<R: Dial, P: Reporter> Sockets<'_, R, P> {
    /// Starts the connection to the target, and sets its limit, which the system checks only when it sends again. If
    /// the start fails, the client's wire keeps the cause.
    #[tactic(auto, using(crate::proofs::Steps::same_after))]
    fn begin<N: Log>(&mut self, rt: &N, client: &mut SocketWire) -> Result<SocketWire, Failed>
        ensures client { client.new ≡ client.old }
        ensures same { OnOk result (self.new ≡ self.old) }
        ensures lacking { OnlyLacked self.old self.new }
        ensures dialled { IfOk result (λ target. R.dialled self.old.forwarding.target target.stream.stream) }
        ensures begun { IfOk result (λ target. target.socket ≡ patient self.old.forwarding.patience (fresh_wire false None)) }
        ensures refused { IfErr result (λ failed. failed.why ≡ Unopened.Connect) }
        ensures short { OnErr result ((error : Error) × R.undialled error × (LacksMemory error → self.new.lacking ≡ most_lacking)) }
    {
        match self.rt.dial(self.forwarding.target) {
            Ok(stream) => {
                let mut target = SocketWire::connecting(Socket::new(stream));
                target.wait_for_peer(rt, self.forwarding.patience);
                Ok(target)
            }
            Err(error) => {
                log_unconnected(rt, self.forwarding.target, &error);
                Err(self.fail(client, &error, Unopened::Connect))
            }
        }
    }

    fn watch<N: Log>(&mut self, rt: &N, wire: &mut SocketWire, token: Token) -> Result<(), Failed>
        ensures same { OnOk result (self.new ≡ self.old) }
        ensures lacking { OnlyLacked self.old self.new }
        ensures watched { OnOk result (wire.new.socket ≡ under token wire.old.socket) }
        ensures kept { OnOk result (wire.new.stream.stream ≡ wire.old.stream.stream) }
        ensures unwatched { OnErr result (wire.new.socket ≡ wire.old.socket) }
        ensures refused { IfErr result (λ failed. failed.why ≡ Unopened.Register) }
    {
        // A wire without a word for its reports always reads.
        let told = Told::new(&self.told, token.slot(), token.side());
        match wire.watch(self.waiter.poll.registry(), token, told.unwrap_or(None)) {
            Ok(()) => Ok(()),
            Err(error) => {
                log_failure(rt, Level::Debug, "register", &error);
                Err(self.fail(wire, &error, Unopened::Register))
            }
        }
    }

    /// An opening failed. Keeps what was short, if it failed for that: a descriptor, or the system's memory (socket(2),
    /// connect(2)). For epoll_ctl(2) a user's sockets may take only a part of it, and ENOSPC says that they have that.
    fn fail(&mut self, wire: &mut SocketWire, error: &io::Error, why: Unopened) -> Failed
        ensures why { result.why ≡ why }
        ensures wire { wire.new ≡ wire.old }
        ensures lacking { OnlyLacked self.old self.new }
        ensures memory { LacksMemory error.now → self.new.lacking ≡ most_lacking }
        ensures other { (LacksMemory error.now → ⊥) → self.new ≡ self.old }
    {
        wire.keep(error);
        if lacks_memory(error) {
            self.lacking = MOST_LACKING;
        }
        if lacks_descriptors(error) {
            self.loads.set_short(true);
        }
        Failed { why }
    }

    /// Whether it answers as if accept(2) lacked memory. This takes one such answer away.
    fn lacks_memory(&mut self) -> bool
        ensures lacks { IsTrue result ↔ (1 ≤ self.old.lacking) }
        ensures fewer { self.new ≡ record self.old { lacking = self.old.lacking - 1 } }
    {
        let lacks = self.lacking > 0;
        self.lacking = self.lacking.saturating_sub(1);
        lacks
    }

    /// A wait gave this many reports.
    fn count(&mut self, wait: Waiting, reports: usize)
        ensures quiet { wait ≡ Waiting.Brief → reports ≡ 0 → self.new.left ≡ most_left }
        ensures kept { (self.new.left ≡ self.old.left) ⊎ ((wait ≡ Waiting.Brief) × (reports ≡ 0)) }
        ensures eased { wait ≡ Waiting.Long → reports ≡ 0 → self.new.lacking ≡ 0 }
        ensures lacks { (self.new.lacking ≡ self.old.lacking) ⊎ ((wait ≡ Waiting.Long) × (reports ≡ 0)) }
        ensures same { self.new ≡ record self.old { left = self.new.left; lacking = self.new.lacking } }
    {
        self.busy = busy_after(self.busy, reports);
        match wait {
            Waiting::Brief if reports == 0 => self.left = MOST_LEFT,
            Waiting::Long if reports == 0 => self.lacking = 0,
            _ => {}
        }
    }
}

/// An opening failed, and what was short is kept. Only [`Sockets::fail`] makes this value.
#[derive(Drop)]
struct Failed {
    why: Unopened,
}

/// Whether an opening failed since the process or the system has no descriptor left.
fn lacks_descriptors(error: &io::Error) -> bool
    ensures { IsTrue result ↔ LacksDescriptors error.now }
{
    matches!(error.raw_os_error(), Some(EMFILE | ENFILE))
}

/// Whether an opening failed since the system lacks memory for its sockets.
fn lacks_memory(error: &io::Error) -> bool
    ensures { IsTrue result ↔ LacksMemory error.now }
{
    matches!(error.raw_os_error(), Some(ENOMEM | ENOBUFS | ENOSPC))
}

/// The addresses of a client's connection, if targets are sent them. The system is asked for the one at this end.
fn route_of<S: Stream>(is_told: bool, client: &SocketWire<S>) -> Route
    ensures client { IsRoute is_told client.now.socket.peer result }
    ensures accepted { is_told ≡ true → IsLocal S.did client.now.stream result.accepted }
{
    if !is_told {
        return Route::UNTOLD;
    }
    Route {
        client: v4(client.peer()),
        accepted: v4(client.stream().local().ok()),
    }
}

fn v4(address: Option<SocketAddr>) -> Option<SocketAddrV4>
    ensures { result ≡ v4_of address }
{
    match address {
        Some(SocketAddr::V4(address)) => Some(address),
        Some(SocketAddr::V6(_)) | None => None,
    }
}

/// A poll, which reports on the listening socket, and its waker.
fn reports_on<R: Net>(rt: &R, listener: &TcpListener) -> io::Result<(Poll, Waker)> {
    let socket = listener.as_raw_fd();
    let poll = Poll::new(rt)?;
    let (registry, token) = (poll.registry(), mio::Token(LISTENER as usize));
    registry.register(&mut SourceFd(&socket), token, Interest::READABLE)?;
    let waker = Waker::new(registry, mio::Token(WAKER as usize))?;
    Ok((poll, waker))
}

impl<R: Dial, P: Reporter> Front for Sockets<'_, R, P> {
    ghost seen = { λ s. s.seen };

    ghost may_tell = { λ client route. MayTell client.socket.peer route };

    ghost accepted = { λ client. (peer : _) × (client.socket ≡ fresh_wire true (Some peer)) × R.accepted peer client.stream.stream };

    ghost dialled = { λ address target. R.dialled address target.stream.stream };

    ghost may_refuse = { λ _ why. (why ≡ Connect) ⊎ (why ≡ Register) };

    type Client = SocketWire;

    type Target = SocketWire;

    type Waker = Arc<Wakers>;

    /// Waits for reports as its round asks: not at all, for a millisecond, or for as long as this front ever waits
    /// (epoll_wait(2)): 100 ms for each poller, 200 ms at least and 1.6 s at most. Then the batch has the numbers that
    /// were reported, 256 at most, and after an error none.
    ///
    /// After a brief wait without a report the front leaves no client, and after a long one it no longer lacks memory.
    /// A wait that a signal ends gives an error, too, but does not count as failed. It allocates no memory.
    fn poll(&mut self, batch: &mut Vec<u64>, wait: Waiting) -> io::Result<()>
        requires room { MAX_BATCH ≤ vec_capacity batch.old }
        ensures most { vec_len batch.new ≤ MAX_BATCH }
        ensures capacity { vec_capacity batch.new ≡ vec_capacity batch.old }
        ensures failed { OnErr result (batch.new.items ≡ []) }
        ensures reported { batch.new.items ≡ self.new.seen.reported }
        ensures fault { IfErr result (λ error. error_kind error ≢ Interrupted → self.new.seen.failed ≡ true) }
        ensures waited { Waited wait self.old.seen self.new.seen }
        ensures once { Polls P.did (millis_of wait self.old.seen.longest) self.new.seen.reported self.old.poll self.new.poll }
        ensures here { WaitEnded wait result self.old self.new }
    {
        batch.clear();
        self.busy = let_others_run(self.busy);
        self.waiter.wait(wait)?;
        let poll = &mut self.waiter.poll;
        put_numbers(batch, poll, &self.waiter.events, &self.told);
        self.count(wait, batch.len());
        Ok(())
    }

    /// It leaves a client while another poller that can take it has fewer clients by more than a margin, and 16 times
    /// in a row at most.
    fn leaves(&mut self) -> bool
        ensures few { result ≡ true → self.old.left < most_left }
        ensures left { self.new ≡ record self.old { left = if result then self.old.left + 1 else 0 } }
    {
        if self.left >= MOST_LEFT || !self.loads.is_ahead(self.poller) {
            self.left = 0;
            return false;
        }
        self.left += 1;
        true
    }

    /// A client is not accepted only to be closed. After an opening that found no descriptor for its target, it first
    /// looks for two. After one that lacked memory, it answers as if accept(2) did, until a long wait has passed
    /// without a report, and 16 times at most.
    fn accept(&mut self) -> io::Result<SocketWire>
        ensures accepted { IfOk result (λ client. (peer : SocketAddr) × (client.socket ≡ fresh_wire true (Some peer))
            × R.accepted peer client.stream.stream) }
        ensures lacking { 1 ≤ self.old.lacking
            → IsErrAnd result (λ error. unaccepted_of (error_kind error) ≡ Starved) }
        ensures refused { IfErr result (λ error. R.unaccepted error ⊎ (1 ≤ self.old.lacking) ⊎ (self.old.seen.listens ≡ false)) }
        ensures none { IfErr result (λ _. Unit {0}) }
        ensures fewer { self.new ≡ record self.old { lacking = self.old.lacking - 1 } }
    {
        if self.lacks_memory() {
            return Err(io::Error::from(io::ErrorKind::OutOfMemory));
        }
        let Some(listener) = &self.listener else {
            return Err(io::Error::from(io::ErrorKind::WouldBlock));
        };
        if self.loads.is_short() {
            self.rt.look_for_two(self.waiter.poll.registry())?;
            self.loads.set_short(false);
        }
        let (stream, peer) = self.rt.accept(listener)?;
        let share = self.loads.share(self.poller);
        Ok(SocketWire::accepted(Socket::of(stream, share), peer))
    }

    fn lacked_memory(&mut self)
        ensures { self.new ≡ record self.old { lacking = most_lacking } }
    {
        self.lacking = MOST_LACKING;
    }

    fn stop_listening(&mut self)
        ensures { self.new ≡ record self.old { seen = record self.old.seen { listens = false } } }
    {
        if let Some(listener) = self.listener.take() {
            // The socket stays open if other fronts listen.
            let socket = listener.as_raw_fd();
            let registry = self.waiter.poll.registry();
            let _ = registry.deregister(&mut SourceFd(&socket));
            self.loads.close(self.poller);
        }
    }

    /// If it fails, the cause is logged at level debug.
    fn open<N: Log>(
        &mut self,
        rt: &N,
        client: &mut SocketWire,
        client_token: Token,
        target_token: Token,
    ) -> Result<Opened<SocketWire>, Unopened>
        ensures dialled { IfOk result (λ opened. R.dialled self.old.seen.target opened.target.stream.stream) }
        ensures opened { IfOk result (λ opened. opened.target.socket
            ≡ under target_token (patient self.old.forwarding.patience (fresh_wire false None))) }
        ensures route { IfOk result (λ opened. IsRoute self.old.forwarding.proxy client.old.socket.peer opened.route) }
        ensures told { IfOk result (λ opened. MayTell client.old.socket.peer opened.route) }
        ensures refused { IfErr result (λ why. (why ≡ Unopened.Connect) ⊎ (why ≡ Unopened.Register)) }
        ensures short { result ≡ Err Unopened.Connect
            → (error : Error) × R.undialled error × (LacksMemory error → self.new.lacking ≡ most_lacking) }
        ensures client { OnOk result (client.new.socket ≡ patient (unlimited self.old.forwarding.patience)
            (under client_token client.old.socket)) }
        ensures unopened { OnErr result (SameButWatched client.old.socket client.new.socket) }
        ensures same { client.new.socket.tally ≡ client.old.socket.tally }
        ensures kept { OnOk result (self.new ≡ self.old) }
        ensures lacking { OnlyLacked self.old self.new }
    {
        let mut target = match self.begin(rt, client) {
            Ok(target) => target,
            Err(failed) => return Err(failed.why),
        };
        if let Err(failed) = self.watch(rt, client, client_token) {
            return Err(failed.why);
        }
        if let Err(failed) = self.watch(rt, &mut target, target_token) {
            client.keep_of(&target);
            return Err(failed.why);
        }
        client.wait_for_peer(rt, self.forwarding.patience.of_client());
        let route = route_of(self.forwarding.proxy, client);
        Ok(Opened { target, route })
    }

    fn wake(wakers: &Arc<Wakers>, slot: usize) {
        if let Some(waker) = wakers.each.get(wakers.split.poller_of(slot)) {
            let _ = waker.wake();
        }
    }

    fn peer(client: &SocketWire) -> Option<SocketAddr>
        ensures { result ≡ client.now.socket.peer }
    {
        client.peer()
    }
}
