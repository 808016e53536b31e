ghost use Rattle.std.specs.{Prelude.{◌≡◌, ◌≢◌, ◌≤◌, ℕ, true, false, [], IfOk, IfErr, IfSome, OnErr, vec_len, vec_capacity}, IoError.error_kind, declared.io.ErrorKind.TheVariants.Interrupted};
ghost use Rattle.shared.specs.Told.{millis_of, unaccepted_of, Waited};

use engine::Wire;
use log::Log;
use sizes::{Cause, MAX_BATCH};
use std::io::{self, ErrorKind};
use std::net::{SocketAddr, SocketAddrV4};
use token::Token;

/// A wire that may hold bytes back.
pub trait Settle: Wire {
    ghost use Rattle.std.specs.declared.net.SocketAddr.{SocketAddr};

    // Whether the wire holds nothing back. This default and the next promise nothing.
    ghost settled: { Self → Type 0 } = { λ _. Unit {0} };

    // That the system said that the socket has this address of its own.
    ghost is_at: { Self → SocketAddr → Type 0 } = { λ _ _. Unit {0} };

    /// Sends now what was held back. It is called after a quiet turn: no call is worth trying before the next report.
    fn settle(&mut self)
        ensures same { Self.told self.new ≡ Self.told self.old }
        ensures settled { settled self.new };

    /// The errno(3) of the last call that failed, if the wire keeps it. Only the log uses it.
    fn error(&self) -> Option<i32> {
        None
    }

    /// Whether the socket is connected, by getpeername(2). None if that is not known. Only the log uses it.
    fn is_connected(&self) -> Option<bool> {
        None
    }

    /// The socket's own address (getsockname(2)), if it is known. Only the log uses it.
    fn local(&self) -> Option<SocketAddr>
        ensures { IfSome result (λ address. is_at self.now address) }
    {
        None
    }
}

/// Why accept(2) gave no connection.
#[derive(Clone, Copy, PartialEq, Eq)]
pub enum Unaccepted {
    /// The next connection may be accepted at once.
    Again,
    /// No connection waits.
    Blocked,
    /// Descriptors or memory are lacking. The connection keeps waiting.
    Starved,
}

/// What an error of accept(2) means, by its kind. Linux passes on errors that are pending on the new socket. After such
/// an error accept(2) is tried again.
pub fn unaccepted_of(kind: ErrorKind) -> Unaccepted
    ensures { result ≡ unaccepted_of kind }
{
    match kind {
        ErrorKind::Interrupted
        | ErrorKind::ConnectionAborted
        | ErrorKind::NetworkDown
        | ErrorKind::NetworkUnreachable
        | ErrorKind::HostUnreachable => Unaccepted::Again,
        ErrorKind::WouldBlock => Unaccepted::Blocked,
        _ => Unaccepted::Starved,
    }
}

/// Why an accepted connection could not be opened.
#[derive(Clone, Copy, PartialEq, Eq)]
pub enum Unopened {
    /// The connection to the target could not be started (socket(2), connect(2)).
    Connect,
    /// A socket could not be registered for reports (epoll_ctl(2)).
    Register,
}

impl From<Unopened> for Cause {
    ghost use Rattle.std.specs.Prelude.{◌≡◌};
    ghost use Rattle.shared.specs.Told.{cause_of};

    ghost from_gives = { λ unopened cause. cause ≡ cause_of unopened };

    fn from(unopened: Unopened) -> Cause {
        match unopened {
            Unopened::Connect => Cause::Connect,
            Unopened::Register => Cause::Register,
        }
    }
}

/// The addresses of a client's connection. An address is None if it is not known, not of IPv4, or not asked for.
#[derive(Clone, Copy)]
pub struct Route {
    /// The client's own address.
    pub client: Option<SocketAddrV4>,
    /// The address on which the client was accepted.
    pub accepted: Option<SocketAddrV4>,
}

impl Route {
    /// Neither address is given.
    pub const UNTOLD: Route = Route {
        client: None,
        accepted: None,
    };
}

/// A connection to the target that was started.
#[derive(Drop)]
pub struct Opened<T> {
    /// The wire of the target.
    pub target: T,
    /// The addresses of the client's connection.
    pub route: Route,
}

/// How long a poller waits, if there is no report.
#[derive(Clone, Copy)]
pub enum Waiting {
    /// Not at all.
    No,
    /// A millisecond.
    Brief,
    /// For as long as the front ever waits.
    Long,
}

impl Waiting {
    /// For how many milliseconds a front waits that never waits longer than `longest`.
    pub fn millis(self, longest: u64) -> u64
        ensures { result ≡ millis_of self longest }
    {
        match self {
            Waiting::No => 0,
            Waiting::Brief => 1,
            Waiting::Long => longest,
        }
    }
}

/// Where connections and reports come from: the system's sockets, or an in-memory fake.
pub trait Front {
    ghost use Rattle.std.specs.declared.net.SocketAddr.{SocketAddr};
    ghost use Rattle.shared.specs.{Told.Seen, declared.front.{Unaccepted.Unaccepted, Unopened.Unopened, Route.Route}};

    // What it shows of its last wait for reports, whether it listens, and where it connects clients to.
    ghost seen: { Self → Seen };

    // Which addresses it may give for a client's connection. This and the defaults below promise nothing.
    ghost may_tell: { Self.Client → Route → Type 0 } = { λ _ _. Unit {0} };

    // For which reasons it may refuse to open a client's connection.
    ghost may_refuse: { Self.Client → Unopened → Type 0 } = { λ _ _. Unit {0} };

    // That accept(2) gave this client, with the address that its wire has.
    ghost accepted: { Self.Client → Type 0 } = { λ _. Unit {0} };

    // That this target's connection was started to this address.
    ghost dialled: { SocketAddr → Self.Target → Type 0 } = { λ _ _. Unit {0} };

    // That accept(2) gave no connection for this reason.
    ghost gave_none: { Unaccepted → Type 0 } = { λ _. Unit {0} };

    // Whether `lacked_memory` was called.
    ghost lacked: { Type 0 } = { Unit {0} };

    // Whether the wait of the thread that opens this slot was ended.
    ghost woke: { Self.Waker → ℕ → Type 0 } = { λ _ _. Unit {0} };

    /// A client's wire.
    type Client: Settle + Drop;

    /// A target's wire.
    type Target: Settle + Drop;

    /// What another thread uses to end a wait for reports.
    type Waker: Drop;

    /// Waits for reports, and replaces the contents of the batch by the numbers of their tokens (epoll_wait(2)). It
    /// allocates no memory.
    fn poll(&mut self, batch: &mut Vec<u64>, wait: Waiting) -> io::Result<()>
        requires room { MAX_BATCH ≤ vec_capacity batch.old }
        ensures most { vec_len batch.new ≤ MAX_BATCH }
        ensures capacity { vec_capacity batch.new ≡ vec_capacity batch.old }
        ensures reported { batch.new.items ≡ (seen self.new).reported }
        ensures waited { Waited wait (seen self.old) (seen self.new) }
        ensures failed { OnErr result (batch.new.items ≡ []) }
        ensures fault { IfErr result (λ error. error_kind error ≢ Interrupted → (seen self.new).failed ≡ true) };

    /// Whether the next client is better left to another poller for now. The default is false.
    fn leaves(&mut self) -> bool
        ensures seen { seen self.new ≡ seen self.old }
    {
        false
    }

    /// Accepts the next connection that waits (accept(2)).
    fn accept(&mut self) -> io::Result<Self::Client>
        ensures accepted { IfOk result accepted }
        ensures none { IfErr result (λ error. gave_none (unaccepted_of (error_kind error))) }
        ensures seen { seen self.new ≡ seen self.old };

    /// Memory ran out for a client that it gave, which is closed unopened. So the front may answer for a while as if
    /// accept(2) lacked memory.
    fn lacked_memory(&mut self)
        ensures told { lacked }
        ensures seen { seen self.new ≡ seen self.old };

    /// Gives up its share of the listening socket, which is closed with the last share. A second call changes nothing.
    fn stop_listening(&mut self)
        ensures { seen self.new ≡ record (seen self.old) { listens = false } };

    /// Starts the connection to the target (connect(2)), and has both sockets reported for reading and writing, each
    /// under its token. It gives the addresses of the client's connection, if targets are sent them. After an error no
    /// target is left open. The client may still be reported until it is closed, and its wire may keep the cause for
    /// the log. `rt` is only for the log.
    fn open<N: Log>(
        &mut self,
        rt: &N,
        client: &mut Self::Client,
        client_token: Token,
        target_token: Token,
    ) -> Result<Opened<Self::Target>, Unopened>
        ensures dialled { IfOk result (λ opened. dialled (seen self.old).target opened.target) }
        ensures told { IfOk result (λ opened. may_tell client.old opened.route) }
        ensures refused { IfErr result (λ why. may_refuse client.old why) }
        ensures same { Self.Client.told client.new ≡ Self.Client.told client.old }
        ensures seen { seen self.new ≡ seen self.old };

    /// Ends the wait of the thread that opens this slot, or its next wait if it does not wait now. That wait reports
    /// the waker's number, 1.
    fn wake(waker: &Self::Waker, slot: usize)
        ensures { woke waker.now slot };

    /// A client's address, if it is known. Only the log uses it.
    fn peer(client: &Self::Client) -> Option<SocketAddr>;
}
