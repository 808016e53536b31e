// A log prints a message itself, so no call here takes memory.
ghost use Rattle.std.specs.Prelude.{Some, option_map, ◌≡◌};
ghost use Rattle.relay_core.specs.Pairs.{verdict};
ghost use Rattle.sizes.specs.Causes.{client_level};
ghost use Rattle.relay_log.specs.Messages.{done_message, drop_message, drops_message, fail_message, full_message, gone_between, gone_text, open_message, peer_text, EndLogged};
ghost use Rattle.log.specs.declared.level.Level.TheVariants as level;

use crate::Gone;
use log::{Level, Log, log_enabled};
use relay_core::{Fault, Pair, Verdict};
use sizes::{Cause, ClientsAt, ServerFault};
use std::fmt::{self, Display};
use std::io;

/// Why a thread is not started: "resource temporarily unavailable" (EAGAIN of pthread_create(3)). The call's other
/// errors are of attributes that no thread here has, and the number is not handed on.
const NO_THREAD: i32 = 11;

/// A log that the relay's messages are passed to.
///
/// No clause can name what a log has, so the trait leaves open what it was passed. Over any such log a proof has a
/// fact `logged ..` only from a call that was made. Every log has the trait, with a `logged` that says nothing.
pub trait Logs: Log {
    ghost use Rattle.std.specs.Prelude.{ℕ, List, Option};
    ghost use Rattle.log.specs.declared.level.Level.{Level};

    // The log was passed this message at this level. None: its type does not say how it prints.
    ghost logged: { Self → Level → Option (List ℕ) → Type 0 } = { λ _ _ _. Unit {0} };

    /// Passes the log a message, as it prints, at this level. A message of a level that is off is never printed.
    fn message<D: Display>(&self, level: Level, message: &D)
        ensures { logged self.now level (D.output message.now) };
}

impl<L: Log> Logs for L {
    fn message<D: Display>(&self, level: Level, message: &D) {
        log::log!(*self; target: "relayd", level, "{message}");
    }
}

/// Info, `open s=3 g=1`: a connection was opened in slot 3, the first there.
pub fn log_open<L: Logs>(rt: &L, slot: usize, generation: u64)
    ensures { L.logged rt.now level.Info (Some (open_message slot generation)) }
{
    rt.message(Level::Info, &format_args!("open s={slot} g={generation}"));
}

/// `peer s=3 g=1 from=192.0.2.7:50000`, at the level that `clients` gives: the address of this connection's client. If
/// it is given, the address from which the relay connects to the target follows, as `via=198.51.100.2:41000`.
pub fn log_peer<L: Logs, D: Display>(
    rt: &L,
    clients: ClientsAt,
    slot: usize,
    generation: u64,
    from: &D,
    via: &Option<D>,
)
    ensures { L.logged rt.now (client_level clients) (peer_text slot generation (D.output from.now) (option_map D.output via.now)) }
{
    let level = clients.level();
    let peer = format_args!("peer s={slot} g={generation} from={from}");
    match via {
        Some(via) => rt.message(level, &format_args!("{peer} via={via}")),
        None => rt.message(level, &peer),
    }
}

/// A connection is done: both ends of input were passed on. `up` bytes went to the target, `down` to the client.
#[derive(Clone, Copy)]
pub struct Done {
    pub slot: usize,
    pub generation: u64,
    pub up: u64,
    pub down: u64,
}

impl Display for Done {
    ghost output = { λ done. Some (done_message done.slot done.generation done.up done.down) };

    fn fmt<W: fmt::Write>(&self, f: &mut fmt::Formatter<W>) -> fmt::Result {
        let (slot, generation, up, down) = (self.slot, self.generation, self.up, self.down);
        write!(f, "done s={slot} g={generation} up={up} down={down}")
    }
}

/// A connection failed: by a call on one of its sockets, or because it moved nothing for the idle limit.
#[derive(Clone, Copy)]
pub struct Failed {
    pub slot: usize,
    pub generation: u64,
    pub fault: Fault,
}

impl Display for Failed {
    ghost output = { λ failed. Some (fail_message failed.slot failed.generation failed.fault) };

    fn fmt<W: fmt::Write>(&self, f: &mut fmt::Formatter<W>) -> fmt::Result {
        let (slot, generation) = (self.slot, self.generation);
        match self.fault {
            Fault::Broken { side, call, kind } => {
                let (side, call, kind) = (side.name(), call.name(), kind.name());
                write!(
                    f,
                    "fail s={slot} g={generation} side={side} call={call} kind={kind}"
                )
            }
            Fault::Idle => write!(f, "fail s={slot} g={generation} idle"),
        }
    }
}

/// Logs how a connection ended: [`Done`] at info, [`Failed`] at warn; nothing if it is live.
pub fn log_end<L: Logs>(rt: &L, pair: &Pair)
    ensures { EndLogged (L.logged rt.now) (verdict pair.now) pair.now }
{
    let (slot, generation) = (pair.slot(), pair.generation());
    match pair.verdict() {
        Verdict::Failed(fault) => {
            let failed = Failed {
                slot,
                generation,
                fault,
            };
            rt.message(Level::Warn, &failed);
        }
        Verdict::Done => {
            let (up, down) = pair.counts();
            let done = Done {
                slot,
                generation,
                up,
                down,
            };
            rt.message(Level::Info, &done);
        }
        Verdict::Live => {}
    }
}

/// Warn, `drop kind=memory`: a client was accepted, and no connection could be opened for it.
pub fn log_drop<L: Logs>(rt: &L, cause: Cause)
    ensures { L.logged rt.now level.Warn (Some (drop_message cause)) }
{
    let name = cause.name();
    let dropped = format_args!("drop kind={name}");
    rt.message(Level::Warn, &dropped);
}

/// Warn, `drops kind=memory more=12`: this many further drops of this cause have no line of their own.
pub fn log_drops<L: Logs>(rt: &L, cause: Cause, more: u64)
    ensures { L.logged rt.now level.Warn (Some (drops_message cause more)) }
{
    let name = cause.name();
    let drops = format_args!("drops kind={name} more={more}");
    rt.message(Level::Warn, &drops);
}

/// Warn, `slots: all 1024 are taken; further clients wait`: a client waits, and all slots are taken.
pub fn log_all_taken<L: Logs>(rt: &L, slots: usize)
    ensures { L.logged rt.now level.Warn (Some (full_message slots)) }
{
    let full = format_args!("slots: all {slots} are taken; further clients wait");
    rt.message(Level::Warn, &full);
}

/// Logs [`Gone`] at the level that `clients` gives.
pub fn log_gone<L: Logs, D: Display, E: Display>(rt: &L, clients: ClientsAt, gone: Gone<'_, D, E>)
    ensures { let g = gone.entry in L.logged rt.now (client_level clients)
        (gone_text g.opened (D.output g.from.now) (gone_between g.connected g.up g.down g.seconds) (E.output g.cause.now)) }
{
    rt.message(clients.level(), &gone);
}

/// Returns true if the log takes messages at this level.
pub fn logs_gone(rt: &impl Log, clients: ClientsAt) -> bool {
    log_enabled!(rt; target: "relayd", clients.level())
}

/// Logs, at level error, that the system did not start a thread, and returns the fault for this.
pub fn log_no_thread(rt: &impl Log) -> ServerFault
    ensures { result ≡ ServerFault.Threads }
{
    log_threads(rt, &"")
}

/// As [`log_no_thread`], of a server that has started some of its threads.
pub fn log_few_threads(rt: &impl Log, started: usize, wanted: usize) -> ServerFault
    ensures { result ≡ ServerFault.Threads }
{
    log_threads(rt, &format_args!("{started} of {wanted} started: "))
}

/// Logs what was started, if it is given, why no more was, and what to do about it.
fn log_threads(rt: &impl Log, started: &impl Display) -> ServerFault
    ensures { result ≡ ServerFault.Threads }
{
    let error = io::Error::from_raw_os_error(NO_THREAD);
    rt.message(
        Level::Error,
        &format_args!("threads: {started}{error}; raise ulimit -u, TasksMax= or ulimit -v"),
    );
    ServerFault::Threads
}
