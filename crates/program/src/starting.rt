//! Checks before a relay serves whether it can work as it is set, and warns if not; and says where it listens.
ghost use Rattle.std.specs.Prelude.{◌≡◌, ◌≤◌, ◌↔◌, IsTrue, IsOk, IsSome, IfOk, IfErr, ◌<◌, ◌+◌};
ghost use Rattle.program.specs.{Faults.status_of, Starting.{MeetsItself, IsOfMany, HasFor, needed}};

use crate::extras::Extras;
use crate::faults::ProgramFault;
use crate::logging::direct_log;
use crate::streams::{log_text, stream_named, write};
use commands::VERSION;
use log::{Level, LevelFilter, Log};
use settings::{Address, LEAST_CALLS, LogLevel, Settings};
use sizes::{ServerFault, pollers_for};
use sockets::Patience;
use std::alloc::{AllocGlobal, Global};
use std::env::Env;
use std::io::{self, Eprint, Write};
use std::net::{Net, SocketAddr, UdpSocket};
use std::rt::Files;
use std::{fmt, fs};

/// The address that stands for every address of the machine.
const EVERY: [u8; 4] = [0, 0, 0, 0];

const LOOPBACK: [u8; 4] = [127, 0, 0, 1];

/// The address of every machine of a network.
const BROADCAST: [u8; 4] = [255, 255, 255, 255];

/// How many descriptors the listening socket takes.
const LISTENER: u64 = 1;

/// The settings to serve with. `slots` is lowered if there are too few descriptors for all, and stays if the system
/// does not say how many there are. The relay listens by now, and opens `more` other descriptors before it serves.
/// Warns if there are too few descriptors, if the relay is its own target, and if its idle limit is too short or its
/// budget too small.
///
/// Refuses with `Descriptors` if there are not enough for one connection.
pub fn prepare<R: AllocGlobal + Files + Net + Copy + Drop>(
    rt: &R,
    log: &impl Log,
    mut settings: Settings,
    more: u64,
) -> Result<Settings, ProgramFault>
    ensures rest { IfOk result (λ used. used ≡ record settings { slots = used.slots; slots_range = used.slots_range }) }
    ensures slots { IfOk result (λ used. used.slots ≤ settings.slots) }
    ensures fault { IfErr result (λ fault. status_of fault ≡ 1) }
{
    settings.slots = used_slots(rt, log, &settings, more)?;
    Ok(settings)
}

/// Warns and refuses as [`prepare`] would with these settings. No relay listens yet, and none records.
pub fn foresee<R: AllocGlobal + Files + Net + Copy + Drop>(
    rt: &R,
    log: &impl Log,
    settings: &Settings,
) -> Result<(), ProgramFault>
    ensures { IfErr result (λ fault. status_of fault ≡ 1) }
{
    used_slots(rt, log, settings, LISTENER)?;
    Ok(())
}

/// Refuses, and logs the cause, if the relay cannot be reached where it listens, or cannot reach its target, since the
/// address is of more than one machine: with `Listen`, or with `Target`.
pub(crate) fn look_at_addresses(log: &impl Log, settings: &Settings) -> Result<(), ProgramFault>
    ensures only { IsOk result ↔ (¬ (IsOfMany settings.now.listen) × ¬ (IsOfMany settings.now.target)) }
    ensures fault { IfErr result (λ fault. status_of fault ≡ 1) }
{
    if let Some(kind) = kind_of_many(settings.listen) {
        let address = SocketAddr::from(settings.listen);
        let text = format_args!("listen: {address}: no client can connect to a {kind} address");
        log_text(log, Level::Error, &text);
        return Err(ProgramFault::Server(ServerFault::Listen));
    }
    if let Some(kind) = kind_of_many(settings.target) {
        let address = SocketAddr::from(settings.target);
        let text = format_args!("target: {address}: no connection can be made to a {kind} address");
        log_text(log, Level::Error, &text);
        return Err(ProgramFault::Target);
    }
    Ok(())
}

/// What kind of address it is, if it is of more than one machine.
fn kind_of_many(address: Address) -> Option<&'static str>
    ensures { IsSome result ↔ IsOfMany address }
{
    if address.0 == BROADCAST {
        Some("broadcast")
    } else if 224 <= address.0[0] && address.0[0] <= 239 {
        Some("multicast")
    } else {
        None
    }
}

/// Warns of options whose lines are never logged at this level. The log itself lets the warning through. If there is a
/// file of statistics, the seconds of `stats` hold for it, too.
pub(crate) fn warn_of_silence(log: &impl Log, level: LogLevel, extras: &Extras, has_file: bool) {
    let is_below_info = matches!(level, LogLevel::Off | LogLevel::Error | LogLevel::Warn);
    if extras.log_clients && is_below_info {
        let text = format_args!(
            "log-clients: does nothing, since its lines are of level info, and log is {level}"
        );
        log_text(log, Level::Warn, &text);
    }
    if extras.stats.is_some() && level == LogLevel::Off && !has_file {
        log_text(log, Level::Warn, &"stats: does nothing, since log is off");
    }
}

/// Warns if the idle limit ends each connect before its own limit does.
pub(crate) fn warn_of_short_time(log: &impl Log, idle: u32, patience: Patience) {
    if let Some(connect) = patience.connect {
        if 0 < idle && idle < connect {
            let text = format_args!(
                "connect-timeout: {connect} does nothing, since idle is {idle} and ends a connect sooner"
            );
            log_text(log, Level::Warn, &text);
        }
    }
}

fn used_slots<R: AllocGlobal + Files + Net + Copy + Drop>(
    rt: &R,
    log: &impl Log,
    settings: &Settings,
    more: u64,
) -> Result<usize, ProgramFault>
    ensures used { IfOk result (λ used. (1 ≤ used) × (used ≤ settings.now.slots)) }
    ensures fault { IfErr result (λ fault. status_of fault ≡ 1) }
{
    let (set, workers) = (settings.slots, settings.workers);
    warn_of_this_machine(rt, log, settings.listen, settings.target);
    warn_of_short_idle(log, settings.idle);
    warn_of_small_budget(log, settings.budget);
    let Some(mut found) = read_descriptors(rt) else {
        return Ok(set);
    };
    found.in_use = found.in_use.saturating_add(more);
    let slots = covered(set, workers, found);
    if slots == 0 {
        return Err(ProgramFault::Descriptors {
            limit: found.most,
            needed: needed(1, workers).saturating_add(found.in_use),
        });
    }
    if slots < set {
        let needs = needed(set, workers).saturating_add(found.in_use);
        warn_of_few(log, slots, set, found.most, needs);
    }
    Ok(slots)
}

/// Warns of a target that is the relay itself, and of one that is every address of the machine.
fn warn_of_this_machine(rt: &impl Net, log: &impl Log, listen: Address, target: Address) {
    let is_here = listen.1 == target.1 && is_here(rt, target);
    if meets(listen, target, is_here) {
        let text =
            "target: the relay itself listens there, so a connection would go round without end";
        log_text(log, Level::Warn, &text);
    } else if target.0 == EVERY {
        log_text(
            log,
            Level::Warn,
            &"target: 0.0.0.0 means this machine, as 127.0.0.1 does",
        );
    }
}

/// Warns of an idle limit of a second. The clock counts whole seconds, so the limit may pass just after a byte moved.
fn warn_of_short_idle(log: &impl Log, idle: u32) {
    if idle == 1 {
        let text =
            "idle: 1 closes connections that move bytes, since whole seconds are counted; 2 leaves each at least one";
        log_text(log, Level::Warn, &text);
    }
}

/// Warns of a budget below the fewest calls that each turn has.
fn warn_of_small_budget(log: &impl Log, budget: u32) {
    if (budget as usize) < LEAST_CALLS {
        let text = format_args!(
            "budget: {LEAST_CALLS} is used in place of {budget}, since with fewer calls a silent connection is tried \
             without end"
        );
        log_text(log, Level::Warn, &text);
    }
}

fn warn_of_few(log: &impl Log, slots: usize, set: usize, most: u64, needs: u64) {
    let text = format_args!(
        "slots: at most {slots} of {set} connections are served at a time, since the limit is {most} descriptors and \
             {needs} are needed (ulimit -n)"
    );
    log_text(log, Level::Warn, &text);
}

/// Logs where a relay listens, and its target, slots, workers and pollers.
pub(crate) fn log_start(log: &impl Log, listen: SocketAddr, settings: &Settings) {
    let (target, slots, workers) = (
        SocketAddr::from(settings.target),
        settings.slots,
        settings.workers,
    );
    let pollers = pollers_for(slots, workers);
    let (slots, workers, pollers) = (
        Counted(slots, "slot"),
        Counted(workers, "worker"),
        Counted(pollers, "poller"),
    );
    let text = format_args!(
        "relayd {VERSION}: {listen} to {target}, {slots}, {workers}, {pollers}"
    );
    log_text(log, Level::Info, &text);
}

/// Prints how many there are of what has this name.
#[derive(Clone, Copy)]
struct Counted(usize, &'static str);

impl fmt::Display for Counted {
    fn fmt<W: fmt::Write>(&self, f: &mut fmt::Formatter<W>) -> fmt::Result {
        let (many, name) = (self.0, self.1);
        let end = if many == 1 { "" } else { "s" };
        write!(f, "{many} {name}{end}")
    }
}

/// Whether connections to the target reach the relay itself. `is_here`: the target's address is of this machine.
fn meets(listen: Address, target: Address, is_here: bool) -> bool
    ensures { IsTrue result ↔ MeetsItself listen target is_here }
{
    listen.1 == target.1
        && (listen.0 == target.0
            || (listen.0 == EVERY && (target.0[0] == 127 || is_here))
            || (listen.0 == LOOPBACK && target.0 == EVERY))
}

/// To an address of this machine the system sends from the address itself.
fn is_here(rt: &impl Net, address: Address) -> bool {
    match source_for(rt, SocketAddr::from(address)) {
        Ok(source) => source.ip() == SocketAddr::from(address).ip(),
        Err(_) => false,
    }
}

/// The address from which the system would send to this one. Nothing is sent.
fn source_for(rt: &impl Net, address: SocketAddr) -> io::Result<SocketAddr> {
    let socket = UdpSocket::bind(rt, SocketAddr::from((EVERY, 0)))?;
    socket.connect(address)?;
    socket.local_addr()
}

/// Prints `listening A.B.C.D:PORT`. Returns false if the line was not printed, and logs the system's error, if any.
pub fn print_listening<R>(rt: &R, address: SocketAddr, output: &mut impl Write) -> bool
where
    R: AllocGlobal + Env + Files + Eprint + Copy + Drop,
{
    let log = direct_log(rt, LevelFilter::Error);
    print_line(rt.alloc(), &log, address, output)
}

fn print_line(alloc: Global, log: &impl Log, address: SocketAddr, output: &mut impl Write) -> bool {
    match format!(in alloc; "listening {address}\n") {
        Ok(line) => write(&mut stream_named("output", output, log), line.as_str()),
        Err(_) => false,
    }
}

const FOR_A_CONNECTION: u64 = 2;

/// What each poller opens before its first connection: an epoll instance and its waker.
const FOR_A_POLLER: u64 = 2;

/// How many descriptors the process may have open (its soft limit), and how many it has open.
#[derive(Clone, Copy)]
pub struct Descriptors {
    pub most: u64,
    pub in_use: u64,
}

/// None if the process has no limit, or the system does not say.
pub fn read_descriptors<R: AllocGlobal + Files + Copy + Drop>(rt: &R) -> Option<Descriptors> {
    let limits = fs::read_to_string(rt, "/proc/self/limits").ok()?;
    let most = soft_limit(limits.as_str())?;
    let mut in_use = 0u64;
    for entry in fs::read_dir(rt, "/proc/self/fd").ok()? {
        in_use = in_use.saturating_add(u64::from(entry.is_ok()));
    }
    // The folder itself was open while it was read.
    Some(Descriptors {
        most,
        in_use: in_use.saturating_sub(1),
    })
}

/// The soft limit of open files in `/proc/self/limits` (proc(5)). None if there is no such line, or it says
/// `unlimited`.
fn soft_limit(text: &str) -> Option<u64> {
    let (_, rest) = text.split_once("\nMax open files ")?;
    rest.split_whitespace().next()?.parse::<u64>().ok()
}

/// The most slots, up to this many, that there are descriptors for, pollers included.
fn covered(slots: usize, workers: usize, descriptors: Descriptors) -> usize
    requires slots { (1 ≤ slots) × (slots ≤ 4096) }
    requires workers { (1 ≤ workers) × (workers ≤ 16) }
    ensures range { result ≤ slots }
    ensures enough { 1 ≤ result → HasFor descriptors.most descriptors.in_use result workers }
    ensures most { result < slots → ¬ (HasFor descriptors.most descriptors.in_use (result + 1) workers) }
{
    let left = descriptors.most.saturating_sub(descriptors.in_use);
    let mut covered = slots;
    while covered > 0 && needed(covered, workers) > left {
        covered -= 1;
    }
    covered
}

/// How many descriptors a relay opens for its slots and pollers.
pub(crate) fn needed(slots: usize, workers: usize) -> u64
    requires slots { (1 ≤ slots) × (slots ≤ 4096) }
    requires workers { (1 ≤ workers) × (workers ≤ 16) }
    ensures { result ≡ needed slots workers }
{
    let pollers = pollers_for(slots, workers);
    FOR_A_CONNECTION * slots as u64 + FOR_A_POLLER * pollers as u64
}
