//! What the program does, from its arguments to its status.
ghost use Rattle.std.specs.Prelude.{◌≡◌, ◌≢◌, ◌⊎◌, false, IsTrue, IfSome, IfOk, IfErr, Ok};
ghost use Rattle.clap.specs.Values.{kind_of};
ghost use Rattle.program.specs.Faults.{IsCarriedOut, status_of};

use crate::faults::{ArgumentsFault, DONE, FAULT, ProgramFault, USAGE};
use crate::logging::direct_log;
use crate::replaying_file::replay;
use crate::running::{Given, read, run};
use crate::starting::{foresee, look_at_addresses, warn_of_short_time};
use crate::streams::{LoggedCauses, log_error, stream_named, write};
use clap::Error;
use clap::error::ErrorKind;
use commands::{Command, Relay, print_answer, print_refused, read_command};
use log::{LevelFilter, Log};
use settings::Settings;
use sizes::ServerFault;
use std::alloc::{AllocError, Global};
use std::env::{Env, FillError};
use std::io::{Eprint, IsTerminal, Read, Write};
use std::net::Net;
use std::os::fd::AsRawFd;
use std::rt::Files;
use tools::{Outcome, Replay, Simulate};

/// How many arguments are looked at for one that is not UTF-8.
const MOST_ARGUMENTS: usize = 1_000;

/// Writes to `errors` why the arguments cannot be read, and returns the exit status: 1 if memory ran out; 2, a usage
/// error, if an argument is not UTF-8.
pub fn report_arguments_fault<R: Env, E: Write>(rt: &R, errors: &mut E, fault: ArgumentsFault) -> u8
    ensures memory { fault ≡ ArgumentsFault.NoMemory → result ≡ 1 }
    ensures not_text { fault ≡ ArgumentsFault.NotText → result ≡ 2 }
{
    match fault {
        ArgumentsFault::NoMemory => report_fault(errors, ProgramFault::from(AllocError)),
        ArgumentsFault::NotText => {
            let _ = match find_no_text(rt) {
                Some(number) => writeln!(errors, "error: argument {number} is not UTF-8"),
                None => writeln!(errors, "error: an argument is not UTF-8"),
            };
            USAGE
        }
    }
}

/// The number, from 1, of the first argument that is not UTF-8. None if it is longer than what is looked at.
fn find_no_text(rt: &impl Env) -> Option<usize> {
    let mut room = [0u8; 4096];
    for number in 1..MOST_ARGUMENTS {
        match rt.arg(number, &mut room) {
            Ok(length) if std::str::from_utf8(&room[..length]).is_err() => return Some(number),
            Err(FillError::NotPresent) => return None,
            _ => {}
        }
    }
    None
}

/// Runs the program by the arguments of the command line; the first is the program's own name (`relayd(1)`). A script
/// is read from `reader`, and what a command prints goes to `writer`. What a relay prints and logs goes to the
/// process's own streams.
///
/// Returns the exit status: 0 if the command was carried out, or help or the version printed; 1 for a fault; 2 for a
/// usage error. A fault of the script itself, or a recording that is no run, is written to `writer`, any other fault
/// to `errors` after `relayd: `, and a usage error to `errors`. If the command line is refused, nothing has been read
/// from `reader` or written to `writer`. The same holds if `is_closed`, standard output is closed: no command is
/// carried out then, and nothing listens.
///
/// `serve` serves with what it is given and the process's own handle: only this handle can start a thread. It returns
/// true if it could print where the relay listens. `player` plays a recording, and `simulator` runs a script.
pub fn act<R, S, P: Replay, M: Simulate, I: Read + IsTerminal, O: Write, E: Write>(
    rt: &R,
    arguments: &[String],
    reader: &mut I,
    writer: &mut O,
    is_closed: bool,
    errors: &mut E,
    serve: &S,
    player: &P,
    simulator: &M,
) -> u8
where
    R: AllocGlobal + Env + Files + Eprint + Net + Copy + Drop,
    R::File: AsRawFd,
    S: Fn(Given<R>) -> Result<bool, ServerFault>,
    requires { S.IsAlwaysCallable serve.now }
    ensures status { IsCarriedOut result ⊎ (result ≡ 2) }
    ensures unread { result ≡ 2 → I.remaining reader.new ≡ I.remaining reader.old }
    ensures unwritten { result ≡ 2 → O.contents writer.new ≡ O.contents writer.old }
    ensures closed { IsTrue is_closed
        → (I.remaining reader.new ≡ I.remaining reader.old) × (O.contents writer.new ≡ O.contents writer.old) }
{
    let log = direct_log(rt, LevelFilter::Warn);
    match read_command(rt.alloc(), arguments) {
        Ok(command) if is_closed => {
            drop(command);
            refuse_closed(&log, errors)
        }
        Ok(command) => {
            tell_if_typed(&command, reader, errors);
            match carry_out(rt, &log, command, reader, writer, serve, player, simulator) {
                Ok(status) => status,
                Err(fault) => report_fault(errors, fault),
            }
        }
        Err(error) => answer_usage(
            rt.alloc(),
            &log,
            arguments,
            &error,
            is_closed,
            writer,
            errors,
        ),
    }
}

/// Says that a script is waited for, if one is typed.
fn tell_if_typed<I: IsTerminal, E: Write>(command: &Command<'_>, reader: &I, errors: &mut E) {
    if matches!(command, Command::Simulate { .. }) && reader.is_terminal() {
        // If this line cannot be written, the script is read all the same.
        let _ = writeln!(
            errors,
            "relayd: waiting for a script; Ctrl-D ends it (see relayd --help)"
        );
    }
}

/// Carries out a command. The causes of faults, and warnings of `check`, go to `log`, whatever level a settings file
/// sets: if the file has a fault, its level is not known.
fn carry_out<R, S, P: Replay, M: Simulate, L: Log, I: Read, O: Write>(
    rt: &R,
    log: &L,
    command: Command<'_>,
    reader: &mut I,
    writer: &mut O,
    serve: &S,
    player: &P,
    simulator: &M,
) -> Result<u8, ProgramFault>
where
    R: AllocGlobal + Env + Files + Eprint + Net + Copy + Drop,
    R::File: AsRawFd,
    S: Fn(Given<R>) -> Result<bool, ServerFault>,
    requires { S.IsAlwaysCallable serve.now }
    ensures done { IfOk result (λ status. IsCarriedOut status) }
    ensures unread { IfErr result (λ fault. status_of fault ≡ 2 → I.remaining reader.new ≡ I.remaining reader.old) }
    ensures unwritten { IfErr result (λ fault. status_of fault ≡ 2 → O.contents writer.new ≡ O.contents writer.old) }
{
    match command {
        Command::Simulate { each } => {
            simulate_on(rt.alloc(), log, each, simulator, reader, writer)
        }
        Command::Check(relay) => check(rt, log, &relay, writer),
        Command::Serve(relay) => run(rt, log, &relay, serve),
        Command::Replay(replayed) => replay(rt, log, replayed, writer, player),
    }
}

fn check<R, L: Log, O: Write>(
    rt: &R,
    log: &L,
    relay: &Relay<'_>,
    writer: &mut O,
) -> Result<u8, ProgramFault>
where
    R: AllocGlobal + Files + Eprint + Net + Copy + Drop,
    ensures done { IfOk result (λ status. status ≡ 0) }
    ensures unwritten { IfErr result (λ fault. status_of fault ≡ 2 → O.contents writer.new ≡ O.contents writer.old) }
{
    let (settings, extras) = read(rt, log, relay, None)?;
    warn_of_short_time(log, settings.idle, extras.patience);
    look_at_addresses(log, &settings)?;
    foresee(rt, log, &settings)?;
    print(
        rt.alloc(),
        &settings,
        &mut stream_named("output", writer, log),
    )
}

/// Runs a script on streams whose errors are logged.
fn simulate_on<M: Simulate, L: Log, I: Read, O: Write>(
    alloc: Global,
    log: &L,
    each: bool,
    simulator: &M,
    reader: &mut I,
    writer: &mut O,
) -> Result<u8, ProgramFault>
    ensures done { IfOk result (λ status. IsCarriedOut status) }
    ensures fault { IfErr result (λ fault. status_of fault ≡ 1) }
{
    let mut reader = stream_named("input", reader, log);
    let mut writer = stream_named("output", writer, log);
    simulate(alloc, log, each, simulator, &mut reader, &mut writer)
}

/// Returns 0 if the report was written, or if `each` what each step changed. Returns 1, and logs the cause, if the line
/// of the script's fault was.
fn simulate<M: Simulate, L: Log, I: Read, O: Write>(
    alloc: Global,
    log: &L,
    each: bool,
    simulator: &M,
    reader: &mut I,
    writer: &mut O,
) -> Result<u8, ProgramFault>
    ensures report { each ≡ false → result ≡ Ok 0 → IfSome (I.remaining reader.old)
        (λ text. M.reports simulator.now text (O.contents writer.old) (O.contents writer.new)) }
    ensures done { IfOk result (λ status. IsCarriedOut status) }
    ensures fault { IfErr result (λ fault. status_of fault ≡ 1) }
    ensures refused { each ≡ false → result ≡ Ok 1 → IfSome (I.remaining reader.old)
        (λ text. M.refuses simulator.now text (O.contents writer.old) (O.contents writer.new)) }
{
    match simulator.simulate(alloc, each, reader, writer, &LoggedCauses(log)) {
        Ok(Outcome::Report) => Ok(DONE),
        Ok(Outcome::Refused) => Ok(FAULT),
        Err(fault) => Err(ProgramFault::Script(fault)),
    }
}

fn print(alloc: Global, settings: &Settings, writer: &mut impl Write) -> Result<u8, ProgramFault>
    ensures done { IfOk result (λ status. status ≡ 0) }
    ensures fault { IfErr result (λ fault. status_of fault ≡ 1) }
{
    let text = format!(in alloc; "{settings}")?;
    if !write(writer, text.as_str()) {
        return Err(ProgramFault::Write);
    }
    Ok(DONE)
}

/// Prints what the parser answers in place of a command: help and the version to `writer`, unless standard output
/// `is_closed`, and to `errors` why the arguments are refused, with what to type instead. Returns the exit status.
fn answer_usage<L: Log, O: Write, E: Write>(
    alloc: Global,
    log: &L,
    arguments: &[String],
    error: &Error,
    is_closed: bool,
    writer: &mut O,
    errors: &mut E,
) -> u8
    ensures memory { kind_of error.now ≡ ErrorKind.OutOfMemory → result ≡ 1 }
    ensures refused { kind_of error.now ≢ ErrorKind.OutOfMemory → kind_of error.now ≢ ErrorKind.DisplayHelp → kind_of error.now
        ≢ ErrorKind.DisplayVersion → result ≡ 2 }
    ensures status { IsCarriedOut result ⊎ (result ≡ 2) }
    ensures unwritten { result ≡ 2 → O.contents writer.new ≡ O.contents writer.old }
    ensures closed { IsTrue is_closed → O.contents writer.new ≡ O.contents writer.old }
{
    if error.kind() == ErrorKind::OutOfMemory {
        return report_fault(errors, ProgramFault::from(AllocError));
    }
    if error.use_stderr() {
        print_refused(alloc, arguments, error, errors);
        return USAGE;
    }
    if is_closed {
        return refuse_closed(log, errors);
    }
    match print_answer(alloc, error, &mut stream_named("output", writer, log)) {
        Ok(true) => DONE,
        Ok(false) => report_fault(errors, ProgramFault::Write),
        Err(error) => report_fault(errors, ProgramFault::from(error)),
    }
}

/// Refuses to do anything, since standard output is closed.
fn refuse_closed<E: Write>(log: &impl Log, errors: &mut E) -> u8
    ensures { result ≡ 1 }
{
    log_error(log, &"output", &"is closed; give it one, as > /dev/null");
    report_fault(errors, ProgramFault::Write)
}

/// Writes a fault to `errors`, and returns its status.
fn report_fault(errors: &mut impl Write, fault: ProgramFault) -> u8
    ensures { result ≡ status_of fault }
{
    // If this fails, too, only the status is left to report the fault.
    let _ = writeln!(errors, "relayd: {fault}");
    fault.status()
}
