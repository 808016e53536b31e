ghost use Rattle.std.specs.Prelude.{◌≡◌, ◌⊎◌, IfOk, IfErr};
ghost use Rattle.program.specs.Faults.{IsCarriedOut, status_of};

use crate::faults::{DONE, FAULT, ProgramFault};
use crate::recording_file::{FIRST_WORDS, first_bytes};
use crate::streams::{FileName, Stream, Unopened, log_error, log_text, stream_named};
use commands::Replayed;
use log::{Level, Log};
use settings::{TypedWord, has_leading_zero};
use std::fs::{self, File};
use std::io::{self, Write};
use std::rt::Files;
use tools::{Judged, MAX_SCRIPT, Replay, ReplayFault, Wanted};

/// Returns 0 if the recording in a file is of runs of the machine, and 1 if not. Logs what is wrong with the file.
/// Refuses with `Connection` or `Timeline`, before any output, if `--script` or `--timeline` names no connection.
pub(crate) fn replay<R: AllocGlobal + Files, L: Log, O: Write, P: Replay>(
    rt: &R,
    log: &L,
    replayed: Replayed<'_>,
    writer: &mut O,
    player: &P,
) -> Result<u8, ProgramFault>
    ensures done { IfOk result (λ status. IsCarriedOut status) }
    ensures unwritten { IfErr result (λ fault. status_of fault ≡ 2 → O.contents writer.new ≡ O.contents writer.old) }
{
    let wanted = find_wanted(log, replayed)?;
    let name = FileName("recording", replayed.path);
    let inner = open(rt, log, replayed.path)?;
    let mut file = Stream { name, inner, log };
    let mut writer = Counted {
        writer: stream_named("output", writer, log),
        bytes: 0,
    };
    match player.replay(rt.alloc(), &mut file, wanted, replayed.rests, &mut writer) {
        Ok(outcome) => Ok(status_after(log, outcome, wanted, writer.bytes)),
        Err(fault) => {
            log_broken(log, &name, &fault);
            Err(ProgramFault::Replay(fault))
        }
    }
}

/// Opens a recording. Refuses, and logs the cause, if the file cannot be opened or is no recording.
fn open<R: AllocGlobal + Files>(rt: &R, log: &impl Log, path: &str) -> Result<R::File, ProgramFault>
    ensures { IfErr result (λ fault. status_of fault ≡ 1) }
{
    let file = match File::open(rt, path) {
        Ok(file) => file,
        Err(error) => {
            log_error(log, &"recording", &Unopened { path, error });
            return Err(ProgramFault::Replay(ReplayFault::Read));
        }
    };
    if let Some(what) = other_file(rt, path) {
        log_error(log, &FileName("recording", path), &what);
        return Err(ProgramFault::NoRecording);
    }
    Ok(file)
}

/// Returns the status. Warns if the `bytes` that were written are a script that is too long for `sim`.
fn status_after(log: &impl Log, judged: Judged, wanted: Wanted, bytes: usize) -> u8
    ensures { IsCarriedOut result }
{
    let has_run = matches!(judged, Judged::Run);
    if matches!(wanted, Wanted::Script(..)) || !has_run && matches!(wanted, Wanted::Steps) {
        let most = MAX_SCRIPT;
        if bytes > most {
            let text = format_args!(
                "output: the script has {bytes} bytes, and relayd sim takes at most {most}"
            );
            log_text(log, Level::Warn, &text);
        }
    }
    if has_run { DONE } else { FAULT }
}

fn log_broken(log: &impl Log, name: &FileName<'_>, fault: &ReplayFault) {
    if let ReplayFault::Broken(cause) | ReplayFault::Unknown(cause) = fault {
        log_error(log, name, cause);
    }
}

#[derive(Drop)]
struct Counted<W> {
    writer: W,
    bytes: usize,
}

impl<W: Write> Write for Counted<W> {
    fn write(&mut self, bytes: &[u8]) -> io::Result<usize> {
        let written = self.writer.write(bytes)?;
        self.bytes = self.bytes.saturating_add(written);
        Ok(written)
    }

    fn flush(&mut self) -> io::Result<()> {
        self.writer.flush()
    }
}

/// What other files begin with, and what is said of one.
static OTHERS: [(&[u8], &str); 3] = [
    (
        b"\x1f\x8b",
        "is compressed: zcat FILE | relayd replay /dev/stdin",
    ),
    (
        b"\xfd7zXZ",
        "is compressed: xzcat FILE | relayd replay /dev/stdin",
    ),
    (
        b"\x28\xb5\x2f\xfd",
        "is compressed: zstdcat FILE | relayd replay /dev/stdin",
    ),
];

/// What each line of the log has after its level.
const LOGGED: &str = " relayd]";

/// What is said of a file that does not begin as a recording does. A pipe is not read, and counts as a recording.
fn other_file(rt: &impl Files, path: &str) -> Option<&'static str> {
    match fs::metadata(rt, path) {
        Ok(found) if found.is_file() => {}
        _ => return None,
    }
    let (first, length) = first_bytes(rt, path).ok()?;
    if length == 0 {
        return Some("is empty");
    }
    other_words(&first)
}

/// What is said of a file that begins with these bytes. Those past its end are 0.
fn other_words(first: &[u8; 17]) -> Option<&'static str> {
    if *first == FIRST_WORDS {
        return None;
    }
    for (begins, what) in &OTHERS {
        if first.starts_with(begins) {
            return Some(what);
        }
    }
    match std::str::from_utf8(first) {
        Ok(text) if text.contains(LOGGED) => Some("is a log, and no recording"),
        _ => Some("is no recording"),
    }
}

/// What is wanted of a recording. Refuses with `Connection` or `Timeline`, and logs the cause, if it names none.
fn find_wanted(log: &impl Log, replayed: Replayed<'_>) -> Result<Wanted, ProgramFault>
    ensures { IfErr result (λ fault. (fault ≡ ProgramFault.Connection) ⊎ (fault ≡ ProgramFault.Timeline)) }
{
    if let Some(name) = replayed.script {
        let Some((slot, generation)) = connection_in(log, "script", name) else {
            return Err(ProgramFault::Connection);
        };
        return Ok(Wanted::Script(slot, generation));
    }
    if let Some(name) = replayed.timeline {
        let Some((slot, generation)) = connection_in(log, "timeline", name) else {
            return Err(ProgramFault::Timeline);
        };
        return Ok(Wanted::Timeline(slot, generation));
    }
    Ok(wanted_of_all(replayed))
}

/// What is wanted of all connections.
fn wanted_of_all(replayed: Replayed<'_>) -> Wanted {
    if replayed.ends {
        Wanted::Ends
    } else if replayed.steps {
        Wanted::Steps
    } else {
        Wanted::Totals
    }
}

/// The slot and the generation that an option's value names. Logs what is wanted if it names none.
fn connection_in(log: &impl Log, option: &'static str, name: &str) -> Option<(usize, u64)> {
    let named = connection_named(name);
    if named.is_none() {
        let word = TypedWord(name);
        let option = format_args!("options: --{option} {word}");
        log_error(
            log,
            &option,
            &"a slot and a generation are wanted, as in 3.1",
        );
    }
    named
}

/// The slot and the generation that `S.G` names.
fn connection_named(name: &str) -> Option<(usize, u64)> {
    let (slot, generation) = name.split_once('.')?;
    if has_leading_zero(slot) || has_leading_zero(generation) {
        return None;
    }
    Some((slot.parse().ok()?, generation.parse().ok()?))
}
