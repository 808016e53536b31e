// What a wire in memory plays, which no clause says. In a session each side gives some bytes and then its end, and
// takes what the other side gave.
use crate::{all_well, no_row};
use engine::{Play, PlayList, ScriptWire, Wire, turn};
use relay_core::{CallKind, Fault, Kind, Pair, Side, Verdict};
use std::alloc::{AllocError, Global};
use std::io::ErrorKind;
use std::test::Fail;

/// What is seen of a session after a turn: the pair's verdict, how many bytes the client took and the target took, how
/// many plays the target has left, and how many faults it counted.
type Seen = (Verdict, usize, usize, usize, u64);

/// A write to the target took nothing.
const TOOK_NONE: Verdict = Verdict::Failed(Fault::Broken {
    side: Side::Target,
    call: CallKind::Write,
    kind: Kind::Zero,
});

/// Each row: the number of a play that is put before the target's first write, and what is seen then. The turn has as
/// many calls as a session with one more play needs.
static ROWS: [(u8, Seen); 4] = [
    (0, (Verdict::Done, 2, 3, 0, 0)),
    (1, (Verdict::Done, 2, 3, 0, 0)),
    (2, (Verdict::Live, 2, 0, 2, 0)),
    (3, (TOOK_NONE, 0, 0, 3, 1)),
];

fn play(number: u8) -> Play {
    match number {
        0 => Play::Interrupted,
        1 => Play::Take(1),
        2 => Play::Blocked,
        _ => Play::Zero,
    }
}

fn plays<const N: usize>(alloc: Global, plays: [Play; N]) -> Result<Vec<Play>, AllocError> {
    Ok(Vec::from_array(alloc, plays)?)
}

/// One side of the session: it gives these bytes and then its end, and takes `takes` bytes.
fn wire(alloc: Global, joined: bool, gives: &[u8], takes: usize) -> Result<ScriptWire, AllocError> {
    let reads = plays(alloc, [Play::Bytes(gives.to_vec(alloc)?), Play::End])?;
    let writes = plays(alloc, [Play::Take(takes)])?;
    ScriptWire::new(alloc, joined, reads, writes, plays(alloc, [Play::Shut])?)
}

fn seen(alloc: Global, mut client: ScriptWire, mut target: ScriptWire) -> Result<Seen, AllocError> {
    let mut pair = Pair::new(alloc, 0, 1, 4, 0, b"")?;
    let _outcome = turn(&mut pair, &mut client, &mut target, 9, 0, 0);
    let (down, up) = (client.written().len(), target.written().len());
    Ok((pair.verdict(), down, up, target.left(), target.faults()))
}

/// The first wrong row.
fn first_wrong(alloc: Global) -> Result<Option<usize>, AllocError> {
    for (row, (number, wanted)) in ROWS.iter().enumerate() {
        let client = wire(alloc, true, b"abc", 2)?;
        let mut target = wire(alloc, false, b"xy", 3)?;
        target.disturb(PlayList::Writes, 0, play(*number))?;
        if seen(alloc, client, target)? != *wanted {
            return Ok(Some(row));
        }
    }
    Ok(None)
}

#[test]
fn goes_on_waits_or_fails_before_a_write(rt: HostRuntime) -> Result<(), Fail> {
    no_row(&rt, first_wrong(rt.alloc()))
}

/// A wire whose first play for each call does not fit the call.
fn unfit(alloc: Global) -> Result<ScriptWire, AllocError> {
    let unconnected = Play::Fault(Kind::NotConnected);
    let reads = plays(alloc, [Play::Take(1), Play::Blocked, unconnected])?;
    let writes = plays(alloc, [Play::End])?;
    let closings = [Play::Take(1), Play::Joined, Play::Blocked, Play::Shut];
    ScriptWire::new(alloc, false, reads, writes, plays(alloc, closings)?)
}

/// The errors of a read, a write, a join and a shutdown. None for a call that succeeds.
fn errors(wire: &mut ScriptWire) -> [Option<ErrorKind>; 4] {
    [
        wire.read(&mut [0]).map_err(|error| error.kind()).err(),
        wire.write(b"a").map_err(|error| error.kind()).err(),
        wire.joined().map_err(|error| error.kind()).err(),
        wire.shut_write().map_err(|error| error.kind()).err(),
    ]
}

/// Whether a play that does not fit is a fault, and connects nothing. Without a play a call would block, but a
/// shutdown succeeds. Until the wire is connected, the error `NotConnected` counts as "would block".
fn answers(wire: &mut ScriptWire) -> bool {
    let (other, blocked) = (Some(ErrorKind::Other), Some(ErrorKind::WouldBlock));
    let unconnected = Some(ErrorKind::NotConnected);
    errors(wire) == [other; 4]
        && errors(wire) == [blocked, blocked, blocked, None]
        && errors(wire) == [unconnected, blocked, blocked, None]
        && (wire.faults(), wire.blocks(), wire.left()) == (4, 6, 0)
}

#[test]
fn answers_without_a_play_that_fits(rt: HostRuntime) -> Result<(), Fail> {
    let mut wire = unfit(rt.alloc())?;
    all_well(Ok(answers(&mut wire)))
}
