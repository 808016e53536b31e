//! The actions of a slot's records, and whether runs of the machine have the same.
ghost use Rattle.std.specs.Prelude.{◌≡◌, ◌<◌, ◌≤◌, IfOk, IsTrue, length};
ghost use Rattle.replay.specs.Traces.{HasNoTurn, HasSizes, IsConnection, MayClose, trace_of_records};

use crate::action::{Action, action_of, are_same};
use crate::history::History;
use record_lines::{Act, Header, Polling};
use record_reader::{Numbered, Recording};
use std::alloc::{AllocError, Global};
use world::Limits;

fn trace_of_records(alloc: Global, records: &[Numbered]) -> Result<Vec<Action>, AllocError>
    ensures { IfOk result (λ trace. trace.items ≡ trace_of_records records.now) }
{
    let mut trace = Vec::new(alloc);
    let mut last = Act::Ended;
    for place in 0..records.len() {
        let act = records[place].record.act;
        if let Some(action) = action_of(&last, &act) {
            trace.push(action)?;
        }
        last = act;
    }
    Ok(trace)
}

/// Whether these records of one connection are those of this run. If the connection had no turn, there is nothing to
/// compare, and the answer is yes.
pub(crate) fn is_connection(
    recording: &Recording,
    run: &History,
    records: &[Numbered],
) -> Result<bool, AllocError>
    ensures { IfOk result (λ so. IsTrue so → IsConnection recording.now.header recording.now.failed records.now) }
{
    let trace = trace_of_records(recording.alloc, records)?;
    if has_no_turn(trace.as_slice()) {
        return Ok(true);
    }
    Ok(
        has_sizes(&recording.header, &run.limits())
            && may_close(recording.failed, run.trace(), trace.as_slice()),
    )
}

fn has_no_turn(trace: &[Action]) -> bool
    ensures { IsTrue result → HasNoTurn trace.now }
{
    match trace {
        [] | [Action::Opened(_)] => true,
        [Action::Opened(opened), Action::Closed(closed)] => *opened == *closed,
        _ => false,
    }
}

fn has_sizes(header: &Header, limits: &Limits) -> bool
    ensures { IsTrue result → HasSizes header.now limits.now }
{
    limits.slots == 1
        && limits.workers == 1
        && limits.ring == header.ring
        && limits.budget == header.budget
        && limits.idle == header.idle
}

fn may_close(failed: Option<u64>, run: &[Action], records: &[Action]) -> bool
    ensures { IsTrue result → MayClose failed run.now records.now }
{
    if are_same(run, records) {
        return true;
    }
    match records {
        [before @ .., Action::Closed(_)] => failed.is_some() && are_same(run, before),
        _ => false,
    }
}

/// How many of these records are of one connection. The first is its opening; they end before the next opening.
pub(crate) fn connection_len(records: &[Numbered]) -> usize
    requires { 0 < length records.now }
    ensures some { 0 < result }
    ensures within { result ≤ length records.now }
{
    for place in 1..records.len() {
        if let Act::Poller(_, Polling::Open(_, _, _)) = records[place].record.act {
            return place;
        }
    }
    records.len()
}
