//! A whole recording.
ghost use Rattle.std.specs.Prelude.{OnOk};
ghost use Rattle.world.specs.States.{IsWithinLimits};
ghost use Rattle.record_reader.specs.Sequences.{records_of};
ghost use Rattle.replay.specs.Traces.{AreRuns};

use crate::ends::write_ends;
use crate::machine::{Flaw, Machine};
use crate::opening::limits_of;
use crate::results::{Flawed, Results, Whose};
use crate::slot_replay::{Findings, SlotReplay};
use crate::timeline::write_timeline;
use crate::writing::{flush, write_flaw, write_results};
use record_lines::Header;
use record_reader::{
    Clock, Last, Numbered, Post, Recording, check_reads, check_rounds, check_threads, find_posts,
    put_in_order, read, times_of,
};
use std::alloc::Global;
use std::io::{Read, Write};
use tools::{Judged, Replay, ReplayFault, Wanted};
use world::{Lead, Limits};

/// Replays recordings on the machine: each slot and each poller's listener on a world of its own, event by event. What
/// is printed of a slot is read off its world, in which all the events happened (`History`).
pub struct OnMachine;

impl Replay for OnMachine {
    /// Reads a recording, and replays it; for `Ends` and `Timeline` it reads it alone. With `rests`, or after
    /// the record `end`, no slot may have anything left to do. This is not asked after a failed wait for reports, which
    /// ends a relay early; nor by `rests` alone, if records are missing or were left out: they may have done the rest.
    /// Refuses with `Read` if the reader gives an error, `Broken` if a line is malformed or no relay acts in that
    /// order, `Unknown` if it lacks the connection that is wanted, `Write`, and `NoMemory`. No clause covers this call.
    /// After a refusal a part of the outcome may be written.
    fn replay<R: Read, W: Write>(
        &self,
        alloc: Global,
        input: &mut R,
        wanted: Wanted,
        rests: bool,
        output: &mut W,
    ) -> Result<Judged, ReplayFault> {
        match wanted {
            Wanted::Ends => write_ends(alloc, input, output),
            Wanted::Timeline(slot, generation) => {
                write_timeline(alloc, input, slot, generation, output)
            }
            _ => replay_read(alloc, input, wanted, rests, output),
        }
    }
}

fn replay_read<R: Read, W: Write>(
    alloc: Global,
    input: &mut R,
    wanted: Wanted,
    rests: bool,
    output: &mut W,
) -> Result<Judged, ReplayFault> {
    let mut recording = read(alloc, input)?;
    put_in_order(&mut recording)?;
    let mut results = Results::new(wanted);
    let outcome = replay_recording(&recording, rests, output, &mut results);
    drop(results);
    drop(recording);
    outcome
}

fn replay_recording<W: Write>(
    recording: &Recording,
    rests: bool,
    output: &mut W,
    results: &mut Results,
) -> Result<Judged, ReplayFault> {
    let flaw = find_flaw(recording, rests, results)?;
    write_outcome(output, recording, results, flaw)?;
    let judged = match flaw {
        Some(_) => Judged::NoRun,
        None => Judged::Run,
    };
    flush(output, judged)
}

/// Returns why the replay stops. None if it does not.
fn find_flaw(
    recording: &Recording,
    rests: bool,
    results: &mut Results,
) -> Result<Option<Flaw>, ReplayFault> {
    let clock = clock_of(recording, recording.others())?;
    let posts = posts_of(recording, &clock)?;
    let findings = Findings {
        recording,
        clock: &clock,
        posts: posts.as_slice(),
        rests: has_to_rest(recording, rests),
    };
    Ok(replay_all(findings, results).err())
}

/// Whether nothing may be left to do.
fn has_to_rest(recording: &Recording, rests: bool) -> bool {
    match recording.last {
        _ if recording.failed.is_some() => false,
        Last::Ended => true,
        Last::Stopped => rests && recording.left_out == 0,
        // What the record that found no room would have said is not known.
        Last::Full => false,
    }
}

/// The clock that these records read. Refuses one that goes back.
fn clock_of(recording: &Recording, records: &[Numbered]) -> Result<Clock, ReplayFault> {
    let clock = Clock::new(recording.alloc, records)?;
    match clock.first_back(records) {
        Some(back) => Err(recording.broken(back.line, "the clock does not go back")),
        None => Ok(clock),
    }
}

/// Refuses what no relay does, and returns what was posted.
fn posts_of(recording: &Recording, clock: &Clock) -> Result<Vec<Vec<Post>>, ReplayFault> {
    clock.check_readings(recording)?;
    check_times(recording)?;
    check_rounds(recording)?;
    check_threads(recording)?;
    let posts = find_posts(recording, clock)?;
    check_reads(recording)?;
    Ok(posts)
}

fn check_times(recording: &Recording) -> Result<(), ReplayFault> {
    let times = times_of(recording)?;
    drop(clock_of(recording, times.as_slice())?);
    Ok(())
}

fn write_outcome<W: Write>(
    output: &mut W,
    recording: &Recording,
    results: &Results,
    flaw: Option<Flaw>,
) -> Result<(), ReplayFault> {
    match (flaw, &results.flawed, &results.machine) {
        (None, _, _) => write_results(output, results, recording),
        (Some(Flaw::NoMemory), _, _) | (_, None, _) | (_, _, None) => Err(ReplayFault::NoMemory),
        (Some(flaw), Some(flawed), Some(machine)) => {
            let left_out = recording.rest.left_out;
            write_flaw(output, results.wanted, flawed, flaw, machine, left_out)
        }
    }
}

fn replay_all(findings: Findings<'_>, results: &mut Results) -> Result<(), Flaw> {
    if let Wanted::Script(slot, _) = results.wanted {
        return replay_slot(findings, results, slot);
    }
    for poller in 0..findings.recording.header.pollers {
        replay_poller(findings.recording, results, poller)?;
    }
    for slot in 0..findings.recording.header.slots {
        replay_slot(findings, results, slot)?;
    }
    Ok(())
}

fn replay_poller(recording: &Recording, results: &mut Results, poller: usize) -> Result<(), Flaw> {
    let mut machine = Machine::new(recording.alloc, Machine::LIMITS)?;
    for numbered in recording.poller(poller) {
        if let Err(flaw) = machine.listen(&numbered.record.act) {
            let flawed = Flawed {
                whose: Whose::Poller(poller),
                numbered: *numbered,
                before: None,
                phase: None,
            };
            results.end(flawed, machine);
            return Err(flaw);
        }
    }
    results.take(0, machine);
    Ok(())
}

fn replay_slot(findings: Findings<'_>, results: &mut Results, slot: usize) -> Result<(), Flaw>
    ensures runs { OnOk result (AreRuns findings.entry.recording.now.header findings.entry.recording.now.failed
        (records_of findings.entry.recording.now slot)) }
{
    let records = findings.recording.slot(slot);
    let Some(first) = records.first() else {
        return Ok(());
    };
    let limits = limits_at_first(&findings.recording.header);
    let machine = Machine::new(findings.recording.alloc, limits)?;
    let mut replay = SlotReplay::new(findings, slot, *first, machine);
    let result = replay.run(findings.recording, records, results);
    let flawed = replay.flawed();
    let SlotReplay { machine, .. } = replay;
    match result {
        Ok(()) => results.take(slot, machine),
        Err(_) => results.end(flawed, machine),
    }
    result
}

/// The limits of the world that a slot has before anything is opened there.
fn limits_at_first(header: &Header) -> Limits
    ensures { IsWithinLimits result }
{
    limits_of(header, 1, Lead::NONE).unwrap_or(Machine::LIMITS)
}
