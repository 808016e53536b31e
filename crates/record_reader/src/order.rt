//! Looks at the order of the records, and finds out where a recording is no longer complete.
ghost use Rattle.std.specs.Prelude.{◌≡◌, ◌≢◌, ◌-◌, ◌<◌, ◌≤◌, ◌↔◌, ℕ, IfNone, IfSome, IsTrue, length, slice_index};
ghost use Rattle.record_reader.specs.Sequences.{IsBegun, IsMissing, Follows, FollowsAt, is_of_wait};

use crate::reading::fault;
use crate::recording::{Last, Numbered, Recording, count_before, is_twice, sort};
use record_lines::{Act, Made, Polling};
use std::alloc::AllocError;
use tools::ReplayFault;

/// Puts the last list of a recording in the order of the counts before its records. Refuses with `Broken` if the lines
/// of a slot or of a poller are in another order, if what one thread at a time does overlaps, if two acts have the
/// same count, if the last record has not the greatest counts, or if a recording that says it is complete is not. If
/// it does not say so, records may be lost: then only those before the first lost one are left.
pub fn put_in_order(recording: &mut Recording) -> Result<(), ReplayFault> {
    // Only the last list is of several threads at once. The lines of a slot, and of a poller, stand in the order of
    // their counts: each is put into one queue by the thread that has the slot then, or is the poller.
    if let Some(list) = recording.lists.last_mut() {
        sort(list)?;
    }
    check_sequences(recording)?;
    let Some(lost) = find_lost(recording)? else {
        return Ok(());
    };
    if matches!(recording.last, Last::Ended) {
        let text = format!(in recording.alloc; "the record with the count {lost} is missing");
        return Err(fault(text));
    }
    leave_out(recording, lost);
    Ok(())
}

/// Sets `whole` to the first count that no record has, and returns the first count of a lost record.
fn find_lost(recording: &mut Recording) -> Result<Option<u64>, ReplayFault> {
    let mut counts = counts_of(recording)?;
    check_counts(recording, counts.as_slice())?;
    let base = recording.base();
    for count in counts.as_mut_slice().iter_mut() {
        *count = count.saturating_sub(base);
    }
    recording.whole = base.saturating_add(first_missing(counts.as_slice()) as u64);
    let begun = begun(recording)?;
    match first_lost(counts.as_slice(), begun.as_slice()) {
        Some(lost) => Ok(Some(base.saturating_add(lost))),
        None => Ok(None),
    }
}

/// Refuses two acts at once at a slot, or of a poller, and lines that do not follow their counts.
fn check_sequences(recording: &Recording) -> Result<(), ReplayFault> {
    let sequences = recording.lists.len().saturating_sub(1);
    for at in 0..sequences {
        let list = recording.list(at);
        let place = first_overlap(list);
        if let Some(numbered) = list.get(place) {
            let why = disorder(list.get(place.saturating_sub(1)), numbered);
            return Err(recording.broken(numbered.line, why));
        }
    }
    Ok(())
}

fn disorder(last: Option<&Numbered>, next: &Numbered) -> &'static str {
    match last {
        Some(last) if next.record.after < last.record.before => {
            "it stands after a later act at its slot, or of its poller"
        }
        _ => "the act before it at its slot, or of its poller, has not ended",
    }
}

/// Refuses a count that two acts have, and a record `end` or `full` whose counts are not the greatest.
fn check_counts(recording: &Recording, counts: &[u64]) -> Result<(), ReplayFault> {
    if let Some(count) = counts.get(first_twice(counts)) {
        let text = format!(in recording.alloc; "two acts have the count {count}");
        return Err(fault(text));
    }
    let greatest = counts.last().copied().unwrap_or(0);
    for numbered in recording.others() {
        let record = &numbered.record;
        if matches!(record.act, Act::Ended | Act::Full) && record.after != greatest {
            return Err(recording.broken(numbered.line, "the last record has the greatest counts"));
        }
    }
    Ok(())
}

/// All counts from `Recording::base` up, in order. The time and the reports of a poll have those of the poll.
fn counts_of(recording: &Recording) -> Result<Vec<u64>, AllocError> {
    let mut counts = Vec::new(recording.alloc);
    counts.extend_from_slice(recording.early.as_slice())?;
    for at in 0..recording.lists.len() {
        for numbered in recording.list(at) {
            let record = &numbered.record;
            if !is_twice(at < recording.header.slots, &record.act) && !is_of_wait(&record.act) {
                counts.extend_from_slice(&[record.before, record.after])?;
            }
        }
    }
    counts.sort_unstable();
    Ok(counts)
}

/// The place of the first of these sorted counts that is the same as the one before it, or else their number.
fn first_twice(counts: &[u64]) -> usize
    ensures within { result ≤ length counts.now }
    ensures once { (place : ℕ) → place < result → 1 ≤ place → slice_index counts.now (place - 1) ≢ slice_index counts.now place }
    ensures twice { result < length counts.now → (1 ≤ result) × (slice_index counts.now (result - 1) ≡ slice_index counts.now result) }
{
    for place in 1..counts.len() {
        if counts[place - 1] == counts[place] {
            return place;
        }
    }
    counts.len()
}

/// The first count from 0 up that is not among these sorted counts.
fn first_missing(counts: &[u64]) -> usize
    ensures within { result ≤ length counts.now }
    ensures there { (count : ℕ) → count < result → slice_index counts.now count ≡ count }
    ensures missing { result < length counts.now → slice_index counts.now result ≢ result }
{
    for (place, count) in counts.iter().enumerate() {
        if *count != place as u64 {
            return place;
        }
    }
    counts.len()
}

/// For each list the least count that an act can have which may have begun, and not ended, when the relay was stopped.
/// In order, and less what is before `Recording::base`; `u64::MAX` for a list without one.
fn begun(recording: &Recording) -> Result<Vec<u64>, AllocError> {
    let mut begun = vec![in recording.alloc; u64::MAX; recording.lists.len()]?;
    if !matches!(recording.last, Last::Ended) {
        // Where a file follows other parts, each worker may be in a turn of a slot of which nothing stays.
        let mut early = match recording.header.from {
            Some(_) => recording.header.workers,
            None => 0,
        };
        for (at, count) in begun.iter_mut().enumerate() {
            *count = next_begun(recording, at, &mut early);
        }
    }
    begun.sort_unstable();
    Ok(begun)
}

/// The least count that an act of this list without a record can have: after the last act of a poller, which may wait
/// for reports, or of a turn that has not ended; and 0 for the first empty lists of slots, as many as `early` says.
/// `u64::MAX` if there is no such act.
fn next_begun(recording: &Recording, at: usize, early: &mut usize) -> u64 {
    let is_slot = at < recording.header.slots;
    let is_poller = !is_slot && at < recording.lists.len().saturating_sub(1);
    match recording.list(at).last() {
        Some(last) if is_poller || is_of_turn(&last.record.act) => {
            let next = last.record.after.saturating_add(1);
            next.saturating_sub(recording.base())
        }
        None if is_poller => 0,
        None if is_slot && *early > 0 => {
            *early -= 1;
            0
        }
        _ => u64::MAX,
    }
}

fn is_of_turn(act: &Act) -> bool {
    match act {
        Act::Begin(_) => true,
        Act::Wire(_, made) => !matches!(made, Made::Settle | Made::Drop),
        _ => false,
    }
}

/// The first missing count, below the greatest of these, that no act which was begun can have. Each of those acts
/// lacks one count.
fn first_lost(counts: &[u64], begun: &[u64]) -> Option<u64>
    ensures none { IfNone result ((place count : ℕ) → IsMissing counts.now place count → IsBegun begun.now place count) }
    ensures some { IfSome result (λ lost. (place : ℕ) × IsMissing counts.now place lost × (IsBegun begun.now place lost → ⊥)) }
{
    for place in 0..counts.len() {
        if let Some(lost) = lost_before(counts, place, begun) {
            return Some(lost);
        }
    }
    None
}

/// As `first_lost`, between the count at a place and the count before it. Each missing count uses up one act that was
/// begun, so there are few.
fn lost_before(counts: &[u64], place: usize, begun: &[u64]) -> Option<u64>
    requires { place < length counts.now }
    ensures none { IfNone result ((count : ℕ) → IsMissing counts.now place count → IsBegun begun.now place count) }
    ensures some { IfSome result (λ lost. IsMissing counts.now place lost × (IsBegun begun.now place lost → ⊥)) }
{
    let first = match place.checked_sub(1) {
        Some(last) => counts[last].saturating_add(1),
        None => 0,
    };
    for missing in first..counts[place] {
        if !is_begun(begun, missing.saturating_sub(place as u64), missing) {
            return Some(missing);
        }
    }
    None
}

/// Whether the act at a place among those that were begun can have this count.
fn is_begun(begun: &[u64], place: u64, count: u64) -> bool
    ensures { IsTrue result ↔ (place < length begun.now) × (slice_index begun.now place ≤ count) }
{
    (place as usize) < begun.len() && begun[place as usize] <= count
}

fn leave_out(recording: &mut Recording, lost: u64) {
    let slots = recording.header.slots;
    for (at, list) in recording.lists.iter_mut().enumerate() {
        let kept = count_before(list.as_slice(), lost, false);
        for numbered in list.get(kept..).unwrap_or(&[]) {
            if !is_twice(at < slots, &numbered.record.act) {
                recording.left_out = recording.left_out.saturating_add(1);
            }
        }
        list.truncate(kept);
    }
}

/// The place of the first of these acts, of a slot or of a poller, that does not follow the act before it, or else
/// their number.
pub(crate) fn first_overlap(list: &[Numbered]) -> usize
    ensures within { result ≤ length list.now }
    ensures before { (place : ℕ) → place < result → 1 ≤ place → FollowsAt list.now place }
    ensures found { result < length list.now → (1 ≤ result) × (FollowsAt list.now result → ⊥) }
{
    for place in 1..list.len() {
        if !follows(&list[place - 1], &list[place]) {
            return place;
        }
    }
    list.len()
}

fn follows(last: &Numbered, next: &Numbered) -> bool
    ensures { IsTrue result ↔ Follows last.now.record next.now.record }
{
    let (last, next) = (&last.record, &next.record);
    last.after < next.before
        || is_of_wait(&next.act) && last.before == next.before && last.after == next.after
}

pub(crate) fn is_of_wait(act: &Act) -> bool
    ensures { result ≡ is_of_wait act.now }
{
    matches!(act, Act::Poller(_, Polling::Time(_) | Polling::Reported(_)))
}
