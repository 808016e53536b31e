//! Which seconds the clock showed, as far as it was read.
use crate::recording::{Numbered, Recording, sort};
use record_lines::{Act, Polling, Record};
use std::alloc::{AllocError, Global};
use std::mem;
use tools::ReplayFault;

/// The readings of the clock, in order: in `before` by the count before each, in `after` by the count after each. With
/// each count stands the latest second up to there.
#[derive(Drop)]
pub struct Clock {
    before: Vec<(u64, u64)>,
    after: Vec<(u64, u64)>,
}

impl Clock {
    /// The readings of the clock among these records.
    pub fn new(alloc: Global, records: &[Numbered]) -> Result<Clock, AllocError> {
        Ok(Clock {
            before: readings_of(alloc, records, false)?,
            after: readings_of(alloc, records, true)?,
        })
    }

    /// The earliest and the latest second that a thread can have read between these two counts, if nothing else that it
    /// did there is recorded. Without a recorded reading there, it is what the clock can have shown.
    pub fn between(&self, from: u64, to: u64) -> (u64, u64) {
        let readings = self.before.as_slice();
        let last = count_below(readings, to).saturating_sub(1);
        let latest = second_at(readings, last);
        let first = count_below(readings, from);
        if first <= last && first < readings.len() {
            return (second_at(readings, first), latest);
        }
        let earliest = self.last_read(from.saturating_add(1));
        (earliest.unwrap_or(second_at(readings, 0)), latest)
    }

    /// Refuses with `Broken` an act before which its thread made no reading of its own. The windows choose in turn,
    /// the one that begins last first. Each takes the last reading in it that is left: no other choice leaves more.
    pub fn check_readings(&self, recording: &Recording) -> Result<(), ReplayFault> {
        let windows = windows_of(recording)?;
        let mut left = vec![in recording.alloc; true; self.after.len()]?;
        for window in windows.as_slice().iter().rev() {
            if !self.take_reading(left.as_mut_slice(), &window.record) {
                return Err(recording.broken(window.line, "the clock was not read for this"));
            }
        }
        Ok(())
    }

    /// Takes the last reading that is left in a window. Returns false if none is left.
    fn take_reading(&self, left: &mut [bool], window: &Record) -> bool {
        let readings = self.after.as_slice();
        let first = count_below(readings, window.before);
        for place in (first..count_below(readings, window.after)).rev() {
            if let Some(is_left) = left.get_mut(place) {
                if mem::take(is_left) {
                    return true;
                }
            }
        }
        false
    }

    /// The first record with a lower second than a reading that had ended before it began.
    pub fn first_back(&self, records: &[Numbered]) -> Option<Numbered> {
        for numbered in records {
            if let Act::Second(second) = numbered.record.act {
                if second < self.last_read(numbered.record.before).unwrap_or(0) {
                    return Some(*numbered);
                }
            }
        }
        None
    }

    /// The latest second that was read before the count had this value, if one was.
    fn last_read(&self, count: u64) -> Option<u64> {
        let readings = self.after.as_slice();
        let last = count_below(readings, count).checked_sub(1)?;
        Some(second_at(readings, last))
    }
}

/// The times of all waits, as readings of a clock.
pub fn times_of(recording: &Recording) -> Result<Vec<Numbered>, AllocError> {
    let mut times = Vec::new(recording.alloc);
    for poller in 0..recording.header.pollers {
        for numbered in recording.poller(poller) {
            let mut reading = *numbered;
            if let Act::Poller(_, Polling::Time(micros)) = reading.record.act {
                reading.record.act = Act::Second(micros);
                times.push(reading)?;
            }
        }
    }
    Ok(times)
}

/// The counts before or after the readings of these records, in order, with the latest second up to each.
fn readings_of(
    alloc: Global,
    records: &[Numbered],
    is_after: bool,
) -> Result<Vec<(u64, u64)>, AllocError> {
    let mut readings = Vec::new(alloc);
    for numbered in records {
        let record = &numbered.record;
        if let Act::Second(second) = record.act {
            let count = if is_after {
                record.after
            } else {
                record.before
            };
            readings.push((count, second))?;
        }
    }
    readings.sort()?;
    let mut most = 0;
    for reading in readings.as_mut_slice().iter_mut() {
        most = most.max(reading.1);
        reading.1 = most;
    }
    Ok(readings)
}

/// The windows in which a reading must be recorded, in order: between its two counts a turn, a round or the beginning
/// of a poller made one of its own. Each has the line and the act that follow.
fn windows_of(recording: &Recording) -> Result<Vec<Numbered>, AllocError> {
    let mut windows = Vec::new(recording.alloc);
    if recording.header.idle > 0 {
        for at in 0..recording.lists.len() {
            add_windows(&mut windows, recording, recording.list(at))?;
        }
    }
    sort(&mut windows)?;
    Ok(windows)
}

fn add_windows(
    windows: &mut Vec<Numbered>,
    recording: &Recording,
    acts: &[Numbered],
) -> Result<(), AllocError> {
    let mut from = 0;
    // In a file that follows other parts, what was read before the first act may be in these.
    let mut is_first = recording.header.from.is_none();
    for numbered in acts {
        let record = &numbered.record;
        // No record is missing below `whole`, so a reading in such a window is there.
        if is_read_before(is_first, &record.act) && record.before < recording.whole {
            let mut window = *numbered;
            window.record.before = from;
            window.record.after = record.before;
            windows.push(window)?;
        }
        from = record.after;
        // The next act is the first after the wait.
        is_first = matches!(
            record.act,
            Act::Poller(
                _,
                Polling::Gave(_) | Polling::Interrupted | Polling::Time(_) | Polling::Reported(_)
            )
        );
    }
    Ok(())
}

/// Whether a thread reads the clock before an act: before each turn, and before the first act of a poller, and its
/// first one after a wait.
fn is_read_before(is_first: bool, act: &Act) -> bool {
    match act {
        Act::Begin(_) => true,
        Act::Poller(_, Polling::Time(_) | Polling::Reported(_) | Polling::Open(_, _, _)) => false,
        Act::Poller(_, _) => is_first,
        _ => false,
    }
}

fn second_at(readings: &[(u64, u64)], index: usize) -> u64 {
    match readings.get(index) {
        Some(reading) => reading.1,
        None => 0,
    }
}

/// How many of these readings, which rise, have a lower count.
pub(crate) fn count_below(readings: &[(u64, u64)], count: u64) -> usize {
    readings.partition_point(|reading| reading.0 < count)
}
