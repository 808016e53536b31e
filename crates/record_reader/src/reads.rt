//! Whether each read asked its socket only while its wire reads. After a read that would block the wire answers that by
//! itself, until it looks, and finds that a report has been passed on. So a read that then has another answer had a
//! report: one whose wait had begun before the read ended, and had not ended before the wire last looked. The report
//! may be one of an earlier connection in the slot, since its wire left what it did not look at; and it may be older
//! than the read that would block, since a wire that reads does not look.
use crate::clock::count_below;
use crate::recording::{Recording, add, lists};
use record_lines::{Act, Answer, Made, Polling};
use std::alloc::AllocError;
use token::{Name, Side};
use tools::ReplayFault;

/// What is known of the wires on one side of a slot.
#[derive(Clone, Copy)]
struct Reader {
    /// Whether the last read of the connection in the slot would block.
    is_blocked: bool,
    /// The count before the last look.
    looked: u64,
}

/// Refuses with `Broken` a read that had another answer than that it would block, although its wire cannot have asked.
pub fn check_reads(recording: &Recording) -> Result<(), ReplayFault> {
    let waits = waits_of(recording)?;
    for slot in 0..recording.header.slots {
        for side in [Side::Client, Side::Target] {
            let waits = match waits.get(at(slot, side)) {
                Some(waits) => waits.as_slice(),
                None => &[],
            };
            if let Some(line) = first_unheard(recording, slot, side, waits) {
                let why = "nothing was reported of this end since its last read, which would block";
                return Err(recording.broken(line, why));
            }
        }
    }
    Ok(())
}

fn at(slot: usize, side: Side) -> usize {
    let first = slot.saturating_mul(2);
    match side {
        Side::Client => first,
        Side::Target => first.saturating_add(1),
    }
}

/// The counts after and before each wait that reported the client's end of a slot, and the target's. They stand in
/// their order: an end is reported by one poller.
fn waits_of(recording: &Recording) -> Result<Vec<Vec<(u64, u64)>>, AllocError> {
    let mut waits = lists(recording.alloc, recording.header.slots.saturating_mul(2))?;
    for poller in 0..recording.header.pollers {
        for numbered in recording.poller(poller) {
            if let Act::Poller(_, Polling::Reported(Name::End(token))) = numbered.record.act {
                let counts = (numbered.record.after, numbered.record.before);
                add(waits.as_mut_slice(), at(token.slot(), token.side()), counts)?;
            }
        }
    }
    Ok(waits)
}

/// The line of the first read on this side of a slot of which its wire cannot have heard.
fn first_unheard(
    recording: &Recording,
    slot: usize,
    side: Side,
    waits: &[(u64, u64)],
) -> Option<u64> {
    let mut reader = Reader {
        is_blocked: false,
        looked: 0,
    };
    for numbered in recording.slot(slot) {
        let record = &numbered.record;
        match record.act {
            Act::Poller(_, _) => reader.is_blocked = false,
            Act::Wire(token, Made::Read(_, answer)) if token.side() == side => {
                // A wait without a record began at the first missing count, or later.
                let is_heard = record.after > recording.whole
                    || reader.may_hear(waits, record.after);
                if reader.is_blocked && answer != Answer::Blocked && !is_heard {
                    return Some(numbered.line);
                }
                reader.read(record.before, answer);
            }
            _ => {}
        }
    }
    None
}

impl Reader {
    /// Whether a report can have been passed on since the last look, and before this count.
    fn may_hear(&self, waits: &[(u64, u64)], count: u64) -> bool {
        matches!(waits.get(count_below(waits, self.looked)), Some(wait) if wait.1 < count)
    }

    /// A read had this answer. After one that would block it began with a look.
    fn read(&mut self, before: u64, answer: Answer) {
        if self.is_blocked {
            self.looked = before;
        }
        self.is_blocked = answer == Answer::Blocked;
    }
}
