//! What is left out of a file that is not the first part of its recording.
ghost use Rattle.std.specs.Prelude.{◌≡◌, ◌<◌, ◌∷◌, [], List, IfOk, if◌then◌else◌, length, slice_set, true};
ghost use Rattle.record_lines.specs.declared.act.Record.{Record};
ghost use Rattle.record_reader.specs.Beginnings.{KnowsOf, IsInside, flag_at, stays_from, is_wait, stays};

use crate::reading::Sizes;
use record_lines::{Act, Opening, Polling, Record};
use std::alloc::{AllocError, Global};

/// How much is left out of a file that follows other parts: what they may have the beginning of.
#[derive(Clone, Copy)]
pub struct LeftOut {
    /// The greatest count in the parts before the file.
    pub from: u64,
    pub records: u64,
    /// How many connections these records are of.
    pub connections: u64,
}

/// What decides which records of such a file stay, and counts the others.
#[derive(Drop)]
pub(crate) struct Beginning {
    from: u64,
    /// Of each poller whether a wait stays, and of each slot whether an opening does.
    waited: Vec<bool>,
    opened: Vec<bool>,
    /// What is left out so far, and the last connection of each slot that is counted there: its generation, or 0.
    pub left_out: LeftOut,
    last: Vec<u64>,
}

impl Beginning {
    /// The file begins after this count, and nothing of it was read.
    pub(crate) fn new(alloc: Global, sizes: Sizes, from: u64) -> Result<Beginning, AllocError>
        ensures new { IfOk result (λ b. KnowsOf [] b × (b.from ≡ from)) }
        ensures sized { IfOk result (λ b. (length b.waited.items ≡ sizes.header.pollers) × (length b.opened.items ≡ sizes.header.slots)) }
    {
        Ok(Beginning {
            from,
            waited: vec![in alloc; false; sizes.header.pollers]?,
            opened: vec![in alloc; false; sizes.header.slots]?,
            left_out: LeftOut {
                from,
                records: 0,
                connections: 0,
            },
            last: vec![in alloc; 0; sizes.header.slots]?,
        })
    }

    /// Whether the next record of the file stays.
    pub(crate) fn keeps(&mut self, record: &Record) -> bool
        ensures stays { (kept : List Record) → KnowsOf kept self.old → IsInside self.old record.now.act
            → (result ≡ stays self.old.from kept record.now)
            × KnowsOf (if result then record.now ∷ kept else kept) self.new }
        ensures from { self.new.from ≡ self.old.from }
        ensures sized { (length self.new.waited.items ≡ length self.old.waited.items)
            × (length self.new.opened.items ≡ length self.old.opened.items) }
    {
        let stays = self.from < record.before && self.follows(&record.act);
        if stays {
            self.note(&record.act);
        }
        stays
    }

    fn follows(&self, act: &Act) -> bool
        ensures { result ≡ stays_from (flag_at self.now.waited.items) (flag_at self.now.opened.items) act.now }
    {
        match *act {
            Act::Poller(poller, did) => is_wait(did) || flag_at(self.waited.as_slice(), poller),
            Act::Begin(slot) | Act::End(slot) => flag_at(self.opened.as_slice(), slot),
            Act::Wire(token, _) => flag_at(self.opened.as_slice(), token.slot()),
            Act::Second(_) | Act::Ended | Act::Full => true,
        }
    }

    /// An act stays.
    fn note(&mut self, act: &Act)
        ensures from { self.new.from ≡ self.old.from }
        ensures sized { (length self.new.waited.items ≡ length self.old.waited.items)
            × (length self.new.opened.items ≡ length self.old.opened.items) }
        ensures known { (kept : List Record) → (r : Record) → r.act ≡ act.now → KnowsOf kept self.old → IsInside self.old act.now
            → KnowsOf (r ∷ kept) self.new }
    {
        match *act {
            Act::Poller(poller, did) if is_wait(did) => set(self.waited.as_mut_slice(), poller),
            Act::Poller(_, Polling::Open(slot, _, _)) => set(self.opened.as_mut_slice(), slot),
            _ => {}
        }
    }

    /// Whether records are left out, and with them each wait, so that nothing stays that is played.
    pub(crate) fn has_nothing(&self) -> bool {
        self.left_out.records > 0 && !self.waited.iter().any(|waited| *waited)
    }

    /// Counts a record that is left out.
    pub(crate) fn leave_out(&mut self, record: &Record) {
        self.left_out.records = self.left_out.records.saturating_add(1);
        let (slot, generation) = match record.act {
            Act::Poller(_, Polling::Open(slot, generation, Opening::Opened)) => (slot, generation),
            Act::Wire(token, _) => (token.slot(), token.generation()),
            _ => return,
        };
        if let Some(last) = self.last.get_mut(slot) {
            if *last != generation {
                *last = generation;
                self.left_out.connections = self.left_out.connections.saturating_add(1);
            }
        }
    }
}

fn is_wait(did: Polling) -> bool
    ensures { result ≡ is_wait did }
{
    matches!(
        did,
        Polling::Gave(_) | Polling::Interrupted | Polling::Failed
    )
}

fn flag_at(flags: &[bool], at: usize) -> bool
    ensures { result ≡ flag_at flags.now at }
{
    matches!(flags.get(at), Some(flag) if *flag)
}

fn set(flags: &mut [bool], at: usize)
    ensures set { at < length flags.old → flags.new ≡ slice_set flags.old at true }
    ensures sized { length flags.new ≡ length flags.old }
{
    if at < flags.len() {
        flags[at] = true;
    }
}
