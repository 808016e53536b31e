//! Where a poller leaves for a wire that a report named reading.
ghost use Rattle.std.specs.{Prelude.{◌≡◌, Some, None, IfOk, IfSome, IfNone, OnSome, Bool, true, vec_len}, Arc.arc_value};
ghost use Rattle.readiness.specs.Words.{end_word, words_of, IsTaken, Swapped};

use crate::word::{Flag, Heard, Word};
use std::alloc::{AllocError, Global};
use std::marker::Model;
use std::sync::Arc;
use std::sync::atomic::AtomicBool;
use token::Side;

/// For each end of each slot's connection, whether a report that names reading was passed on since its wire last
/// looked.
///
/// In a clause it is the number of its slots.
#[derive(Drop)]
pub struct Reports<F = AtomicBool> {
    ends: Vec<Ends<F>>,
    ghost named: { ends.items ≡ words_of (vec_len ends) },
}

impl<F> Model for Reports<F> {
    ghost use Rattle.std.specs.Prelude.{ℕ, vec_len};

    ghost Value = { ℕ };

    ghost view = { λ r. vec_len r.ends };
}

/// The words of the two ends of one slot's connection. In a clause it is their names.
#[derive(Drop)]
struct Ends<F = AtomicBool> {
    client: Arc<Word<F>>,
    target: Arc<Word<F>>,
}

impl<F> Model for Ends<F> {
    ghost use Rattle.std.specs.Arc.{arc_value};
    ghost use Rattle.readiness.specs.Words.{WordName};

    ghost Value = { WordName × WordName };

    ghost view = { λ e. ((arc_value e.client).0, (arc_value e.target).0) };
}

/// A wire's handle on the word of its end, and on no other: a look finds and clears what was reported of that end.
///
/// In a clause it is the name of the word.
#[derive(Drop)]
pub struct Told<F = AtomicBool> {
    word: Arc<Word<F>>,
}

impl<F> Model for Told<F> {
    ghost use Rattle.std.specs.Arc.{arc_value};
    ghost use Rattle.readiness.specs.Words.{WordName};

    ghost Value = { WordName };

    ghost view = { λ t. (arc_value t.word).0 };
}

impl Reports {
    /// The words of this many slots; nothing is reported yet. No later call allocates memory.
    #[tactic(auto, using(crate::proofs::Words::one_more))]
    pub fn new(alloc: Global, slots: usize) -> Result<Reports, AllocError>
        ensures { IfOk result (λ reports. reports ≡ slots) }
    {
        let mut ends = Vec::with_capacity(alloc, slots)?;
        for slot in 0..slots {
            ends.push_reserved(Ends::new(alloc, slot)?);
        }
        Ok(Reports { ends })
    }
}

impl<F: Flag> Reports<F> {
    /// Passes on a report that names reading, at the word of that end alone, by one step. None if there is no such
    /// slot, and no step is made: the wires of such a slot always read.
    pub fn tell(&self, acts: &mut F::Acts, slot: usize, side: Side) -> Option<Heard>
        ensures heard { result ≡ end_word self.now slot side }
        ensures set { OnSome result ((flag : F) × (was : Bool) × F.did (Swapped true was) flag acts.old acts.new) }
        ensures none { IfNone result (acts.new ≡ acts.old) }
    {
        match self.word(slot, side) {
            Some(word) => Some(word.tell(acts)),
            None => None,
        }
    }

    /// The word of an end, if there is such a slot.
    fn word(&self, slot: usize, side: Side) -> Option<&Arc<Word<F>>>
        ensures some { IfSome result (λ word. Some (arc_value word.now).0 ≡ end_word self.now slot side) }
        ensures none { IfNone result (end_word self.now slot side ≡ None) }
    {
        let ends = self.ends.get(slot)?;
        match side {
            Side::Client => Some(&ends.client),
            Side::Target => Some(&ends.target),
        }
    }
}

impl Ends {
    fn new(alloc: Global, slot: usize) -> Result<Ends, AllocError>
        ensures { IfOk result (λ ends. ends ≡ (record { slot = slot; side = Side.Client }, record { slot = slot; side = Side.Target })) }
    {
        Ok(Ends {
            client: Arc::new(alloc, Word::new(slot, Side::Client))?,
            target: Arc::new(alloc, Word::new(slot, Side::Target))?,
        })
    }
}

impl<F: Flag> Told<F> {
    /// The handle for the end on a side of a slot's connection. None if there is no such slot.
    pub fn new(reports: &Reports<F>, slot: usize, side: Side) -> Result<Option<Told<F>>, AllocError>
        ensures { IfOk result (λ told. told ≡ end_word reports.now slot side) }
    {
        match reports.word(slot, side) {
            Some(word) => Ok(Some(Told {
                word: Arc::try_clone(word)?,
            })),
            None => Ok(None),
        }
    }

    /// Looks whether a report that names reading was passed on since the last look.
    pub fn take(&self, acts: &mut F::Acts) -> bool
        ensures { (flag : F) × IsTaken F.did flag result acts.old acts.new }
    {
        self.word.take(acts)
    }
}
