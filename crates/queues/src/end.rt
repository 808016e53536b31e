// One end of the ready queue: what it keeps, and the steps whose clauses name that.
ghost use Rattle.std.specs.Prelude.{◌≡◌, ◌↔◌, IfOk, OnOk, IfErr, OnErr, IsNone, IsTrue, true, false};
ghost use Rattle.queues.specs.Steps.{look_of, new_end, IsStill, PutOne, TookOne};

use crate::idle::{EndNumber, IdleEnds};
use crate::moment::{Empty, Full};
use crate::rule::LineEnd;
use crate::steps::{Drained, Put, Source, Spent};
use crate::ticket::Ticket;
use std::alloc::AllocError;
use std::sync::{Arc, Wait};

#[derive(Drop)]
pub(crate) struct End {
    pub(crate) ends: Arc<IdleEnds>,
    // Private, so that each ticket is put by `put`.
    line: LineEnd<Ticket>,
    number: EndNumber,
    // The last `take` gave a ticket, and nothing has been put since.
    comes_back: bool,
}

impl End {
    // A further end, which has done nothing.
    pub(crate) fn another(
        ends: &Arc<IdleEnds>,
        first: &mut LineEnd<Ticket>,
        number: EndNumber,
    ) -> Result<End, AllocError>
        ensures same { IsStill first.old first.new }
        ensures new { IfOk result (λ end. (end.line ≡ new_end first.old.queue first.old.capacity)
            × (end.comes_back ≡ false)) }
    {
        Ok(End {
            ends: Arc::try_clone(ends)?,
            line: first.another()?,
            number,
            comes_back: false,
        })
    }

    // Puts a ticket, and wakes an end for it. None: this end will come back for a ticket itself.
    pub(crate) fn put(
        &mut self,
        rt: &impl Wait,
        ticket: Ticket,
    ) -> Result<Option<Spent>, Full<Ticket>>
        ensures put { OnOk result (PutOne self.old.line.history ticket self.new.line.history) }
        ensures wakes { IfOk result (λ spent. IsNone spent ↔ IsTrue self.old.comes_back) }
        ensures given_back { IfErr result (λ full. full.0 ≡ ticket) }
        ensures unchanged { OnErr result ((self.new.line ≡ self.old.line) × (self.new.comes_back ≡ self.old.comes_back)) }
        ensures comes_back { OnOk result (self.new.comes_back ≡ false) }
        ensures same { IsStill self.old.line self.new.line × (self.new.number ≡ self.old.number) }
    {
        if self.comes_back {
            self.line.put(rt, ticket)?;
            self.comes_back = false;
            return Ok(None);
        }
        Ok(Some(self.ends.put(rt, &mut self.line, ticket)?))
    }

    pub(crate) fn try_take(&mut self, rt: &impl Wait) -> Result<Ticket, Empty<Ticket>>
        ensures taken { IfOk result (λ ticket. TookOne self.old.line.history ticket self.new.line.history) }
        ensures empty { IfErr result (λ empty. empty ≡ look_of self.old.line) }
        ensures unchanged { OnErr result (self.new.line ≡ self.old.line) }
        ensures same { IsStill self.old.line self.new.line × (self.new.comes_back ≡ self.old.comes_back) }
    {
        self.line.look(rt)
    }

    pub(crate) fn take(&mut self, rt: &impl Wait) -> Result<Ticket, Drained<Empty<Ticket>>>
        ensures taken { IfOk result (λ ticket. TookOne self.old.line.history ticket self.new.line.history) }
        ensures closed { IfErr result (λ drained. (self.new.line ≡ self.old.line)
            × (drained.nothing ≡ look_of self.old.line)) }
        ensures comes_back { OnOk result (self.new.comes_back ≡ true) }
        ensures stays { OnErr result (self.new.comes_back ≡ false) }
        ensures same { IsStill self.old.line self.new.line × (self.new.number ≡ self.old.number) }
    {
        let taken = self.ends.take(rt, &self.number, &mut self.line);
        self.comes_back = taken.is_ok();
        taken
    }
}
