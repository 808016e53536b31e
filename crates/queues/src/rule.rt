// The queue rule as the rule of a queue of `crossbeam_queue`, and one thread's end of such a queue.
ghost use Rattle.std.specs.{Prelude.{◌≡◌, ◌≤◌, IfOk}, Arc.arc_value};
ghost use Rattle.crossbeam_queue.specs.{Fifo.Held, Passes.{IsPassOf, ruled_capacity}};
ghost use Rattle.queues.specs.{Steps.{among_others, first_of, new_end, IsStill, PutOne, opener, Saw, TookOne, blank, QueueEnd, look_of}, Rule.QueueRule};

use crate::history::History;
use crate::moment::{Empty, Full, pop, push};
use crate::steps::{Put, Source};
use crossbeam_queue::protocol::{Lesson, Outcome, Protocol, Split};
use crossbeam_queue::{Pass, RuledArrayQueue};
use std::alloc::{AllocError, Global};
use std::marker::Model;
use std::sync::{Arc, Wait};

pub(crate) type Line<T> = RuledArrayQueue<T, History<T>, InPlaces>;

pub struct InPlaces;

impl<T> Protocol<T, History<T>> for InPlaces {
    ghost holds = { QueueRule };

    ghost first = { opener };
}

pub struct Putting;

impl<T> Outcome<T, History<T>> for Putting {
    ghost then = { PutOne };
}

impl<T> Lesson<T, History<T>> for Putting {
    ghost fact = { Saw };
}

pub struct Taking;

impl<T> Outcome<T, History<T>> for Taking {
    ghost then = { TookOne };
}

impl<T> Lesson<T, History<T>> for Taking {
    ghost fact = { Saw };
}

pub struct NextEnd;

impl<T> Split<History<T>> for NextEnd {
    ghost left = { among_others };

    ghost right = { λ v. blank };
}

/// One thread's end of a queue.
#[derive(Drop)]
pub(crate) struct LineEnd<T> {
    line: Arc<Line<T>>,
    pass: Pass<T, History<T>>,
    ghost mine: { IsPassOf (arc_value line) pass },
}

impl<T> Model for LineEnd<T> {
    ghost Value = { QueueEnd T };

    ghost view = { λ e. record { queue = e.pass.table_id; capacity = ruled_capacity (arc_value e.line); history = e.pass.me.0.client } };
}

impl<T: Drop> LineEnd<T> {
    /// The first end of a new queue.
    #[tactic(auto, using(crate::proofs::Moves::begins))]
    pub(crate) fn first(alloc: Global, capacity: usize) -> Result<LineEnd<T>, AllocError>
        requires { (1 ≤ capacity) × (capacity ≤ 32768) }
        ensures { IfOk result (λ end. end ≡ first_of end.queue capacity) }
    {
        let (line, pass) = Line::ruled(alloc, capacity)?;
        Ok(LineEnd {
            line: Arc::new(alloc, line)?,
            pass,
        })
    }

    /// A further end, which has done nothing.
    #[tactic(auto, using(crate::proofs::Moves::forks))]
    pub(crate) fn another(&mut self) -> Result<LineEnd<T>, AllocError>
        ensures same { self.new ≡ record self.old { history = among_others self.old.history } }
        ensures new { IfOk result (λ end. end ≡ new_end self.old.queue self.old.capacity) }
    {
        let pass = self.line.another::<NextEnd>(&mut self.pass);
        Ok(LineEnd {
            line: Arc::try_clone(&self.line)?,
            pass,
        })
    }
}

impl<T> Put<T> for LineEnd<T> {
    ghost did_put = { λ old item new. PutOne old.history item new.history × IsStill old new };

    // What the first end learns of the moment shows that its queue has room for all the slots.
    ghost refused = { λ old item full new. Held old.capacity (Saw old.history) × (full.0 ≡ item) × (new ≡ old) };

    type Refused = Full<T>;

    /// Puts an item at the back.
    fn put<R: Wait>(&mut self, rt: &R, item: T) -> Result<(), Full<T>> {
        push::<T, InPlaces, Putting, R>(rt, &self.line, &mut self.pass, item)
    }
}

impl<T: Drop> Source for LineEnd<T> {
    type Found = T;

    type State = LineEnd<T>;

    type Nothing = Empty<T>;

    ghost state = { λ e. e };

    ghost found = { λ old item new. TookOne old.history item new.history × IsStill old new };

    ghost held_none = { λ e empty. empty ≡ look_of e };

    /// Takes the item at the front.
    fn look<R: Wait>(&mut self, rt: &R) -> Result<T, Empty<T>> {
        pop::<T, InPlaces, Taking, R>(rt, &self.line, &mut self.pass)
    }
}
