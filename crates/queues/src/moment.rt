// That a queue was full or empty at one moment. The two functions here alone make the values that say so. They are over
// any rule, so a proof has the fact of that moment only from a call that the queue refused.
ghost use Rattle.std.specs.Prelude.{◌≡◌, MatchResult};
ghost use Rattle.crossbeam_queue.specs.{Fifo.{Held, Learns, Pops, Pushes}, Passes.{view, IsPassOf, IsSamePass, ruled_capacity}};

use crate::history::History;
use crossbeam_queue::protocol::{Lesson, Outcome, Protocol};
use crossbeam_queue::{Pass, RuledArrayQueue};
use std::marker::Model;
use std::snapshot::Snapshot;
use std::sync::Wait;

/// The queue was full at one moment during the call. This is the item that it refused. Only a queue makes this value.
#[derive(Drop)]
pub struct Full<T>(pub T, ());

/// The queue was empty at one moment during the call. Only a queue makes this value.
///
/// In a clause it is which queue that was, and the history of the end that looked.
#[derive(Drop)]
pub struct Empty<T> {
    at: Snapshot<Pass<T, History<T>>>,
}

impl<T> Model for Empty<T> {
    ghost use Rattle.queues.specs.Steps.{Look};

    ghost Value = { Look T };

    ghost view = { λ e. record { queue = e.at.value.table_id; history = e.at.value.me.0.client } };
}

/// Puts an item at the back.
pub(crate) fn push<
    T,
    P: Protocol<T, History<T>>,
    M: Outcome<T, History<T>> + Lesson<T, History<T>>,
    R: Wait,
>(
    rt: &R,
    line: &RuledArrayQueue<T, History<T>, P>,
    pass: &mut Pass<T, History<T>>,
    item: T,
) -> Result<(), Full<T>>
    requires queue { IsPassOf line.now pass.old }
    requires rule { Pushes P.holds (ruled_capacity line.now) pass.old.id (view pass.old) item (M.then (view pass.old) item)
        × Learns P.holds pass.old.id (view pass.old) (M.fact (view pass.old)) }
    ensures queue { IsSamePass pass.old pass.new }
    ensures rule { MatchResult result (λ _. M.then (view pass.old) item (view pass.new))
        (λ full. (full.0 ≡ item) × (view pass.new ≡ view pass.old)
        × Held (ruled_capacity line.now) (M.fact (view pass.old))) }
{
    match line.push_as::<M, R>(rt, pass, item) {
        Ok(()) => Ok(()),
        Err(item) => Err(Full(item, ())),
    }
}

/// Takes the item at the front.
pub(crate) fn pop<
    T,
    P: Protocol<T, History<T>>,
    M: Outcome<T, History<T>> + Lesson<T, History<T>>,
    R: Wait,
>(
    rt: &R,
    line: &RuledArrayQueue<T, History<T>, P>,
    pass: &mut Pass<T, History<T>>,
) -> Result<T, Empty<T>>
    requires queue { IsPassOf line.now pass.old }
    requires rule { Pops P.holds pass.old.id (view pass.old) (M.then (view pass.old))
        × Learns P.holds pass.old.id (view pass.old) (M.fact (view pass.old)) }
    ensures queue { IsSamePass pass.old pass.new }
    ensures rule { MatchResult result (λ item. M.then (view pass.old) item (view pass.new))
        (λ empty. (empty ≡ record { queue = pass.old.table_id; history = view pass.old })
        × (view pass.new ≡ view pass.old) × Held 0 (M.fact (view pass.old))) }
{
    match line.pop_as::<M, R>(rt, pass) {
        Some(item) => Ok(item),
        None => Err(Empty {
            at: Snapshot::of(pass),
        }),
    }
}
