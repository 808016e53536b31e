//! What a poller keeps between its rounds.
ghost use Rattle.std.specs.{Prelude.{◌≡◌, ◌||◌, if◌then◌else◌, ◌-◌, ◌<◌, ◌≤◌, ◌↔◌, [], length, IfOk, IfErr, OnOk, OnErr, IsTrue, Contains, slice_set, true, false}, IoError.error_kind};
ghost use Rattle.token.specs.Names.{last_generation};
ghost use Rattle.shared.specs.Told.{unaccepted_of};
ghost use Rattle.sizes.specs.Splits.{IsIn};
ghost use Rattle.rounds.specs.{Episodes.{all_logged_at, opened_after, AreLogged}, Openings.{fresh_poller, DropLogged}, Pollers.{AreGenerations, IsOwnTable, HasOpenedAll, counted_up, max_accepts}};
ghost use Rattle.shared.specs.Acts as act;

use crate::dropping::Dropped;
use crate::episodes::Episodes;
use crate::opening::Opening;
use queues::Ticket;
use relay_log::Logs;
use shared::{Acts, Counting, Front, HeavyMarks, Shared};
use sizes::{Cause, MAX_ACCEPTS, MAX_BATCH, Part};
use statistics::Event;
use std::alloc::{AllocError, Global};
use std::io;
use std::marker::Model;

/// What a poller keeps between its rounds (`PollerState` of `specs/Pollers.antt`).
#[derive(Drop)]
pub struct Poller<F: Front> {
    pub(crate) front: F,
    pub(crate) table: Vec<u64>,
    pub(crate) batch: Vec<u64>,
    pub(crate) accepting: bool,
    pub(crate) starved: bool,
    pub(crate) left: bool,
    pub(crate) tries: usize,
    pub(crate) opening: Opening,
    pub(crate) part: Part,
    /// Which tickets the poller's thread leaves to the workers. They are lent to its own turns.
    pub heavy: HeavyMarks,
    most: u64,
    opened: u64,
    pub(crate) lost: u64,
    pub(crate) second: u64,
    pub(crate) swept: u64,
    pub(crate) over: bool,
    pub(crate) episodes: Episodes,
}

/// A connection was accepted, and is counted nowhere yet. Only [`Poller::accept`] makes this value, and only
/// `count_opened`, `count_lost` and [`Uncounted::count_dropped`] take it. It cannot be dropped, so each accepted
/// connection is counted once.
pub struct Uncounted(());

impl<F: Front> Model for Poller<F> {
    ghost use Rattle.std.specs.Prelude.{◌≤◌, length, vec_capacity};
    ghost use Rattle.rounds.specs.Pollers.{PollerState, AreGenerations, IsOwnTable};

    ghost Value = { PollerState };

    ghost view = { λ p. record {
      seen = F.seen p.front;
      table = p.table.items;
      batch = p.batch.items;
      accepting = p.accepting;
      starved = p.starved;
      left = p.left;
      tries = p.tries;
      opening = p.opening;
      part = p.part;
      heavy = p.heavy;
      most = p.most;
      opened = p.opened;
      lost = p.lost;
      second = p.second;
      swept = p.swept;
      over = p.over;
      episodes = p.episodes;
    } };

    ghost invariant = { λ p. AreGenerations p.table.items × IsOwnTable p.part p.table.items × (256 ≤ vec_capacity p.batch)
        × (length p.batch.items ≤ 256) × (1 ≤ p.opening.ring) × (p.opening.ring ≤ 65536) };
}

impl<F: Front> Poller<F> {
    /// A poller that has opened no connection yet. It may open `most` in all, in its part of the `table` slots.
    ///
    /// Fails only if there is no memory. A round allocates memory only for connections and log lines.
    #[tactic(auto, using(crate::proofs::Acts::own_none, crate::proofs::Acts::are_none))]
    pub fn new(
        alloc: Global,
        front: F,
        table: usize,
        part: Part,
        opening: Opening,
        most: u64,
    ) -> Result<Poller<F>, AllocError>
    where
        F: Drop,
        requires ring { (1 ≤ opening.ring) × (opening.ring ≤ 65536) }
        ensures { IfOk result (λ poller. poller ≡ fresh_poller (F.seen front) table part opening most) }
    {
        Ok(Poller {
            front,
            table: vec![in alloc; 0; table]?,
            batch: Vec::with_capacity(alloc, MAX_BATCH)?,
            accepting: true,
            starved: false,
            left: false,
            tries: 0,
            opening,
            part,
            heavy: HeavyMarks::none(alloc, table)?,
            most,
            opened: 0,
            lost: 0,
            second: 0,
            swept: 0,
            over: false,
            episodes: Episodes::none(),
        })
    }

    /// The poller begins at this second, in place of second 0: its first sweep comes an idle limit later.
    pub fn begin_at(&mut self, second: u64)
        ensures { self.new ≡ record self.old { swept = second } }
    {
        self.swept = second;
    }

    /// Whether a round has found that the poller has opened all that it may, and that all these are closed.
    pub fn is_over(&self) -> bool
        ensures { result ≡ self.now.over }
    {
        self.over
    }

    /// Each slot's generation: how many connections it has had, or counts as having had.
    pub fn table(&self) -> &[u64]
        ensures table { result.now ≡ self.now.table }
        ensures generations { AreGenerations result.now }
        ensures own { IsOwnTable self.now.part result.now }
    {
        self.table.as_slice()
    }

    /// The slots in which it opens connections.
    pub fn part(&self) -> Part
        ensures { result ≡ self.now.part }
    {
        self.part
    }

    /// From now on it opens no more connections.
    pub fn stop_opening(&mut self)
        ensures { self.new ≡ record self.old { most = 0 } }
    {
        self.most = 0;
    }

    /// Whether it has opened all connections that it may open.
    pub fn has_opened_all(&self) -> bool
        ensures { IsTrue result ↔ HasOpenedAll self.now }
    {
        self.opened >= self.most
    }

    /// The reports of the last wait, which the round delivers.
    pub(crate) fn batch(&self) -> &[u64]
        ensures batch { result.now ≡ self.now.batch }
        ensures few { length result.now ≤ MAX_BATCH }
    {
        self.batch.as_slice()
    }

    pub(crate) fn clear_batch(&mut self)
        ensures { self.new ≡ record self.old { batch = [] } }
    {
        self.batch.clear();
    }

    /// Raises the accept flag if the listener was reported.
    pub(crate) fn raise_accept_flag(&mut self, reported: bool)
        requires { IsTrue reported ↔ Contains self.old.batch 0 }
        ensures { self.new ≡ record self.old { accepting = self.old.accepting || reported } }
    {
        self.accepting = self.accepting || reported;
    }

    /// The round is made at this second. If it made a sweep, that counts as made at the last round's second.
    pub(crate) fn set_second(&mut self, swept: bool, second: u64)
        ensures { self.new ≡ record self.old { swept = if swept then self.old.second else self.old.swept; second = second } }
    {
        if swept {
            self.swept = self.second;
        }
        self.second = second;
    }

    /// A round begins to accept: it has made no try of accept(2) yet, and left no client.
    pub(crate) fn reset_tries(&mut self)
        ensures { self.new ≡ record self.old { tries = max_accepts; left = false } }
    {
        self.tries = MAX_ACCEPTS;
        self.left = false;
    }

    /// Whether the next client is left to other pollers ([`Front::leaves`]).
    pub(crate) fn leaves(&mut self) -> bool
        ensures { self.new ≡ record self.old { left = result } }
    {
        self.left = self.front.leaves();
        self.left
    }

    pub(crate) fn accept(&mut self) -> io::Result<(F::Client, Uncounted)>
        ensures accepted { OnOk result (self.new ≡ record self.old { tries = self.old.tries - 1; starved = false }) }
        ensures client { IfOk result (λ given. F.accepted given.0) }
        ensures refused { OnErr result (self.new ≡ record self.old { tries = self.old.tries - 1 }) }
        ensures none { IfErr result (λ error. F.gave_none (unaccepted_of (error_kind error))) }
    {
        self.tries = self.tries.saturating_sub(1);
        let client = self.front.accept()?;
        self.starved = false;
        Ok((client, Uncounted(())))
    }

    /// A connection is opened in a slot that the thread holds. The slot has the ticket's generation from now on, and no
    /// heavy marks: those of its last connection say nothing of this one.
    #[tactic(auto, using(crate::proofs::Acts::own_set))]
    pub(crate) fn count_opened<A: Acts>(
        &mut self,
        acts: &mut A,
        shared: &Shared<F, A>,
        ticket: Ticket,
        uncounted: Uncounted,
    )
    where
        F: Counting,
        requires inside { ticket.slot < length self.old.table }
        requires own { IsIn self.old.part ticket.slot }
        requires generation { ticket.generation ≤ last_generation }
        ensures made { A.made act.Enter ticket.slot acts.old acts.new }
        ensures poller { self.new ≡ record self.old {
          table = slice_set self.old.table ticket.slot ticket.generation;
          heavy = slice_set self.old.heavy ticket.slot 0;
          opened = counted_up self.old.opened 1;
        } }
        ensures counted { F.counted ticket.slot Event.Opened }
    {
        acts.enter(&mut self.table, ticket);
        self.heavy.clear(ticket.slot);
        self.opened = self.opened.saturating_add(1);
        shared.count(ticket.slot, Event::Opened);
        uncounted.spend();
    }

    /// Makes a drop at the round's second ([`Dropped::log`]), and tells the front if memory was lacking.
    pub(crate) fn log_dropped<N: Logs>(&mut self, rt: &N, cause: Cause) -> Dropped
        ensures cause { result ≡ cause }
        ensures lacked { cause ≡ Cause.Memory → F.lacked }
        ensures drops { DropLogged cause self.old self.new }
    {
        if cause == Cause::Memory {
            self.front.lacked_memory();
        }
        Dropped::log(rt, &mut self.episodes.drops, cause, self.second)
    }

    /// Logs the counted drops of each cause that has had no line at the round's second.
    pub(crate) fn log_counted<N: Logs>(&mut self, rt: &N)
        ensures logged { self.new ≡ record self.old
            { episodes = record self.old.episodes { drops = all_logged_at self.old.second self.old.episodes.drops } } }
        ensures all { AreLogged self.new.second self.new.episodes.drops }
    {
        self.episodes.drops.log_counted(rt, self.second);
    }

    /// A connection was opened, or the thread ends: logs all that is counted. A starved accept(2), and the next drop of
    /// each cause, have a line again.
    pub fn end_episodes<N: Logs>(&mut self, rt: &N)
        ensures { self.new ≡ record self.old { episodes = opened_after self.old.episodes } }
    {
        self.episodes.drops.end(rt);
        self.episodes.starved = false;
    }

    /// The slot for an accepted connection is no longer used, and the connection was closed.
    pub(crate) fn count_lost(&mut self, uncounted: Uncounted)
        ensures { self.new ≡ record self.old { lost = counted_up self.old.lost 1 } }
    {
        self.lost = self.lost.saturating_add(1);
        uncounted.spend();
    }
}

impl Uncounted {
    /// Counts a drop at a slot, which is in hand again. The drop was logged, or is counted for a later line.
    pub(crate) fn count_dropped<F: Front + Counting, A>(
        self,
        shared: &Shared<F, A>,
        slot: usize,
        dropped: Dropped,
    )
        ensures { F.counted slot Event.Dropped }
    {
        shared.count(slot, Event::Dropped);
        dropped.spend();
        self.spend();
    }

    fn spend(self) {
        let Uncounted(()) = self;
    }
}
