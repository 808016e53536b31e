//! One connection: which call comes next, and what its answer does.
ghost use Rattle.std.specs.Prelude.{◌≡◌, ◌≤◌, ◌<◌, ◌&&◌, true, false, Some, length, slice_index, ◌↔◌, IfOk, IfSome, OnSome};
ghost use Rattle.token.specs.{Sides.{destination}, declared.direction.Direction.Direction};
ghost use Rattle.relay_core.specs.{Calls.side_of, Pairs.{fresh, stream_of, flags_of, with_flags, is_joined, mark_joined, noted, verdict, is_live}, Order.{is_waiting, call_for, next_call, offer}, Replies.{Interrupted, fits, after, count_more, without_flag, reply_of}, Idle.{is_overdue, expired}, Laws.{IsPossible, IsOverdue, KeepsOrder, PassesEndLast, TellsOf}, declared.verdict.Fault.Fault};

use crate::answer::Answer;
use crate::call::Call;
use crate::flags::Flags;
use crate::verdict::{Fault, Verdict};
use flow::Flow;
use std::alloc::{AllocError, Global};
use std::marker::Model;
use token::{Direction, Side};

/// The most bytes that one read asks for.
pub const MAX_READ: usize = 16_384;

/// One connection: both directions of bytes, and what the relay knows about both sockets.
#[derive(Drop)]
pub struct Pair {
    slot: usize,
    generation: u64,
    up: Flow,
    down: Flow,
    client: Flags,
    target: Flags,
    joined: bool,
    turn: Direction,
    failure: Option<Fault>,
    sent_up: u64,
    sent_down: u64,
    moved: u64,
}

impl Model for Pair {
    ghost use Rattle.relay_core.specs.Pairs.{PairState};

    ghost Value = { PairState };

    ghost view = { λ p. record {
      slot = p.slot;
      generation = p.generation;
      up = p.up;
      down = p.down;
      client = p.client;
      target = p.target;
      joined = p.joined;
      turn = p.turn;
      failure = p.failure;
      sent_up = p.sent_up;
      sent_down = p.sent_down;
      moved = p.moved;
    } };
}

impl Pair {
    ghost use Rattle.std.specs.Borrow.{sem};
    ghost use Rattle.relay_core.specs.Lending.{with_offer, LendsOffer, LendsStream};

    /// A new connection, made at the second `now`, with a ring of `capacity` bytes for each direction. `generation` is
    /// how many connections the slot has had, this one included. The target is sent `lead` before the client's bytes.
    /// Allocates all the memory that the pair will ever use. Fails only if there is not enough; then no pair is made.
    pub fn new(
        alloc: Global,
        slot: usize,
        generation: u64,
        capacity: usize,
        now: u64,
        lead: &[u8],
    ) -> Result<Pair, AllocError>
        requires least { 1 ≤ capacity }
        requires most { capacity ≤ Flow.MAX }
        requires short { length lead.now ≤ Flow.MAX_LEAD }
        ensures { IfOk result (λ pair. pair ≡ fresh slot generation capacity now lead.now) }
    {
        Ok(Pair {
            slot,
            generation,
            up: Flow::new(alloc, capacity, lead)?,
            down: Flow::new(alloc, capacity, &[])?,
            client: Flags::READY,
            target: Flags::READY,
            joined: false,
            turn: Direction::Up,
            failure: None,
            sent_up: 0,
            sent_down: 0,
            moved: now,
        })
    }

    /// The call to make next. None if no call is worth trying before the next report ([`Pair::note`]), or if the pair
    /// is done or failed ([`Pair::verdict`]).
    #[tactic(auto, using(crate::proofs::Pairs::asked_is_possible))]
    #[inline(always)]
    pub fn next(&self) -> Option<Call>
        ensures value { result ≡ next_call self.now }
        ensures possible { IfSome result (IsPossible self.now) }
        ensures live { OnSome result (verdict self.now ≡ Verdict.Live) }
    {
        if !self.is_live() {
            return None;
        }
        match self.call_for(self.turn) {
            Some(call) => Some(call),
            None => self.call_for(self.turn.other()),
        }
    }

    /// What a write to a side offers: the rest of the lead for that side, or if none is left, the whole ring. The bytes
    /// are lent to be read: unless the caller writes into them, the pair stays as it was.
    pub fn offer(&mut self, side: Side) -> &mut [u8]
        ensures* lends { sem 𝓛 (LendsOffer self.entry side result) }
        ensures value { result.now ≡ offer self.old side }
        ensures unwritten { with_offer self.old side (offer self.old side) ≡ self.old }
    {
        match side {
            Side::Client => self.down.front(),
            Side::Target => self.up.front(),
        }
    }

    /// Whether a call may get this answer.
    pub fn fits(&self, call: Call, answer: Answer<'_>) -> bool
        ensures { result ≡ fits self.now call (reply_of answer.entry) }
    {
        match (call, answer) {
            (_, Answer::Interrupted | Answer::Failed(_)) => true,
            (Call::Read(_, most), Answer::Bytes(bytes)) => !bytes.is_empty() && bytes.len() <= most,
            (Call::Write(_), Answer::Wrote(n)) => {
                n > 0 && n <= self.flow(call.direction()).front_len()
            }
            (Call::Read(_, _), Answer::End | Answer::Blocked)
            | (Call::Write(_), Answer::Blocked)
            | (Call::Join(_), Answer::Joined | Answer::Blocked)
            | (Call::Shut(_), Answer::Shut) => true,
            _ => false,
        }
    }

    /// Takes the answer that the next call got at the second `now`.
    #[tactic(auto, using(crate::proofs::Pairs::asked_is_possible))]
    #[inline(always)]
    pub fn answer(&mut self, call: Call, answer: Answer<'_>, now: u64)
        requires next { next_call self.old ≡ Some call }
        requires fits { fits self.old call (reply_of answer) ≡ true }
        // `answer.entry` is the answer: so an `ensures` has to name a parameter that holds a reference.
        ensures value { self.new ≡ after now self.old call (reply_of answer.entry) }

        // What follows from `value`:
        ensures order { KeepsOrder self.old call (reply_of answer.entry) self.new }
        ensures end_last { (d : Direction) → PassesEndLast (stream_of self.old d) (stream_of self.new d) }
        ensures interrupted { reply_of answer.entry ≡ Interrupted → self.new ≡ record self.old { turn = self.new.turn } }
        ensures failed { (fault : Fault) → (verdict self.new ≡ Verdict.Failed fault) ↔ TellsOf call (reply_of answer.entry) fault }
    {
        self.take_answer(call, answer, now);
    }

    /// A report arrived for one of the sockets: every call is worth trying again.
    pub fn note(&mut self)
        ensures value { self.new ≡ noted self.old }
        ensures verdict_stays { verdict self.new ≡ verdict self.old }
    {
        self.client = Flags::READY;
        self.target = Flags::READY;
    }

    /// If the pair is live, has no next call and at the second `now` has moved nothing for `limit` seconds, fails it
    /// and returns true. Otherwise returns false, and nothing changes. A limit of 0 never passes.
    pub fn expire(&mut self, now: u64, limit: u64) -> bool
        ensures value { self.new ≡ expired now limit self.old }
        ensures told { result ≡ is_overdue now limit self.old }

        // What follows from these two:
        ensures overdue { (result ≡ true) ↔ IsOverdue now limit self.old }
        ensures fails { result ≡ true → verdict self.new ≡ Verdict.Failed Fault.Idle }
        ensures keeps { result ≡ false → self.new ≡ self.old }
        ensures verdict_alone { self.new ≡ record self.old { failure = self.new.failure } }
    {
        let is_overdue = self.is_overdue(now, limit);
        if is_overdue {
            self.failure = Some(Fault::Idle);
        }
        is_overdue
    }

    /// What has become of the connection.
    pub fn verdict(&self) -> Verdict
        ensures { result ≡ verdict self.now }
    {
        match self.failure {
            Some(fault) => Verdict::Failed(fault),
            None if self.up.is_shut() && self.down.is_shut() => Verdict::Done,
            None => Verdict::Live,
        }
    }

    /// How many bytes writes took, up and down, lead included. Each count stops at the largest `u64`.
    pub fn counts(&self) -> (u64, u64)
        ensures up { result.0 ≡ self.now.sent_up }
        ensures down { result.1 ≡ self.now.sent_down }
    {
        (self.sent_up, self.sent_down)
    }

    /// The second at which the connection was made or last moved ([`Answer::moves`]).
    pub fn moved(&self) -> u64
        ensures { result ≡ self.now.moved }
    {
        self.moved
    }

    /// The slot of the connection.
    pub fn slot(&self) -> usize
        ensures { result ≡ self.now.slot }
    {
        self.slot
    }

    /// How many connections the slot has had, this one included.
    pub fn generation(&self) -> u64
        ensures { result ≡ self.now.generation }
    {
        self.generation
    }

    /// Whether a side's socket is known to be connected; the client's always is.
    pub fn joined(&self, side: Side) -> bool
        ensures { result ≡ is_joined self.now side }
    {
        match side {
            Side::Client => true,
            Side::Target => self.joined,
        }
    }

    /// What the pair knows about the readiness of one side's socket.
    pub fn flags(&self, side: Side) -> Flags
        ensures { result ≡ flags_of self.now side }
    {
        match side {
            Side::Client => self.client,
            Side::Target => self.target,
        }
    }

    /// The direction whose calls come first: the one that the last answered call did not serve.
    pub fn turn(&self) -> Direction
        ensures { result ≡ self.now.turn }
    {
        self.turn
    }

    /// How many bytes are left of the lead of one direction; the way down has none.
    pub fn lead_len(&self, direction: Direction) -> usize
        ensures { result ≡ length (stream_of self.now direction).lead }
    {
        self.flow(direction).lead_len()
    }

    /// The byte at index `i` of what is left of the lead of one direction.
    pub fn lead_byte(&self, direction: Direction, i: usize) -> u8
        requires { i < length (stream_of self.now direction).lead }
        ensures { result ≡ slice_index (stream_of self.now direction).lead i }
    {
        self.flow(direction).lead_byte(i)
    }

    /// How many bytes wait in the ring of one direction.
    pub fn ring_len(&self, direction: Direction) -> usize
        ensures { result ≡ length (stream_of self.now direction).ring }
    {
        self.flow(direction).len()
    }

    /// The byte at index `i` of the ring of one direction. The oldest is at 0.
    pub fn ring_byte(&self, direction: Direction, i: usize) -> u8
        requires { i < length (stream_of self.now direction).ring }
        ensures { result ≡ slice_index (stream_of self.now direction).ring i }
    {
        self.flow(direction).byte(i)
    }

    /// Whether the end of input was seen at the source of one direction.
    pub fn end_seen(&self, direction: Direction) -> bool
        ensures { result ≡ (stream_of self.now direction).end_seen }
    {
        self.flow(direction).end_seen()
    }

    /// Whether the end of input was passed on to the destination of one direction.
    pub fn is_shut(&self, direction: Direction) -> bool
        ensures { result ≡ (stream_of self.now direction).shut }
    {
        self.flow(direction).is_shut()
    }

    // `possible` and `fits` give what the flow's methods require: room, and an end to pass on.
    #[inline(always)]
    fn take_answer(&mut self, call: Call, answer: Answer<'_>, now: u64)
        requires possible { IsPossible self.old call }
        requires fits { fits self.old call (reply_of answer) ≡ true }
        ensures { self.new ≡ after now self.old call (reply_of answer.entry) }
    {
        let direction = call.direction();
        let moved = if answer.moves() { now } else { self.moved };
        match answer {
            Answer::Bytes(bytes) => {
                self.flow_mut(direction).take_in(bytes);
                self.mark_joined(call.side());
            }
            Answer::End => {
                self.flow_mut(direction).mark_end();
                self.mark_joined(call.side());
            }
            Answer::Wrote(n) => {
                self.flow_mut(direction).drop_front(n);
                self.mark_joined(call.side());
                self.count(direction, n);
            }
            Answer::Joined => self.mark_joined(call.side()),
            Answer::Shut => self.flow_mut(direction).mark_shut(),
            Answer::Blocked => self.clear_flag(call),
            Answer::Interrupted => {}
            Answer::Failed(kind) => {
                self.failure = Some(Fault::Broken {
                    side: call.side(),
                    call: call.kind(),
                    kind,
                });
            }
        }
        self.turn = direction.other();
        self.moved = moved;
    }

    fn is_live(&self) -> bool
        ensures { result ≡ is_live (verdict self.now) }
    {
        self.failure.is_none() && !(self.up.is_shut() && self.down.is_shut())
    }

    fn is_overdue(&self, now: u64, limit: u64) -> bool
        ensures { result ≡ is_overdue now limit self.now }
    {
        limit > 0
            && now >= self.moved
            && now - self.moved >= limit
            && self.is_live()
            && self.next().is_none()
    }

    fn flow(&self, direction: Direction) -> &Flow
        ensures { result.now ≡ stream_of self.now direction }
    {
        match direction {
            Direction::Up => &self.up,
            Direction::Down => &self.down,
        }
    }

    fn flow_mut(&mut self, direction: Direction) -> &mut Flow
        ensures* lends { sem 𝓛 (LendsStream self.entry direction result) }
        ensures value { result.now ≡ stream_of self.old direction }
    {
        match direction {
            Direction::Up => &mut self.up,
            Direction::Down => &mut self.down,
        }
    }

    /// The first possible call that serves one direction.
    fn call_for(&self, direction: Direction) -> Option<Call>
        ensures { result ≡ call_for self.now direction }
    {
        let flow = self.flow(direction);
        let source = direction.source();
        let destination = direction.destination();
        if !flow.is_drained() && self.flags(destination).write {
            Some(Call::Write(destination))
        } else if flow.end_seen() {
            self.call_at_end(direction)
        } else if flow.free() > 0 && self.flags(source).read {
            Some(Call::Read(source, flow.free().min(MAX_READ)))
        } else {
            None
        }
    }

    /// What `call_for` returns if the source has ended and no write comes first.
    fn call_at_end(&self, direction: Direction) -> Option<Call>
        requires ended { (stream_of self.now direction).end_seen ≡ true }
        requires stuck { (is_waiting (stream_of self.now direction) && (flags_of self.now (destination direction)).write) ≡ false }
        ensures { result ≡ call_for self.now direction }
    {
        let flow = self.flow(direction);
        let destination = direction.destination();
        if !flow.is_drained() || flow.is_shut() {
            None
        } else if self.joined(destination) {
            Some(Call::Shut(destination))
        } else if self.flags(destination).write {
            Some(Call::Join(destination))
        } else {
            None
        }
    }

    fn mark_joined(&mut self, side: Side)
        ensures { self.new ≡ mark_joined self.old side }
    {
        match side {
            Side::Client => {}
            Side::Target => self.joined = true,
        }
    }

    fn count(&mut self, direction: Direction, n: usize)
        ensures { self.new ≡ count_more self.old direction n }
    {
        match direction {
            Direction::Up => self.sent_up = self.sent_up.saturating_add(n as u64),
            Direction::Down => self.sent_down = self.sent_down.saturating_add(n as u64),
        }
    }

    fn clear_flag(&mut self, call: Call)
        ensures { self.new ≡ with_flags self.old (side_of call) (without_flag call (flags_of self.old (side_of call))) }
    {
        match (call, call.side()) {
            (Call::Read(..), Side::Client) => self.client.read = false,
            (Call::Read(..), Side::Target) => self.target.read = false,
            (_, Side::Client) => self.client.write = false,
            (_, Side::Target) => self.target.write = false,
        }
    }
}
