// A clock that records its readings, and a gate that records turns.
ghost use Rattle.std.specs.Prelude.{◌≡◌, IsTrue, [], ◌∷◌};
ghost use Rattle.record_lines.specs.declared.act.Act.TheVariants.{Second};
ghost use Rattle.recorder.specs.Records.{Beside, Records, RecordsAtOnce};
ghost use Rattle.record_lines.specs.declared.act.Act.TheVariants as act;

use crate::recorder::{Begun, Inner, Recorder, Sink};
use record_lines::Act;
use relay_core::Pair;
use shared::{Clock, Gate};

/// Shows the seconds of the clock in it. Each reading is recorded if there is an idle limit: a replay needs readings
/// for nothing else.
pub struct RecordedClock<'r, C, S: Sink> {
    inner: Inner<&'r C>,
    recorder: Recorder<S>,
    has_limit: bool,
}

impl<'r, C, S: Sink> RecordedClock<'r, C, S> {
    /// Records what `inner` tells, if there is an idle limit.
    pub fn new(inner: &'r C, recorder: Recorder<S>, has_limit: bool) -> RecordedClock<'r, C, S>
        ensures inner { result.inner.now ≡ inner.now }
        ensures limit { result.has_limit ≡ has_limit }
    {
        RecordedClock {
            inner: Inner::new(inner),
            recorder,
            has_limit,
        }
    }
}

impl<C, S: Sink> Drop for RecordedClock<'_, C, S> {
    fn drop(self) {
        let RecordedClock {
            inner,
            recorder,
            has_limit: _,
        } = self;
        inner.end(Begun::unrecorded()).skip();
        drop(recorder);
    }
}

impl<C: Clock, S: Sink> Clock for RecordedClock<'_, C, S> {
    ghost tells = { λ clock second. C.tells clock.inner.now second };

    fn second(&self) -> u64
        ensures tells { C.tells self.now.inner.now result }
        ensures recorded { IsTrue self.now.has_limit → Beside S.did (Records S.did (Second result ∷ [])) self.now.recorder.sink }
    {
        let mut recorder = self.recorder.another();
        let begun = if self.has_limit {
            recorder.begin()
        } else {
            Begun::unrecorded()
        };
        let second = self.inner.shown(&begun).second();
        recorder.record(begun, Act::Second(second));
        second
    }
}

/// A gate that calls the gate in it, and records where turns begin and end.
#[derive(Drop)]
pub struct RecordedGate<'r, G, S> {
    inner: &'r G,
    recorder: Recorder<S>,
}

impl<'r, G, S> RecordedGate<'r, G, S> {
    /// Records when `inner` is called.
    pub fn new(inner: &'r G, recorder: Recorder<S>) -> RecordedGate<'r, G, S> {
        RecordedGate { inner, recorder }
    }
}

impl<G: Gate, S: Sink> Gate for RecordedGate<'_, G, S> {
    ghost began = { λ gate slot pair. G.began gate.inner.now slot pair };

    ghost ended = { λ gate slot pair. G.ended gate.inner.now slot pair };

    fn all_started(&self) {
        self.inner.all_started();
    }

    fn before_turn(&self, slot: usize, pair: &Pair)
        ensures began { G.began self.now.inner.now slot pair.now }
        ensures recorded { Beside S.did (RecordsAtOnce S.did (act.Begin slot)) self.now.recorder.sink }
    {
        self.inner.before_turn(slot, pair);
        self.recorder.another().record_at_once(Act::Begin(slot));
    }

    fn after_turn(&self, slot: usize, pair: &Pair)
        ensures ended { G.ended self.now.inner.now slot pair.now }
        ensures recorded { Beside S.did (RecordsAtOnce S.did (act.End slot)) self.now.recorder.sink }
    {
        self.inner.after_turn(slot, pair);
        self.recorder.another().record_at_once(Act::End(slot));
    }
}
