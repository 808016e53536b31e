// What a thread records by. Only here is a record made, but for the last, and an `Inner` opened.
ghost use Rattle.std.specs.{Prelude.{◌≡◌, List, None, false, [], ◌∷◌}, Borrow.sem};
ghost use Rattle.record_lines.specs.declared.act.Act.{Act};
ghost use Rattle.recorder.specs.{Lending.LendsInner, Records.{drops, wire_dropped, Step, Began, Timed, Ended, AtOnce, Put, Another, EndsActs, EndsWait, PutsActs, ReadsTime, RecordsAtOnce, with_time}};

use engine::Wire;
use record_lines::{Act, Made, Polling, Record};
use std::marker::Model;
use token::{Token, unpack};

/// A thread's handle on a count that all threads of a relay share, and on a queue of records. No clause can name what
/// threads share, so the trait leaves open what a step does. What is proved of a wrapper over any sink says which
/// steps the wrapper makes on it, in which order, and that it makes no others.
pub trait Sink: Drop {
    // What a step may do: the step with its answer, and the sink before and after.
    ghost did: { Step → Self → Self → Type 0 };

    /// Takes the count before an act. None: it is not recorded.
    fn begin(&mut self) -> Option<u64>
        ensures { did (Began result) self.old self.new };

    /// The microseconds since the recording began, by a clock that does not go back.
    fn time(&mut self) -> u64
        ensures { did (Timed result) self.old self.new };

    /// Takes the count after an act.
    fn end(&mut self) -> u64
        ensures { did (Ended result) self.old self.new };

    /// Takes the counts before and after an act in one step. None: it is not recorded.
    fn at_once(&mut self) -> Option<(u64, u64)>
        ensures { did (AtOnce result) self.old self.new };

    /// Puts a record after the others. If there is no room for it, the recording, or this part of it, ends. That is
    /// logged once.
    fn put(&mut self, item: Record)
        ensures { did (Put item) self.old self.new };

    /// Another handle on the same count and queue.
    fn another(&self) -> Self
        ensures { did Another self.now result };
}

/// Makes records, and puts them into a sink.
#[derive(Drop)]
pub struct Recorder<S> {
    sink: S,
}

/// The count before an act that has begun. None: the act is not recorded. A `Begun` can be neither copied nor dropped:
/// so each count that was taken is used once.
pub(crate) struct Begun(Option<u64>);

/// The count before a part was dropped. None: the drop is not recorded. Only [`Inner::end`] makes a `Gone`.
pub(crate) struct Gone(Option<u64>);

/// A part that is wrapped. Its acts, and its drop, need a [`Begun`], so the count before them was taken.
pub(crate) struct Inner<T>(T);

impl<S: Sink> Recorder<S> {
    /// A recorder over this sink.
    pub fn new(sink: S) -> Recorder<S>
        ensures { result.sink ≡ sink }
    {
        Recorder { sink }
    }

    /// Another recorder, over another handle.
    pub fn another(&self) -> Recorder<S>
        ensures { S.did Another self.now.sink result.sink }
    {
        Recorder {
            sink: self.sink.another(),
        }
    }

    pub(crate) fn begin(&mut self) -> Begun
        ensures { S.did (Began result.0) self.old.sink self.new.sink }
    {
        Begun(self.sink.begin())
    }

    /// Records an act that has ended. Only [`Recorder::record_gone`] records that a wire was dropped.
    pub(crate) fn record(&mut self, begun: Begun, act: Act)
        requires { drops act ≡ false }
        ensures { EndsActs S.did begun.0 (act ∷ []) self.old.sink self.new.sink }
    {
        let Begun(before) = begun;
        self.record_from(before, act);
    }

    pub(crate) fn record_gone(&mut self, gone: Gone, name: Token)
        ensures { EndsActs S.did gone.0 (wire_dropped name ∷ []) self.old.sink self.new.sink }
    {
        let Gone(before) = gone;
        self.record_from(before, Act::Wire(name, Made::Drop));
    }

    fn record_from(&mut self, before: Option<u64>, act: Act)
        ensures { EndsActs S.did before (act ∷ []) self.old.sink self.new.sink }
    {
        if let Some(before) = before {
            let after = self.sink.end();
            self.sink.put(Record { before, after, act });
        }
    }

    /// Records an act that takes no time, as the beginning of a turn: both counts are taken in one step.
    pub(crate) fn record_at_once(&mut self, act: Act)
        requires { drops act ≡ false }
        ensures { RecordsAtOnce S.did act self.old.sink self.new.sink }
    {
        if let Some((before, after)) = self.sink.at_once() {
            self.sink.put(Record { before, after, act });
        }
    }

    /// The time of a wait that gave these numbers. If it gave none, no clock is read.
    fn time_of(&mut self, numbers: &[u64]) -> Option<u64>
        ensures { ReadsTime S.did numbers.now result self.old.sink self.new.sink }
    {
        match numbers {
            [] => None,
            _ => Some(self.sink.time()),
        }
    }

    /// Puts the time of a wait, if it was read.
    fn put_time(&mut self, before: u64, after: u64, poller: usize, time: Option<u64>)
        ensures { (acts : List Act) → (new : _) → PutsActs S.did before after acts self.new.sink new
            → PutsActs S.did before after (with_time poller time acts) self.old.sink new }
    {
        if let Some(micros) = time {
            let act = Act::Poller(poller, Polling::Time(micros));
            self.sink.put(Record { before, after, act });
        }
    }

    /// Records that a wait gave these numbers, when, and each report among them, with the counts of the wait.
    pub(crate) fn record_reports(&mut self, begun: Begun, poller: usize, numbers: &[u64])
        ensures { EndsWait S.did poller begun.0 numbers.now self.old.sink self.new.sink }
    {
        let Begun(before) = begun;
        let Some(before) = before else {
            return;
        };
        let time = self.time_of(numbers);
        let after = self.sink.end();
        let act = Act::Poller(poller, Polling::Gave(numbers.len()));
        self.sink.put(Record { before, after, act });
        self.put_time(before, after, poller, time);
        for number in numbers {
            if let Some(name) = unpack(*number) {
                let act = Act::Poller(poller, Polling::Reported(name));
                self.sink.put(Record { before, after, act });
            }
        }
    }
}

impl Begun {
    pub(crate) fn unrecorded() -> Begun
        ensures { result.0 ≡ None }
    {
        Begun(None)
    }

    /// Ends an act that is not recorded.
    pub(crate) fn skip(self)
        requires { self.0 ≡ None }
    {
        let Begun(_) = self;
    }
}

impl Gone {
    pub(crate) fn skip(self)
        requires { self.0 ≡ None }
    {
        let Gone(_) = self;
    }
}

impl<T> Model for Inner<T> {
    ghost use Rattle.std.specs.Prelude.{◌≡◌};

    ghost Value = { T };

    ghost view = { λ inner. inner.0 };
}

impl<W: Wire> Inner<W> {
    /// The wire, for calls that are not recorded.
    pub(crate) fn wire(&self) -> &W
        ensures { result.now ≡ self.now }
    {
        &self.0
    }
}

impl<T> Inner<T> {
    pub(crate) fn new(part: T) -> Inner<T>
        ensures { result ≡ part }
    {
        Inner(part)
    }

    /// The part, for an act that has begun.
    pub(crate) fn during(&mut self, _begun: &Begun) -> &mut T
        ensures* lends { sem 𝓛 (LendsInner T.row self.entry result) }
        ensures value { result.now ≡ self.old }
    {
        &mut self.0
    }

    /// The part, for an act that has begun and does not change it.
    pub(crate) fn shown(&self, _begun: &Begun) -> &T
        ensures { result.now ≡ self.now }
    {
        &self.0
    }

    pub(crate) fn end(self, begun: Begun) -> Gone
    where
        T: Drop,
        ensures { result.0 ≡ begun.0 }
    {
        let (Inner(part), Begun(before)) = (self, begun);
        drop(part);
        Gone(before)
    }
}
