// A wire that records what is done with it.
ghost use Rattle.std.specs.{Prelude.{◌≡◌, ◌≢◌, None}, IoError.error_kind};
ghost use Rattle.record_lines.specs.declared.act.Made.TheVariants.{Drop};
ghost use Rattle.engine.specs.Wires.{counts_alone};
ghost use Rattle.recorder.specs.Records.{answer_of_wire, made_of, refused, BegunBy, EndedBy, WireRecords, SettledOf};

use crate::recorder::{Begun, Inner, Recorder, Sink};
use engine::{Wire, kind_of};
use record_lines::{Act, Answer, Made};
use relay_core::{Kind, Side};
use shared::Settle;
use std::io;
use std::net::SocketAddr;
use token::Token;

/// Does and promises what the wire in it does and promises. Once it has a name, it records each call, its drop and, at
/// a target, that it settled.
pub struct RecordedWire<W: Drop, S: Sink> {
    pub(crate) inner: Inner<W>,
    /// The name of the wire's end, once the connection is open.
    pub(crate) name: Option<Token>,
    pub(crate) recorder: Recorder<S>,
}

impl<W: Drop, S: Sink> RecordedWire<W, S> {
    /// A wire that has this name, if any.
    pub fn new(inner: W, name: Option<Token>, recorder: Recorder<S>) -> RecordedWire<W, S>
        ensures inner { result.inner ≡ inner }
        ensures name { result.name ≡ name }
        ensures recorder { result.recorder ≡ recorder }
    {
        RecordedWire {
            inner: Inner::new(inner),
            name,
            recorder,
        }
    }
}

#[derive(Clone, Copy)]
struct Counts {
    faults: u64,
    blocks: u64,
}

impl Counts {
    fn of<W: Wire>(inner: &Inner<W>) -> Counts
        ensures faults { result.faults ≡ (W.told inner.now).faults }
        ensures blocks { result.blocks ≡ (W.told inner.now).blocks }
    {
        let wire = inner.wire();
        Counts {
            faults: wire.faults(),
            blocks: wire.blocks(),
        }
    }

    /// What the error of a call means, by the count of the wire that has risen. A turn goes by the same rule.
    fn refused<W: Wire>(self, inner: &Inner<W>, error: &io::Error) -> Answer
        ensures { result ≡ refused (counts_alone self.faults self.blocks) (W.told inner.now) (error_kind error.now) }
    {
        let wire = inner.wire();
        if wire.faults() != self.faults {
            Answer::Failed(kind_of(error.kind()))
        } else if wire.blocks() != self.blocks {
            Answer::Blocked
        } else {
            Answer::Interrupted
        }
    }
}

/// Begins an act at the end of this name. Without a name nothing is recorded, so no count is taken.
fn begin<S: Sink>(name: &Option<Token>, recorder: &mut Recorder<S>) -> Begun
    ensures { BegunBy S.did name.now result.0 recorder.old.sink recorder.new.sink }
{
    match name {
        Some(_) => recorder.begin(),
        None => Begun::unrecorded(),
    }
}

fn end<S: Sink>(name: Option<Token>, recorder: &mut Recorder<S>, begun: Begun, made: Made)
    requires unnamed { name ≡ None → begun.0 ≡ None }
    requires call { made ≢ Drop }
    ensures { EndedBy S.did name begun.0 made recorder.old.sink recorder.new.sink }
{
    match name {
        Some(name) => recorder.record(begun, Act::Wire(name, made)),
        None => begun.skip(),
    }
}

impl<W: Drop, S: Sink> Drop for RecordedWire<W, S> {
    fn drop(self)
        ensures recorded { (new : _) × WireRecords S.did self.name Drop self.recorder.sink new }
    {
        let RecordedWire {
            inner,
            name,
            mut recorder,
        } = self;
        close(inner, name, &mut recorder);
    }
}

fn close<W: Drop, S: Sink>(inner: Inner<W>, name: Option<Token>, recorder: &mut Recorder<S>)
    ensures { WireRecords S.did name Drop recorder.old.sink recorder.new.sink }
{
    let begun = begin(&name, recorder);
    let gone = inner.end(begun);
    match name {
        Some(name) => recorder.record_gone(gone, name),
        None => gone.skip(),
    }
}

impl<W: Wire + Drop, S: Sink> Wire for RecordedWire<W, S> {
    ghost told = { λ w. W.told w.inner };

    ghost does = { λ asked given old new. W.does asked given old.inner new.inner
        × WireRecords S.did old.name (made_of asked (answer_of_wire (W.told old.inner) (W.told new.inner) asked given))
        old.recorder.sink new.recorder.sink };

    fn read(&mut self, buffer: &mut [u8]) -> io::Result<usize> {
        let most = buffer.len();
        let counts = Counts::of(&self.inner);
        let begun = begin(&self.name, &mut self.recorder);
        let result = self.inner.during(&begun).read(buffer);
        let answer = match &result {
            Ok(0) => Answer::End,
            Ok(count) => Answer::Moved(*count),
            Err(error) => counts.refused(&self.inner, error),
        };
        let made = Made::Read(most, answer);
        end(self.name, &mut self.recorder, begun, made);
        result
    }

    fn write(&mut self, offer: &[u8]) -> io::Result<usize> {
        let counts = Counts::of(&self.inner);
        let begun = begin(&self.name, &mut self.recorder);
        let result = self.inner.during(&begun).write(offer);
        let answer = match &result {
            Ok(0) => Answer::Failed(Kind::Zero),
            Ok(count) => Answer::Moved(*count),
            Err(error) => counts.refused(&self.inner, error),
        };
        let made = Made::Write(offer.len(), answer);
        end(self.name, &mut self.recorder, begun, made);
        result
    }

    fn shut_write(&mut self) -> io::Result<()> {
        let counts = Counts::of(&self.inner);
        let begun = begin(&self.name, &mut self.recorder);
        let result = self.inner.during(&begun).shut_write();
        let answer = match &result {
            Ok(()) => Answer::Shut,
            Err(error) => counts.refused(&self.inner, error),
        };
        end(self.name, &mut self.recorder, begun, Made::Shut(answer));
        result
    }

    fn joined(&mut self) -> io::Result<()> {
        let counts = Counts::of(&self.inner);
        let begun = begin(&self.name, &mut self.recorder);
        let result = self.inner.during(&begun).joined();
        let answer = match &result {
            Ok(()) => Answer::Joined,
            Err(error) => counts.refused(&self.inner, error),
        };
        end(self.name, &mut self.recorder, begun, Made::Join(answer));
        result
    }

    fn faults(&self) -> u64 {
        self.inner.wire().faults()
    }

    fn blocks(&self) -> u64 {
        self.inner.wire().blocks()
    }
}

impl<W: Settle + Drop, S: Sink> Settle for RecordedWire<W, S> {
    ghost settled = { λ w. W.settled w.inner };

    ghost is_at = { λ w address. W.is_at w.inner address };

    /// Both wires of a connection settle, the target's last. Only the target's is recorded.
    fn settle(&mut self)
        ensures same { W.told self.new.inner ≡ W.told self.old.inner }
        ensures settled { W.settled self.new.inner }
        ensures recorded { SettledOf S.did self.old.name self.old.recorder.sink self.new.recorder.sink }
    {
        let begun = Begun::unrecorded();
        self.inner.during(&begun).settle();
        begun.skip();
        if let Some(name) = self.name {
            if name.side() == Side::Target {
                self.recorder.record_at_once(Act::Wire(name, Made::Settle));
            }
        }
    }

    fn error(&self) -> Option<i32> {
        self.inner.wire().error()
    }

    fn is_connected(&self) -> Option<bool> {
        self.inner.wire().is_connected()
    }

    fn local(&self) -> Option<SocketAddr> {
        self.inner.wire().local()
    }
}
