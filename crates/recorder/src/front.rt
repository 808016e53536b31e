// A front that records its waits, accepts and openings.
ghost use Rattle.std.specs.{Prelude.{◌≡◌, ◌≢◌, ◌≤◌, Some, None, true, [], ◌∷◌, IfOk, IfErr, OnErr, length, map, vec_len, vec_capacity}, List.range_with_len, IoError.error_kind, declared.io.ErrorKind.TheVariants.Interrupted};
ghost use Rattle.recorder.specs.Records.{accepted, not_accepted, not_waited, opened as opened_of, Records, RecordsPoll};
ghost use Rattle.shared.specs.Told.{unaccepted_of, Waited};
ghost use Rattle.record_lines.specs.declared.act.Act.TheVariants as act;
ghost use Rattle.record_lines.specs.declared.act.Polling.TheVariants as polling;

use crate::recorder::{Begun, Inner, Recorder, Sink};
use crate::wire::RecordedWire;
use log::Log;
use record_lines::{Accepted, Act, Opening, Polling};
use shared::{Front, Opened, Unaccepted, Unopened, Waiting, unaccepted_of};
use sizes::MAX_BATCH;
use std::alloc::{AllocError, Global};
use std::io::{self, ErrorKind};
use std::net::SocketAddr;
use token::Token;

/// Does and promises what the front in it does and promises. Records waits for reports, accepts and openings.
pub struct RecordedFront<F: Drop, S: Sink> {
    inner: Inner<F>,
    poller: usize,
    recorder: Recorder<S>,
}

/// Wraps each of these fronts in one that records, in order. Their pollers are numbered from 0.
pub fn record_all<F: Front + Drop, S: Sink>(
    alloc: Global,
    fronts: Vec<F>,
    recorder: &Recorder<S>,
) -> Result<Vec<RecordedFront<F, S>>, AllocError>
    ensures seen { IfOk result (λ all. map (λ front. F.seen front.inner) all.items ≡ map F.seen fronts.items) }
    ensures numbers { IfOk result (λ all. map (λ front. front.poller) all.items ≡ range_with_len 0 (length fronts.items)) }
{
    let mut all = Vec::with_capacity(alloc, fronts.len())?;
    for front in fronts {
        let (poller, inner) = (all.len(), Inner::new(front));
        all.push_reserved(RecordedFront {
            inner,
            poller,
            recorder: recorder.another(),
        });
    }
    Ok(all)
}

impl<F: Drop, S: Sink> Drop for RecordedFront<F, S> {
    fn drop(self) {
        let RecordedFront {
            inner,
            poller: _,
            recorder,
        } = self;
        inner.end(Begun::unrecorded()).skip();
        drop(recorder);
    }
}

fn told<T>(opened: &Result<T, Unopened>) -> Opening
    ensures { result ≡ opened_of opened.now }
{
    match opened {
        Ok(_) => Opening::Opened,
        Err(Unopened::Connect) => Opening::Connect,
        Err(Unopened::Register) => Opening::Register,
    }
}

fn not_accepted(kind: ErrorKind) -> Accepted
    ensures { result ≡ not_accepted (unaccepted_of kind) }
{
    match unaccepted_of(kind) {
        Unaccepted::Again => Accepted::Again,
        Unaccepted::Blocked => Accepted::Blocked,
        Unaccepted::Starved => Accepted::Starved,
    }
}

fn not_waited(kind: ErrorKind) -> Polling
    ensures { result ≡ not_waited kind }
{
    match kind {
        ErrorKind::Interrupted => Polling::Interrupted,
        _ => Polling::Failed,
    }
}

impl<F: Front + Drop, S: Sink> Front for RecordedFront<F, S> {
    ghost seen = { λ f. F.seen f.inner };

    ghost may_tell = { λ client route. F.may_tell client.inner route };

    ghost accepted = { λ client. F.accepted client.inner };

    ghost dialled = { λ address target. F.dialled address target.inner };

    ghost may_refuse = { λ client why. F.may_refuse client.inner why };

    ghost gave_none = { F.gave_none };

    ghost lacked = { F.lacked };

    ghost woke = { λ waker slot. F.woke waker slot };

    type Client = RecordedWire<F::Client, S>;

    type Target = RecordedWire<F::Target, S>;

    type Waker = F::Waker;

    fn poll(&mut self, batch: &mut Vec<u64>, wait: Waiting) -> io::Result<()>
        requires room { MAX_BATCH ≤ vec_capacity batch.old }
        ensures most { vec_len batch.new ≤ MAX_BATCH }
        ensures capacity { vec_capacity batch.new ≡ vec_capacity batch.old }
        ensures reported { batch.new.items ≡ (F.seen self.new.inner).reported }
        ensures waited { Waited wait (F.seen self.old.inner) (F.seen self.new.inner) }
        ensures failed { OnErr result (batch.new.items ≡ []) }
        ensures fault { IfErr result (λ error. error_kind error ≢ Interrupted → (F.seen self.new.inner).failed ≡ true) }
        ensures recorded { RecordsPoll S.did self.old.poller result batch.new.items self.old.recorder.sink self.new.recorder.sink }
    {
        let poller = self.poller;
        let begun = self.recorder.begin();
        let result = self.inner.during(&begun).poll(batch, wait);
        let failed = match &result {
            Ok(()) => {
                self.recorder
                    .record_reports(begun, poller, batch.as_slice());
                return result;
            }
            Err(error) => not_waited(error.kind()),
        };
        self.recorder.record(begun, Act::Poller(poller, failed));
        result
    }

    fn leaves(&mut self) -> bool {
        let begun = Begun::unrecorded();
        let leaves = self.inner.during(&begun).leaves();
        begun.skip();
        leaves
    }

    fn accept(&mut self) -> io::Result<RecordedWire<F::Client, S>>
        ensures seen { F.seen self.new.inner ≡ F.seen self.old.inner }
        ensures accepted { IfOk result (λ client. F.accepted client.inner) }
        ensures none { IfErr result (λ error. F.gave_none (unaccepted_of (error_kind error))) }
        ensures unnamed { IfOk result (λ client. client.name ≡ None) }
        ensures recorded { Records S.did (act.Poller self.old.poller (polling.Accept (accepted result)) ∷ [])
            self.old.recorder.sink self.new.recorder.sink }
    {
        let begun = self.recorder.begin();
        let result = self.inner.during(&begun).accept();
        let answer = match &result {
            Ok(_) => Accepted::Taken,
            Err(error) => not_accepted(error.kind()),
        };
        self.recorder
            .record(begun, Act::Poller(self.poller, Polling::Accept(answer)));
        match result {
            Ok(client) => Ok(RecordedWire::new(client, None, self.recorder.another())),
            Err(error) => Err(error),
        }
    }

    fn lacked_memory(&mut self) {
        let begun = Begun::unrecorded();
        self.inner.during(&begun).lacked_memory();
        begun.skip();
    }

    fn stop_listening(&mut self) {
        let begun = Begun::unrecorded();
        self.inner.during(&begun).stop_listening();
        begun.skip();
    }

    fn open<N: Log>(
        &mut self,
        rt: &N,
        client: &mut RecordedWire<F::Client, S>,
        client_token: Token,
        target_token: Token,
    ) -> Result<Opened<RecordedWire<F::Target, S>>, Unopened>
        ensures dialled { IfOk result (λ opened. F.dialled (F.seen self.old.inner).target opened.target.inner) }
        ensures told { IfOk result (λ opened. F.may_tell client.old.inner opened.route) }
        ensures refused { IfErr result (λ why. F.may_refuse client.old.inner why) }
        ensures same { F.Client.told client.new.inner ≡ F.Client.told client.old.inner }
        ensures seen { F.seen self.new.inner ≡ F.seen self.old.inner }
        ensures named { IfOk result (λ opened. (client.new.name ≡ Some client_token) × (opened.target.name ≡ Some target_token)) }
        ensures recorded { Records S.did (act.Poller self.old.poller
            (polling.Open client_token.slot client_token.generation (opened_of result)) ∷ [])
            self.old.recorder.sink self.new.recorder.sink }
    {
        let (slot, generation) = (client_token.slot(), client_token.generation());
        let begun = self.recorder.begin();
        let opened = self.inner.during(&begun).open(
            rt,
            client.inner.during(&begun),
            client_token,
            target_token,
        );
        let polling = Polling::Open(slot, generation, told(&opened));
        self.recorder
            .record(begun, Act::Poller(self.poller, polling));
        let Opened { target, route } = opened?;
        client.name = Some(client_token);
        let target = RecordedWire::new(target, Some(target_token), self.recorder.another());
        Ok(Opened { target, route })
    }

    fn wake(waker: &F::Waker, slot: usize) {
        F::wake(waker, slot);
    }

    fn peer(client: &RecordedWire<F::Client, S>) -> Option<SocketAddr> {
        F::peer(client.inner.wire())
    }
}
