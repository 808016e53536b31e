//! The calls of a turn, and what the network did before them. The network acts as late as can be: bytes and ends of
//! input arrive just before the call that shows them, and room comes just before the write that takes it.
use crate::action::offered;
use crate::machine::{Flaw, Machine};
use crate::slot_replay::{Phase, SlotReplay};
use kernel_model::{End, Reply};
use record_lines::{Act as Recorded, Answer, Made};
use record_reader::Numbered;
use relay_core::{Call, Pair};
use token::{Kind, Side};
use world::{Act, Change, Event};

/// The most bytes that arrive at once.
const MAX_ARRIVAL: usize = 1_024;

/// A call, and how many bytes it asks for or offers.
#[derive(Clone, Copy)]
pub(crate) struct Asked {
    pub call: Call,
    pub bytes: usize,
}

impl SlotReplay<'_> {
    /// A call was made at an end, and got this answer.
    pub(crate) fn call(&mut self, side: Side, made: Made) -> Result<(), Flaw> {
        let Phase::Calling(calls) = self.state.phase else {
            return Err(Flaw::Because("no turn is in progress"));
        };
        self.state.phase = Phase::Calling(calls.saturating_add(1));
        let Some((asked, answer)) = asked_by(side, made) else {
            return Ok(());
        };
        let reply = reply_to(asked.call, answer, self.next);
        self.machine.call(asked, reply)?;
        if !matches!(
            reply,
            Reply::Blocked | Reply::Interrupted | Reply::Failed(_)
        ) {
            self.state.moved = self.state.latest;
        }
        Ok(())
    }
}

fn asked_by(side: Side, made: Made) -> Option<(Asked, Answer)> {
    let (call, bytes, answer) = match made {
        Made::Read(most, answer) => (Call::Read(side, most), most, answer),
        Made::Write(length, answer) => (Call::Write(side), length, answer),
        Made::Join(answer) => (Call::Join(side), 0, answer),
        Made::Shut(answer) => (Call::Shut(side), 0, answer),
        Made::Settle | Made::Drop => return None,
    };
    Some((Asked { call, bytes }, answer))
}

/// The reply of a call that is recorded with this answer. The world refuses an answer that the call cannot have.
fn reply_to(call: Call, answer: Answer, next: &[Numbered]) -> Reply {
    match answer {
        Answer::Moved(count) => match call {
            Call::Read(_, _) => Reply::Bytes(count),
            _ => Reply::Wrote(count, blocks_next(next, call.side())),
        },
        Answer::End => Reply::End,
        Answer::Joined => Reply::Joined,
        Answer::Shut => Reply::Shut,
        Answer::Blocked => Reply::Blocked,
        Answer::Interrupted => Reply::Interrupted,
        Answer::Failed(kind) => Reply::Failed(kind),
    }
}

/// Whether the next write or join at an end, but for interrupted ones, would block.
fn blocks_next(next: &[Numbered], side: Side) -> bool {
    for numbered in next {
        match numbered.record.act {
            Recorded::Poller(_, _) => return false,
            Recorded::Wire(token, Made::Write(_, answer) | Made::Join(answer)) => {
                if token.side() == side && answer != Answer::Interrupted {
                    return answer == Answer::Blocked;
                }
            }
            _ => {}
        }
    }
    false
}

impl Machine {
    pub(crate) fn next_call(&self) -> Option<Asked> {
        let pair = self.pair()?;
        let call = pair.next()?;
        let bytes = match call {
            Call::Read(_, most) => most,
            Call::Write(_) => offered(pair, call),
            Call::Join(_) | Call::Shut(_) => 0,
        };
        Some(Asked { call, bytes })
    }

    fn call(&mut self, asked: Asked, reply: Reply) -> Result<(), Flaw> {
        match self.next_call() {
            Some(next) if next.call == asked.call && next.bytes == asked.bytes => {}
            _ => return Err(Flaw::NextCall),
        }
        self.bring(asked, reply)?;
        self.put(Event::Work(0, Act::Call(reply)))
    }

    /// The network does what a reply shows: bytes arrive, or an end of input, an error or room is there.
    fn bring(&mut self, asked: Asked, reply: Reply) -> Result<(), Flaw> {
        let side = asked.call.side();
        let (bytes, change) = match self.end(side) {
            Some(end) => (bytes_missing(end, asked, reply), missing(end, reply)),
            None => return Ok(()),
        };
        if let Some(change) = change {
            return self.change(side, change);
        }
        self.arrive(side, bytes)
    }

    fn arrive(&mut self, side: Side, count: usize) -> Result<(), Flaw> {
        let mut left = count;
        for _piece in 0..count / MAX_ARRIVAL + 1 {
            let length = left.min(MAX_ARRIVAL);
            if length > 0 {
                let stand_ins = vec![in self.alloc; 0u8; length]?;
                self.change(side, Change::Arrive(stand_ins))?;
            }
            left -= length;
        }
        Ok(())
    }
}

/// How many bytes a read gives beyond those that are unread. 0 if it gives more than it asks for.
fn bytes_missing(end: &End, asked: Asked, reply: Reply) -> usize {
    match reply {
        Reply::Bytes(count) if count <= asked.bytes => count.saturating_sub(end.unread().len()),
        _ => 0,
    }
}

fn missing(end: &End, reply: Reply) -> Option<Change> {
    match reply {
        Reply::End if !end.has_fin() => Some(Change::Fin),
        Reply::Wrote(_, _) | Reply::Joined if !end.has_room() => Some(Change::Room),
        Reply::Failed(kind) if kind != Kind::Zero && !end.has_err() => Some(Change::Reset),
        _ => None,
    }
}
