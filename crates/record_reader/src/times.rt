//! When things happened to a connection, in microseconds since the recording began.
ghost use Rattle.std.specs.Prelude.{◌≡◌, ◌++◌, ◌∷◌, [], ℕ, List, Some, None, if◌then◌else◌};
ghost use Rattle.record_reader.specs.Moments.{IsTimes, Moment, answers, is_done, act_moves, sends};

use crate::account::{read_at, same};
use record_lines::{Act, Answer, Made, Polling};
use token::{Name, Side};

/// Times of a connection. Each act has the time of the last wait before it that gave reports.
#[derive(Clone, Copy)]
pub struct Times {
    pub opened: u64,
    /// When its target answered the connect, when the client first sent, and when the target did.
    pub answered: Option<u64>,
    pub client: Option<u64>,
    pub target: Option<u64>,
    /// When something moved last: before the first movement, when it was opened.
    pub moved: u64,
    /// The longest time in which nothing moved.
    pub silence: u64,
}

impl Times {
    /// The times of a connection that was opened at this time.
    pub fn new(opened: u64) -> Times
        ensures { IsTimes opened [] result }
    {
        Times {
            opened,
            answered: None,
            client: None,
            target: None,
            moved: opened,
            silence: 0,
        }
    }

    /// The times after one act more, of its reports, its turns or its ends.
    pub fn after(self, at: u64, act: &Act) -> Times
        ensures { (opened : ℕ) → (moments : List Moment) → IsTimes opened moments self
            → IsTimes opened (moments ++ record { at = at; act = act.now } ∷ []) result }
    {
        Times {
            opened: self.opened,
            answered: self.answered.or(when(answers(act), at)),
            client: self.client.or(when(sends(Side::Client, act), at)),
            target: self.target.or(when(sends(Side::Target, act), at)),
            moved: moved_since(self.moved, at, act),
            silence: self.silence.max(at.saturating_sub(self.moved)),
        }
    }
}

fn moved_since(since: u64, at: u64, act: &Act) -> u64
    ensures { result ≡ (if act_moves act.now then at else since) }
{
    if moves(act) { at } else { since }
}

fn when(so: bool, at: u64) -> Option<u64>
    ensures { result ≡ (if so then Some at else None) }
{
    so.then_some(at)
}

fn is_done(answer: Answer) -> bool
    ensures { result ≡ is_done answer }
{
    match answer {
        Answer::Moved(_) | Answer::End | Answer::Joined | Answer::Shut => true,
        Answer::Blocked | Answer::Interrupted | Answer::Failed(_) => false,
    }
}

fn moves(act: &Act) -> bool
    ensures { result ≡ act_moves act.now }
{
    match *act {
        Act::Wire(
            _,
            Made::Read(_, answer)
            | Made::Write(_, answer)
            | Made::Join(answer)
            | Made::Shut(answer),
        ) => is_done(answer),
        _ => false,
    }
}

fn answers(act: &Act) -> bool
    ensures { result ≡ answers act.now }
{
    match *act {
        Act::Poller(_, Polling::Reported(Name::End(token))) => same(Side::Target, token.side()),
        Act::Wire(token, _) if same(Side::Target, token.side()) => moves(act),
        _ => false,
    }
}

fn sends(side: Side, act: &Act) -> bool
    ensures { result ≡ sends side act.now }
{
    read_at(side, act) > 0
}
