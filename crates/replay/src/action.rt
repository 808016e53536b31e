//! What a record and an event of the machine have in common.
ghost use Rattle.std.specs.Prelude.{◌≡◌, IsTrue};
ghost use Rattle.relay_core.specs.Order.{next_call};
ghost use Rattle.replay.specs.Traces.{action_in, action_of, action_of_call, action_of_release, action_of_wire, answer_of, are_both, drops_other, offered};

use kernel_model::Reply;
use record_lines::{Act, Answer, Made, Opening, Polling};
use relay_core::{Call, Pair};
use token::{MAX_GENERATION, Side, Token};
use world::{Act as Work, Event, Polling as Poll, World};

/// What both a record of a relay and an event of the machine can show. The first number is the generation of the
/// connection.
#[derive(Clone, Copy)]
pub(crate) enum Action {
    /// A connection of this generation was opened.
    Opened(u64),
    /// A turn began.
    Began,
    /// This call offered this many bytes, and got this answer.
    Called(u64, Call, usize, Answer),
    /// A turn ended, and left no call to make.
    Quiet(u64),
    /// The connection of this generation was closed.
    Closed(u64),
}

/// The action of a record, by the act before it. None if it shows none.
pub(crate) fn action_of(last: &Act, act: &Act) -> Option<Action>
    ensures { result ≡ action_of last.now act.now }
{
    match *act {
        Act::Poller(_, Polling::Open(_, generation, Opening::Opened)) => {
            Some(Action::Opened(generation))
        }
        Act::Begin(_) => Some(Action::Began),
        Act::Wire(token, made) => action_of_wire(drops_other(last, token), token, made),
        _ => None,
    }
}

fn drops_other(last: &Act, token: Token) -> bool
    ensures { result ≡ drops_other last.now token }
{
    match *last {
        Act::Wire(other, Made::Drop) => {
            other.generation() == token.generation() && are_both(other.side(), token.side())
        }
        _ => false,
    }
}

fn are_both(a: Side, b: Side) -> bool
    ensures { result ≡ are_both a b }
{
    match (a, b) {
        (Side::Client, Side::Target) | (Side::Target, Side::Client) => true,
        _ => false,
    }
}

/// The second drop of a connection closes it.
fn action_of_wire(second: bool, token: Token, made: Made) -> Option<Action>
    ensures { result ≡ action_of_wire second token made }
{
    let (generation, side) = (token.generation(), token.side());
    match made {
        Made::Read(most, answer) => {
            Some(Action::Called(generation, Call::Read(side, most), 0, answer))
        }
        Made::Write(length, answer) => {
            Some(Action::Called(generation, Call::Write(side), length, answer))
        }
        Made::Join(answer) => Some(Action::Called(generation, Call::Join(side), 0, answer)),
        Made::Shut(answer) => Some(Action::Called(generation, Call::Shut(side), 0, answer)),
        Made::Settle => Some(Action::Quiet(generation)),
        Made::Drop if second => Some(Action::Closed(generation)),
        Made::Drop => None,
    }
}

/// The action of an event that happens next in this world, if it shows one.
pub(crate) fn action_in(world: &World, event: &Event) -> Option<Action>
    ensures { result ≡ action_in world.now event.now }
{
    match event {
        Event::Poll(Poll::Open) => match world.slots().first() {
            Some(slot) if slot.generation() < MAX_GENERATION => {
                Some(Action::Opened(slot.generation() + 1))
            }
            _ => None,
        },
        Event::Work(_, act) => action_of_work(world, *act),
        _ => None,
    }
}

fn action_of_work(world: &World, act: Work) -> Option<Action>
    ensures { result ≡ action_in world.now (Event.Work 0 act) }
{
    let pair = match world.connection(0) {
        Some(connection) => Some(&connection.pair),
        None => None,
    };
    match (act, pair) {
        (Work::Claim, _) => Some(Action::Began),
        (Work::Call(reply), Some(pair)) => action_of_call(pair, reply),
        (Work::Release, Some(pair)) => action_of_release(pair),
        (Work::Close, Some(pair)) => Some(Action::Closed(pair.generation())),
        _ => None,
    }
}

fn action_of_call(pair: &Pair, reply: Reply) -> Option<Action>
    ensures { result ≡ action_of_call pair.now (next_call pair.now) reply }
{
    match pair.next() {
        Some(call) => {
            Some(Action::Called(
                pair.generation(),
                call,
                offered(pair, call),
                answer_of(reply),
            ))
        }
        None => None,
    }
}

/// A turn has ended quiet if no call is left.
fn action_of_release(pair: &Pair) -> Option<Action>
    ensures { result ≡ action_of_release pair.now }
{
    if pair.next().is_none() {
        Some(Action::Quiet(pair.generation()))
    } else {
        None
    }
}

/// How many bytes a call offers.
pub(crate) fn offered(pair: &Pair, call: Call) -> usize
    ensures { result ≡ offered pair.now call }
{
    match call {
        Call::Write(_) => match pair.lead_len(call.direction()) {
            0 => pair.ring_len(call.direction()),
            length => length,
        },
        _ => 0,
    }
}

fn answer_of(reply: Reply) -> Answer
    ensures { result ≡ answer_of reply }
{
    match reply {
        Reply::Bytes(count) | Reply::Wrote(count, _) => Answer::Moved(count),
        Reply::End => Answer::End,
        Reply::Joined => Answer::Joined,
        Reply::Shut => Answer::Shut,
        Reply::Blocked => Answer::Blocked,
        Reply::Interrupted => Answer::Interrupted,
        Reply::Failed(kind) => Answer::Failed(kind),
    }
}

/// Whether these are the same actions.
pub(crate) fn are_same(run: &[Action], records: &[Action]) -> bool
    ensures { IsTrue result → run.now ≡ records.now }
{
    if run.len() != records.len() {
        return false;
    }
    for place in 0..run.len() {
        if !is_same(&run[place], &records[place]) {
            return false;
        }
    }
    true
}

fn is_same(a: &Action, b: &Action) -> bool
    ensures { IsTrue result → a.now ≡ b.now }
{
    match (*a, *b) {
        (Action::Opened(a), Action::Opened(b))
        | (Action::Quiet(a), Action::Quiet(b))
        | (Action::Closed(a), Action::Closed(b)) => a == b,
        (Action::Began, Action::Began) => true,
        (Action::Called(a, call, offered, answer), Action::Called(b, other, most, got)) => {
            a == b && offered == most && is_same_call(call, other) && is_same_answer(answer, got)
        }
        _ => false,
    }
}

fn is_same_call(a: Call, b: Call) -> bool
    ensures { IsTrue result → a ≡ b }
{
    a == b
}

fn is_same_answer(a: Answer, b: Answer) -> bool
    ensures { IsTrue result → a ≡ b }
{
    a == b
}
