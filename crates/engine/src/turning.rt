//! A turn: steps until there is no next call or the budget is spent.
ghost use Rattle.std.specs.Prelude.{◌≡◌, ◌≤◌, None};
ghost use Rattle.relay_core.specs.{Order.next_call, Idle.expired};
ghost use Rattle.engine.specs.Turns.{outcome_of, IsServed, IsTurn};

use crate::outcome::Turn;
use crate::step::step;
use crate::wire::Wire;
use relay_core::{MAX_READ, Pair, Side, Verdict};

/// The second at which a turn is made, and the idle limit.
#[derive(Clone, Copy)]
pub struct Moment {
    /// The second of the turn.
    pub second: u64,
    /// A live connection that moved nothing for this many seconds, and has no call worth trying, fails. 0: never.
    pub limit: u64,
}

/// Makes the calls that a pair asks for, at most `budget` of them, each on the wire of its side, and gives the pair the
/// answers. It allocates no memory.
///
/// Each wire gets exactly the calls that the pair asks for on its side, in order and once each. A read asks for as many
/// bytes as the pair does, and a write offers all that the pair offers that side ([`Pair::offer`]).
///
/// All calls count as made at the second `now`. A live pair that is left without a call, and that has moved nothing for
/// `limit` seconds, fails ([`Pair::expire`]). Bytes, an end that was read or passed on, and a connect that was found
/// complete move it ([`Answer::moves`](relay_core::Answer::moves)). A limit of 0 never passes, and none does while
/// `now` is before the last move.
///
/// An error is a failure if the wire counted a fault, "would block" if it counted that, and else an interruption.
pub fn turn<A: Wire, B: Wire>(
    pair: &mut Pair,
    client: &mut A,
    target: &mut B,
    budget: usize,
    now: u64,
    limit: u64,
) -> Turn
    requires least { 1 ≤ budget }
    requires most { budget ≤ 1024 }
    ensures outcome { result ≡ outcome_of pair.new }
    ensures run { IsTurn budget now limit pair.old pair.new (IsServed A.told A.does now client.old client.new)
        (IsServed B.told B.does now target.old target.new) }
{
    let moment = Moment { second: now, limit };
    turn_with(pair, client, target, budget, moment, &mut [0; MAX_READ])
}

/// Does what [`turn`] does, at `moment.second` for `now` and with `moment.limit` for `limit`; the wires read into
/// `buffer`. It refuses nothing, since an error of a call is an answer to the pair, and closes no wire. A thread keeps
/// one array for all its turns, and need not clear it.
pub fn turn_with<A: Wire, B: Wire>(
    pair: &mut Pair,
    client: &mut A,
    target: &mut B,
    budget: usize,
    moment: Moment,
    buffer: &mut [u8; MAX_READ],
) -> Turn
    requires least { 1 ≤ budget }
    requires most { budget ≤ 1024 }
    ensures outcome { result ≡ outcome_of pair.new }
    ensures run { IsTurn budget moment.second moment.limit pair.old pair.new
        (IsServed A.told A.does moment.second client.old client.new)
        (IsServed B.told B.does moment.second target.old target.new) }
{
    for _calls in 0..budget {
        let Some(call) = pair.next() else {
            return rest(pair, moment);
        };
        match call.side() {
            Side::Client => step(pair, call, moment.second, client, buffer),
            Side::Target => step(pair, call, moment.second, target, buffer),
        }
    }
    finish(pair, moment)
}

/// The outcome once the budget is spent.
fn finish(pair: &mut Pair, moment: Moment) -> Turn
    ensures outcome { result ≡ outcome_of pair.new }
    ensures held { pair.new ≡ expired moment.second moment.limit pair.old }
{
    if pair.next().is_some() {
        return Turn::Again;
    }
    rest(pair, moment)
}

/// The outcome without a next call. A live pair fails here if the idle limit has passed.
fn rest(pair: &mut Pair, moment: Moment) -> Turn
    requires none { next_call pair.old ≡ None }
    ensures outcome { result ≡ outcome_of pair.new }
    ensures held { pair.new ≡ expired moment.second moment.limit pair.old }
{
    match pair.verdict() {
        Verdict::Done => Turn::Done,
        Verdict::Failed(_) => Turn::Failed,
        Verdict::Live if pair.expire(moment.second, moment.limit) => Turn::Failed,
        Verdict::Live => Turn::Quiet,
    }
}
