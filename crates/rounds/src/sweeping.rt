//! A round's sweep, and its second.
ghost use Rattle.std.specs.Prelude.{◌≡◌, ◌<◌, ◌≤◌, [], if◌then◌else◌, length, IfSome};
ghost use Rattle.claims.specs.Seats.{HoldsNothing};
ghost use Rattle.rounds.specs.{Acts.{ArePosted, PostsMade, all_opened, is_due, last_in, sweep_of, swept_after}, Openings.Between, Rounds.AllPosted};
ghost use Rattle.shared.specs.Hands.{ticket_room};

use crate::delivering::post_note;
use crate::poller::Poller;
use claims::{ClaimSeat, Claims};
use queues::Ticket;
use shared::{Acts, Clock, Front, Hand, Own, Shared, Timing};

/// Makes a sweep if one is due, and reads the second of the round. A sweep goes by the second of the last round, and
/// its own round has asked for reports since then: so whatever came while the relay was stopped (SIGSTOP, a paused
/// machine) is a note before a sweep says that the limit has passed.
pub(crate) fn keep_time<F: Front, A: Acts, C: Clock>(
    acts: &mut A,
    shared: &Shared<F, A>,
    own: &mut Own,
    poller: &mut Poller<F>,
    timing: &Timing<'_, C>,
)
    requires between { Between shared.now.claims own.old poller.old }
    requires room { length poller.old.table ≤ ticket_room own.old.hand }
    ensures between { Between shared.now.claims own.new poller.new }
    ensures poller { poller.new ≡ record poller.old { second = poller.new.second; swept = poller.new.swept } }
    ensures posts { AllPosted A.made poller.old.part (sweep_of poller.old poller.new) own.old own.new acts.old acts.new }
    ensures told { C.tells timing.now.clock.now poller.new.second }
    ensures swept { poller.new.swept ≡ swept_after timing.now.limit poller.old.second poller.old.swept }
{
    let due = is_due(poller, timing.limit);
    let seat = &mut own.seat;
    let hand = &mut own.hand;
    sweep(acts, &shared.claims, seat, poller.table(), due, hand);
    poller.set_second(due, timing.moment().second);
}

/// Whether a sweep is due: by the second of the last round the limit had passed since the last sweep. Never if it is 0.
pub(crate) fn is_due<F: Front>(poller: &Poller<F>, limit: u64) -> bool
    ensures { result ≡ is_due limit poller.now }
{
    let (second, last) = (poller.second, poller.swept);
    limit > 0 && second >= last && second - last >= limit
}

/// Posts a note at each slot in which a connection was opened, in rising order, if a sweep is due.
fn sweep<A: Acts>(
    acts: &mut A,
    claims: &Claims,
    seat: &mut ClaimSeat,
    table: &[u64],
    due: bool,
    hand: &mut Hand,
)
    requires same { seat.old.table ≡ claims.now }
    requires idle { HoldsNothing seat.old }
    requires sized { length table.now ≡ claims.now.words }
    requires room { length table.now ≤ ticket_room hand.old }
    ensures made { PostsMade A.made (if due then all_opened table.now else []) acts.old acts.new }
    ensures posted { ArePosted (if due then all_opened table.now else []) seat.old seat.new hand.old hand.new }
{
    if !due {
        return;
    }
    for slot in 0..table.len() {
        post_note(acts, claims, seat, last_in(table, slot), hand);
    }
}

/// The last connection that was opened in a slot, if one was.
fn last_in(table: &[u64], slot: usize) -> Option<Ticket>
    requires { slot < length table.now }
    ensures opened { result ≡ last_in table.now slot }
    ensures inside { IfSome result (λ ticket. ticket.slot < length table.now) }
{
    let generation = table[slot];
    if generation == 0 {
        return None;
    }
    Some(Ticket { slot, generation })
}
