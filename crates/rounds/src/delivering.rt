//! The reports of one poll become notes at their slots.
ghost use Rattle.std.specs.{Prelude.{◌≡◌, ◌-◌, ◌<◌, ◌≤◌, ◌↔◌, [], length, IsTrue, IfOk, IfSome, MatchResult, Contains}, List.cons_option};
ghost use Rattle.claims.specs.Seats.{HoldsNothing};
ghost use Rattle.shared.specs.{Hands.ticket_room, Posts.{IsWorn, OnlyWorn}};
ghost use Rattle.rounds.specs.Acts.{all_reported, connection_reported, ArePosted, PostsMade};

use claims::{ClaimSeat, Claims, Posted};
use queues::Ticket;
use shared::{Acts, Hand};
use sizes::{LISTENER, ServerFault};
use token::{Name, unpack};

/// Posts a note for each report of a batch, and adds a ticket to the hand for each post that answers Wake. Returns
/// whether the listener was reported. The posts are made by `acts`; the server's is `()`.
///
/// The batch has the numbers of the tokens that were reported, in order (epoll_wait(2)). The table has each slot's
/// generation. A number that names no end, such as the waker's, leaves no note. Neither does an end whose slot the
/// table lacks or has with another generation: that end's connection was closed after the report arrived.
///
/// The only refusal is `Worn`, exactly if the seat has posted 2^56 times then. Its further posts are made, but leave no
/// note: the last reports may not be delivered.
pub fn deliver<A: Acts>(
    acts: &mut A,
    claims: &Claims,
    seat: &mut ClaimSeat,
    table: &[u64],
    batch: &[u64],
    hand: &mut Hand,
) -> Result<bool, ServerFault>
    requires same { seat.old.table ≡ claims.now }
    requires idle { HoldsNothing seat.old }
    requires sized { length table.now ≡ claims.now.words }
    requires room { length batch.now ≤ ticket_room hand.old }
    ensures made { PostsMade A.made (all_reported table.now batch.now) acts.old acts.new }
    ensures delivered { ArePosted (all_reported table.now batch.now) seat.old seat.new hand.old hand.new }
    ensures listener { IfOk result (λ listener. IsTrue listener ↔ Contains batch.now 0) }
    ensures worn { MatchResult result (λ _. IsWorn seat.new → ⊥) (λ fault. OnlyWorn fault seat.new) }

    // What follows from `delivered`:
    ensures idle { HoldsNothing seat.new }
{
    for number in batch {
        post_note(acts, claims, seat, connection(table, *number), hand);
    }
    refuse_worn(seat)?;
    Ok(batch.contains(&LISTENER))
}

/// Refuses with `Worn` if the seat posts no more.
pub(crate) fn refuse_worn(seat: &ClaimSeat) -> Result<(), ServerFault>
    ensures { MatchResult result (λ _. IsWorn seat.now → ⊥) (λ fault. OnlyWorn fault seat.now) }
{
    if seat.is_worn() {
        return Err(ServerFault::Worn);
    }
    Ok(())
}

/// Posts a note at the ticket's slot, and adds the ticket to the hand if the post answers Wake. None does nothing.
#[tactic(auto, using(crate::proofs::Acts::posted_none, crate::proofs::Acts::posted_not, crate::proofs::Acts::posted_quiet, crate::proofs::Acts::posted_woke))]
pub(crate) fn post_note<A: Acts>(
    acts: &mut A,
    claims: &Claims,
    seat: &mut ClaimSeat,
    ticket: Option<Ticket>,
    hand: &mut Hand,
)
    requires same { seat.old.table ≡ claims.now }
    requires idle { HoldsNothing seat.old }
    requires inside { IfSome ticket (λ ticket. ticket.slot < claims.now.words) }
    requires room { length hand.old.tickets < hand.old.capacity }
    ensures made { PostsMade A.made (cons_option ticket []) acts.old acts.new }
    ensures posted { ArePosted (cons_option ticket []) seat.old seat.new hand.old hand.new }
{
    let Some(ticket) = ticket else {
        return;
    };
    match acts.post(claims, seat, ticket.slot) {
        Posted::Wake => hand.keep_ticket(ticket),
        Posted::Quiet | Posted::Worn => {}
    }
}

/// The connection that a report is for. None if its slot no longer has it, or the report is for no connection.
fn connection(table: &[u64], number: u64) -> Option<Ticket>
    ensures value { result ≡ connection_reported table.now number }
    ensures inside { IfSome result (λ ticket. ticket.slot < length table.now) }
{
    let Name::End(end) = unpack(number)? else {
        return None;
    };
    let slot = end.slot();
    let generation = *table.get(slot)?;
    if generation == end.generation() {
        Some(Ticket { slot, generation })
    } else {
        None
    }
}
