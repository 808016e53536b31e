//! Puts an opened connection into its slot.
ghost use Rattle.std.specs.Prelude.{◌≡◌, ◌<◌, ◌≤◌, [], ◌∷◌, drop, length, None, ◌⊎◌, IfSome, ℕ};
ghost use Rattle.claims.specs.Seats.{Adds, HoldsNothing, OnlyAt};
ghost use Rattle.rounds.specs.{Openings.{Between, Connected, IsNext, IsOpened, OpeningLogged, Putting, SameQueues, Started, with_slot}, Pollers.counted_up};
ghost use Rattle.shared.specs.{Acts.{AreMade, placing}, Posts.{HoldsOnly, IsWorn}, Hands.ticket_room};
ghost use Rattle.shared.specs.Acts as act;
ghost use Rattle.rounds.specs.Acts as seat_act;
ghost use Rattle.claims.specs.declared.view.Exchange.TheVariants as exchange;

use crate::poller::{Poller, Uncounted};
use claims::{Adopted, Released};
use log::Log;
use queues::Ticket;
use relay_log::{Logs, log_open, log_peer, logs_gone};
use shared::{Berth, Counting, Front, Moves, Own, Settle, Shared};
use sizes::ClientsAt;
use std::net::SocketAddr;
use std::sync::Wait;

/// Places a connection in its slot. If the slot is not free, it closes the connection.
pub(crate) fn place<F: Front + Counting, A: Moves<F>, R: Wait + Logs>(
    rt: &R,
    acts: &mut A,
    shared: &Shared<F, A>,
    own: &mut Own,
    poller: &mut Poller<F>,
    ticket: Ticket,
    berth: Box<Berth<F::Client, F::Target>>,
    uncounted: Uncounted,
)
    requires between { Between shared.now.claims own.old poller.old }
    requires next { IsNext poller.old ticket }
    requires room { 1 ≤ ticket_room own.old.hand }
    ensures between { Between shared.now.claims own.new poller.new }
    ensures placed { (IsOpened ticket poller.old poller.new × OpeningLogged (R.logged rt.now) F.counted ticket
        × AreMade (Putting A.moved A.made berth.value) ticket.slot placing acts.old acts.new
        × (IsWorn own.old.seat ⊎ ((found : ℕ) × (noted : ℕ)
        × Connected (record { ticket = ticket; exchanges = seat_act.opening found noted } ∷ []) poller.old poller.new
        (with_slot ticket.slot own.old) own.new)))
        ⊎ ((poller.new ≡ record poller.old { lost = counted_up poller.old.lost 1 })
        × Adds ticket.slot (exchange.NotFree ∷ []) own.old.seat own.new.seat
        × AreMade A.made ticket.slot (act.Adopt ∷ []) acts.old acts.new
        × Connected (record { ticket = ticket; exchanges = exchange.NotFree ∷ [] } ∷ []) poller.old poller.new
        (with_slot ticket.slot own.old) own.new) }
    ensures ready { own.new.ready ≡ own.old.ready }
{
    log_reached::<F, R>(rt, shared.clients, ticket, &berth);
    match acts.adopt(&shared.claims, &mut own.seat, ticket.slot) {
        Adopted::NotFree => poller.count_lost(uncounted),
        Adopted::Adopted => {
            poller.count_opened(acts, shared, ticket, uncounted);
            start(rt, acts, shared, own, ticket, berth);
            poller.end_episodes(rt);
            log_open(rt, ticket.slot, ticket.generation);
        }
    }
}

/// Logs whose connection is about to be opened, if that is known.
fn log_reached<F: Front, R: Log>(
    rt: &R,
    clients: ClientsAt,
    ticket: Ticket,
    berth: &Berth<F::Client, F::Target>,
) {
    if let Some(from) = F::peer(&berth.client) {
        let via = find_via(rt, clients, &berth.target);
        log_peer(rt, clients, ticket.slot, ticket.generation, &from, &via);
    }
}

/// The relay's own address towards a target. The system is asked only if the log has all clients.
fn find_via<W: Settle>(rt: &impl Log, clients: ClientsAt, target: &W) -> Option<SocketAddr>
    ensures none { clients ≡ ClientsAt.Debug → result ≡ None }
    ensures own { IfSome result (λ via. W.is_at target.now via) }
{
    match clients {
        ClientsAt::Info if logs_gone(rt, clients) => target.local(),
        ClientsAt::Info | ClientsAt::Debug => None,
    }
}

/// Discards a held slot's notes, puts its connection into place, posts the note that starts it, and releases the slot.
/// If that answers Wake, the ticket is in hand.
fn start<F: Front, A: Moves<F>, R: Wait>(
    rt: &R,
    acts: &mut A,
    shared: &Shared<F, A>,
    own: &mut Own,
    ticket: Ticket,
    berth: Box<Berth<F::Client, F::Target>>,
)
    requires same { own.old.seat.table ≡ shared.now.claims }
    requires inside { ticket.slot < shared.now.claims.words }
    requires holder { HoldsOnly ticket.slot own.old.seat }
    requires room { length own.old.hand.tickets < own.old.hand.capacity }
    ensures made { AreMade (Putting A.moved A.made berth.value) ticket.slot (drop 2 placing) acts.old acts.new }
    ensures idle { HoldsNothing own.new.seat }
    ensures only { OnlyAt ticket.slot own.old.seat own.new.seat }
    ensures started { IsWorn own.old.seat ⊎ Started ticket own.old own.new }
    ensures slots { own.new.hand.slots ≡ own.old.hand.slots }
    ensures queues { SameQueues own.old own.new }
{
    acts.discard(&shared.claims, &mut own.seat, ticket.slot);
    // A place that is not empty keeps what it has, and the connection is closed. That happens in no run.
    let _ = acts.put_in(rt, &shared.places, &own.seat, ticket.slot, berth);
    // A holder's own post never answers Wake: its release does. A worn seat's changes nothing.
    let _ = acts.post(&shared.claims, &mut own.seat, ticket.slot);
    match acts.release(&shared.claims, &mut own.seat, ticket.slot) {
        Released::Wake => own.hand.keep_ticket(ticket),
        Released::Quiet => {}
    }
}
