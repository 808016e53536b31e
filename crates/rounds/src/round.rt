//! A round of the poller.
ghost use Rattle.std.specs.{Prelude.{◌≡◌, ◌⊎◌, ◌+◌, ◌-◌, ◌<◌, ◌≤◌, ◌↔◌, List, [], length, Err, IsOk, IfErr, IsSome, IsTrue, MatchResult, OnErr, OnOk, Contains, true, false}, IoError.error_kind, declared.io.ErrorKind.TheVariants.Interrupted};
ghost use Rattle.rounds.specs.{Acts.{SeatAct, all_reported}, Episodes.{episodes_after, flag_after, starved_after}, Openings.{Between, Connected, OnlyTook, TriesMade}, Pollers.{HasOpenedAll, max_accepts, spare_room}, Rounds.{AcceptEnded, AllPosted, LacksRoom, IsFull, IsOver, ListensNoMore, ListensToOpen, Looked, LooksForAll, MayAccept, NoSlotInHand, NoneToAccept, NoRound, OnlyAnswered, OnlyListens, RoundEnded, RoundInOrder, RoundKeeps, RoundRefused, WaitedAsMay, WaitsAsMay}};
ghost use Rattle.shared.specs.{Hands.{HasRoom, ticket_room}, Posts.IsWorn, Told.{unaccepted_of, Waited}};

use crate::delivering::{deliver, refuse_worn};
use crate::opening::open;
use crate::poller::Poller;
use crate::sweeping::{is_due, keep_time};
use claims::Claims;
use log::{Log, error};
use queues::Empty;
use relay_log::log_all_taken;
use shared::{
    Acts, Clock, Counting, Front, Hand, Moves, Own, Shared, Timing, Unaccepted, Waiting,
    unaccepted_of,
};
use sizes::{LISTENER, MAX_ACCEPTS, MAX_BATCH, ServerFault};
use std::alloc::Global;
use std::io;
use std::sync::Wait;

/// A round begins only if the poller's hand has room for a ticket of each slot, in case of a sweep, and for this many
/// more tickets: those of the round's reports and openings.
const SPARE_ROOM: usize = 512;

/// One round of the poller.
///
/// If the hand has no room for a ticket of each slot of the relay and 512 more, the round does not begin: the answer is
/// Ok, and only the batch is emptied. So tickets have to leave the hand between rounds. Else the tickets in hand stay
/// there, before those of the round. The round asks once for reports and delivers them ([`deliver`]). It waits for
/// reports only if no sweep is due and no ticket is in hand: for as long as its front waits, if no client can be
/// accepted (the accept flag is down, neither hand nor queue has a free slot, or all are opened) or accept(2) was
/// starved; else for a millisecond at most, if the last round left a client to others. A sweep is due if, at the second
/// that the last round read, an idle limit had passed since the last sweep, or since the poller began: the round then
/// posts a note at each slot in which the poller ever opened a connection, in rising order. Then it reads its second.
/// While a client may be waiting and a slot is free, it accepts and opens connections, with at most 4 calls of
/// accept(2), until its front leaves a client to others.
///
/// Once the poller has opened all that it may, its front no longer listens: from the start of a round, if that was so
/// then, or else from the round's end. At that end it takes its free slots in hand, and is over ([`Poller::is_over`])
/// if each of its slots is in hand or no longer used.
///
/// An opened connection has the slot's next generation, one note, one ticket and no heavy marks, and is logged. If an
/// opening fails, the connection is closed, the drop is logged or counted, and the slot is in hand again; or its slot
/// is no longer used, and the connection is closed without a line (no run comes to that). At its end the round logs the
/// counted drops of each cause that had no line at its second; an opening logs them at once. A failed poll is logged,
/// and what accept(2) lacks, once between openings. If the listener was reported and no slot is free, the last poller
/// to find that logs it.
///
/// Refusals: `Poll` if the wait for reports failed; the round then at most took free slots in hand and stopped
/// listening. `Worn` exactly if the seat has posted 2^56 times at the end of any other round that began: a worn seat
/// posts no more, and opens nothing. Even so it holds no slot. The acts are made by `acts`; the server's is `()`.
pub fn poller_round<F: Front, A: Moves<F>, C: Clock, R: Wait + Log>(
    rt: &R,
    alloc: Global,
    acts: &mut A,
    shared: &Shared<F, A>,
    own: &mut Own,
    poller: &mut Poller<F>,
    timing: &Timing<'_, C>,
) -> Result<(), ServerFault>
    requires between { Between shared.now.claims own.old poller.old }
    ensures made { RoundInOrder A.moved A.named A.registered A.made F.accepted F.may_tell poller.old poller.new
        own.old own.new acts.old acts.new }
    ensures keeps { RoundKeeps timing.now.limit poller.old poller.new own.old own.new }
    ensures waits { LacksRoom shared.now.claims.words own.old ⊎ WaitedAsMay timing.now.limit poller.old poller.new own.old own.new }
    ensures ended { LacksRoom shared.now.claims.words own.old ⊎ ((result ≡ Err ServerFault.Poll)
        ⊎ (((result ≡ Err ServerFault.Worn) ↔ IsWorn own.new.seat)
        × RoundEnded (C.tells timing.now.clock.now) F.gave_none timing.now.limit poller.old poller.new own.new)) }
    ensures early { LacksRoom shared.now.claims.words own.old → IsOk result × NoRound poller.old poller.new own.old own.new }
    ensures refused { IfErr result (λ fault. RoundRefused fault poller.old poller.new own.old own.new) }
    ensures none { LacksRoom shared.now.claims.words own.old ⊎ (result ≡ Err ServerFault.Poll) → acts.new ≡ acts.old }

    // What follows from `made`, so that the next round may begin:
    ensures between { Between shared.now.claims own.new poller.new }
{
    if !has_room(&shared.claims, &own.hand) {
        poller.clear_batch();
        return Ok(());
    }
    if !look(rt, own, poller, timing.limit) {
        return Err(ServerFault::Poll);
    }
    let listener = deliver_batch(acts, shared, own, poller);
    poller.raise_accept_flag(listener);
    keep_time(acts, shared, own, poller, timing);
    accept(rt, alloc, acts, shared, own, poller);
    poller.log_counted(rt);
    take_back(rt, own, poller);
    refuse_worn(&own.seat)
}

/// Whether the hand has room for a ticket of each slot and 512 more.
fn has_room(claims: &Claims, hand: &Hand) -> bool
    ensures early { result ≡ false → ticket_room hand.now < spare_room + claims.now.words }
    ensures room { result ≡ true → spare_room + claims.now.words ≤ ticket_room hand.now }
{
    let slots = claims.slots();
    let room = hand.room();
    room >= SPARE_ROOM && room - SPARE_ROOM >= slots
}

/// Asks for reports, and waits for them if it may. Before, a poller that has opened all that it may stops listening.
/// Returns false if the wait failed.
fn look<F: Front, R: Wait + Log>(rt: &R, own: &mut Own, poller: &mut Poller<F>, limit: u64) -> bool
    requires room { 1 ≤ ticket_room own.old.hand }
    ensures took { OnlyTook own.old own.new }
    ensures poller { Looked poller.old poller.new }
    ensures waits { WaitedAsMay limit poller.old poller.new own.old own.new }
    ensures listens { ListensNoMore poller.old poller.new }
    ensures longest { poller.new.seen.longest ≡ poller.old.seen.longest }
    ensures batch { poller.new.batch ≡ poller.new.seen.reported }
    ensures failed { result ≡ false → (poller.new.seen.failed ≡ true) × (poller.new.batch ≡ []) }
    ensures few { length poller.new.batch ≤ MAX_BATCH }
{
    listen_to_open(poller);
    let wait = may_wait(rt, own, poller, limit);
    poll(rt, own, poller, limit, wait)
}

/// Has the front stop listening if the poller has opened all that it may.
fn listen_to_open<F: Front>(poller: &mut Poller<F>)
    ensures poller { OnlyListens poller.old poller.new }
    ensures listens { ListensNoMore poller.old poller.new }
    ensures closed { ListensToOpen poller.new }
{
    if poller.has_opened_all() {
        poller.front.stop_listening();
    }
}

fn may_wait<F: Front, R: Wait>(rt: &R, own: &mut Own, poller: &Poller<F>, limit: u64) -> Waiting
    requires room { 1 ≤ ticket_room own.old.hand }
    ensures took { OnlyTook own.old own.new }
    ensures reason { WaitsAsMay result limit poller.now own.new }
    ensures still { result ≡ Waiting.Long → own.new ≡ own.old }
{
    if is_due(poller, limit) || own.hand.tickets() > 0 {
        return Waiting::No;
    }
    if poller.starved {
        return Waiting::Long;
    }
    match may_accept(rt, own, poller) {
        Err(_) => Waiting::Long,
        Ok(()) if poller.left => Waiting::Brief,
        Ok(()) => Waiting::No,
    }
}

/// Asks for reports, with no longer wait than the limit and what the thread has in hand allow. After a signal the
/// batch is empty. Returns false if the wait failed.
fn poll<F: Front, R: Log>(
    rt: &R,
    _own: &Own,
    poller: &mut Poller<F>,
    _limit: u64,
    wait: Waiting,
) -> bool
    requires wait { WaitsAsMay wait _limit poller.old _own.now }
    requires closed { ListensToOpen poller.old }
    ensures same { Looked poller.old poller.new }
    ensures waited { Waited wait poller.old.seen poller.new.seen }
    ensures batch { poller.new.batch ≡ poller.new.seen.reported }
    ensures failed { result ≡ false → (poller.new.seen.failed ≡ true) × (poller.new.batch ≡ []) }
    ensures few { length poller.new.batch ≤ MAX_BATCH }
{
    let answer = poller.front.poll(&mut poller.batch, wait);
    polled(rt, answer)
}

/// Whether the wait for reports did not fail. A signal that ends a wait is no fault.
fn polled<R: Log>(rt: &R, answer: io::Result<()>) -> bool
    ensures { IsTrue result ↔ MatchResult answer (λ _. Unit {0}) (λ error. error_kind error ≡ Interrupted) }
{
    match answer {
        Ok(()) => true,
        Err(error) if error.kind() == io::ErrorKind::Interrupted => true,
        Err(error) => {
            log_failure(rt, "poll", &error);
            false
        }
    }
}

/// Delivers the reports of the batch. Returns whether the listener was reported, also if the seat is worn: its round
/// goes on, and is refused at its end. No note goes to another poller's slot: the table has no connection there.
fn deliver_batch<F: Front, A: Acts>(
    acts: &mut A,
    shared: &Shared<F, A>,
    own: &mut Own,
    poller: &Poller<F>,
) -> bool
    requires between { Between shared.now.claims own.old poller.now }
    requires room { length poller.now.batch ≤ ticket_room own.old.hand }
    ensures between { Between shared.now.claims own.new poller.now }
    ensures posts { AllPosted A.made poller.now.part (all_reported poller.now.table poller.now.batch)
        own.old own.new acts.old acts.new }
    ensures listener { IsTrue result ↔ Contains poller.now.batch 0 }
{
    let (table, batch) = (poller.table(), poller.batch());
    let hand = &mut own.hand;
    match deliver(acts, &shared.claims, &mut own.seat, table, batch, hand) {
        Ok(listener) => listener,
        Err(_) => batch.contains(&LISTENER),
    }
}

/// If a client waits for a slot, the poller is full from now on, until accept(2) answers that nobody waits. If all
/// pollers are full now, that is logged.
fn log_if_full<F: Front, A, R: Wait + Log>(
    rt: &R,
    shared: &Shared<F, A>,
    own: &mut Own,
    poller: &mut Poller<F>,
)
    requires room { 1 ≤ ticket_room own.old.hand }
    ensures took { OnlyTook own.old own.new }
    ensures poller { poller.new ≡ record poller.old { episodes = record poller.old.episodes { full = poller.new.episodes.full } } }
    ensures full { poller.new.episodes.full ≡ true → (poller.old.episodes.full ≡ true) ⊎ IsFull poller.new own.new }
    ensures kept { poller.old.episodes.full ≡ true → poller.new.episodes.full ≡ true }
    ensures found { IsFull poller.new own.new → poller.new.episodes.full ≡ true }
{
    if poller.episodes.full {
        return;
    }
    let Some(_none) = is_full(rt, own, poller) else {
        return;
    };
    poller.episodes.full = true;
    if shared.full.enter() {
        log_all_taken(rt, shared.claims.slots());
    }
}

/// Whether a client waits for a slot. Some: the queue was empty.
fn is_full<F: Front, R: Wait>(rt: &R, own: &mut Own, poller: &Poller<F>) -> Option<Empty<usize>>
    requires room { 1 ≤ ticket_room own.old.hand }
    ensures took { OnlyTook own.old own.new }
    ensures full { IsSome result ↔ IsFull poller.now own.new }
{
    if !poller.batch().contains(&LISTENER) || poller.has_opened_all() {
        return None;
    }
    has_slot(rt, own).err()
}

/// Accepts and opens connections while a client may be waiting and a slot is free. First it looks whether the poller is
/// full.
fn accept<F: Front, A: Moves<F>, R: Wait + Log>(
    rt: &R,
    alloc: Global,
    acts: &mut A,
    shared: &Shared<F, A>,
    own: &mut Own,
    poller: &mut Poller<F>,
)
    requires between { Between shared.now.claims own.old poller.old }
    requires room { max_accepts ≤ ticket_room own.old.hand }
    ensures between { Between shared.now.claims own.new poller.new }
    ensures done { (tries : List SeatAct)
        × TriesMade A.moved A.named A.registered A.made F.accepted F.may_tell poller.old acts.old acts.new tries
        × Connected tries poller.old poller.new own.old own.new }
    ensures ended { AcceptEnded poller.new own.new }
    ensures answered { OnlyAnswered F.gave_none poller.old poller.new }
    ensures still { IsWorn own.old.seat → own.new.seat ≡ own.old.seat }
{
    log_if_full(rt, shared, own, poller);
    poller.reset_tries();
    for _try in 0..MAX_ACCEPTS {
        if may_accept(rt, own, poller).is_err() {
            return;
        }
        if !accept_next(rt, alloc, acts, shared, own, poller) {
            return;
        }
    }
}

/// Refuses if no connection can be accepted now: with what shows that the queue was empty, if only a slot is missing.
fn may_accept<F: Front, R: Wait>(
    rt: &R,
    own: &mut Own,
    poller: &Poller<F>,
) -> Result<(), Option<Empty<usize>>>
    requires room { 1 ≤ ticket_room own.old.hand }
    ensures took { OnlyTook own.old own.new }
    ensures ended { OnErr result (NoneToAccept poller.now own.new) }
    ensures slot { IfErr result (λ none. IsSome none ↔ ((poller.now.accepting ≡ true) × (HasOpenedAll poller.now → ⊥))) }
    ensures still { OnErr result (own.new ≡ own.old) }
    ensures may { OnOk result (MayAccept poller.now own.new) }
{
    if !poller.accepting || poller.has_opened_all() {
        return Err(None);
    }
    has_slot(rt, own).map_err(Some)
}

/// Accepts and opens one connection, unless the client is better left to another poller, or the seat is worn. Returns
/// whether another try is worth making: not then, nor if accept(2) was starved.
fn accept_next<F: Front, A: Moves<F>, R: Wait + Log>(
    rt: &R,
    alloc: Global,
    acts: &mut A,
    shared: &Shared<F, A>,
    own: &mut Own,
    poller: &mut Poller<F>,
) -> bool
    requires between { Between shared.now.claims own.old poller.old }
    requires room { 1 ≤ ticket_room own.old.hand }
    requires may { MayAccept poller.old own.old }
    ensures between { Between shared.now.claims own.new poller.new }
    ensures done { (tries : List SeatAct)
        × TriesMade A.moved A.named A.registered A.made F.accepted F.may_tell poller.old acts.old acts.new tries
        × Connected tries poller.old poller.new own.old own.new × (length tries ≤ 1) }
    ensures still { IsWorn own.old.seat → own.new.seat ≡ own.old.seat }
    ensures tries { result ≡ true → poller.new.tries ≡ poller.old.tries - 1 }
    ensures ended { result ≡ false → AcceptEnded poller.new own.new }
    ensures answered { OnlyAnswered F.gave_none poller.old poller.new }
{
    if own.seat.is_worn() {
        return false;
    }
    if poller.leaves() {
        return false;
    }
    match poller.accept() {
        Ok((client, uncounted)) => {
            open(rt, alloc, acts, shared, own, poller, client, uncounted);
            true
        }
        Err(error) => not_accepted(rt, shared, poller, &error),
    }
}

/// Whether a free slot is in hand. If none is, it tries to take one first, and refuses if the queue was empty.
fn has_slot<R: Wait>(rt: &R, own: &mut Own) -> Result<(), Empty<usize>>
    requires room { 1 ≤ ticket_room own.old.hand }
    ensures took { OnlyTook own.old own.new }
    ensures slot { OnOk result (1 ≤ length own.new.hand.slots) }
    ensures none { OnErr result (NoSlotInHand own.new × (own.new ≡ own.old)) }
{
    if own.hand.slots() > 0 {
        return Ok(());
    }
    take_one(rt, own)
}

fn take_one<R: Wait>(rt: &R, own: &mut Own) -> Result<(), Empty<usize>>
    requires room { length own.old.hand.slots < own.old.hand.capacity }
    ensures took { OnlyTook own.old own.new }
    ensures none { OnErr result (own.new ≡ own.old) }
    ensures more { OnOk result (length own.new.hand.slots ≡ length own.old.hand.slots + 1) }
{
    let slot = own.free.try_take(rt)?;
    own.hand.keep_slot(slot);
    Ok(())
}

/// Keeps what an error of accept(2) means. Returns whether another try is worth making. That accept(2) is starved is
/// logged once between openings, and noted each time.
fn not_accepted<F: Front + Counting, A, R: Log>(
    rt: &R,
    shared: &Shared<F, A>,
    poller: &mut Poller<F>,
    error: &io::Error,
) -> bool
    ensures flag { let class = unaccepted_of (error_kind error.now) in poller.new ≡ record poller.old {
      accepting = flag_after class poller.old.accepting;
      starved = starved_after class poller.old.starved;
      episodes = episodes_after class poller.old.episodes;
    } }
    ensures starved { result ≡ false → poller.new.starved ≡ true }
    ensures noted { unaccepted_of (error_kind error.now) ≡ Unaccepted.Starved → F.starved }
{
    match unaccepted_of(error.kind()) {
        Unaccepted::Again => true,
        Unaccepted::Blocked => {
            poller.accepting = false;
            poller.starved = false;
            if poller.episodes.full {
                shared.full.leave();
            }
            poller.episodes.full = false;
            true
        }
        Unaccepted::Starved => {
            poller.starved = true;
            shared.starve();
            if !poller.episodes.starved {
                log_failure(rt, "accept", error);
            }
            poller.episodes.starved = true;
            false
        }
    }
}

fn log_failure<R: Log>(rt: &R, call: &str, error: &io::Error) {
    error!(rt; target: "relayd", "{call}: {error}");
}

/// Once the poller has opened all that it may, it takes its free slots in hand, to see whether all are there: then it
/// is over. A slot that is no longer used counts as free.
fn take_back<F: Front, R: Wait>(rt: &R, own: &mut Own, poller: &mut Poller<F>)
    ensures took { OnlyTook own.old own.new }
    ensures poller { OnlyListens (record poller.old { over = poller.new.over }) poller.new }
    ensures closed { ListensToOpen poller.new }
    ensures left { ((own.new ≡ own.old) × (poller.new ≡ poller.old)) ⊎ HasOpenedAll poller.new }
    ensures over { poller.new.over ≡ true → (poller.old.over ≡ true) ⊎ IsOver poller.new own.new }
    ensures all { LooksForAll poller.new own.new }
{
    if !poller.has_opened_all() {
        return;
    }
    listen_to_open(poller);
    let slots = poller.part.slots;
    let _ = take_all(rt, own, slots);
    let free = own.hand.slots() as u64;
    poller.over = free.saturating_add(poller.lost) >= slots as u64;
}

/// Takes free slots in hand, `most` at most, until the hand is full. Refuses if the queue was empty before.
fn take_all<R: Wait>(rt: &R, own: &mut Own, most: usize) -> Result<(), Empty<usize>>
    ensures took { OnlyTook own.old own.new }
    ensures all { OnOk result ((most ≤ length own.new.hand.slots) ⊎ (HasRoom own.new.hand → ⊥)) }
{
    for _slot in 0..most {
        if !own.hand.has_room() {
            return Ok(());
        }
        take_one(rt, own)?;
    }
    Ok(())
}
