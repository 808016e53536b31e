//! Opens an accepted connection: names its ends, reaches its target, and makes its berth.
ghost use Rattle.std.specs.Prelude.{◌≡◌, ◌+◌, ◌<◌, ◌≤◌, [], ◌∷◌, ◌++◌, drop, length, Ok, Some, ◌⊎◌, IfOk, IfErr, MatchResult, OnOk, OnErr, OnSome, IfSome, IsNone, ℕ, List, slice_get, slice_index};
ghost use Rattle.claims.specs.Seats.{Adds};
ghost use Rattle.relay_core.specs.Pairs.{fresh};
ghost use Rattle.rounds.specs.{Acts.SeatAct, Openings.{lacks, lead_of, next_in, Between, Connected, DropLogged, DropsFor, Fate, FateKept, FateMade, FateTold, IsFresh, IsNext, IsSpent, LeadGiven, Naming, NotFree, RegisteredFirst, TriesMade, Wires, of_end}, Pollers.AreGenerations};
ghost use Rattle.shared.specs.{Posts.IsWorn, Hands.ticket_room};
ghost use Rattle.token.specs.Names.{last_generation};
ghost use Rattle.claims.specs.declared.view.Exchange.TheVariants as exchange;
ghost use Rattle.token.specs.declared.side.Side.TheVariants as side;

use crate::dropping::Dropped;
use crate::placing::place;
use crate::poller::{Poller, Uncounted};
use log::Log;
use queues::Ticket;
use relay_core::{Pair, proxy_line};
use relay_log::{Gone, Known, Logs, Why, log_gone, logs_gone};
use shared::{Berth, Counting, Front, Hand, Moves, Opened, Own, Route, Settle, Shared};
use sizes::{Cause, ClientsAt};
use std::alloc::{AllocError, Global};
use std::net::SocketAddr;
use std::sync::Wait;
use token::{Side, Token, next_gen};

/// What a poller's connections are opened with.
#[derive(Clone, Copy)]
pub struct Opening {
    /// The bytes of a ring, 1 to 65,536.
    pub ring: usize,
    /// Whether a target is first sent a line with its client's addresses (PROXY protocol, version 1).
    pub proxy: bool,
}

#[derive(Clone, Copy)]
struct Names {
    client: Token,
    target: Token,
    ghost first: { client.side ≡ side.Client },
    ghost other: { target ≡ record client { side = side.Target } },
}

impl Names {
    fn ticket(&self) -> Ticket
        ensures { result ≡ of_end self.now.client }
    {
        Ticket {
            slot: self.client.slot(),
            generation: self.client.generation(),
        }
    }
}

/// Opens an accepted connection in the oldest free slot in hand. The connection gets the slot's next generation, one
/// note and one ticket, and is logged. If the opening fails, the connection is closed, the drop is logged or counted,
/// and the slot is in hand again.
///
/// If the slot is another poller's, outside the table, at its last generation or not free, the slot is no longer used,
/// and the connection is closed. No run comes to that.
///
/// An opening makes its acts in this order: it registers both sockets, adopts the slot, writes the new generation into
/// the table, discards the last connection's notes, puts the connection into its place, posts the note, and releases
/// the slot.
///
/// A seat that has posted 2^56 times posts no note, so its opening may leave no ticket.
pub fn open<F: Front + Counting, A: Moves<F>, R: Wait + Logs>(
    rt: &R,
    alloc: Global,
    acts: &mut A,
    shared: &Shared<F, A>,
    own: &mut Own,
    poller: &mut Poller<F>,
    client: F::Client,
    uncounted: Uncounted,
)
    requires between { Between shared.now.claims own.old poller.old }
    requires room { 1 ≤ ticket_room own.old.hand }
    requires slot { 1 ≤ length own.old.hand.slots }
    requires accepted { F.accepted client }
    ensures between { Between shared.now.claims own.new poller.new }
    ensures counted { IfSome (slice_get own.old.hand.slots 0) (λ slot. (fate : Fate) × FateKept fate slot poller.old poller.new
        × FateTold (R.logged rt.now) F.counted F.lacked fate (next_in poller.old slot)
        × FateMade A.moved A.named A.registered A.made F.may_tell poller.old.opening poller.old.second
        fate client (next_in poller.old slot) acts.old acts.new
        × (fate ≡ NotFree → Adds slot (exchange.NotFree ∷ []) own.old.seat own.new.seat)) }
    ensures done { IsWorn own.old.seat ⊎ ((tries : List SeatAct)
        × TriesMade A.moved A.named A.registered A.made F.accepted F.may_tell poller.old acts.old acts.new tries
        × Connected tries poller.old poller.new own.old own.new × (length tries ≤ 1)) }
    ensures ready { own.new.ready ≡ own.old.ready }
{
    let Some(names) = next_names(&mut own.hand, poller) else {
        poller.count_lost(uncounted);
        return;
    };
    let ticket = names.ticket();
    let clients = shared.clients;
    let hand = &mut own.hand;
    match prepare(rt, alloc, acts, clients, hand, poller, client, names) {
        Ok(berth) => place(rt, acts, shared, own, poller, ticket, berth, uncounted),
        Err(dropped) => uncounted.count_dropped(shared, ticket.slot, dropped),
    }
}

/// Takes the oldest free slot in hand, and names the ends of its next connection. None if it can have none: it is
/// another poller's, the table or the names lack it, or its generation is the last.
fn next_names<F: Front>(hand: &mut Hand, poller: &Poller<F>) -> Option<Names>
    requires { 1 ≤ length hand.old.slots }
    ensures left { hand.new ≡ record hand.old { slots = drop 1 hand.old.slots } }
    ensures room { length hand.new.slots < hand.new.capacity }
    ensures first { IfSome result (λ names. slice_get hand.old.slots 0 ≡ Some names.client.slot) }
    ensures next { IfSome result (λ names. IsNext poller.now (of_end names.client)) }
    ensures none { IsNone result → (slot : ℕ) × (slice_get hand.old.slots 0 ≡ Some slot) × IsSpent poller.now slot }
{
    let slot = hand.take_slot()?;
    if !poller.part.has(slot) {
        return None;
    }
    names_at(poller.table(), slot)
}

/// Starts the connection to the target, and makes the berth. If that fails, both sockets are closed, the log may name
/// the client, the drop is logged or counted, the front hears of a lack of memory, and the slot is in hand again.
fn prepare<F: Front, A: Moves<F>, N: Log>(
    rt: &N,
    alloc: Global,
    acts: &mut A,
    clients: ClientsAt,
    hand: &mut Hand,
    poller: &mut Poller<F>,
    mut client: F::Client,
    names: Names,
) -> Result<Box<Berth<F::Client, F::Target>>, Dropped>
    requires { length hand.old.slots < hand.old.capacity }
    ensures acts { RegisteredFirst (Naming A.named (Wires (A.registered client)) A.made) (of_end names.client) result acts.old acts.new }
    ensures wires { IfOk result (λ berth. A.registered client berth.value.client berth.value.target acts.new) }
    ensures fresh { IfOk result (λ berth. IsFresh (F.may_tell client) poller.old.opening poller.old.second
        (of_end names.client) berth.value) }
    ensures dialled { IfOk result (λ berth. F.dialled poller.old.seen.target berth.value.target) }
    ensures prepared { OnOk result (hand.new ≡ hand.old) }
    ensures cause { IfErr result (λ dropped. DropsFor (F.may_refuse client) (F.may_tell client) poller.old.opening.proxy dropped) }
    ensures lacked { IfErr result (λ dropped. dropped ≡ Cause.Memory → F.lacked) }
    ensures failed { OnErr result (hand.new ≡ record hand.old { slots = hand.old.slots ++ names.client.slot ∷ [] }) }
    ensures same { OnOk result (poller.new ≡ poller.old) }
    ensures logged { IfErr result (λ dropped. DropLogged dropped poller.old poller.new) }
{
    let (slot, second, opening) = (names.client.slot(), poller.second, poller.opening);
    let front = &mut poller.front;
    let reached = reach(rt, alloc, acts, front, opening, second, &mut client, names);
    let (from, error) = (F::peer(&client), client.error());
    match berth_of(alloc, reached, second, client) {
        Ok(berth) => Ok(berth),
        Err(cause) => {
            log_unopened(rt, clients, from, error, cause);
            hand.keep_slot(slot);
            Err(poller.log_dropped(rt, cause))
        }
    }
}

/// The berth of a connection since this second, if its target was reached and there is memory.
fn berth_of<C: Drop, T: Drop>(
    alloc: Global,
    reached: Result<(Pair, T), Cause>,
    second: u64,
    client: C,
) -> Result<Box<Berth<C, T>>, Cause>
    ensures berth { IfOk result (λ berth. (reached ≡ Ok (berth.value.pair, berth.value.target)) × (berth.value.second ≡ second)) }
    ensures client { IfOk result (λ berth. berth.value.client ≡ client) }
    ensures refused { IfErr result (λ cause. MatchResult reached (λ _. cause ≡ Cause.Memory) (λ why. cause ≡ why)) }
{
    let (pair, target) = reached?;
    let berth = Berth {
        pair,
        second,
        client,
        target,
    };
    Ok(moved_to_heap(alloc, berth)?)
}

fn moved_to_heap<T: Drop>(alloc: Global, value: T) -> Result<Box<T>, AllocError>
    ensures { IfOk result (λ boxed. boxed.value ≡ value) }
{
    Ok(Box::new(alloc, value)?)
}

/// The names of the ends of a slot's next connection. None if the table or the names lack the slot, or its generation
/// is the last.
fn names_at(table: &[u64], slot: usize) -> Option<Names>
    requires { AreGenerations table.now }
    ensures client { IfSome result (λ names. names.client
        ≡ record { slot = slot; side = Side.Client; generation = slice_index table.now slot + 1 }) }
    ensures inside { OnSome result (slot < length table.now) }
    ensures none { IsNone result → slot ≤ 32767 → slot < length table.now → slice_index table.now slot ≡ last_generation }
{
    let generation = next_gen(*table.get(slot)?)?;
    let client = Token::pack(slot, Side::Client, generation).ok()?;
    let target = Token::pack(slot, Side::Target, generation).ok()?;
    Some(Names { client, target })
}

/// Starts the connection to the target, registers both sockets, and makes the pair at the second of the round. A
/// refusal closes the target's socket.
#[tactic(auto, using(crate::proofs::Rounds::refused_drops, crate::proofs::Rounds::lacking_drops, crate::proofs::Rounds::memory_drops))]
fn reach<F: Front, A: Moves<F>, N: Log>(
    rt: &N,
    alloc: Global,
    acts: &mut A,
    front: &mut F,
    opening: Opening,
    second: u64,
    client: &mut F::Client,
    names: Names,
) -> Result<(Pair, F::Target), Cause>
    requires ring { (1 ≤ opening.ring) × (opening.ring ≤ 65536) }
    ensures acts { RegisteredFirst (Naming A.named (Wires (A.registered client.old)) A.made) (of_end names.client) result
        acts.old acts.new }
    ensures wires { IfOk result (λ made. A.registered client.old client.new made.1 acts.new) }
    ensures pair { IfOk result (λ made. made.0 ≡ fresh names.client.slot names.client.generation opening.ring second made.0.up.lead) }
    ensures lead { IfOk result (λ made. LeadGiven (F.may_tell client.old) opening.proxy (Some made.0.up.lead)) }
    ensures dialled { IfOk result (λ made. F.dialled (F.seen front.old).target made.1) }
    ensures cause { IfErr result (λ cause. DropsFor (F.may_refuse client.old) (F.may_tell client.old) opening.proxy cause) }
    ensures seen { F.seen front.new ≡ F.seen front.old }
{
    let Opened { target, route } = acts.register(rt, front, client, names.client, names.target)?;
    let lead = lead(alloc, opening.proxy, &route)?;
    let Ticket { slot, generation } = names.ticket();
    let ring = opening.ring;
    let pair = Pair::new(alloc, slot, generation, ring, second, lead.as_slice())?;
    Ok((pair, target))
}

/// What the target is sent first: with `proxy` the line with both addresses, else nothing, which takes no memory.
fn lead(alloc: Global, proxy: bool, route: &Route) -> Result<Vec<u8>, Cause>
    ensures lead { IfOk result (λ lead. lead_of proxy route.now ≡ Some lead.items) }
    ensures short { IfOk result (λ lead. length lead.items ≤ 107) }
    ensures refused { IfErr result (λ cause. cause ≡ lacks (lead_of proxy route.now)) }
{
    if !proxy {
        return Ok(Vec::new(alloc));
    }
    match (route.client, route.accepted) {
        (Some(client), Some(accepted)) => {
            let (source, dest) = (client.ip().octets(), accepted.ip().octets());
            Ok(proxy_line(alloc, source, client.port(), dest, accepted.port())?)
        }
        _ => Err(Cause::Address),
    }
}

/// Logs whose connection could not be opened, and why.
fn log_unopened<N: Log>(
    rt: &N,
    clients: ClientsAt,
    from: Option<SocketAddr>,
    error: Option<i32>,
    cause: Cause,
) {
    if logs_gone(rt, clients) {
        let gone = Gone {
            opened: None,
            from: &Known(from),
            connected: Some(false),
            up: 0,
            down: 0,
            seconds: 0,
            cause: &Why {
                error,
                word: cause.name(),
            },
        };
        log_gone(rt, clients, gone);
    }
}
