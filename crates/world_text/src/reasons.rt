//! Why an event is not allowed, by the world before it: the first reason that applies.

use kernel_model::{Accepting, End, Kernel, MAX_BACKLOG, Open, Reply};
use relay_core::{Call, Pair, Verdict};
use token::{Kind, Name, Side};
use world::{
    Act, Change, Connection, Doing, Event, Listening, Polling, Reported, Slot, Worker, World,
};

/// What is said if no other reason is known.
pub const NOT_HERE: &str = "it is not possible in this state";

const BROKEN: &str = "an error has come to the socket";

/// Why neither bytes nor the end of input can arrive at this socket.
pub fn ended_reason(end: &End) -> &'static str {
    match end {
        _ if end.has_fin() => "the end of input has come",
        _ if end.has_err() => BROKEN,
        _ => NOT_HERE,
    }
}

/// Why a socket cannot get room for writes.
pub fn room_reason(end: &End) -> &'static str {
    match end {
        _ if end.has_room() => "the socket has room",
        _ if end.has_err() => BROKEN,
        _ => NOT_HERE,
    }
}

/// Why a read of at most `most` bytes cannot give `count` bytes.
pub fn read_reason(end: &End, most: usize, count: usize) -> &'static str {
    match count {
        0 => "a read gives at least 1 byte",
        _ if end.unread().len() < count => "fewer bytes are unread",
        _ if most < count => "the read asks for fewer bytes",
        _ => NOT_HERE,
    }
}

/// Why a read cannot give the end of input.
pub fn end_reason(end: &End) -> &'static str {
    match end {
        _ if !end.unread().is_empty() => "bytes are unread",
        _ if !end.has_fin() => "the end of input has not come",
        _ => NOT_HERE,
    }
}

/// Why a write cannot take `count` bytes. The write offers the rest of the lead, or if `lead` is 0 the ring.
pub fn wrote_reason(end: &End, lead: usize, ring: usize, count: usize) -> &'static str {
    match count {
        _ if !end.has_room() => "the socket has no room",
        0 => "a write takes at least 1 byte",
        _ if 0 < lead && lead < count => "the lead has fewer bytes",
        _ if lead == 0 && ring < count => "the ring has fewer bytes",
        _ => NOT_HERE,
    }
}

const UNQUEUED: &str = "no report of it is in the queue";

const UNLIMITED: &str = "the world has no idle limit";

const UNACCEPTED: &str = "the poller has no accepted connection";

const UNFREE: &str = "no slot is free";

const WAITING: &str = "a connection waits at the listener";

const NO_SLOT: &str = "there is no such slot";

const VACANT: &str = "the slot has no connection";

const READABLE: &str = "the socket is readable";

const WRITABLE: &str = "the socket is writable";

/// Why an event is not allowed in a world, for a person. No clause says it: rows of refused scripts show it.
pub fn event_reason(world: &World, event: &Event) -> &'static str {
    match event {
        Event::Tick(seconds) => tick_reason(world, *seconds),
        Event::Network(slot, side, change) => network_reason(world, *slot, *side, change),
        Event::Spurious(Reported::End(slot, _)) => vacant_reason(world, *slot),
        Event::Spurious(_) => NOT_HERE,
        Event::Vanish(who) => vanish_reason(world, *who),
        Event::Listen(listening) => listen_reason(world, *listening),
        Event::Poll(polling) => poll_reason(world, polling),
        Event::Work(number, act) => match world.workers().get(*number) {
            Some(worker) => work_reason(world, worker, *act),
            None => "there is no such worker",
        },
    }
}

fn is_unlimited(world: &World) -> bool {
    world.limits().idle == 0
}

fn tick_reason(world: &World, seconds: u64) -> &'static str {
    match seconds {
        _ if is_unlimited(world) => UNLIMITED,
        0 => "at least 1 second passes",
        _ if 4_294_967_295 < seconds => "at most 4294967295 seconds pass at once",
        _ if u64::MAX - world.second() < seconds => "the last second is 18446744073709551615",
        _ => NOT_HERE,
    }
}

fn sweep_reason(world: &World, slot: usize) -> &'static str {
    match world.table_entry(slot) {
        _ if is_unlimited(world) => UNLIMITED,
        _ if world.slots().len() <= slot => NO_SLOT,
        Some(0) => "the slot was never opened",
        _ => NOT_HERE,
    }
}

/// Why a slot has no ends.
fn vacant_reason(world: &World, slot: usize) -> &'static str {
    match world.slots().get(slot) {
        None => NO_SLOT,
        Some(slot) if slot.connection().is_none() => VACANT,
        Some(_) => NOT_HERE,
    }
}

fn end_at(world: &World, slot: usize, side: Side) -> Option<&Open> {
    let connection = world.connection(slot)?;
    world.kernel().end(connection.descriptor(side))
}

fn network_reason(world: &World, slot: usize, side: Side, change: &Change) -> &'static str {
    let Some(open) = end_at(world, slot, side) else {
        return vacant_reason(world, slot);
    };
    match change {
        Change::Arrive(_) | Change::Fin => ended_reason(&open.socket),
        Change::Reset if open.socket.has_err() => BROKEN,
        Change::Reset => NOT_HERE,
        Change::Room => room_reason(&open.socket),
    }
}

fn vanish_reason(world: &World, who: Reported) -> &'static str {
    let kernel = world.kernel();
    match who {
        Reported::Listener if !kernel.is_queued(&Name::Listener) => UNQUEUED,
        Reported::Listener if 0 < kernel.backlog() => WAITING,
        Reported::Waker if !kernel.is_queued(&Name::Waker) => UNQUEUED,
        Reported::Listener | Reported::Waker => NOT_HERE,
        Reported::End(slot, side) => match end_at(world, slot, side) {
            Some(open) if !kernel.is_queued(&Name::End(open.token)) => UNQUEUED,
            Some(open) if open.socket.is_readable() => READABLE,
            Some(open) if open.socket.is_writable() => WRITABLE,
            Some(_) => NOT_HERE,
            None => vacant_reason(world, slot),
        },
    }
}

fn listen_reason(world: &World, listening: Listening) -> &'static str {
    let backlog = world.kernel().backlog();
    match listening {
        Listening::Connect if MAX_BACKLOG <= backlog => {
            "no more connections can wait at the listener"
        }
        Listening::Accept(_) if !world.accept_flag() => "the accept flag is down",
        Listening::Accept(_) if world.has_accepted() => "the poller has an accepted connection",
        Listening::Accept(_) if world.free_slots().is_empty() => UNFREE,
        Listening::Accept(Accepting::Accepted) if backlog == 0 => {
            "no connection waits at the listener"
        }
        Listening::Accept(Accepting::Blocked) if 0 < backlog => WAITING,
        Listening::Drop if !world.has_accepted() => UNACCEPTED,
        _ => NOT_HERE,
    }
}

fn poll_reason(world: &World, polling: &Polling) -> &'static str {
    match polling {
        Polling::Open if !world.has_accepted() => UNACCEPTED,
        Polling::Open if world.free_slots().is_empty() => UNFREE,
        Polling::Poll(_) if !world.batch().is_empty() => "the batch is not empty",
        Polling::Poll(names) => names_reason(world.kernel(), names.as_slice()),
        Polling::Deliver if world.batch().is_empty() => "the batch is empty",
        Polling::Sweep(slot) => sweep_reason(world, *slot),
        Polling::Put if world.poller_hand().is_empty() => "the poller has no ticket to put",
        _ => NOT_HERE,
    }
}

fn names_reason(kernel: &Kernel, names: &[Name]) -> &'static str {
    for name in names {
        if !kernel.is_queued(name) {
            return "a name is not in the queue";
        }
    }
    if kernel.may_poll(names) {
        NOT_HERE
    } else {
        "a name is listed twice"
    }
}

fn work_reason(world: &World, worker: &Worker, act: Act) -> &'static str {
    match (act, worker.doing()) {
        (Act::Expire, _) if is_unlimited(world) => UNLIMITED,
        (Act::Put, _) if worker.hand().is_empty() => "the worker has no ticket to put",
        (Act::Pop, Doing::Idle) if !worker.hand().is_empty() => {
            "the worker has a ticket to put first"
        }
        (Act::Pop, Doing::Idle) if world.ready().is_empty() => "the ready queue is empty",
        (Act::Put, _)
        | (Act::Pop, Doing::Idle)
        | (Act::Claim, Doing::Tries(_))
        | (Act::Retire, Doing::Closed(_))
        | (Act::Free, Doing::Retired(_)) => NOT_HERE,
        (Act::Pop, _) => "the worker is not idle",
        (Act::Claim, _) => "the worker has no ticket to claim a slot with",
        (Act::Retire, _) => "the worker has closed no connection",
        (Act::Free, _) => "the worker has retired no slot",
        (_, Doing::Holds(slot, left)) => match world.slots().get(slot) {
            Some(slot) => holder_reason(world.kernel(), slot, left, act),
            None => NOT_HERE,
        },
        (_, _) => "the worker holds no slot",
    }
}

/// Why a worker cannot do this with the slot that it holds, with `left` calls left.
fn holder_reason(kernel: &Kernel, slot: &Slot, left: usize, act: Act) -> &'static str {
    let Some(connection) = slot.connection() else {
        return VACANT;
    };
    let verdict = connection.pair.verdict();
    match (act, verdict) {
        (Act::Call(_), _) if left == 0 => "no calls are left",
        (Act::Call(reply), _) => call_reason(kernel, connection, reply),
        (Act::Close, Verdict::Live) => "the connection is live",
        (Act::Expire, Verdict::Live) if connection.pair.next().is_some() => "there is a next call",
        (Act::Expire, Verdict::Live) => "the connection moved within the idle limit",
        (Act::Release, Verdict::Live) => release_reason(slot, connection, left),
        (Act::Post | Act::Release | Act::Expire, _) => over_reason(verdict),
        (_, _) => NOT_HERE,
    }
}

fn over_reason(verdict: Verdict) -> &'static str {
    match verdict {
        Verdict::Live => NOT_HERE,
        Verdict::Done => "the connection is done",
        Verdict::Failed(_) => "the connection has failed",
    }
}

fn release_reason(slot: &Slot, connection: &Connection, left: usize) -> &'static str {
    if connection.pair.next().is_none() || !slot.notes().is_empty() {
        NOT_HERE
    } else if left == 0 {
        "there is a next call and no note was posted"
    } else {
        "calls are left and there is a next call"
    }
}

fn call_reason(kernel: &Kernel, connection: &Connection, reply: Reply) -> &'static str {
    let pair = &connection.pair;
    let Some(call) = pair.next() else {
        return match pair.verdict() {
            Verdict::Live => "there is no next call",
            over => over_reason(over),
        };
    };
    match kernel.end(connection.descriptor(call.side())) {
        Some(open) => answer_reason(pair, &open.socket, call, reply),
        None => NOT_HERE,
    }
}

fn answer_reason(pair: &Pair, socket: &End, call: Call, reply: Reply) -> &'static str {
    match (call, reply) {
        (Call::Read(_, most), Reply::Bytes(count)) => read_reason(socket, most, count),
        (Call::Read(..), Reply::End) => end_reason(socket),
        (Call::Write(_), Reply::Wrote(count, _)) => {
            let direction = call.direction();
            wrote_reason(
                socket,
                pair.lead_len(direction),
                pair.ring_len(direction),
                count,
            )
        }
        (Call::Join(_), Reply::Joined) if !socket.has_room() => "the socket has no room",
        (Call::Read(..), Reply::Blocked) if socket.is_readable() => READABLE,
        (Call::Write(_) | Call::Join(_), Reply::Blocked) if socket.is_writable() => WRITABLE,
        (Call::Shut(_), Reply::Blocked) => "a shutdown never blocks",
        (Call::Read(..) | Call::Join(_) | Call::Shut(_), Reply::Failed(Kind::Zero)) => {
            "only a write can fail with zero"
        }
        (Call::Join(_), Reply::Joined)
        | (_, Reply::Blocked | Reply::Interrupted | Reply::Failed(_)) => NOT_HERE,
        (_, _) => other_call(call),
    }
}

/// Which call is next, if that call never gets such a reply.
fn other_call(call: Call) -> &'static str {
    match call {
        Call::Read(Side::Client, _) => "the next call is a read of the client",
        Call::Read(Side::Target, _) => "the next call is a read of the target",
        Call::Write(Side::Client) => "the next call is a write to the client",
        Call::Write(Side::Target) => "the next call is a write to the target",
        Call::Join(Side::Client) => "the next call is a join of the client",
        Call::Join(Side::Target) => "the next call is a join of the target",
        Call::Shut(Side::Client) => "the next call is a shutdown of the client",
        Call::Shut(Side::Target) => "the next call is a shutdown of the target",
    }
}
