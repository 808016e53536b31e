// The events in a script of a world.
ghost use Rattle.std.specs.Prelude.{◌≡◌, ◌∷◌, []};
ghost use Rattle.script_text.specs.{Events.{said_of, accepting_of, change_event, put_event, act_event, plain_event, arrival_said, event_of, generation_of, end_said, name_queued, names_of, reply_said, reported_of}, Texts.{word_then, if_last, ReadsBy, ReadsLine}};
ghost use Rattle.token.specs.Kinds.{kind_named};

use crate::readers::{
    MAX_SLOTS, MAX_WORKERS, NotRead, Wrong, count, first_word, is_full, last, last_bytes,
    number_below, side, slot, worker,
};
use input::{Pieces, is, number};
use kernel_model::{Accepting, MAX_POLLED, Reply};
use std::alloc::Global;
use token::{KIND_WANTED, Kind, MAX_GENERATION, Name, Side, Token};
use world::{Act, Change, Event, Listening, Polling, Reported};
use world_text::Word;

/// What is expected if the first word of a world's line is another.
const EVENTS: &str =
    "not a step of a world; one of accept, arrive, call, claim, close, connect, deliver, drop, fin, free, idle, open, \
     poll, pop, post, put, release, reset, retire, room, spurious, sweep, take, tick and vanish is wanted";

/// The event that a line of a world's script stands for, or the first word from the left that is wrong; or that memory
/// ran out for the event's list of bytes or names.
#[tactic(auto, using(crate::proofs::FirstWords::plain_event_of))]
pub fn read_event<'a>(alloc: Global, line: &'a [u8]) -> Result<Event, NotRead<'a>>
    ensures { ReadsBy said_of (event_of line.now) result }
{
    let mut words = Pieces::new(line, b' ');
    let first = first_word(&mut words, EVENTS)?;
    match first {
        Word::Arrive => arrive(alloc, words),
        Word::Poll => Ok(Event::Poll(Polling::Poll(names(alloc, words)?))),
        _ => Ok(last(plain_event(first, &mut words)?, words)?),
    }
}

fn arrive<'a>(alloc: Global, mut words: Pieces<'a>) -> Result<Event, NotRead<'a>>
    ensures { ReadsBy said_of (arrival_said words.entry) result }
{
    let slot = slot(&mut words)?;
    let side = side(&mut words)?;
    let bytes = last_bytes(alloc, words)?;
    Ok(Event::Network(slot, side, Change::Arrive(bytes.into_vec())))
}

fn plain_event<'a>(first: Word, words: &mut Pieces<'a>) -> Result<Event, Wrong<'a>>
    ensures { ReadsLine (plain_event first words.old) result words.new }
{
    match first {
        Word::Tick => Ok(Event::Tick(count(words)? as u64)),
        Word::Connect => Ok(Event::Listen(Listening::Connect)),
        Word::Accept => accept(words),
        Word::Drop => Ok(Event::Listen(Listening::Drop)),
        Word::Fin => at_end(Change::Fin, words),
        Word::Reset => at_end(Change::Reset, words),
        Word::Room => at_end(Change::Room, words),
        Word::Spurious => reported(words).map(Event::Spurious),
        Word::Vanish => reported(words).map(Event::Vanish),
        Word::Open => Ok(Event::Poll(Polling::Open)),
        Word::Deliver => Ok(Event::Poll(Polling::Deliver)),
        Word::Sweep => Ok(Event::Poll(Polling::Sweep(slot(words)?))),
        Word::Put => put(words),
        Word::Call => Ok(Event::Work(worker(words)?, Act::Call(reply(words)?))),
        Word::Pop => work(Act::Pop, words),
        Word::Claim => work(Act::Claim, words),
        Word::Take => work(Act::Take, words),
        Word::Post => work(Act::Post, words),
        Word::Release => work(Act::Release, words),
        Word::Idle => work(Act::Expire, words),
        Word::Close => work(Act::Close, words),
        Word::Retire => work(Act::Retire, words),
        Word::Free => work(Act::Free, words),
        Word::Arrive | Word::End | Word::Poll | Word::Read | Word::Shut | Word::Wrote => {
            Err(Wrong::unknown(first.text().as_bytes(), EVENTS))
        }
    }
}

fn accept<'a>(words: &mut Pieces<'a>) -> Result<Event, Wrong<'a>>
    ensures { ReadsLine (word_then accepting_of (λ answer. if_last (Event.Listen (Listening.Accept answer))) words.old) result words.new }
{
    let wanted = "one of again, blocked, ok and starved is wanted";
    let Some(word) = words.next() else {
        return Err(Wrong::missing(wanted));
    };
    let Some(answer) = accepting_named(word) else {
        return Err(Wrong::malformed(word, wanted));
    };
    Ok(Event::Listen(Listening::Accept(answer)))
}

fn accepting_named(word: &[u8]) -> Option<Accepting>
    ensures { result ≡ accepting_of word.now }
{
    if is(word, "ok") {
        Some(Accepting::Accepted)
    } else if is(word, "blocked") {
        Some(Accepting::Blocked)
    } else if is(word, "again") {
        Some(Accepting::Again)
    } else if is(word, "starved") {
        Some(Accepting::Starved)
    } else {
        None
    }
}

/// Reads the end at which the change happens.
fn at_end<'a>(change: Change, words: &mut Pieces<'a>) -> Result<Event, Wrong<'a>>
    ensures { ReadsLine (change_event change words.old) result words.new }
{
    let slot = slot(words)?;
    let side = side(words)?;
    Ok(Event::Network(slot, side, change))
}

fn put<'a>(words: &mut Pieces<'a>) -> Result<Event, Wrong<'a>>
    ensures { ReadsLine (put_event words.old) result words.new }
{
    let wanted = "poller or the number of a worker, 0 to 15, is wanted";
    let Some(who) = words.next() else {
        return Err(Wrong::missing(wanted));
    };
    if is(who, "poller") {
        Ok(Event::Poll(Polling::Put))
    } else {
        let Some(worker) = number_below(MAX_WORKERS, who) else {
            return Err(Wrong::malformed(who, wanted));
        };
        Ok(Event::Work(worker, Act::Put))
    }
}

fn work<'a>(act: Act, words: &mut Pieces<'a>) -> Result<Event, Wrong<'a>>
    ensures { ReadsLine (act_event act words.old) result words.new }
{
    match worker(words) {
        Ok(worker) => Ok(Event::Work(worker, act)),
        Err(wrong) => Err(wrong),
    }
}

fn generation_said(word: &[u8]) -> Option<u64>
    ensures { result ≡ generation_of word.now }
{
    let value = number(word)? as u64;
    if 1 <= value && value <= MAX_GENERATION {
        Some(value)
    } else {
        None
    }
}

/// The name of an end, by the parts of `SLOT.GEN.SIDE`.
fn end(mut parts: Pieces) -> Option<Name>
    ensures { result ≡ end_said parts.entry }
{
    match (parts.next(), parts.next(), parts.next(), parts.next()) {
        (Some(slot), Some(generation), Some(side), None) => end_named(slot, generation, side),
        _ => None,
    }
}

fn end_named(slot: &[u8], generation: &[u8], side: &[u8]) -> Option<Name>
    ensures { result ≡ end_said (slot.now ∷ generation.now ∷ side.now ∷ []) }
{
    let slot = number_below(MAX_SLOTS, slot);
    match (slot, generation_said(generation), Side::named(side)) {
        (Some(slot), Some(generation), Some(side)) => match Token::pack(slot, side, generation) {
            Ok(token) => Some(Name::End(token)),
            Err(_) => None,
        },
        _ => None,
    }
}

/// A name as the queue has it: `listener`, `waker` or `SLOT.GEN.SIDE`.
fn name(word: &[u8]) -> Option<Name>
    ensures { result ≡ name_queued word.now }
{
    if is(word, "listener") {
        Some(Name::Listener)
    } else if is(word, "waker") {
        Some(Name::Waker)
    } else {
        end(Pieces::new(word, b'.'))
    }
}

/// The names of a poll, at most 256. A word that is none is malformed, even if there is no memory.
fn names<'a>(alloc: Global, mut words: Pieces<'a>) -> Result<Vec<Name>, NotRead<'a>>
    ensures { ReadsBy (λ names. names.items) (names_of words.entry) result }
{
    let wanted = "listener, waker or SLOT.GEN.SIDE, as in 0.1.client, is wanted";
    let mut room = [Name::Listener; MAX_POLLED];
    let mut count = 0;
    while let Some(word) = words.next() {
        if count >= MAX_POLLED {
            let wrong = Wrong::malformed(word, "a poll has at most 256 names");
            return Err(NotRead::Malformed(wrong));
        }
        let Some(name) = name(word) else {
            return Err(NotRead::Malformed(Wrong::malformed(word, wanted)));
        };
        room[count] = name;
        count += 1;
    }
    match Vec::from_slice(alloc, &room[..count]) {
        Ok(names) => Ok(names),
        Err(error) => Err(NotRead::from(error)),
    }
}

/// Reads what a report is about that comes without cause or is withdrawn.
fn reported<'a>(words: &mut Pieces<'a>) -> Result<Reported, Wrong<'a>>
    ensures { ReadsLine (reported_of words.old) result words.new }
{
    let wanted = "listener, waker or the number of a slot, 0 to 63, is wanted";
    let Some(who) = words.next() else {
        return Err(Wrong::missing(wanted));
    };
    if is(who, "listener") {
        Ok(Reported::Listener)
    } else if is(who, "waker") {
        Ok(Reported::Waker)
    } else {
        let Some(slot) = number_below(MAX_SLOTS, who) else {
            return Err(Wrong::malformed(who, wanted));
        };
        let side = side(words)?;
        Ok(Reported::End(slot, side))
    }
}

/// Reads the reply to a call.
fn reply<'a>(words: &mut Pieces<'a>) -> Result<Reply, Wrong<'a>>
    ensures { ReadsLine (reply_said words.old) result words.new }
{
    let wanted = "one of blocked, end, failed, interrupted, joined, read, shut and wrote is wanted";
    let Some(name) = words.next() else {
        return Err(Wrong::missing(wanted));
    };
    if is(name, "read") {
        count(words).map(Reply::Bytes)
    } else if is(name, "end") {
        Ok(Reply::End)
    } else if is(name, "wrote") {
        Ok(Reply::Wrote(count(words)?, is_full(words)?))
    } else if is(name, "joined") {
        Ok(Reply::Joined)
    } else if is(name, "shut") {
        Ok(Reply::Shut)
    } else if is(name, "blocked") {
        Ok(Reply::Blocked)
    } else if is(name, "interrupted") {
        Ok(Reply::Interrupted)
    } else if is(name, "failed") {
        failed(words)
    } else {
        Err(Wrong::malformed(name, wanted))
    }
}

fn failed<'a>(words: &mut Pieces<'a>) -> Result<Reply, Wrong<'a>>
    ensures { ReadsLine (word_then kind_named (λ kind. if_last (Reply.Failed kind)) words.old) result words.new }
{
    let Some(word) = words.next() else {
        return Err(Wrong::missing(KIND_WANTED));
    };
    let Some(kind) = Kind::named(word) else {
        return Err(Wrong::malformed(word, KIND_WANTED));
    };
    Ok(Reply::Failed(kind))
}
