//! The header of a world's script, and the line of an event, as the crate `script_text` reads them. No clause says
//! what is written: in tests, `sim` reads what a replay has written.

use crate::page::{Page, Piece, put_all};
use crate::word::word_of;
use kernel_model::{Accepting, Reply};
use token::Side;
use world::{Act, Change, Event, Limits, Listening, Polling, Reported};

/// Adds the header of a world with these limits, and a line feed.
pub fn put_header(page: &mut Page, limits: &Limits) {
    page.put(&[
        Piece::Named("world slots=", limits.slots as u64),
        Piece::Named(" workers=", limits.workers as u64),
        Piece::Named(" ring=", limits.ring as u64),
        Piece::Named(" budget=", limits.budget as u64),
        Piece::Named(" gen=", limits.generation),
    ]);
    if limits.idle > 0 {
        page.put(&[Piece::Named(" idle=", limits.idle)]);
    }
    let lead = limits.lead.as_slice();
    if !lead.is_empty() {
        page.put(&[Piece::Text(" lead="), Piece::Bytes(lead)]);
    }
    page.put(&[Piece::Text("\n")]);
}

/// Adds the line of an event, without a line feed.
pub fn put_event(page: &mut Page, event: &Event) {
    page.put(&[Piece::Text(word_of(event).text())]);
    match event {
        Event::Tick(seconds) => put_number(page, *seconds),
        Event::Network(slot, side, change) => put_change(page, *slot, *side, change),
        Event::Spurious(who) | Event::Vanish(who) => put_reported(page, *who),
        Event::Listen(Listening::Accept(answer)) => put_word(page, accepting_word(*answer)),
        Event::Poll(Polling::Poll(names)) => put_all(page, names.as_slice()),
        Event::Poll(Polling::Sweep(slot)) => put_number(page, *slot as u64),
        Event::Poll(Polling::Put) => put_word(page, "poller"),
        Event::Listen(_) | Event::Poll(_) => {}
        Event::Work(worker, Act::Call(reply)) => put_call(page, *worker, *reply),
        Event::Work(worker, _) => put_number(page, *worker as u64),
    }
}

fn put_word(page: &mut Page, word: &str) {
    page.put(&[Piece::Text(" "), Piece::Text(word)]);
}

fn put_number(page: &mut Page, number: u64) {
    page.put(&[Piece::Named(" ", number)]);
}

fn put_end(page: &mut Page, slot: usize, side: Side) {
    put_number(page, slot as u64);
    put_word(page, side.name());
}

fn put_change(page: &mut Page, slot: usize, side: Side, change: &Change) {
    put_end(page, slot, side);
    if let Change::Arrive(bytes) = change {
        page.put(&[Piece::Text(" "), Piece::Bytes(bytes.as_slice())]);
    }
}

fn put_reported(page: &mut Page, who: Reported) {
    match who {
        Reported::Listener => put_word(page, "listener"),
        Reported::Waker => put_word(page, "waker"),
        Reported::End(slot, side) => put_end(page, slot, side),
    }
}

fn put_call(page: &mut Page, worker: usize, reply: Reply) {
    put_number(page, worker as u64);
    put_word(page, reply_word(reply));
    match reply {
        Reply::Bytes(count) | Reply::Wrote(count, _) => put_number(page, count as u64),
        Reply::Failed(kind) => put_word(page, kind.name()),
        _ => {}
    }
    if let Reply::Wrote(_, true) = reply {
        put_word(page, "full");
    }
}

fn accepting_word(answer: Accepting) -> &'static str {
    match answer {
        Accepting::Accepted => "ok",
        Accepting::Blocked => "blocked",
        Accepting::Again => "again",
        Accepting::Starved => "starved",
    }
}

fn reply_word(reply: Reply) -> &'static str {
    match reply {
        Reply::Bytes(_) => "read",
        Reply::End => "end",
        Reply::Wrote(..) => "wrote",
        Reply::Joined => "joined",
        Reply::Shut => "shut",
        Reply::Blocked => "blocked",
        Reply::Interrupted => "interrupted",
        Reply::Failed(_) => "failed",
    }
}

/// The kind by which an event is counted: its line's first word, and what tells kinds with this word apart.
pub(crate) fn kind_of(event: &Event) -> (&'static str, &'static str) {
    let more = match event {
        Event::Spurious(Reported::Listener) => "listener",
        Event::Spurious(Reported::Waker) => "waker",
        Event::Listen(Listening::Accept(answer)) => accepting_word(*answer),
        Event::Poll(Polling::Put) => "poller",
        Event::Work(_, Act::Call(Reply::Wrote(_, true))) => "wrote full",
        Event::Work(_, Act::Call(reply)) => reply_word(*reply),
        _ => "",
    };
    (word_of(event).text(), more)
}
