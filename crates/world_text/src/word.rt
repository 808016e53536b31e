//! The words with which the lines of steps and events begin.
ghost use Rattle.std.specs.Prelude.{◌≡◌};
ghost use Rattle.world_text.specs.Words.{word_text, word_named, event_word};

use std::fmt;
use world::{Act, Change, Event, Listening, Polling};

/// The first word of a step or an event, by which a fault names it. A script has it in lower case.
#[derive(Clone, Copy)]
pub enum Word {
    Accept,
    Arrive,
    Call,
    Claim,
    Close,
    Connect,
    Deliver,
    Drop,
    End,
    Fin,
    Free,
    Idle,
    Open,
    Poll,
    Pop,
    Post,
    Put,
    Read,
    Release,
    Reset,
    Retire,
    Room,
    Shut,
    Spurious,
    Sweep,
    Take,
    Tick,
    Vanish,
    Wrote,
}

/// Each word, at its number in `Word`, with how it is written.
static WORDS: [(Word, &str); 29] = [
    (Word::Accept, "accept"),
    (Word::Arrive, "arrive"),
    (Word::Call, "call"),
    (Word::Claim, "claim"),
    (Word::Close, "close"),
    (Word::Connect, "connect"),
    (Word::Deliver, "deliver"),
    (Word::Drop, "drop"),
    (Word::End, "end"),
    (Word::Fin, "fin"),
    (Word::Free, "free"),
    (Word::Idle, "idle"),
    (Word::Open, "open"),
    (Word::Poll, "poll"),
    (Word::Pop, "pop"),
    (Word::Post, "post"),
    (Word::Put, "put"),
    (Word::Read, "read"),
    (Word::Release, "release"),
    (Word::Reset, "reset"),
    (Word::Retire, "retire"),
    (Word::Room, "room"),
    (Word::Shut, "shut"),
    (Word::Spurious, "spurious"),
    (Word::Sweep, "sweep"),
    (Word::Take, "take"),
    (Word::Tick, "tick"),
    (Word::Vanish, "vanish"),
    (Word::Wrote, "wrote"),
];

impl Word {
    /// The word that is written so, or None.
    pub fn named(text: &[u8]) -> Option<Word>
        ensures { result ≡ word_named text.now }
    {
        for (word, _) in &WORDS {
            if text == word.text().as_bytes() {
                return Some(*word);
            }
        }
        None
    }

    /// The word as written in a script.
    pub fn text(self) -> &'static str
        ensures { result.now ≡ word_text self }
    {
        WORDS[self as usize].1
    }
}

impl fmt::Display for Word {
    ghost use Rattle.std.specs.Prelude.{Some};
    ghost use Rattle.world_text.specs.Words.{word_text};

    ghost output = { λ word. Some (word_text word) };

    fn fmt<W: fmt::Write>(&self, f: &mut fmt::Formatter<W>) -> fmt::Result {
        f.write_str(self.text())
    }
}

/// The first word of the line for an event.
pub fn word_of(event: &Event) -> Word
    ensures { result ≡ event_word event.now }
{
    match event {
        Event::Tick(_) => Word::Tick,
        Event::Network(_, _, Change::Arrive(_)) => Word::Arrive,
        Event::Network(_, _, Change::Fin) => Word::Fin,
        Event::Network(_, _, Change::Reset) => Word::Reset,
        Event::Network(_, _, Change::Room) => Word::Room,
        Event::Spurious(_) => Word::Spurious,
        Event::Vanish(_) => Word::Vanish,
        Event::Listen(Listening::Connect) => Word::Connect,
        Event::Listen(Listening::Accept(_)) => Word::Accept,
        Event::Listen(Listening::Drop) => Word::Drop,
        Event::Poll(Polling::Open) => Word::Open,
        Event::Poll(Polling::Poll(_)) => Word::Poll,
        Event::Poll(Polling::Deliver) => Word::Deliver,
        Event::Poll(Polling::Sweep(_)) => Word::Sweep,
        Event::Poll(Polling::Put) | Event::Work(_, Act::Put) => Word::Put,
        Event::Work(_, Act::Pop) => Word::Pop,
        Event::Work(_, Act::Claim) => Word::Claim,
        Event::Work(_, Act::Take) => Word::Take,
        Event::Work(_, Act::Call(_)) => Word::Call,
        Event::Work(_, Act::Post) => Word::Post,
        Event::Work(_, Act::Release) => Word::Release,
        Event::Work(_, Act::Expire) => Word::Idle,
        Event::Work(_, Act::Close) => Word::Close,
        Event::Work(_, Act::Retire) => Word::Retire,
        Event::Work(_, Act::Free) => Word::Free,
    }
}
