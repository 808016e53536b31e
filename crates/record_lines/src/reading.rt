// How a record is read: word by word, from left to right.

use crate::act::{Accepted, Act, Answer, Made, Opening, Polling, Record};
use input::{Pieces, is};
use token::{KIND_WANTED, Kind, Name, Side, Token};

/// Why a line of a recording is not read: the first word from the left that is wrong, and what is expected there.
#[derive(Clone, Copy)]
pub struct Wrong<'a> {
    /// The word. None if one is missing.
    pub word: Option<&'a [u8]>,
    /// What is expected in its place, as a person reads it.
    pub wanted: &'static str,
}

/// The parts of a text, read from left to right. The first that is wrong is noted, and no matter what is read after it,
/// the text is refused at its end.
#[derive(Drop)]
pub(crate) struct Words<'a> {
    pub(crate) pieces: Pieces<'a>,
    wrong: Option<Wrong<'a>>,
}

impl<'a> Words<'a> {
    pub(crate) fn new(text: &'a [u8], separator: u8) -> Words<'a> {
        Words {
            pieces: Pieces::new(text, separator),
            wrong: None,
        }
    }

    /// Notes that this word is wrong, or for None that one is missing.
    pub(crate) fn refuse(&mut self, word: Option<&'a [u8]>, wanted: &'static str) {
        if self.wrong.is_none() {
            self.wrong = Some(Wrong { word, wanted });
        }
    }

    /// The next word, whatever it is; empty if none is left.
    pub(crate) fn word(&mut self, wanted: &'static str) -> &'a [u8] {
        match self.pieces.next() {
            Some(word) => word,
            None => {
                self.refuse(None, wanted);
                &[]
            }
        }
    }

    fn number(&mut self, wanted: &'static str) -> usize {
        let word = self.word(wanted);
        self.said(input::number(word), word, wanted, 0)
    }

    /// The value. If there is none, refuses the word, and returns the other.
    pub(crate) fn said<T: Copy>(
        &mut self,
        value: Option<T>,
        word: &'a [u8],
        wanted: &'static str,
        other: T,
    ) -> T {
        match value {
            Some(value) => value,
            None => {
                self.refuse(Some(word), wanted);
                other
            }
        }
    }

    /// What the next word stands for in a table. If it is not there, refuses the word, and returns the other.
    pub(crate) fn one_of<T: Copy>(
        &mut self,
        table: &[(&'static str, T)],
        wanted: &'static str,
        other: T,
    ) -> T {
        let word = self.word(wanted);
        self.said(named(word, table), word, wanted, other)
    }

    /// What was read, if no word was wrong and none is left.
    pub(crate) fn end<T: Copy>(&mut self, read: T) -> Result<T, Wrong<'a>> {
        let left = self.pieces.next();
        if left.is_some() {
            self.refuse(left, "the line should end before this word");
        }
        match self.wrong {
            Some(wrong) => Err(wrong),
            None => Ok(read),
        }
    }
}

/// What a word stands for in a table.
fn named<T: Copy>(word: &[u8], table: &[(&'static str, T)]) -> Option<T> {
    for (name, value) in table {
        if is(word, name) {
            return Some(*value);
        }
    }
    None
}

/// The calls that a wire answers.
#[derive(Clone, Copy)]
enum Call {
    Read,
    Write,
    Join,
    Shut,
}

/// A call, and its answers but for `failed`.
#[derive(Clone, Copy)]
struct Answers {
    call: Call,
    /// What is wanted as its number of bytes. None: the call has no number, nor has an answer.
    bytes: Option<&'static str>,
    /// The answers that have a word.
    named: &'static [(&'static str, Answer)],
    wanted: &'static str,
}

const READ: Answers = Answers {
    call: Call::Read,
    bytes: Some("the number of bytes that were asked for is wanted"),
    named: &[
        ("end", Answer::End),
        ("blocked", Answer::Blocked),
        ("interrupted", Answer::Interrupted),
    ],
    wanted: "a number of bytes, end, blocked, interrupted or failed is wanted",
};

const WRITE: Answers = Answers {
    call: Call::Write,
    bytes: Some("the number of bytes that were offered is wanted"),
    named: &[
        ("blocked", Answer::Blocked),
        ("interrupted", Answer::Interrupted),
    ],
    wanted: "a number of bytes, blocked, interrupted or failed is wanted",
};

const JOIN: Answers = Answers {
    call: Call::Join,
    bytes: None,
    named: &[
        ("joined", Answer::Joined),
        ("blocked", Answer::Blocked),
        ("interrupted", Answer::Interrupted),
    ],
    wanted: "one of joined, blocked, interrupted and failed is wanted",
};

const SHUT: Answers = Answers {
    call: Call::Shut,
    bytes: None,
    named: &[("shut", Answer::Shut), ("interrupted", Answer::Interrupted)],
    wanted: "one of shut, interrupted and failed is wanted",
};

static CALLS: [(&str, Answers); 4] = [
    ("read", READ),
    ("write", WRITE),
    ("join", JOIN),
    ("shut", SHUT),
];

#[derive(Clone, Copy)]
enum Task {
    Poll,
    Time,
    Report,
    Accept,
    Open,
}

static TASKS: [(&str, Task); 5] = [
    ("poll", Task::Poll),
    ("time", Task::Time),
    ("report", Task::Report),
    ("accept", Task::Accept),
    ("open", Task::Open),
];

static ACCEPTED: [(&str, Accepted); 4] = [
    ("ok", Accepted::Taken),
    ("blocked", Accepted::Blocked),
    ("again", Accepted::Again),
    ("starved", Accepted::Starved),
];

static OPENINGS: [(&str, Opening); 3] = [
    ("ok", Opening::Opened),
    ("connect", Opening::Connect),
    ("register", Opening::Register),
];

static UNANSWERED: [(&str, Made); 2] = [("settle", Made::Settle), ("drop", Made::Drop)];

/// Reads the record of a line without its line feed. From what a record prints it reads that record. It refuses a line
/// of another form, with the first word from the left that is wrong. Numbers are below 2^64 and have no leading zeros.
pub fn read_line(line: &[u8]) -> Result<Record, Wrong<'_>> {
    let wanted = "the count before the act and the one after it are wanted";
    let words = &mut Words::new(line, b' ');
    let before = words.number(wanted) as u64;
    let after = words.number(wanted) as u64;
    let act = act(words);
    words.end(Record { before, after, act })
}

/// Reads an act, by its first word.
fn act(words: &mut Words<'_>) -> Act {
    let wanted = "pP, second, S, S.G.SIDE, end or full is wanted";
    let word = words.word(wanted);
    if let Some(token) = end_named(word) {
        Act::Wire(token, made(words))
    } else if let Some(poller) = number_after("p", word) {
        Act::Poller(poller, polling(words))
    } else if let Some(slot) = input::number(word) {
        let turns = [("begin", Act::Begin(slot)), ("end", Act::End(slot))];
        words.one_of(&turns, "begin or end is wanted", Act::Full)
    } else if is(word, "second") {
        Act::Second(words.number("a number of seconds is wanted") as u64)
    } else {
        let ends = [("end", Act::Ended), ("full", Act::Full)];
        words.said(named(word, &ends), word, wanted, Act::Full)
    }
}

/// The number that follows this text in a word.
pub(crate) fn number_after(text: &str, word: &[u8]) -> Option<usize> {
    input::number(word.strip_prefix(text.as_bytes())?)
}

/// The end that `S.G.SIDE` names.
fn end_named(word: &[u8]) -> Option<Token> {
    let parts = &mut Words::new(word, b'.');
    let (slot, generation) = (parts.number(""), parts.number("") as u64);
    let side = Side::named(parts.word(""))?;
    parts.end(()).ok()?;
    Token::pack(slot, side, generation).ok()
}

fn polling(words: &mut Words<'_>) -> Polling {
    let wanted = "poll, time, report, accept or open is wanted";
    match words.one_of(&TASKS, wanted, Task::Poll) {
        Task::Poll => polled(words),
        Task::Time => Polling::Time(words.number("a number of microseconds is wanted") as u64),
        Task::Report => reported(words),
        Task::Accept => {
            let wanted = "one of again, blocked, ok and starved is wanted";
            Polling::Accept(words.one_of(&ACCEPTED, wanted, Accepted::Taken))
        }
        Task::Open => opened(words),
    }
}

fn polled(words: &mut Words<'_>) -> Polling {
    let wanted = "a number of reports, interrupted or failed is wanted";
    let word = words.word(wanted);
    let failures = [
        ("interrupted", Polling::Interrupted),
        ("failed", Polling::Failed),
    ];
    match input::number(word) {
        Some(count) => Polling::Gave(count),
        None => words.said(named(word, &failures), word, wanted, Polling::Failed),
    }
}

fn reported(words: &mut Words<'_>) -> Polling {
    let wanted = "listener, waker or S.G.SIDE is wanted";
    let word = words.word(wanted);
    let names = [("listener", Name::Listener), ("waker", Name::Waker)];
    Polling::Reported(match end_named(word) {
        Some(token) => Name::End(token),
        None => words.said(named(word, &names), word, wanted, Name::Waker),
    })
}

/// Reads where a connection was opened, or why not.
fn opened(words: &mut Words<'_>) -> Polling {
    let wanted = "a slot and a generation as S.G are wanted";
    let word = words.word(wanted);
    let (slot, generation) = words.said(place_named(word), word, wanted, (0, 0));
    let wanted = "one of ok, connect and register is wanted";
    let opening = words.one_of(&OPENINGS, wanted, Opening::Opened);
    Polling::Open(slot, generation, opening)
}

/// The slot and the generation that `S.G` names.
fn place_named(word: &[u8]) -> Option<(usize, u64)> {
    let parts = &mut Words::new(word, b'.');
    let place = (parts.number(""), parts.number("") as u64);
    parts.end(place).ok()
}

fn made(words: &mut Words<'_>) -> Made {
    let wanted = "one of drop, join, read, settle, shut and write is wanted";
    let word = words.word(wanted);
    let Some(answers) = named(word, &CALLS) else {
        return words.said(named(word, &UNANSWERED), word, wanted, Made::Drop);
    };
    let bytes = match answers.bytes {
        Some(wanted) => words.number(wanted),
        None => 0,
    };
    let answer = answered(words, &answers);
    match answers.call {
        Call::Read => Made::Read(bytes, answer),
        Call::Write => Made::Write(bytes, answer),
        Call::Join => Made::Join(answer),
        Call::Shut => Made::Shut(answer),
    }
}

fn answered(words: &mut Words<'_>, answers: &Answers) -> Answer {
    let wanted = answers.wanted;
    let word = words.word(wanted);
    if is(word, "failed") {
        return Answer::Failed(kind(words));
    }
    match input::number(word) {
        Some(count) if answers.bytes.is_some() => Answer::Moved(count),
        _ => words.said(named(word, answers.named), word, wanted, Answer::End),
    }
}

fn kind(words: &mut Words<'_>) -> Kind {
    let word = words.word(KIND_WANTED);
    words.said(Kind::named(word), word, KIND_WANTED, Kind::Other)
}
