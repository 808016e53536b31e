//! How often each kind of event happened, and the lines that say so.
use crate::event_line::kind_of;
use crate::page::{Page, Piece};
use world::Event;

const KINDS: usize = 39;

/// The kinds, in the order in which they are printed.
static NAMES: [(&str, &str); KINDS] = [
    ("tick", ""),
    ("arrive", ""),
    ("fin", ""),
    ("reset", ""),
    ("room", ""),
    ("spurious", "listener"),
    ("spurious", "waker"),
    ("spurious", ""),
    ("vanish", ""),
    ("connect", ""),
    ("accept", "ok"),
    ("accept", "blocked"),
    ("accept", "again"),
    ("accept", "starved"),
    ("drop", ""),
    ("open", ""),
    ("poll", ""),
    ("deliver", ""),
    ("sweep", ""),
    ("put", "poller"),
    ("put", ""),
    ("pop", ""),
    ("claim", ""),
    ("take", ""),
    ("post", ""),
    ("release", ""),
    ("idle", ""),
    ("close", ""),
    ("retire", ""),
    ("free", ""),
    ("call", "read"),
    ("call", "end"),
    ("call", "wrote"),
    ("call", "wrote full"),
    ("call", "joined"),
    ("call", "shut"),
    ("call", "blocked"),
    ("call", "interrupted"),
    ("call", "failed"),
];

/// How many events of each kind have happened.
#[derive(Clone, Copy)]
pub struct Counts {
    kinds: [u64; KINDS],
}

impl Counts {
    /// No events.
    pub const NONE: Counts = Counts { kinds: [0; KINDS] };

    /// Counts an event.
    pub fn count(&mut self, event: &Event) {
        let (word, more) = kind_of(event);
        for kind in 0..KINDS {
            if NAMES[kind].0 == word && NAMES[kind].1 == more {
                self.kinds[kind] = self.kinds[kind].saturating_add(1);
                return;
            }
        }
    }

    /// Adds what was counted elsewhere.
    pub fn add(&mut self, more: &Counts) {
        for kind in 0..KINDS {
            self.kinds[kind] = self.kinds[kind].saturating_add(more.kinds[kind]);
        }
    }

    /// How many events of all kinds have happened.
    pub fn sum(&self) -> u64 {
        let mut sum: u64 = 0;
        for count in &self.kinds {
            sum = sum.saturating_add(*count);
        }
        sum
    }

    /// Adds a line for each kind: `count N KIND`.
    pub fn put_lines(&self, page: &mut Page) {
        for kind in 0..KINDS {
            let (word, more) = NAMES[kind];
            page.put(&[
                Piece::Named("count ", self.kinds[kind]),
                Piece::Text(" "),
                Piece::Text(word),
                Piece::Text(if more.is_empty() { "" } else { " " }),
                Piece::Text(more),
                Piece::Text("\n"),
            ]);
        }
    }
}
