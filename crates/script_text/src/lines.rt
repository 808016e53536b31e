ghost use Rattle.std.specs.Prelude.{◌≡◌, ◌∷◌, ◌+◌, ◌<◌, ◌^◌, [], length, MatchOption};
ghost use Rattle.script_text.specs.Texts.{lines_of, says_nothing, telling_lines};

use input::Pieces;
use std::marker::Model;

/// A line that is not skipped.
#[derive(Clone, Copy)]
pub struct Line<'a> {
    /// From 1.
    pub number: u64,
    /// Its bytes, without the line feed.
    pub text: &'a [u8],
}

/// The rest of a text: its next lines that are not skipped.
#[derive(Drop)]
pub struct Lines<'a> {
    texts: Pieces<'a>,
    /// The number of the last line that was looked at.
    number: u64,
}

impl<'a> Model for Lines<'a> {
    ghost use Rattle.std.specs.Prelude.{◌+◌, ◌<◌, ◌^◌, List, length};
    ghost use Rattle.script_text.specs.Texts.{NumberedLine, telling_lines};

    ghost Value = { List NumberedLine };

    ghost view = { λ l. telling_lines (l.number + 1) l.texts };

    ghost invariant = { λ l. l.number + length l.texts < 2 ^ 63 };
}

impl<'a> Lines<'a> {
    /// The lines of a text.
    pub fn new(text: &'a [u8]) -> Lines<'a>
        requires { length text.now < 2 ^ 62 }
        ensures { result ≡ telling_lines 1 (lines_of text.now) }
    {
        Lines {
            texts: Pieces::new(text, b'\n'),
            number: 0,
        }
    }

    /// The next line that is not skipped.
    pub fn next(&mut self) -> Option<Line<'a>>
        ensures { MatchOption result ((self.old ≡ []) × (self.new ≡ []))
            (λ line. self.old ≡ (record { number = line.number; text = line.text.now }) ∷ self.new) }
    {
        while let Some(text) = self.texts.next() {
            self.number += 1;
            if !says_nothing(text) {
                return Some(Line {
                    number: self.number,
                    text,
                });
            }
        }
        None
    }
}

/// Whether a line is empty or a comment.
fn says_nothing(text: &[u8]) -> bool
    ensures { result ≡ says_nothing text.now }
{
    match text {
        [] => true,
        [first, ..] => *first == b'#',
    }
}
