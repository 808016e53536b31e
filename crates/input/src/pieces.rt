ghost use Rattle.std.specs.{Prelude.{◌≡◌, ◌∷◌, ◌+◌, [], drop, MatchOption, position, ◌==◌}, Option.option_copied};
ghost use Rattle.input.specs.Texts.{pieces_of, pieces_left};

use std::marker::Model;

/// The pieces of a text, split at each separator, that were not yet returned.
#[derive(Drop)]
pub struct Pieces<'a> {
    rest: Option<&'a [u8]>,
    separator: u8,
}

impl<'a> Model for Pieces<'a> {
    ghost use Rattle.std.specs.{Prelude.{ℕ, List}, Option.option_copied};
    ghost use Rattle.input.specs.Texts.{pieces_left};

    ghost Value = { List (List ℕ) };

    ghost view = { λ p. pieces_left p.separator (option_copied p.rest) };
}

impl<'a> Pieces<'a> {
    /// All pieces of a text.
    pub fn new(text: &'a [u8], separator: u8) -> Pieces<'a>
        ensures { result ≡ pieces_of separator text.now }
    {
        Pieces {
            rest: Some(text),
            separator,
        }
    }

    /// Returns the next piece, if one is left, but does not remove it.
    pub fn peek(&self) -> Option<&'a [u8]>
        ensures { MatchOption result (self.now ≡ []) (λ piece. self.now ≡ piece.now ∷ drop 1 self.now) }
    {
        let (piece, _rest) = cut(self.rest?, self.separator);
        Some(piece)
    }

    /// Returns the next piece, if one is left, and removes it.
    pub fn next(&mut self) -> Option<&'a [u8]>
        ensures { MatchOption result ((self.old ≡ []) × (self.new ≡ [])) (λ piece. self.old ≡ piece.now ∷ self.new) }
    {
        let text = self.rest?;
        let (piece, rest) = cut(text, self.separator);
        self.rest = rest;
        Some(piece)
    }
}

/// The first piece, and the text after the separator that ends it. None if no separator follows.
fn cut(text: &[u8], separator: u8) -> (&[u8], Option<&[u8]>)
    ensures { pieces_of separator text.now ≡ result.0.now ∷ pieces_left separator (option_copied result.1) }
{
    match first(text, separator) {
        Some(at) => (&text[..at], Some(&text[at + 1..])),
        None => (text, None),
    }
}

/// The index of the first byte that is `sought`.
fn first(text: &[u8], sought: u8) -> Option<usize>
    ensures { result ≡ position (λ byte. byte == sought) text.now }
{
    text.iter().position(|byte| *byte == sought)
}
