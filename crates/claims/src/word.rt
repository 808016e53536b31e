// How a claim word is read: 4 for each note that waits, plus 2 if the slot is free, plus 1 if it is held.
ghost use Rattle.std.specs.Prelude.{◌≡◌, if◌then◌else◌};
ghost use Rattle.claims.specs.Words.{word_of, WordState, some_wait, wakes};

use crate::answers::{Posted, Released};
use crate::limits::{FREE, HELD, NOTE};

pub(crate) fn notes(found: u64) -> u64
    ensures { (w : WordState) → found ≡ word_of w → result ≡ w.pending }
{
    found / NOTE
}

pub(crate) fn some_notes(found: u64) -> bool
    ensures { (w : WordState) → found ≡ word_of w → result ≡ some_wait w.pending }
{
    found >= NOTE
}

pub(crate) fn is_free(found: u64) -> bool
    ensures { (w : WordState) → found ≡ word_of w → result ≡ w.free }
{
    found % NOTE >= FREE
}

pub(crate) fn is_held(found: u64) -> bool
    ensures { (w : WordState) → found ≡ word_of w → result ≡ w.held }
{
    found % FREE == HELD
}

// What a post answers if it found this word.
pub(crate) fn posted(found: u64) -> Posted
    ensures { (w : WordState) → found ≡ word_of w → result ≡ (if wakes w then Posted.Wake else Posted.Quiet) }
{
    if some_notes(found) || is_held(found) {
        Posted::Quiet
    } else {
        Posted::Wake
    }
}

// What a release answers if it found this word.
pub(crate) fn released(found: u64) -> Released
    ensures { (w : WordState) → found ≡ word_of w → result ≡ (if some_wait w.pending then Released.Wake else Released.Quiet) }
{
    if some_notes(found) {
        Released::Wake
    } else {
        Released::Quiet
    }
}
