//! Reads the next word of a line, or says what is wrong with it. The numbers in the texts are those of the limits: a
//! row of `tests/program/causes` tries each text with the last word that is taken and the first that is not.
ghost use Rattle.std.specs.{Prelude.{◌≡◌, ◌≤◌, take, option_map, IfSome}, List.list_all};
ghost use Rattle.token.specs.Sides.{side_named};
ghost use Rattle.world_text.specs.Words.{word_named};
ghost use Rattle.script_text.specs.{Events.{slot_said, worker_of}, Texts.{number_of, hex_bytes, first_as, word_then, line_end, if_last, full_of, ReadsDefined, ReadsBy, ReadsLine, Takes, number_below, value_after, is_lower_hex}};

use crate::Bytes;
use input::{Pieces, is, is_digit, number};
use std::alloc::{AllocError, Global};
use token::Side;
use world_text::Word;

/// The most slots of a world.
pub(crate) const MAX_SLOTS: usize = 64;

/// The most workers of a world.
pub(crate) const MAX_WORKERS: usize = 16;

/// The most calls of one turn.
pub(crate) const MAX_BUDGET: usize = 1_024;

/// The most seconds of an idle limit.
pub(crate) const MAX_IDLE: usize = 86_400;

/// The most bytes that a word of hexadecimal digits stands for.
pub(crate) const MAX_BYTES: usize = 1_024;

/// Takes the first word of a line. Refuses a word with which no line begins.
pub(crate) fn first_word<'a>(
    words: &mut Pieces<'a>,
    wanted: &'static str,
) -> Result<Word, Wrong<'a>>
    ensures { Takes (first_as word_named words.old) result words.new }
{
    let Some(name) = words.next() else {
        return Err(Wrong::missing(wanted));
    };
    match Word::named(name) {
        Some(first) => Ok(first),
        None => Err(Wrong::unknown(name, wanted)),
    }
}

/// The value that a word stands for, or that the word is malformed.
pub(crate) fn said<'a, T>(
    value: Option<T>,
    word: &'a [u8],
    wanted: &'static str,
) -> Result<T, Wrong<'a>>
    ensures { ReadsDefined value result }
{
    match value {
        Some(value) => Ok(value),
        None => Err(Wrong::malformed(word, wanted)),
    }
}

/// What is expected where a line should end.
const END: &str = "the line should end before this word";

/// Refuses a word that is left, in whose place `wanted` is expected.
pub(crate) fn end_or<'a>(mut words: Pieces<'a>, wanted: &'static str) -> Result<(), Wrong<'a>>
    ensures { ReadsDefined (line_end words.entry) result }
{
    match words.next() {
        None => Ok(()),
        Some(word) => Err(Wrong::malformed(word, wanted)),
    }
}

/// Returns the value, if no word is left.
pub(crate) fn last<'a, T: Drop>(value: T, words: Pieces<'a>) -> Result<T, Wrong<'a>>
    ensures { ReadsDefined (if_last value words.entry) result }
{
    end_or(words, END)?;
    Ok(value)
}

/// The number of a slot, 0 to 63.
pub(crate) fn slot<'a>(words: &mut Pieces<'a>) -> Result<usize, Wrong<'a>>
    ensures { Takes (first_as slot_said words.old) result words.new }
{
    let wanted = "the number of a slot, 0 to 63, is wanted";
    match words.next() {
        Some(word) => said(number_below(MAX_SLOTS, word), word, wanted),
        None => Err(Wrong::missing(wanted)),
    }
}

/// The number of a worker, 0 to 15.
pub(crate) fn worker<'a>(words: &mut Pieces<'a>) -> Result<usize, Wrong<'a>>
    ensures { Takes (first_as worker_of words.old) result words.new }
{
    let wanted = "the number of a worker, 0 to 15, is wanted";
    match words.next() {
        Some(word) => said(number_below(MAX_WORKERS, word), word, wanted),
        None => Err(Wrong::missing(wanted)),
    }
}

/// The name of a side.
pub(crate) fn side<'a>(words: &mut Pieces<'a>) -> Result<Side, Wrong<'a>>
    ensures { Takes (first_as side_named words.old) result words.new }
{
    let wanted = "client or target is wanted";
    match words.next() {
        Some(word) => said(Side::named(word), word, wanted),
        None => Err(Wrong::missing(wanted)),
    }
}

/// A count of bytes or of seconds.
pub(crate) fn count<'a>(words: &mut Pieces<'a>) -> Result<usize, Wrong<'a>>
    ensures { Takes (first_as number_of words.old) result words.new }
{
    let wanted = "a number from 0 to 18446744073709551615 without leading zeros is wanted";
    match words.next() {
        Some(word) => said(number(word), word, wanted),
        None => Err(Wrong::missing(wanted)),
    }
}

/// Takes the last word of a line: bytes. A line that goes on is malformed, even if there is no memory.
pub(crate) fn last_bytes<'a>(alloc: Global, mut words: Pieces<'a>) -> Result<Bytes, NotRead<'a>>
    ensures { ReadsBy (λ bytes. bytes) (word_then hex_bytes if_last words.entry) result }
{
    let wanted = "1 to 1024 bytes as pairs of lower-case hexadecimal digits are wanted";
    let Some(word) = words.next() else {
        return Err(NotRead::Malformed(Wrong::missing(wanted)));
    };
    let mut room = [0; MAX_BYTES];
    let Some(length) = decode(word, &mut room) else {
        return Err(NotRead::Malformed(Wrong::malformed(word, wanted)));
    };
    end_or(words, END)?;
    match Vec::from_slice(alloc, &room[..length]) {
        Ok(bytes) => Ok(Bytes::new(bytes)),
        Err(error) => Err(NotRead::from(error)),
    }
}

/// Whether the line's last word is `full`: then a write left no room.
pub(crate) fn is_full<'a>(words: &mut Pieces<'a>) -> Result<bool, Wrong<'a>>
    ensures { ReadsLine (full_of words.old) result words.new }
{
    let Some(word) = words.next() else {
        return Ok(false);
    };
    if is(word, "full") {
        Ok(true)
    } else {
        Err(Wrong::malformed(word, "full, or the end of the line, is wanted"))
    }
}

/// The first word of a line from the left that is wrong, and what is expected there.
#[derive(Drop)]
pub struct Wrong<'a> {
    /// The malformed word, or none if one is missing.
    pub word: Option<&'a [u8]>,
    /// Whether the word is the line's first, with which no line of this kind begins.
    pub is_first: bool,
    /// What is expected in the word's place, for a person.
    pub wanted: &'static str,
}

/// Why a line is not read, if reading it takes memory.
#[derive(Drop)]
pub enum NotRead<'a> {
    /// This word is wrong.
    Malformed(Wrong<'a>),
    /// Memory ran out. The line may be right.
    NoMemory,
}

impl<'a> Wrong<'a> {
    /// No line of this kind begins with this word.
    pub(crate) fn unknown(word: &'a [u8], wanted: &'static str) -> Wrong<'a> {
        Wrong {
            word: Some(word),
            is_first: true,
            wanted,
        }
    }

    /// This is expected in place of a word after the first one.
    pub(crate) fn malformed(word: &'a [u8], wanted: &'static str) -> Wrong<'a> {
        Wrong {
            word: Some(word),
            is_first: false,
            wanted,
        }
    }

    /// The line ends, but this is expected.
    pub(crate) fn missing(wanted: &'static str) -> Wrong<'a> {
        Wrong {
            word: None,
            is_first: false,
            wanted,
        }
    }
}

impl<'a> From<Wrong<'a>> for NotRead<'a> {
    ghost use Rattle.script_text.specs.declared.readers.NotRead.TheVariants.{Malformed};

    ghost from_gives = { λ wrong not_read. not_read ≡ Malformed wrong };

    fn from(wrong: Wrong<'a>) -> NotRead<'a> {
        NotRead::Malformed(wrong)
    }
}

impl<'a> From<AllocError> for NotRead<'a> {
    ghost use Rattle.script_text.specs.declared.readers.NotRead.TheVariants.{NoMemory};

    ghost from_gives = { λ _ not_read. not_read ≡ NoMemory };

    fn from(_error: AllocError) -> NotRead<'a> {
        NotRead::NoMemory
    }
}

/// The number that a text stands for, if it is below a bound.
pub(crate) fn number_below(bound: usize, text: &[u8]) -> Option<usize>
    ensures { result ≡ number_below bound text.now }
{
    let value = number(text)?;
    if value < bound { Some(value) } else { None }
}

/// The number after a key, which ends with its `=`.
pub(crate) fn value_after(key: &[u8], word: &[u8]) -> Option<usize>
    ensures { result ≡ value_after key.now word.now }
{
    number(word.strip_prefix(key)?)
}

/// Decodes a text of lower-case hexadecimal into the front of `room`, and returns how many bytes it stands for, 1 to
/// 1,024. None if it stands for none.
pub(crate) fn decode(text: &[u8], room: &mut [u8; MAX_BYTES]) -> Option<usize>
    ensures value { hex_bytes text.now ≡ option_map (λ length. take length room.new) result }
    ensures range { IfSome result (λ length. length ≤ 1024) }
{
    if text.is_empty() || text.len() > 2 * MAX_BYTES || !is_all_lower_hex(text) {
        return None;
    }
    let length = text.len() / 2;
    if hex::decode_to_slice(text, &mut room[..length]).is_err() {
        return None;
    }
    Some(length)
}

fn is_all_lower_hex(text: &[u8]) -> bool
    ensures { result ≡ list_all is_lower_hex text.now }
{
    text.iter().all(|byte| is_lower_hex(*byte))
}

fn is_lower_hex(byte: u8) -> bool
    ensures { result ≡ is_lower_hex byte }
{
    is_digit(byte) || b'a' <= byte && byte <= b'f'
}
