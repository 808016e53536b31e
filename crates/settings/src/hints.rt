//! What is meant by what people type.

use crate::one_line::OneLine;
use crate::table::{Key, ROWS};
use std::alloc::{AllocError, Global};
use std::fmt;
use strsim::jaro;

/// The most bytes of a name that is compared with the keys: in a long one there are letters of any key.
const MAX_NAME: usize = 16;

/// The options of `relayd run` that are no settings, and whether a value comes after them.
static OPTIONS: [(&str, bool); 8] = [
    ("connect-timeout", true),
    ("keepalive", true),
    ("log-clients", false),
    ("record", true),
    ("record-size", true),
    ("stats", true),
    ("stats-file", true),
    ("until-eof", false),
];

/// The option that a name stands for, `_` for `-` or not, and whether a value comes after it.
pub(crate) fn option_named(name: &str) -> Option<(&'static str, bool)> {
    for (option, has_value) in &OPTIONS {
        if is_option(name, option) {
            return Some((option, *has_value));
        }
    }
    None
}

fn is_option(name: &str, option: &str) -> bool {
    name.split(['_', '-']).eq(option.split('-'))
}

/// What other programs call a key.
static KEYS: [(&str, Key); 6] = [
    ("bind port", Key::Listen),
    ("backend upstream dest destination", Key::Target),
    ("threads", Key::Workers),
    ("maxconn", Key::Slots),
    ("buffer", Key::Ring),
    ("timeout", Key::Idle),
];

/// What a word stands for in a table whose rows have several words, in capitals or not.
fn meant<T: Copy>(word: &str, table: &[(&str, T)]) -> Option<T> {
    for (words, value) in table {
        if words
            .split(' ')
            .any(|typed| word.eq_ignore_ascii_case(typed))
        {
            return Some(*value);
        }
    }
    None
}

/// The key that is meant by a name, or whose name is nearest to it, if any is near.
pub(crate) fn key_near(alloc: Global, name: &str) -> Result<Option<Key>, AllocError> {
    let mut nearest = None;
    let mut least = 0.7;
    if name.len() > MAX_NAME {
        return Ok(None);
    }
    if let Some(key) = meant(name, &KEYS) {
        return Ok(Some(key));
    }
    for row in &ROWS {
        if name.eq_ignore_ascii_case(row.name) {
            return Ok(Some(row.key));
        }
        let likeness = jaro(alloc, name, row.name)?;
        if likeness > least {
            least = likeness;
            nearest = Some(row.key);
        }
    }
    Ok(nearest)
}

/// Words that are typed for a level, and for a truth value.
static LEVELS: [(&str, &str); 6] = [
    ("off none", "off"),
    ("error err", "error"),
    ("warn warning", "warn"),
    ("info notice", "info"),
    ("debug verbose", "debug"),
    ("trace all", "trace"),
];

static TRUTHS: [(&str, &str); 2] = [("true yes on", "true"), ("false no off", "false")];

/// The name of the level that is meant by a word that is none: in capitals, or another word.
pub(crate) fn level_meant(word: &str) -> Option<&'static str> {
    meant(word, &LEVELS)
}

/// The truth value that is meant by a word that is none.
pub(crate) fn truth_meant(word: &str) -> Option<&'static str> {
    meant(word, &TRUTHS)
}

/// What a number counts that is often typed with a unit after it.
#[derive(Clone, Copy)]
pub enum Unit {
    Seconds,
    Bytes,
    /// Anything else, in thousands.
    Pieces,
}

/// The units that are typed, and how many seconds, bytes or pieces each is.
static SECONDS: [(&str, u32); 4] = [
    ("s sec second seconds", 1),
    ("m min", 60),
    ("h", 3_600),
    ("d", 86_400),
];

static BYTES: [(&str, u32); 4] = [
    ("b", 1),
    ("k kb kib", 1_024),
    ("m mb mib", 1_048_576),
    ("g gb gib", 1_073_741_824),
];

static PIECES: [(&str, u32); 1] = [("k", 1_000)];

/// What follows the digits with which a text begins.
pub(crate) fn after_digits(text: &str) -> &str {
    text.trim_start_matches(['0', '1', '2', '3', '4', '5', '6', '7', '8', '9'])
}

impl Unit {
    fn table(self) -> &'static [(&'static str, u32)] {
        match self {
            Unit::Seconds => &SECONDS,
            Unit::Bytes => &BYTES,
            Unit::Pieces => &PIECES,
        }
    }

    /// The number that a word with a unit stands for.
    fn number_in(self, word: &str) -> Option<u32> {
        let unit = after_digits(word);
        let factor = meant(unit.trim_start(), self.table())?;
        let Ok(number) = word.strip_suffix(unit)?.parse::<u32>() else {
            return None;
        };
        number.checked_mul(factor)
    }

    /// What to type for a word with a unit, if that is a number in this range.
    pub fn without(self, word: &str, low: u32, high: u32) -> Option<Bare> {
        let number = self.number_in(word)?;
        (low <= number && number <= high).then_some(Bare { unit: self, number })
    }
}

/// A number as it is wanted: without its unit.
#[derive(Clone, Copy)]
pub struct Bare {
    unit: Unit,
    number: u32,
}

impl fmt::Display for Bare {
    fn fmt<W: fmt::Write>(&self, f: &mut fmt::Formatter<W>) -> fmt::Result {
        let (number, unit) = (self.number, self.unit);
        let unit = match unit {
            Unit::Seconds => "seconds",
            Unit::Bytes => "bytes",
            Unit::Pieces => "a number",
        };
        write!(f, "{unit}, without a unit: {number}")
    }
}

/// A word of a command line on one line: in quotes if it is empty or has blanks, which would not be seen.
#[derive(Clone, Copy)]
pub struct TypedWord<'a>(pub &'a str);

impl fmt::Display for TypedWord<'_> {
    fn fmt<W: fmt::Write>(&self, f: &mut fmt::Formatter<W>) -> fmt::Result {
        let word = OneLine(self.0);
        let quote = if self.0.is_empty() || has_blank(self.0) {
            "'"
        } else {
            ""
        };
        write!(f, "{quote}{word}{quote}")
    }
}

/// Whether a text has a blank of any kind, as one that does not break a line.
pub(crate) fn has_blank(text: &str) -> bool {
    text.contains(char::is_whitespace)
}

/// The quote with which a text begins that is none of TOML, and the text without its quotes.
pub(crate) fn curly(written: &str) -> Option<(&str, &str)> {
    let quote = written.strip_suffix(written.strip_prefix(is_curly)?)?;
    Some((quote, written.trim_matches(is_curly)))
}

fn is_curly(character: char) -> bool {
    matches!(
        character,
        '“' | '”' | '„' | '‟' | '‘' | '’' | '‚' | '«' | '»' | '`' | '´'
    )
}
