use crate::addresses::{address_of, decimal_number};
use crate::hints::{Bare, Unit, after_digits, curly, has_blank, level_meant, truth_meant};
use crate::one_line::OneLine;
use crate::table::{AddressRow, Key, NumberRow, Takes};
use std::fmt;
use std::net::{Ipv4Addr, Ipv6Addr};
use toml::Value;

/// What can be wrong with a text that is no address.
#[derive(Clone, Copy)]
enum Kind {
    Blank,
    Named,
    Foreign,
    Scheme,
    Ipv6,
    Slash,
    Name,
    LeadingZero,
    LargeNumber,
    LargePort,
    NoPort,
    Range,
    NoNumber,
}

/// The mistakes that are looked for, in this order, with the words before and after the wrong part.
static KINDS: [(Kind, &str, &str); 13] = [
    (Kind::Blank, "an address has no blanks", ""),
    (Kind::Scheme, "an address alone is wanted, without ", "://"),
    (Kind::Named, "an address alone is wanted, without ", ""),
    (Kind::Foreign, "an address has no ", ""),
    (
        Kind::Ipv6,
        "",
        " is an IPv6 address, and only IPv4 is spoken",
    ),
    (
        Kind::Slash,
        "one address and one port are wanted, without /",
        "",
    ),
    (Kind::Name, "", " is a name, and names are not looked up"),
    (Kind::LeadingZero, "", " has a leading zero"),
    (Kind::LargeNumber, "", " is over 255"),
    (Kind::LargePort, "port ", " is over 65535"),
    (Kind::NoPort, "a port is wanted", ""),
    (
        Kind::Range,
        "one address and one port are wanted, without -",
        "",
    ),
    (Kind::NoNumber, "", " is no port, which has digits only"),
];

/// What is wrong with a text that is no address. None if `KINDS` has no words for it.
fn mistake_in(text: &str) -> Option<Wanted<'_>> {
    for (kind, before, after) in &KINDS {
        if let Some(part) = kind.part_of(text) {
            return Some(Wanted::Words(before, part, after));
        }
    }
    None
}

impl Kind {
    /// The part of a text that is wrong in this way.
    fn part_of(self, text: &str) -> Option<&str> {
        match self {
            Kind::Blank => has_blank(text).then_some(""),
            Kind::Named => name_before(text),
            Kind::Foreign => text.split(is_ascii).find(|part| !part.is_empty()),
            Kind::Scheme => Some(text.split_once("://")?.0),
            Kind::Ipv6 => ipv6_in(text),
            Kind::Slash => text.split_once('/')?.1.split(':').next(),
            _ => self.part_of_address(host_and_port(text)),
        }
    }

    /// The part of a host and a port that is wrong in this way.
    fn part_of_address<'a>(self, (host, port): (&'a str, &'a str)) -> Option<&'a str> {
        match self {
            Kind::Name if is_name(host) => Some(host),
            Kind::LeadingZero if has_leading_zero(port) => Some(port),
            Kind::LeadingZero | Kind::LargeNumber => self.number_in(host),
            Kind::LargePort if is_over(port, 65_535) => Some(port),
            Kind::NoPort if port.is_empty() && is_ipv4(host) => Some(port),
            Kind::NoNumber if is_ipv4(host) => Some(port),
            Kind::Range => match port.split_once('-')? {
                ("", _) => None,
                (_, last) => Some(last),
            },
            _ => None,
        }
    }

    /// The first number of a host that is wrong in this way.
    fn number_in(self, host: &str) -> Option<&str> {
        for number in host.split('.') {
            let is_wrong = match self {
                Kind::LeadingZero => has_leading_zero(number),
                _ => is_over(number, 255),
            };
            if is_wrong {
                return Some(number);
            }
        }
        None
    }
}

/// The name that stands before an address as other programs take it, as in `listen=A:P` or `tcp-listen:P`.
fn name_before(text: &str) -> Option<&str> {
    match text.split_once('=') {
        Some((name, _)) => Some(name),
        None => Some(text.split_once(':')?.0).filter(|name| name.starts_with("tcp")),
    }
}

fn is_ascii(character: char) -> bool {
    character.is_ascii()
}

/// What stands before and after the first `:` of a text. Digits alone are a port.
fn host_and_port(text: &str) -> (&str, &str) {
    match text.split_once(':') {
        Some(parts) => parts,
        None if are_digits(text) => ("", text),
        None => (text, ""),
    }
}

/// The IPv6 address that a text is, or that stands in brackets before a port.
fn ipv6_in(text: &str) -> Option<&str> {
    let address = match text.strip_prefix('[') {
        Some(rest) => rest.split_once(']')?.0,
        None => text,
    };
    match address.parse::<Ipv6Addr>() {
        Ok(_) => Some(address),
        Err(_) => None,
    }
}

fn is_ipv4(text: &str) -> bool {
    text.parse::<Ipv4Addr>().is_ok()
}

/// Whether a text is made of letters, digits, `-`, `_` and `.`, with a letter among them.
fn is_name(text: &str) -> bool {
    text.trim_start_matches(is_in_name).is_empty() && text.contains(is_letter)
}

fn is_in_name(character: char) -> bool {
    is_letter(character) || matches!(character, '0'..='9' | '-' | '_' | '.')
}

fn is_letter(character: char) -> bool {
    character.is_ascii_alphabetic()
}

/// Whether a text has digits only, or is empty.
fn are_digits(text: &str) -> bool {
    after_digits(text).is_empty()
}

/// Returns true if a text is a number with a leading zero, after a sign or none.
pub fn has_leading_zero(text: &str) -> bool {
    let digits = text.strip_prefix(['-', '+']).unwrap_or(text);
    matches!(digits.as_bytes(), [b'0', _, ..]) && are_digits(digits)
}

/// Whether a text is a number over `most`. Digits that do not fit a `u32` are one, too.
fn is_over(text: &str, most: u32) -> bool {
    let is_within = matches!(text.parse::<u32>(), Ok(number) if number <= most);
    are_digits(text) && !text.is_empty() && !is_within
}

/// What is wanted in place of a value that a key does not take.
#[derive(Clone, Copy)]
pub(crate) enum Wanted<'a> {
    /// A whole number from this one to that one.
    Number(u32, u32),
    /// A text in quotes of TOML: the other quote that stands there, if one does, why, the key, and the text.
    Quotes(&'a str, &'static str, Key, &'a str),
    /// A number, without the unit that is typed.
    Bare(Bare),
    /// These words, with a part of a text between them, which is shown on one line.
    Words(&'a str, &'a str, &'static str),
    /// This line is wrong as the parser says.
    Line(&'a str, &'a str),
}

impl<'a> Wanted<'a> {
    pub(crate) fn by(key: Key) -> Wanted<'a> {
        match key.takes() {
            Takes::Address(row) => {
                Wanted::Words("four numbers and a port, as ", row.example, ", are wanted")
            }
            Takes::Number(row) => Wanted::Number(row.low, row.high),
            Takes::Level => {
                Wanted::Words("off, error, warn, info, debug or trace is wanted", "", "")
            }
            Takes::Truth => Wanted::Words("true or false is wanted", "", ""),
        }
    }

    /// What is wanted if a key refuses a value, which is `word` without quotes.
    pub(crate) fn in_place_of(value: &Value, word: &'a str, key: Key) -> Wanted<'a> {
        if value.as_str().is_some() && needs_no_quotes(word, key) {
            Wanted::Words("without quotes: ", word, "")
        } else if is_word(value) {
            Wanted::in_place_of_word(word, key)
        } else {
            Wanted::by(key)
        }
    }

    /// What is wanted if a key refuses a word, as it is typed on a command line.
    pub(crate) fn in_place_of_word(word: &'a str, key: Key) -> Wanted<'a> {
        let mistake = match key.takes() {
            // Only the port of `target` has a lowest one.
            Takes::Address(_) if address_of(word).is_some() => {
                return Wanted::Words("a port from 1 up is wanted", "", "");
            }
            Takes::Address(row) => port_alone(word, row).or(mistake_in(word)),
            Takes::Number(_) if has_leading_zero(word) => mistake_in(word),
            Takes::Number(row) => without_unit(word, row),
            Takes::Level if word.contains(['/', '.']) || word.starts_with("std") => {
                Some(Wanted::Words("the log goes to standard error: 2>> FILE", "", ""))
            }
            Takes::Level => write_instead(level_meant(word)),
            Takes::Truth => write_instead(truth_meant(word)),
        };
        mistake.unwrap_or(Wanted::by(key))
    }

    /// What is wanted if a line has no TOML value for a key. None if an address or a level is wrong otherwise than by
    /// its quotes.
    pub(crate) fn in_place_of_written(written: &'a str, key: Key) -> Option<Wanted<'a>> {
        match key.takes() {
            Takes::Address(_) | Takes::Level if !written.is_empty() => quotes_of(written, key),
            _ => Some(Wanted::in_place_of_word(written, key)),
        }
    }
}

fn write_instead(meant: Option<&'static str>) -> Option<Wanted<'static>> {
    Some(Wanted::Words("write ", meant?, ""))
}

/// Whether a key takes this word as it is, and no text.
fn needs_no_quotes(word: &str, key: Key) -> bool {
    match key.takes() {
        Takes::Number(_) => are_digits(word) && !word.is_empty(),
        Takes::Truth => matches!(word, "true" | "false"),
        _ => false,
    }
}

/// The number that is wanted in place of a word with a unit.
fn without_unit(word: &str, row: &NumberRow) -> Option<Wanted<'static>> {
    let unit = match row.key {
        Key::Ring => Unit::Bytes,
        Key::Idle => Unit::Seconds,
        _ => Unit::Pieces,
    };
    Some(Wanted::Bare(unit.without(word, row.low, row.high)?))
}

fn is_word(value: &Value) -> bool {
    value.as_str().is_some() || value.as_integer().is_some()
}

/// The address that stands for a port alone, or for one after `:` or `*:`. None if the port is too low.
fn port_alone<'a>(word: &'a str, row: &AddressRow) -> Option<Wanted<'a>> {
    let ("" | "*", port) = host_and_port(word) else {
        return None;
    };
    if decimal_number(port)? < row.lowest_port {
        return None;
    }
    Some(Wanted::Words(row.host, port, row.stands_for))
}

/// What is wanted in place of a text that lacks its quotes, or its last one.
fn quotes_of(written: &str, key: Key) -> Option<Wanted<'_>> {
    if let Some((quote, text)) = curly(written) {
        return Some(Wanted::Quotes(quote, " is no quote of TOML", key, text));
    }
    let why = "a text stands in quotes";
    let quote = if written.starts_with('\'') { '\'' } else { '"' };
    match written.split_once(quote) {
        None if key == Key::Log => {
            let text = level_meant(written).unwrap_or(written);
            Some(Wanted::Quotes("", why, key, text))
        }
        None => Some(Wanted::Quotes("", why, key, written)),
        Some(("", rest)) if !rest.contains(quote) => {
            Some(Wanted::Words("a quote is wanted at the end", "", ""))
        }
        Some(_) => None,
    }
}

impl fmt::Display for Wanted<'_> {
    fn fmt<W: fmt::Write>(&self, f: &mut fmt::Formatter<W>) -> fmt::Result {
        match *self {
            Wanted::Number(low, high) => write!(f, "a whole number from {low} to {high} is wanted"),
            Wanted::Quotes(quote, why, key, text) => write_quoted(f, quote, why, key, text),
            Wanted::Bare(bare) => bare.fmt(f),
            Wanted::Words(before, part, after) => {
                let part = OneLine(part);
                write!(f, "{before}{part}{after}")
            }
            Wanted::Line(line, why) => {
                let line = OneLine(line);
                write!(f, "{line}: {why}")
            }
        }
    }
}

fn write_quoted<W: fmt::Write>(
    f: &mut fmt::Formatter<W>,
    quote: &str,
    why: &str,
    key: Key,
    text: &str,
) -> fmt::Result {
    let text = OneLine(text);
    write!(f, "{quote}{why}: {key} = \"{text}\"")
}
