ghost use Rattle.std.specs.{Prelude.{◌≡◌, None}, Str.IsUtf8};
ghost use Rattle.settings.specs.Faults.{IsOfValue};

use crate::SettingsFault;
use crate::hints::{TypedWord, key_near, option_named};
use crate::limits::MAX_LOOKS;
use crate::one_line::OneLine;
use crate::table::{KEY_NAMES, Key};
use crate::wanted::Wanted;
use std::alloc::{AllocError, Global};
use std::fmt;
use toml::Value;

/// The cause of a fault, for a person: the line, what stands there, and what is wanted instead. `bytes` is the text
/// with the fault. `None` if there is no memory for the cause.
pub fn cause(alloc: Global, bytes: &[u8], fault: &SettingsFault) -> Option<String>
    ensures memory { IsUtf8 bytes.now → fault.now ≡ SettingsFault.NoMemory → result ≡ None }
{
    let text = match std::str::from_utf8(bytes) {
        Ok(text) => text,
        Err(error) => {
            let place = Place(Some(line_at(bytes, error.valid_up_to())));
            return told(alloc, place, Wanted::Words("this is not UTF-8", "", ""));
        }
    };
    match fault {
        SettingsFault::NotToml => not_toml(alloc, text),
        SettingsFault::UnknownKey(name) => unknown(alloc, text, name.as_str()),
        SettingsFault::Missing(key) => {
            let wanted = Wanted::by(*key);
            format!(in alloc; "{key}: {wanted}").ok()
        }
        SettingsFault::WrongKind(key)
        | SettingsFault::OutOfRange(key)
        | SettingsFault::BadAddress(key) => refused(alloc, text, *key),
        SettingsFault::NoMemory => None,
    }
}

/// The line, from 1, of the byte at this index.
fn line_at(bytes: &[u8], index: usize) -> usize {
    let mut line = 1usize;
    for byte in bytes.iter().take(index) {
        if *byte == b'\n' {
            line = line.saturating_add(1);
        }
    }
    line
}

/// The line of a text with this number.
fn line_of(text: &str, number: usize) -> &str {
    text.split('\n').nth(number.saturating_sub(1)).unwrap_or("")
}

/// The cause of `NotToml`: the line where the text stops being TOML, and what is wrong there.
fn not_toml(alloc: Global, text: &str) -> Option<String> {
    let Err(error) = toml::table_from_str(alloc, text) else {
        return None;
    };
    let start = error.span()?.start;
    let (line, rest) = (line_at(text.as_bytes(), start), rest_of_line(text, start));
    if let Some(cause) = slip(alloc, text, line, rest) {
        return Some(cause);
    }
    let wrong = line_of(text, line).trim();
    told(alloc, Place(Some(line)), said(error.message(), wrong, rest))
}

/// What is wrong in a line that is not TOML, where `rest` begins. None if only the parser can say it, or there is no
/// memory to find out.
fn slip(alloc: Global, text: &str, line: usize, rest: &str) -> Option<String> {
    let place = Place(Some(line));
    if line_of(text, line).trim_end().contains('\r') {
        let words = Wanted::Words("a line ends in LF, and not in CR alone", "", "");
        return told(alloc, place, words);
    }
    if rest.starts_with("//") || rest.starts_with("/*") {
        let words = Wanted::Words("a comment begins with #", "", "");
        return told(alloc, place, words);
    }
    if rest.starts_with([';', ',']) {
        return told(alloc, place, after_value(rest));
    }
    let (name, written) = line_of(text, line).split_once('=')?;
    if written.starts_with('=') {
        return told(alloc, place, Wanted::Words("one = is wanted", "", ""));
    }
    let name = name.trim();
    match place_of(alloc, text, name)?.0 {
        Some(first) => twice(alloc, place, name, first),
        None => no_value(alloc, place, Key::named(name)?, value_in(written)),
    }
}

fn twice(alloc: Global, place: Place, name: &str, first: usize) -> Option<String> {
    let name = OneLine(name);
    format!(in alloc; "{place}{name} stands in line {first}, too").ok()
}

fn no_value(alloc: Global, place: Place, key: Key, written: &str) -> Option<String> {
    let wanted = Wanted::in_place_of_written(written, key)?;
    not_taken(alloc, place, key, written, wanted)
}

/// What the parser says of the line `wrong`, in which `rest` begins.
fn said<'a>(message: &'a str, wrong: &'a str, rest: &'a str) -> Wanted<'a> {
    if message.starts_with("unexpected key or value") && !rest.is_empty() {
        return after_value(rest);
    }
    let is_no_key = message.starts_with("invalid key") && !wrong.contains('=');
    if is_no_key || message.starts_with("key with no value") {
        return Wanted::Line(wrong, "KEY = VALUE is wanted");
    }
    Wanted::Line(wrong, message)
}

/// This follows a value.
fn after_value(rest: &str) -> Wanted<'_> {
    Wanted::Words("nothing comes after the value: ", rest, "")
}

fn told(alloc: Global, place: Place, words: Wanted<'_>) -> Option<String> {
    format!(in alloc; "{place}{words}").ok()
}

/// Shows a value that a key does not take, and what the key takes.
fn not_taken(
    alloc: Global,
    place: Place,
    key: Key,
    value: &str,
    wanted: Wanted<'_>,
) -> Option<String> {
    let value = OneLine(value);
    format!(in alloc; "{place}{key} = {value}: {wanted}").ok()
}

/// An unknown key, and what to write instead.
fn unknown(alloc: Global, text: &str, name: &str) -> Option<String> {
    let place = place_of(alloc, text, name)?;
    match option_named(name) {
        Some((option, true)) => {
            let value = value_of(alloc, text, name)?;
            option_cause(alloc, place, name, option, value.as_str())
        }
        Some((option, false)) => option_cause(alloc, place, name, option, ""),
        None if is_heading(text, place.0) => {
            let words = Wanted::Words("keys stand at the top: leave the line [", name, "] out");
            told(alloc, place, words)
        }
        None => key_cause(alloc, place, name),
    }
}

/// The value that a text has for a name, as it is typed on a command line.
fn value_of(alloc: Global, text: &str, name: &str) -> Option<String> {
    let Ok(document) = toml::table_from_str(alloc, text) else {
        return None;
    };
    typed(alloc, document.get(name)?)
}

fn option_cause(
    alloc: Global,
    place: Place,
    name: &str,
    option: &str,
    value: &str,
) -> Option<String> {
    let (name, value) = (OneLine(name), Behind(value));
    format!(in alloc; "{place}{name} is an option: relayd run --{option}{value}").ok()
}

fn key_cause(alloc: Global, place: Place, name: &str) -> Option<String> {
    let Ok(near) = key_near(alloc, name) else {
        return None;
    };
    let (near, name) = (Near(near), OneLine(name));
    format!(in alloc; "{place}{name}: {near}one of {KEY_NAMES} is wanted").ok()
}

/// Whether the line with this number begins a table.
fn is_heading(text: &str, line: Option<usize>) -> bool {
    matches!(line, Some(number) if line_of(text, number).trim_start().starts_with('['))
}

/// Prints the key that may be meant, if there is one.
#[derive(Clone, Copy)]
struct Near(Option<Key>);

impl fmt::Display for Near {
    fn fmt<W: fmt::Write>(&self, f: &mut fmt::Formatter<W>) -> fmt::Result {
        match self.0 {
            Some(key) => write!(f, "{key} is meant? "),
            None => Ok(()),
        }
    }
}

/// Prints a value after its option, or nothing.
#[derive(Clone, Copy)]
struct Behind<'a>(&'a str);

impl fmt::Display for Behind<'_> {
    fn fmt<W: fmt::Write>(&self, f: &mut fmt::Formatter<W>) -> fmt::Result {
        if self.0.is_empty() {
            return Ok(());
        }
        let word = TypedWord(self.0);
        write!(f, " {word}")
    }
}

/// Shows a value that a key does not take, and what the key takes.
fn refused(alloc: Global, text: &str, key: Key) -> Option<String> {
    let name = key.name();
    let place = place_of(alloc, text, name)?;
    let Ok(document) = toml::table_from_str(alloc, text) else {
        return None;
    };
    refused_value(alloc, text, place, document.get(name)?, key)
}

fn refused_value(
    alloc: Global,
    text: &str,
    place: Place,
    value: &Value,
    key: Key,
) -> Option<String> {
    let typed = typed(alloc, value)?;
    let wanted = Wanted::in_place_of(value, typed.as_str(), key);
    if let (true, Some(line)) = (value.is_float(), place.0) {
        // Printed, `1e3` would be 1000.0.
        let (_, written) = line_of(text, line).split_once('=')?;
        return not_taken(alloc, place, key, value_in(written), wanted);
    }
    let Ok(shown) = format!(in alloc; "{value}") else {
        return None;
    };
    not_taken(alloc, place, key, shown.as_str(), wanted)
}

/// The cause of a fault of the command line: the argument and its value, as typed, and what is wanted instead.
/// `bytes` is the settings text that the arguments became. `None` if no value is at fault, or memory ran out.
pub fn argument_cause(alloc: Global, bytes: &[u8], fault: &SettingsFault) -> Option<String>
    ensures other { (IsOfValue fault.now → ⊥) → result ≡ None }
{
    let (SettingsFault::WrongKind(key)
    | SettingsFault::OutOfRange(key)
    | SettingsFault::BadAddress(key)) = fault
    else {
        return None;
    };
    let Ok(text) = std::str::from_utf8(bytes) else {
        return None;
    };
    let Ok(document) = toml::table_from_str(alloc, text) else {
        return None;
    };
    refused_argument(alloc, document.get(key.name())?, *key)
}

/// Shows an argument, named as help names it, with a value that it refuses, and what it takes.
fn refused_argument(alloc: Global, value: &Value, key: Key) -> Option<String> {
    let typed = typed(alloc, value)?;
    let wanted = Wanted::in_place_of_word(typed.as_str(), key);
    let typed = TypedWord(typed.as_str());
    let (dashes, name) = key.argument();
    format!(in alloc; "{dashes}{name} {typed}: {wanted}").ok()
}

/// A value as it is typed on a command line: a text has no quotes there.
fn typed(alloc: Global, value: &Value) -> Option<String> {
    match value.as_str() {
        Some(text) => String::from_str(alloc, text).ok(),
        None => format!(in alloc; "{value}").ok(),
    }
}

/// Prints `line N: ` for the line that sets a key, or nothing if that line was not found.
#[derive(Clone, Copy)]
struct Place(Option<usize>);

impl fmt::Display for Place {
    fn fmt<W: fmt::Write>(&self, f: &mut fmt::Formatter<W>) -> fmt::Result {
        match self.0 {
            Some(line) => write!(f, "line {line}: "),
            None => Ok(()),
        }
    }
}

/// The number, from 1, of the line that begins to set a key: the text up to the end of that line, or of a value that
/// spans lines, is TOML that has the key. Only lines with the name as it is are tried, and the text is parsed at most
/// [`MAX_LOOKS`] times. None if there is no memory to find out.
fn place_of(alloc: Global, text: &str, name: &str) -> Option<Place> {
    let mut looks = 0usize;
    let mut end = 0usize;
    let mut number = 0usize;
    // The line that may begin what sets the key.
    let mut begun = None;
    for line in text.split_inclusive('\n') {
        end = end.saturating_add(line.len());
        number = number.saturating_add(1);
        if begun.is_none() && line.contains(name) {
            begun = Some(number);
        }
        if begun.is_some() && looks < MAX_LOOKS {
            looks += 1;
            match sets(alloc, text.get(..end).unwrap_or(""), name) {
                Ok(Some(true)) => return Some(Place(begun)),
                Ok(Some(false)) => begun = None,
                Ok(None) => {}
                Err(_) => return None,
            }
        }
    }
    Some(Place(None))
}

/// Whether a text sets this name at its top level. None if the text is not TOML, as when a value has not ended.
fn sets(alloc: Global, text: &str, name: &str) -> Result<Option<bool>, AllocError> {
    match toml::table_from_str(alloc, text) {
        Ok(document) => Ok(Some(document.get(name).is_some())),
        Err(error) if error.is_memory() => Err(AllocError),
        Err(_) => Ok(None),
    }
}

/// What a line has from this byte of a text on.
fn rest_of_line(text: &str, index: usize) -> &str {
    line_of(text.get(index..).unwrap_or(""), 1).trim()
}

/// The value after the `=` of a line. A comment is left out, unless the value begins with a quote.
fn value_in(written: &str) -> &str {
    let written = written.trim();
    match written.split_once('#') {
        Some((value, _)) if !written.starts_with(['"', '\'']) => value.trim_end(),
        _ => written,
    }
}
