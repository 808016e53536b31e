use crate::machine::Machine;
use crate::running::MAX_SHOWN;
use crate::{Fault, Script, parse};
use input::Pieces;
use script_text::{Header, Line, Lines, NotRead, Wrong, read_event, read_header, read_step};
use std::alloc::Global;
use tools::{Causes, MAX_SCRIPT};
use world_text::{Page, Piece};

/// The commands that read no script are not in mind where a program without input starts relayd without a word.
const NO_WORLD: &str =
    "no line begins with flow or world; without a command relayd reads a script (relayd --help)";

/// Adds the cause of a script's fault, if one is known and there is memory for it.
pub(crate) fn add_cause<C: Causes>(alloc: Global, text: &[u8], fault: Fault, causes: &C) {
    if let Some(cause) = cause(alloc, text, fault) {
        causes.add(cause.as_str());
    }
}

/// The cause of a fault, for a person, on one line: which word is malformed and what is expected there, or why the
/// step is not allowed. `text` is the script. None if nothing more is known, or there is no memory for it.
fn cause(alloc: Global, text: &[u8], fault: Fault) -> Option<String> {
    match fault {
        Fault::TooLong => String::from_str(alloc, "a script has at most 1048576 bytes").ok(),
        Fault::NoWorld => String::from_str(alloc, NO_WORLD).ok(),
        Fault::Malformed(number) => malformed(alloc, text, number),
        Fault::NotAllowed(number, word) => {
            let reason = not_allowed(alloc, text, number)?;
            format!(in alloc; "line {number}: {word}: {reason}").ok()
        }
        Fault::NoMemory => None,
    }
}

/// The cause of a malformed line: its first word, the malformed word if that is another, and what is expected there.
fn malformed(alloc: Global, text: &[u8], number: u64) -> Option<String> {
    let (line, wrong) = wrong_line(alloc, text, number)?;
    let mut cause = Page::new(alloc);
    cause.put(&[Piece::Named("line ", number), Piece::Text(": ")]);
    if let Some(unseen) = unseen_in(line, &wrong) {
        cause.put(&[Piece::Text(unseen)]);
        return cause.finish().ok();
    }
    if !wrong.is_first {
        show(&mut cause, Pieces::new(line, b' ').next().unwrap_or(b""));
        cause.put(&[Piece::Text(": ")]);
    }
    match wrong.word {
        Some(word) => quote(&mut cause, word),
        None => cause.put(&[Piece::Text("a word is missing: ")]),
    }
    cause.put(&[Piece::Text(wrong.wanted)]);
    cause.finish().ok()
}

/// What is wrong in a line that nobody sees, if that makes its word wrong.
fn unseen_in(line: &[u8], wrong: &Wrong<'_>) -> Option<&'static str> {
    let word = wrong.word?;
    if word.starts_with(b"\xef\xbb\xbf") {
        Some("a byte order mark stands before the script")
    } else if word.ends_with(b"\r") && line.ends_with(word) {
        Some("the line ends in CR LF")
    } else if !word.is_empty() {
        None
    } else if line.ends_with(b" ") {
        Some("the line ends in a blank")
    } else {
        Some("a blank stands before another, or begins the line")
    }
}

/// Adds a word of a script in quotes, without what follows the 64th byte.
fn quote(cause: &mut Page, word: &[u8]) {
    let end = if word.len() > MAX_SHOWN {
        "..\": "
    } else {
        "\": "
    };
    cause.put(&[Piece::Text("\"")]);
    show(cause, word);
    cause.put(&[Piece::Text(end)]);
}

/// Adds the first 64 bytes of a word, escaped where they are not printable ASCII.
fn show(cause: &mut Page, word: &[u8]) {
    for byte in &word[..word.len().min(MAX_SHOWN)] {
        let byte = [*byte];
        match std::str::from_utf8(&byte) {
            Ok(text) if byte[0].is_ascii_graphic() => cause.put(&[Piece::Text(text)]),
            _ => cause.put(&[Piece::Text("\\x"), Piece::Bytes(&byte)]),
        }
    }
}

/// The line with this number, and what is wrong with it. The line is read again, by the header, which decides how
/// lines are read.
fn wrong_line(alloc: Global, text: &[u8], number: u64) -> Option<(&[u8], Wrong<'_>)> {
    if text.len() > MAX_SCRIPT {
        return None;
    }
    let mut lines = Lines::new(text);
    let first = lines.next()?;
    match read_header(first.text) {
        Ok(header) => wrong_behind(alloc, &header, numbered(lines, number)?.text),
        Err(wrong) if first.number == number => Some((first.text, wrong)),
        Err(_) => None,
    }
}

fn wrong_behind<'a>(
    alloc: Global,
    header: &Header,
    line: &'a [u8],
) -> Option<(&'a [u8], Wrong<'a>)> {
    let not_read = match header {
        Header::Flow(_) => read_step(alloc, line).err(),
        Header::World(_) => read_event(alloc, line).err(),
    };
    match not_read {
        Some(NotRead::Malformed(wrong)) => Some((line, wrong)),
        Some(NotRead::NoMemory) | None => None,
    }
}

fn numbered(mut lines: Lines<'_>, number: u64) -> Option<Line<'_>> {
    for _line in 0..number {
        let line = lines.next()?;
        if line.number == number {
            return Some(line);
        }
    }
    None
}

/// Why the step of this line is not allowed in the state before it.
fn not_allowed(alloc: Global, text: &[u8], number: u64) -> Option<&'static str> {
    match parse(alloc, text).ok()? {
        Script::Flow(script) => refused(script.open(alloc).ok()?, script.steps(), number),
        Script::World(script) => refused(script.open(alloc).ok()?, script.events(), number),
    }
}

/// Why the step of this line is not allowed. None if it is not the first step that is refused.
fn refused<M: Machine>(mut machine: M, steps: &[M::Step], number: u64) -> Option<&'static str> {
    for step in steps {
        match machine.make(step) {
            Ok(()) => {}
            Err(Fault::NotAllowed(line, _)) if line == number => return Some(machine.reason(step)),
            Err(_) => return None,
        }
    }
    None
}
