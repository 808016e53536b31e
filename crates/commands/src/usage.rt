//! What is printed of the command line: help, the version, and why it is refused.

use crate::command_line::read_command;
use crate::tips::find_tip;
use clap::Error;
use settings::{ShownCharacter, is_unseen};
use std::alloc::{AllocError, Global};
use std::fmt;
use std::io::Write;
use strsim::osa_distance;

/// The most columns of a line of help.
const COLUMNS: usize = 80;

/// The most columns by which the rest of a broken line is indented.
const MOST_INDENT: usize = 40;

/// Prints help or the version. Returns false if that cannot be written.
pub fn print_answer(
    alloc: Global,
    error: &Error,
    writer: &mut impl Write,
) -> Result<bool, AllocError> {
    let text = format!(in alloc; "{error}")?;
    let text = Wrapped(text.as_str());
    Ok(write!(writer, "{text}").is_ok() && writer.flush().is_ok())
}

/// Prints why arguments are refused. If one has characters that nobody sees, the parser is asked again, with these
/// escaped.
pub fn print_refused(alloc: Global, arguments: &[String], error: &Error, errors: &mut impl Write) {
    if arguments
        .iter()
        .any(|argument| has_unseen(argument.as_str()))
    {
        if let Ok(escaped) = escape_all(alloc, arguments) {
            if let Err(error) = read_command(alloc, escaped.as_slice()) {
                print_error(alloc, &error, escaped.as_slice(), errors);
                return;
            }
        }
    }
    print_error(alloc, error, arguments, errors);
}

fn has_unseen(text: &str) -> bool {
    text.chars().any(|character| is_unseen(character))
}

fn escape_all(alloc: Global, arguments: &[String]) -> Result<Vec<String>, AllocError> {
    let mut all = Vec::new(alloc);
    for argument in arguments {
        let argument = Escaped(argument.as_str());
        all.push(format!(in alloc; "{argument}")?)?;
    }
    Ok(all)
}

#[derive(Clone, Copy)]
struct Escaped<'a>(&'a str);

impl fmt::Display for Escaped<'_> {
    fn fmt<W: fmt::Write>(&self, f: &mut fmt::Formatter<W>) -> fmt::Result {
        for character in self.0.chars() {
            let shown = ShownCharacter(character);
            write!(f, "{shown}")?;
        }
        Ok(())
    }
}

/// Prints why arguments are refused. What to type instead stands below the first paragraph, in place of the parser's
/// own tip.
fn print_error(alloc: Global, error: &Error, arguments: &[String], errors: &mut impl Write) {
    let Ok(text) = format!(in alloc; "{error}") else {
        // If this cannot be written, only the status is left to report it.
        let _ = write!(errors, "{error}");
        return;
    };
    let Some((why, own, rest)) = parts_of(text.as_str()) else {
        let _ = write!(errors, "{text}");
        return;
    };
    let refused = why.split('\'').nth(1).unwrap_or("");
    let _ = match find_tip(alloc, error.kind(), refused, arguments) {
        Some(tip) => write!(errors, "{why}\n\n  tip: {tip}\n\n{rest}"),
        None if is_near(alloc, refused, own) => write!(errors, "{why}\n\n{own}\n\n{rest}"),
        None => write!(errors, "{why}\n\n{rest}"),
    };
}

/// Whether the parser's tip names, as the last word in it, one that is near to the refused one. So that is no tip to
/// pass an argument as a value, since no value looks like an option.
fn is_near(alloc: Global, refused: &str, tip: &str) -> bool {
    let Some(named) = tip.rsplit('\'').nth(1) else {
        return false;
    };
    matches!(osa_distance(alloc, refused, named), Ok(0..=2))
}

/// The parts of what the parser says, whose errors have no data but their kind: the first paragraph, which is why
/// arguments are refused; the first of its tips, if it has any; and what comes after these.
fn parts_of(text: &str) -> Option<(&str, &str, &str)> {
    let (why, rest) = text.split_once("\n\n")?;
    match rest.split_once("\n\n") {
        Some((tips, rest)) if tips.starts_with("  tip:") => {
            Some((why, tips.split('\n').next()?, rest))
        }
        _ => Some((why, "", rest)),
    }
}

/// A text whose long lines are broken between words. The rest of a line stands below an option's description.
#[derive(Clone, Copy)]
struct Wrapped<'a>(&'a str);

impl fmt::Display for Wrapped<'_> {
    fn fmt<W: fmt::Write>(&self, f: &mut fmt::Formatter<W>) -> fmt::Result {
        let mut is_first = true;
        for line in self.0.split('\n') {
            if !is_first {
                f.write_char('\n')?;
            }
            is_first = false;
            write_line(f, line)?;
        }
        Ok(())
    }
}

fn write_line<W: fmt::Write>(f: &mut fmt::Formatter<W>, line: &str) -> fmt::Result {
    if line.chars().count() <= COLUMNS {
        return f.write_str(line);
    }
    let indent = indent_of(line);
    let mut column = 0usize;
    let mut is_first = true;
    for word in line.split(' ') {
        let length = word.chars().count();
        if length > 0 && column > indent && column.saturating_add(length) >= COLUMNS {
            f.write_char('\n')?;
            write_spaces(f, indent)?;
            column = indent;
        } else if !is_first {
            f.write_char(' ')?;
            column = column.saturating_add(1);
        }
        is_first = false;
        f.write_str(word)?;
        column = column.saturating_add(length);
    }
    Ok(())
}

fn write_spaces<W: fmt::Write>(f: &mut fmt::Formatter<W>, many: usize) -> fmt::Result {
    for _ in 0..many {
        f.write_char(' ')?;
    }
    Ok(())
}

/// The column of an option's description, or else that of the line's first word.
fn indent_of(line: &str) -> usize {
    let rest = line.trim_start();
    let lead = line.len().saturating_sub(rest.len());
    let described = match rest.split_once("  ") {
        Some((_, about)) => line.len().saturating_sub(about.trim_start().len()),
        None => lead,
    };
    described.min(MOST_INDENT)
}
