//! The settings that the arguments of `relayd forward` give. They become the text of a settings file, so that they
//! have the same ranges, defaults and faults.

use clap::{Arg, ArgMatches};
use settings::{Key, ROWS, Row, has_leading_zero};
use std::alloc::{AllocError, Global};
use std::fmt;

/// Adds an argument for each setting.
pub(crate) fn add_settings<'a>(
    alloc: Global,
    arguments: &mut Vec<Arg<'a>>,
) -> Result<(), AllocError> {
    for row in all_arguments() {
        arguments.push(argument(alloc, *row))?;
    }
    Ok(())
}

/// The argument of a setting. Help shows its default.
fn argument<'a>(alloc: Global, row: Row) -> Arg<'a> {
    let argument = without_default(alloc, row);
    match row.key.default() {
        Some(default) => argument.default_value(default),
        None => argument,
    }
}

fn without_default<'a>(alloc: Global, row: Row) -> Arg<'a> {
    let argument = Arg::new(alloc, row.key.name())
        .value_name(row.value_name)
        .help(row.help);
    match row.option {
        // A negative number is refused as out of range, not as an unknown option.
        Some(option) => argument.long(option).allow_negative_numbers(true),
        None => argument.required(true),
    }
}

fn all_arguments() -> &'static [Row] {
    &ROWS
}

/// Whether the option of this name is a setting.
pub(crate) fn is_setting(option: &str) -> bool {
    for row in all_arguments() {
        if row.option == Some(option) {
            return true;
        }
    }
    false
}

/// The text of a settings file that says the same as the arguments.
pub(crate) fn settings_text(alloc: Global, matches: &ArgMatches<'_>) -> Result<String, AllocError> {
    let mut text = String::new(alloc);
    for row in all_arguments() {
        if let Some(value) = matches.get_str(row.key.name()) {
            add_line(alloc, &mut text, row.key, value)?;
        }
    }
    Ok(text)
}

fn add_line(alloc: Global, text: &mut String, key: Key, value: &str) -> Result<(), AllocError> {
    let line = setting_text(alloc, key, value)?;
    text.push_str(line.as_str())?;
    text.push('\n')
}

/// One line of a settings file.
pub fn setting_text(alloc: Global, key: Key, value: &str) -> Result<String, AllocError> {
    let line = Assignment { key, value };
    format!(in alloc; "{line}")
}

/// Prints a key and its typed value as TOML. A whole number without leading zeros stays a number, and `true` and
/// `false` stay as they are for a key that takes them. Anything else becomes a text in quotes.
#[derive(Clone, Copy)]
struct Assignment<'a> {
    key: Key,
    value: &'a str,
}

impl Assignment<'_> {
    fn is_true_or_false(&self) -> bool {
        self.key.takes_truth() && matches!(self.value, "true" | "false")
    }
}

impl fmt::Display for Assignment<'_> {
    fn fmt<W: fmt::Write>(&self, f: &mut fmt::Formatter<W>) -> fmt::Result {
        let (key, value) = (self.key, self.value);
        if let Some(number) = whole_number(value) {
            return write!(f, "{key} = {number}");
        }
        let quote = if self.is_true_or_false() { "" } else { "\"" };
        let text = Escaped(value);
        write!(f, "{key} = {quote}{text}{quote}")
    }
}

/// The whole number that an argument is, if it is one without leading zeros.
pub fn whole_number(value: &str) -> Option<i64> {
    if has_leading_zero(value) {
        return None;
    }
    value.parse::<i64>().ok()
}

/// A text within the quotes of TOML.
#[derive(Clone, Copy)]
struct Escaped<'a>(&'a str);

impl fmt::Display for Escaped<'_> {
    fn fmt<W: fmt::Write>(&self, f: &mut fmt::Formatter<W>) -> fmt::Result {
        for character in self.0.chars() {
            if matches!(character, '"' | '\\') {
                f.write_char('\\')?;
            }
            if character.is_control() {
                write!(f, "\\u{:04X}", character as u32)?;
            } else {
                f.write_char(character)?;
            }
        }
        Ok(())
    }
}
