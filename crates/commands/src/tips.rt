//! What to type in place of words that are refused.

use crate::forwarding::is_setting;
use crate::rows::{Form, form_of, is_command, takes_value};
use clap::error::ErrorKind;
use std::alloc::Global;

/// Commands, `relayd` for none; what the parser refuses after one, as it shows that in quotes; and what to type or do.
static TIPS: [&str; 20] = [
    "relayd run forward check sim replay help: version --version -V => relayd --version",
    "run forward check: -v --verbose --debug => --log debug",
    "sim: -v --verbose --debug => --each",
    "replay: -v --verbose --debug => --steps",
    "run forward check: -q --quiet --silent => --log warn",
    "run forward check: --log-file --logfile --access-log --error-log => the log goes to standard error: 2>> FILE",
    "run check: -f -C --file --conf => --config FILE",
    "relayd forward: -c --config => relayd run --config FILE",
    "run forward check: --record-file => --record FILE",
    "run forward check: --stats-interval => --stats SECONDS",
    "forward: --listen --target --from --to --bind -L -p => relayd forward LISTEN TARGET, without option names",
    "forward: --proxy => --proxy true, or --proxy false",
    "replay: --trace => relayd-trace FILE > trace.json",
    "relayd run forward: test validate config --check --test -t --dry-run => relayd check --config FILE",
    "relayd help: start serve server listen proxy connect => relayd run --config FILE, or relayd forward LISTEN TARGET",
    "relayd: status stats ps list sessions show => a running relay takes no commands; it logs counts with --stats",
    "relayd: stop kill => a running relay takes no commands; a signal ends it (relayd(1), SIGNALS)",
    "relayd: drain => relayd-drain runs a relay that a signal drains (man relayd-drain)",
    "relayd: reload restart replace => a running relay takes no commands; a new one can take its place (OPERATIONS.md)",
    "help: relayd-drain drain => man relayd-drain",
];

/// What to type or do in place of refused arguments, if that is likely enough, and there is memory for it. The first is
/// the program's own name.
pub(crate) fn find_tip(
    alloc: Global,
    kind: ErrorKind,
    refused: &str,
    arguments: &[String],
) -> Option<String> {
    let first = word_at(arguments, 1);
    if let Some(tip) = known_tip(first, refused) {
        return format!(in alloc; "{tip}").ok();
    }
    let is_missing = kind == ErrorKind::MissingRequiredArgument;
    for number in 1..arguments.len() {
        let (before, word) = (word_at(arguments, number - 1), word_at(arguments, number));
        let tip = if is_missing {
            tip_of_given(alloc, before, word)
        } else {
            tip_of_word(alloc, refused, before, word)
        };
        if tip.is_some() {
            return tip;
        }
    }
    tip_of_command(alloc, first, refused, arguments)
}

/// The argument with this number, or an empty text.
fn word_at(arguments: &[String], number: usize) -> &str {
    match arguments.get(number) {
        Some(word) => word.as_str(),
        None => "",
    }
}

fn known_tip(first: &str, refused: &str) -> Option<&'static str> {
    let command = if is_command(first) { first } else { "relayd" };
    let refused = refused.split(' ').next()?;
    for row in &TIPS {
        let (typed, tip) = row.split_once(" => ")?;
        let (commands, words) = typed.split_once(": ")?;
        if has_word(commands, command) && has_word(words, refused) {
            return Some(tip);
        }
    }
    None
}

fn has_word(words: &str, wanted: &str) -> bool {
    words.split(' ').any(|word| word == wanted)
}

/// What to type where a word begins with a dash, as web pages show hyphens, or with one hyphen for two, or where an
/// option takes no value.
fn tip_of_word(alloc: Global, refused: &str, before: &str, word: &str) -> Option<String> {
    let bare = word.trim_start_matches(['–', '—', '―', '−', '‐', '‑']);
    let name = bare.strip_prefix('-').unwrap_or(bare);
    let hyphens = if name.len() > 1 { "--" } else { "-" };
    let is_wrong = name.len() < word.len() && !word.starts_with(hyphens);
    let option = name.split('=').next()?;
    if is_wrong && (bare.len() < word.len() || is_setting(option) || form_of(option).is_some()) {
        return format!(in alloc; "hyphens are wanted: {hyphens}{name}").ok();
    }
    if word != refused || !matches!(form_of(before.strip_prefix("--")?), Some(Form::Flag(_))) {
        return None;
    }
    format!(in alloc; "{before} takes no value").ok()
}

/// What to type where an argument is missing: an option has taken it, or two addresses stand in one word.
fn tip_of_given(alloc: Global, before: &str, word: &str) -> Option<String> {
    let option = before.strip_prefix("--").unwrap_or("");
    if !takes_value(option) {
        return two_in(alloc, word);
    }
    let is_unfit = match option {
        "script" | "timeline" => !word.starts_with(|it: char| it.is_ascii_digit()),
        _ => word.contains(':'),
    };
    if !is_unfit {
        return None;
    }
    format!(in alloc; "{before} took {word} as its value").ok()
}

/// The two addresses in a word, as `A B`, `A,B`, `A->B`, or with `:` between them, where the first may be a port alone.
fn two_in(alloc: Global, word: &str) -> Option<String> {
    let wanted = "two arguments are wanted: relayd forward";
    if let Some((listen, target)) = word.split_once("->").or(word.split_once([' ', ','])) {
        return format!(in alloc; "{wanted} {listen} {target}").ok();
    }
    let (first, rest) = word.split_once(':')?;
    let (second, last) = rest.split_once(':')?;
    match last.split_once(':') {
        None if is_port(first) => format!(in alloc; "{wanted} 0.0.0.0:{first} {rest}").ok(),
        Some((_, port)) if is_port(port) && is_port(second) => {
            format!(in alloc; "{wanted} {first}:{second} {last}").ok()
        }
        _ => None,
    }
}

fn is_port(text: &str) -> bool {
    text.parse::<u16>().is_ok()
}

fn tip_of_command(
    alloc: Global,
    first: &str,
    refused: &str,
    arguments: &[String],
) -> Option<String> {
    let name = refused.strip_prefix("--").unwrap_or("");
    let second = word_at(arguments, 2);
    let is_file = !second.is_empty() && !second.starts_with('-');
    match first {
        "run" | "check" if is_setting(name) || matches!(name, "listen" | "target") => {
            format!(in alloc;
                "'{refused}' is a setting: it stands in the file, or is an argument of 'relayd forward'"
            ).ok()
        }
        "run" | "check" if is_file => format!(in alloc; "relayd {first} --config {second}").ok(),
        "sim" if is_file => format!(in alloc; "relayd sim < {second}").ok(),
        "replay" if refused.is_empty() => {
            format!(in alloc; "for standard input write /dev/stdin").ok()
        }
        "help" => format!(in alloc; "man relayd, or man relayd.toml").ok(),
        "forward" => tip_of_addresses(alloc, second, word_at(arguments, 3), word_at(arguments, 4)),
        _ if first.ends_with(".toml") => format!(in alloc; "relayd run --config {first}").ok(),
        _ if first.contains(':') && second.contains(':') => {
            format!(in alloc; "relayd forward {first} {second}").ok()
        }
        _ => None,
    }
}

/// What to type where `forward` has more words than two addresses.
fn tip_of_addresses(alloc: Global, listen: &str, second: &str, target: &str) -> Option<String> {
    if is_port(second) && !listen.contains(':') {
        return format!(in alloc; "an address and its port are one word: {listen}:{second}").ok();
    }
    if !matches!(second, "to" | "->" | "=>") {
        return None;
    }
    format!(in alloc; "relayd forward {listen} {target}").ok()
}
