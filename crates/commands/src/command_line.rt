//! The command that the words name.

use crate::forwarding::{add_settings, settings_text};
use crate::rows::{ArgumentRow, CommandRow, Form, commands, relay_arguments};
use clap::{Arg, ArgMatches, Error};
use std::alloc::{AllocError, Global};

/// The version that `--version` prints.
pub const VERSION: &str = "0.1.0";

/// A command of the program.
#[derive(Drop)]
pub enum Command<'a> {
    /// Run the script on standard input, and show each step if `each`.
    Simulate { each: bool },
    /// Print the settings of such a relay, and look whether it can be started.
    Check(Relay<'a>),
    /// Serve.
    Serve(Relay<'a>),
    /// Replay the recording in a file.
    Replay(Replayed<'a>),
}

/// What a relay is started with.
#[derive(Drop)]
pub struct Relay<'a> {
    pub settings: Source<'a>,
    /// The file to record into, if one is named.
    pub record: Option<&'a str>,
    /// The file into which statistics are written, if one is named.
    pub stats_file: Option<&'a str>,
    pub extras: TypedExtras<'a>,
}

/// Where settings come from.
#[derive(Drop)]
pub enum Source<'a> {
    /// This file, and the level in place of the file's `log`, if one is named.
    File(&'a str, Option<&'a str>),
    /// The text that the arguments give.
    Arguments(String),
}

/// The other options of a relay, as they were typed.
#[derive(Clone, Copy)]
pub struct TypedExtras<'a> {
    pub stats: Option<&'a str>,
    pub until_eof: bool,
    pub connect_timeout: Option<&'a str>,
    pub keepalive: Option<&'a str>,
    pub log_clients: bool,
    pub record_size: Option<&'a str>,
}

/// What is replayed, and what is printed of it.
#[derive(Clone, Copy)]
pub struct Replayed<'a> {
    pub path: &'a str,
    /// The slot and generation of the connection whose script is wanted, or of the one whose records are.
    pub script: Option<&'a str>,
    pub timeline: Option<&'a str>,
    /// Whether the end of each connection is wanted, and whether what happened on the machine is.
    pub ends: bool,
    pub steps: bool,
    /// Whether the relay must have come to rest, with nothing left to do.
    pub rests: bool,
}

/// The command that the arguments name; the first argument is the program's own name.
///
/// An error is a usage text, or has the kind `OutOfMemory`. The text is the requested help or version, or why the
/// arguments are refused. Nothing has been printed then.
pub fn read_command<'a>(alloc: Global, arguments: &'a [String]) -> Result<Command<'a>, Error> {
    let matches = relayd(alloc)?.try_get_matches_from(arguments)?;
    command_of(alloc, &matches)
}

/// The command that is chosen; the simulator if none is.
fn command_of<'a>(alloc: Global, matches: &ArgMatches<'a>) -> Result<Command<'a>, Error> {
    let Some((name, matches)) = matches.subcommand() else {
        return Ok(Command::Simulate { each: false });
    };
    Ok(match name {
        "forward" => {
            let settings = Source::Arguments(settings_text(alloc, matches)?);
            Command::Serve(relay_of(settings, matches))
        }
        "run" => Command::Serve(relay_of(file_of(matches), matches)),
        "check" => Command::Check(relay_of(file_of(matches), matches)),
        "replay" => Command::Replay(replay_of(matches)),
        _ => Command::Simulate {
            each: matches.get_flag("each"),
        },
    })
}

/// The value of an argument that the parser requires.
fn needed<'a>(matches: &ArgMatches<'a>, name: &str) -> &'a str {
    matches.get_str(name).unwrap_or("")
}

fn file_of<'a>(matches: &ArgMatches<'a>) -> Source<'a> {
    Source::File(needed(matches, "config"), matches.get_str("log"))
}

fn relay_of<'a>(settings: Source<'a>, matches: &ArgMatches<'a>) -> Relay<'a> {
    Relay {
        settings,
        record: matches.get_str("record"),
        stats_file: matches.get_str("stats-file"),
        extras: extras_of(matches),
    }
}

fn extras_of<'a>(matches: &ArgMatches<'a>) -> TypedExtras<'a> {
    TypedExtras {
        stats: matches.get_str("stats"),
        record_size: matches.get_str("record-size"),
        until_eof: matches.get_flag("until-eof"),
        connect_timeout: matches.get_str("connect-timeout"),
        keepalive: matches.get_str("keepalive"),
        log_clients: matches.get_flag("log-clients"),
    }
}

fn replay_of<'a>(matches: &ArgMatches<'a>) -> Replayed<'a> {
    Replayed {
        path: needed(matches, "file"),
        script: matches.get_str("script"),
        timeline: matches.get_str("timeline"),
        ends: matches.get_flag("ends"),
        steps: matches.get_flag("steps"),
        rests: matches.get_flag("rest"),
    }
}

fn relayd<'a>(alloc: Global) -> Result<clap::Command<'a>, AllocError> {
    let mut command = without_subcommands(alloc);
    for row in commands() {
        command = command.subcommand(subcommand(alloc, *row)?)?;
    }
    Ok(command)
}

fn without_subcommands<'a>(alloc: Global) -> clap::Command<'a> {
    clap::Command::new(alloc, "relayd")
        .version(VERSION)
        .about("Forwards TCP connections to another address")
        .after_help(
            "Without a command, relayd does the same as `relayd sim`.\n\n\
             Examples:\n  relayd forward 127.0.0.1:7000 127.0.0.1:7001\n  relayd run --config examples/relayd.toml\
             \n  relayd sim < examples/one-direction.flow\n\n\
             See relayd(1) for details and relayd.toml(5) for the settings.",
        )
}

fn subcommand<'a>(alloc: Global, row: CommandRow) -> Result<clap::Command<'a>, AllocError> {
    let mut arguments = Vec::new(alloc);
    if row.takes_settings {
        add_settings(alloc, &mut arguments)?;
    }
    add_arguments(alloc, row.arguments, &mut arguments)?;
    if row.is_relay {
        add_arguments(alloc, relay_arguments(), &mut arguments)?;
    }
    clap::Command::new(alloc, row.name)
        .about(row.about)
        .after_help(row.details)
        .args(arguments)
}

fn add_arguments<'a>(
    alloc: Global,
    rows: &[ArgumentRow],
    arguments: &mut Vec<Arg<'a>>,
) -> Result<(), AllocError> {
    for row in rows {
        arguments.push(argument_of(alloc, *row)?)?;
    }
    Ok(())
}

fn argument_of<'a>(alloc: Global, row: ArgumentRow) -> Result<Arg<'a>, AllocError> {
    let argument = named(described(alloc, row), row);
    match row.form {
        Form::Bytes(with) => argument.requires_arg(with),
        Form::Value(_, others) | Form::Flag(others) => argument.conflicts_with_all(others),
        _ => Ok(argument),
    }
}

/// An argument with its option.
fn named<'a>(argument: Arg<'a>, row: ArgumentRow) -> Arg<'a> {
    match row.form {
        Form::File => argument,
        Form::NeededFile => argument.long(row.name).short('c'),
        _ => argument.long(row.name),
    }
}

/// A row's argument, without its option.
fn described<'a>(alloc: Global, row: ArgumentRow) -> Arg<'a> {
    Arg::new(alloc, row.name)
        .help(row.help)
        .action(row.form.action())
        .value_names(row.form.value_names())
        .required(row.form.is_needed())
        // A negative number is refused as out of range, not as an unknown option.
        .allow_negative_numbers(row.form.is_number())
}
