//! The table of the commands and their arguments, as help describes them.

use crate::forwarding::is_setting;
use clap::ArgAction;

/// A command of the program, as its help describes it.
#[derive(Clone, Copy)]
pub(crate) struct CommandRow {
    pub(crate) name: &'static str,
    pub(crate) about: &'static str,
    pub(crate) details: &'static str,
    /// Whether it takes an argument for each setting, before its own.
    pub(crate) takes_settings: bool,
    pub(crate) arguments: &'static [ArgumentRow],
    /// Whether it takes those of a relay, after its own.
    pub(crate) is_relay: bool,
}

/// An argument of a command, other than a setting.
#[derive(Clone, Copy)]
pub(crate) struct ArgumentRow {
    pub(crate) name: &'static str,
    pub(crate) form: Form,
    pub(crate) help: &'static str,
}

#[derive(Clone, Copy)]
pub(crate) enum Form {
    /// `--NAME`, but not together with the arguments of these names.
    Flag(&'static [&'static str]),
    /// `--NAME` and a value, with what help calls that, but not together with these.
    Value(&'static [&'static str], &'static [&'static str]),
    /// `--NAME` and a number of seconds.
    Seconds,
    /// `--NAME` and a number of bytes, only together with the argument of this name.
    Bytes(&'static str),
    /// `-c` or `--NAME` and a file, which is required.
    NeededFile,
    /// A file alone, which is required.
    File,
}

impl Form {
    pub(crate) fn action(self) -> ArgAction {
        match self {
            Form::Flag(_) => ArgAction::SetTrue,
            _ => ArgAction::Set,
        }
    }

    pub(crate) fn value_names(self) -> &'static [&'static str] {
        match self {
            Form::Flag(_) => &[],
            Form::Value(names, _) => names,
            Form::Seconds => &["SECONDS"],
            Form::Bytes(_) => &["BYTES"],
            Form::NeededFile | Form::File => &["FILE"],
        }
    }

    pub(crate) fn is_needed(self) -> bool {
        matches!(self, Form::NeededFile | Form::File)
    }

    pub(crate) fn is_number(self) -> bool {
        matches!(self, Form::Seconds | Form::Bytes(_))
    }
}

/// The arguments of `forward` and `run`.
static RELAY: [ArgumentRow; 8] = [
    ArgumentRow {
        name: "record",
        form: Form::Value(&["FILE"], &[]),
        help: "Record into this file what each thread does, but no bytes",
    },
    ArgumentRow {
        name: "record-size",
        form: Form::Bytes("record"),
        help: "Keep only the end of the recording, in FILE and FILE.old of so many bytes together, 65536 to 4294967295",
    },
    ArgumentRow {
        name: "stats",
        form: Form::Seconds,
        help: "Log a line of statistics every so many seconds, 1 to 86400, and one at the end, unless a signal ends it",
    },
    ArgumentRow {
        name: "stats-file",
        form: Form::Value(&["FILE"], &[]),
        help: "Replace this file by the statistics for a monitor every so many seconds, 15 without --stats",
    },
    ArgumentRow {
        name: "until-eof",
        form: Form::Flag(&[]),
        help: "Accept no more clients once standard input has ended, and end after the last",
    },
    ArgumentRow {
        name: "log-clients",
        form: Form::Flag(&[]),
        help: "Log each client's address at level info, as it comes and as it goes",
    },
    ArgumentRow {
        name: "connect-timeout",
        form: Form::Seconds,
        help: "Give up a target that has not answered for so many seconds, 1 to 3600",
    },
    ArgumentRow {
        name: "keepalive",
        form: Form::Seconds,
        help: "Probe a peer that is silent for so many seconds, 1 to 32767, and give it up if it is gone",
    },
];

const CONFIG: ArgumentRow = ArgumentRow {
    name: "config",
    form: Form::NeededFile,
    help: "The settings file, at most 65,536 bytes of TOML",
};

const LEVEL: ArgumentRow = ArgumentRow {
    name: "log",
    form: Form::Value(&["LEVEL"], &[]),
    help: "The least important messages that are logged, in place of the file's `log`",
};

const EACH: ArgumentRow = ArgumentRow {
    name: "each",
    form: Form::Flag(&[]),
    help: "Print each step, and what it changes in the report",
};

/// The arguments of `replay`.
const REPLAY: [ArgumentRow; 6] = [
    ArgumentRow {
        name: "script",
        form: Form::Value(&["SLOT.GEN"], &["ends", "timeline"]),
        help: "Print the script of this connection",
    },
    ArgumentRow {
        name: "ends",
        form: Form::Flag(&["rest", "timeline"]),
        help: "Print what became of each connection, and what an open one waits for, by its records alone",
    },
    ArgumentRow {
        name: "timeline",
        form: Form::Value(&["SLOT.GEN"], &["rest"]),
        help: "Print the records of this connection in order, and what its rings hold after each",
    },
    ArgumentRow {
        name: "steps",
        form: Form::Flag(&["script", "ends", "timeline"]),
        help: "Print how many events of each kind there were, or the script up to what is wrong",
    },
    ArgumentRow {
        name: "rest",
        form: Form::Flag(&[]),
        help: "Nothing may be left to do: all had come to rest when the relay was stopped",
    },
    ArgumentRow {
        name: "file",
        form: Form::File,
        help: "The recording, as `--record` wrote it",
    },
];

/// The commands, in the order of the help.
static COMMANDS: [CommandRow; 5] = [
    CommandRow {
        name: "forward",
        about: "Forwards connections from one address to another",
        details: "Does the same as `relayd run` with a settings file that says what the arguments say.\n\n\
            Example:\n  relayd forward 127.0.0.1:7000 127.0.0.1:7001 --slots 100\n\n\
            See relayd.toml(5) for the settings.",
        takes_settings: true,
        arguments: &[],
        is_relay: true,
    },
    CommandRow {
        name: "run",
        about: "Forwards connections as a settings file says",
        details: "Listens on the file's `listen` address and forwards each connection to `target`. Prints `listening \
            A.B.C.D:PORT` once clients can connect, and writes log lines to standard error. It ends once \
            `stop_after` connections were opened and are all closed, if that is not 0, or on a fault, with status \
            1.\n\n\
            Example:\n  relayd run --config examples/relayd.toml\n\n\
            See relayd(1) for details and relayd.toml(5) for the settings.",
        takes_settings: false,
        arguments: &[CONFIG, LEVEL],
        is_relay: true,
    },
    CommandRow {
        name: "check",
        about: "Reads a settings file and prints every setting, or what is wrong",
        details: "Prints a line KEY=VALUE for each setting, defaults included. If the file has a fault, the first one \
            is written to standard error, with its key if it has one, and the status is 1. Warns of what `relayd \
            run` with the same options would warn of at its start.\n\n\
            Example:\n  relayd check --config examples/relayd.toml\n\n\
            See relayd.toml(5) for the settings.",
        takes_settings: false,
        arguments: &[CONFIG, LEVEL],
        is_relay: true,
    },
    CommandRow {
        name: "sim",
        about: "Runs the script on standard input and prints its report",
        details: "A script is a header and steps, one per line: what comes from the network, and what the sockets \
            reply to the relay. The report says where every byte is after the last step. For a script with a fault, \
            one line that names the fault is printed, and the status is 1.\n\n\
            Examples:\n  relayd sim < examples/one-direction.flow\n  relayd sim --each < \
            examples/half-close.world\n\n\
            FORMATS.md lists the steps (relayd(1), FILES).",
        takes_settings: false,
        arguments: &[EACH],
        is_relay: false,
    },
    CommandRow {
        name: "replay",
        about: "Checks a recording of a relay against the modelled machine",
        details: "Plays what each connection did on the machine of `relayd sim`. If each is a run of it, prints how \
            many connections there were, and how many bytes the relay read and wrote. If not, prints the first \
            record that can stand nowhere, and what could stand there, and the status is 1. With `--ends` and \
            `--timeline` nothing is played, so nothing is checked.\n\n\
            Examples:\n  relayd replay relay.record\n  relayd replay --ends relay.record\
            \n  relayd replay --script 0.1 relay.record | relayd sim --each\n\n\
            See relayd(1) for recordings.",
        takes_settings: false,
        arguments: &REPLAY,
        is_relay: false,
    },
];

pub(crate) fn commands() -> &'static [CommandRow] {
    &COMMANDS
}

pub(crate) fn relay_arguments() -> &'static [ArgumentRow] {
    &RELAY
}

pub(crate) fn is_command(name: &str) -> bool {
    name == "help" || commands().iter().any(|row| row.name == name)
}

/// The form of the option of this name of any command, if it is no setting.
pub(crate) fn form_of(option: &str) -> Option<Form> {
    for command in commands() {
        if let Some(form) = form_in(command.arguments, option) {
            return Some(form);
        }
    }
    form_in(relay_arguments(), option)
}

fn form_in(rows: &[ArgumentRow], option: &str) -> Option<Form> {
    for row in rows {
        if row.name == option {
            return Some(row.form);
        }
    }
    None
}

/// Whether a command takes a value after the option of this name.
pub(crate) fn takes_value(option: &str) -> bool {
    match form_of(option) {
        Some(form) => !matches!(form, Form::Flag(_)),
        None => is_setting(option),
    }
}
