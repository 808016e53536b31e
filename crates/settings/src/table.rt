//! The table of the keys: a row has all that is fixed about a key.
ghost use Rattle.std.specs.Prelude.{◌≡◌, ◌≢◌, ◌↔◌, IsTrue, Some, IfSome, IfNone, option_map};
ghost use Rattle.settings.specs.{Table.{key_name, row_of, a_truth, TellsKind}, Document.setting_text};

use std::fmt;

/// A key of a settings text, in the order in which keys are read and printed. [`Settings`](crate::Settings) says what
/// each is for.
#[derive(Clone, Copy, PartialEq, Eq)]
pub enum Key {
    Listen,
    Target,
    Ring,
    Budget,
    Workers,
    Slots,
    StopAfter,
    Log,
    Idle,
    Proxy,
}

impl Key {
    /// The key as written in a settings text.
    pub fn name(self) -> &'static str
        ensures { result.now ≡ key_name self }
    {
        self.row().name
    }

    /// The key with this name, if there is one.
    pub fn named(text: &str) -> Option<Key>
        ensures named { IfSome result (λ key. text.now ≡ key_name key) }
        ensures none { IfNone result ((key : Key) → text.now ≢ key_name key) }
    {
        match text {
            "listen" => Some(Key::Listen),
            "target" => Some(Key::Target),
            "ring" => Some(Key::Ring),
            "budget" => Some(Key::Budget),
            "workers" => Some(Key::Workers),
            "slots" => Some(Key::Slots),
            "stop_after" => Some(Key::StopAfter),
            "log" => Some(Key::Log),
            "idle" => Some(Key::Idle),
            "proxy" => Some(Key::Proxy),
            _ => None,
        }
    }

    /// The key's default, as it is printed. None if the key is required.
    pub fn default(self) -> Option<&'static str>
        ensures { option_map (λ text. text.now) result ≡ option_map setting_text (row_of self).default }
    {
        self.row().default
    }

    pub(crate) fn takes(self) -> &'static Takes
        ensures { TellsKind (row_of self).kind result.now }
    {
        &self.row().takes
    }

    /// The key as an argument of a command line, as help names it.
    pub(crate) fn argument(self) -> (&'static str, &'static str) {
        let row = self.row();
        match row.option {
            Some(option) => ("--", option),
            None => ("", row.value_name),
        }
    }

    fn row(self) -> &'static Row
        ensures name { result.now.name.now ≡ key_name self }
        ensures default { option_map (λ text. text.now) result.now.default ≡ option_map setting_text (row_of self).default }
        ensures takes { TellsKind (row_of self).kind result.now.takes }
    {
        &ROWS[self as usize]
    }

    /// Returns true if the key takes a truth value.
    pub fn takes_truth(self) -> bool
        ensures { IsTrue result ↔ ((row_of self).kind ≡ a_truth) }
    {
        matches!(self.takes(), Takes::Truth)
    }
}

impl fmt::Display for Key {
    ghost output = { λ key. Some (key_name key) };

    fn fmt<W: fmt::Write>(&self, f: &mut fmt::Formatter<W>) -> fmt::Result {
        f.write_str(self.name())
    }
}

/// A required key that takes an address.
#[derive(Clone, Copy)]
pub(crate) struct AddressRow {
    pub(crate) key: Key,
    /// The lowest port that the key takes.
    pub(crate) lowest_port: u16,
    /// An address that the key takes, as it is written.
    pub(crate) example: &'static str,
    /// What is missing before a port alone, and the words for what that stands for.
    pub(crate) host: &'static str,
    pub(crate) stands_for: &'static str,
}

/// A key that takes a whole number from `low` to `high`.
#[derive(Clone, Copy)]
pub(crate) struct NumberRow {
    pub(crate) key: Key,
    pub(crate) low: u32,
    pub(crate) high: u32,
    pub(crate) default: u32,
}

/// With port 0 the system picks a port.
pub(crate) const LISTEN: AddressRow = AddressRow {
    key: Key::Listen,
    lowest_port: 0,
    example: "127.0.0.1:7000",
    host: "0.0.0.0:",
    stands_for: " stands for every address",
};

/// No connection can be made to port 0.
pub(crate) const TARGET: AddressRow = AddressRow {
    key: Key::Target,
    lowest_port: 1,
    example: "127.0.0.1:7001",
    host: "127.0.0.1:",
    stands_for: " stands for this machine",
};

pub(crate) const RING: NumberRow = NumberRow {
    key: Key::Ring,
    low: 1,
    high: 65_536,
    default: 16_384,
};

pub(crate) const BUDGET: NumberRow = NumberRow {
    key: Key::Budget,
    low: 1,
    high: 1_024,
    default: 64,
};

pub(crate) const WORKERS: NumberRow = NumberRow {
    key: Key::Workers,
    low: 1,
    high: 16,
    default: 4,
};

pub(crate) const SLOTS: NumberRow = NumberRow {
    key: Key::Slots,
    low: 1,
    high: 4_096,
    default: 1_024,
};

/// 0 stands for no limit.
pub(crate) const STOP_AFTER: NumberRow = NumberRow {
    key: Key::StopAfter,
    low: 0,
    high: u32::MAX,
    default: 0,
};

/// In seconds, up to a day.
pub(crate) const IDLE: NumberRow = NumberRow {
    key: Key::Idle,
    low: 0,
    high: 86_400,
    default: 0,
};

#[derive(Clone, Copy)]
pub(crate) enum Takes {
    /// An address, as this row says.
    Address(AddressRow),
    /// A whole number, as this row says.
    Number(NumberRow),
    /// The name of a level.
    Level,
    /// A truth value.
    Truth,
}

/// A row of the table: a key in a settings text, and as an argument of a command line.
#[derive(Clone, Copy)]
pub struct Row {
    pub key: Key,
    /// The key as written in a settings text.
    pub(crate) name: &'static str,
    pub(crate) takes: Takes,
    /// As [`Key::default`] gives it.
    pub(crate) default: Option<&'static str>,
    /// The option for the key. A key without an option is an argument that is known by its place.
    pub option: Option<&'static str>,
    /// The name of the value in a help text.
    pub value_name: &'static str,
    pub help: &'static str,
}

/// The names of all keys, as a message lists them.
pub(crate) const KEY_NAMES: &str =
    "listen, target, ring, budget, workers, slots, stop_after, log, idle and proxy";

/// A row for each key, in their order.
pub static ROWS: [Row; 10] = [
    Row {
        key: Key::Listen,
        name: "listen",
        takes: Takes::Address(LISTEN),
        default: None,
        option: None,
        value_name: "LISTEN",
        help: "Where clients connect: an IPv4 address and a port",
    },
    Row {
        key: Key::Target,
        name: "target",
        takes: Takes::Address(TARGET),
        default: None,
        option: None,
        value_name: "TARGET",
        help: "Where each connection is forwarded to: an IPv4 address and a port",
    },
    Row {
        key: Key::Ring,
        name: "ring",
        takes: Takes::Number(RING),
        default: Some("16384"),
        option: Some("ring"),
        value_name: "BYTES",
        help: "Bytes buffered for each direction of a connection, 1 to 65536",
    },
    Row {
        key: Key::Budget,
        name: "budget",
        takes: Takes::Number(BUDGET),
        default: Some("64"),
        option: Some("budget"),
        value_name: "CALLS",
        help: "The most calls for one connection before another gets its turn, 1 to 1024",
    },
    Row {
        key: Key::Workers,
        name: "workers",
        takes: Takes::Number(WORKERS),
        default: Some("4"),
        option: Some("workers"),
        value_name: "THREADS",
        help: "Worker threads, 1 to 16",
    },
    Row {
        key: Key::Slots,
        name: "slots",
        takes: Takes::Number(SLOTS),
        default: Some("1024"),
        option: Some("slots"),
        value_name: "CONNECTIONS",
        help: "The most connections at a time, 1 to 4096",
    },
    Row {
        key: Key::StopAfter,
        name: "stop_after",
        takes: Takes::Number(STOP_AFTER),
        default: Some("0"),
        option: Some("stop-after"),
        value_name: "CONNECTIONS",
        help: "End after this many connections, up to 4294967295; 0 for no limit",
    },
    Row {
        key: Key::Log,
        name: "log",
        takes: Takes::Level,
        default: Some("info"),
        option: Some("log"),
        value_name: "LEVEL",
        help: "The least important messages that are logged: off, error, warn, info, debug or trace",
    },
    Row {
        key: Key::Idle,
        name: "idle",
        takes: Takes::Number(IDLE),
        default: Some("0"),
        option: Some("idle"),
        value_name: "SECONDS",
        help: "Close a connection that moved nothing for so long, up to 86400; 0 for never",
    },
    Row {
        key: Key::Proxy,
        name: "proxy",
        // Off by default: a target that does not expect the line takes it for the client's first bytes.
        takes: Takes::Truth,
        default: Some("false"),
        option: Some("proxy"),
        value_name: "BOOL",
        help: "Send the target a PROXY line with the client's address first: true or false",
    },
];
