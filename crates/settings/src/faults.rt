ghost use Rattle.std.specs.Prelude.{◌≡◌, ℕ, List, Some, IfOk, string_bytes};

use crate::one_line::OneLine;
use crate::table::Key;
use std::alloc::{AllocError, Global};
use std::error::Error;
use std::fmt;
use std::marker::Model;

/// The name of an unknown key.
#[derive(Drop)]
pub struct KeyText {
    text: String,
}

impl Model for KeyText {
    ghost Value = { List ℕ };

    ghost view = { λ key. string_bytes key.text };
}

impl KeyText {
    /// A copy of a key's name.
    pub fn new(alloc: Global, text: &str) -> Result<KeyText, AllocError>
        ensures { IfOk result (λ key. key ≡ text.now) }
    {
        Ok(KeyText {
            text: String::from_str(alloc, text)?,
        })
    }

    /// The name, without the text's quotes and escapes.
    pub fn as_str(&self) -> &str
        ensures { result.now ≡ self.now }
    {
        self.text.as_str()
    }
}

/// The key on one line, as [`OneLine`] shows it.
impl fmt::Display for KeyText {
    ghost use Rattle.settings.specs.Faults.{one_line};

    ghost output = { λ key. Some (one_line key) };

    fn fmt<W: fmt::Write>(&self, f: &mut fmt::Formatter<W>) -> fmt::Result {
        OneLine(self.as_str()).fmt(f)
    }
}

/// The first thing that is wrong in a settings text: it is not TOML; else its first unknown key, in byte order; else
/// the fault of the first key, in the order of [`Key`], that has a fault.
#[derive(Drop)]
pub enum SettingsFault {
    /// The bytes are not UTF-8, or not a TOML document.
    NotToml,
    /// This name at the top level is no key.
    UnknownKey(KeyText),
    /// A required key that the text leaves out.
    Missing(Key),
    /// A value of another kind than its key takes, such as a number for a text.
    WrongKind(Key),
    /// A number outside its range, or a text that is not a level.
    OutOfRange(Key),
    /// A text that is not an address, or whose port is out of range.
    BadAddress(Key),
    /// Memory ran out, which says nothing about the text.
    NoMemory,
}

/// One line, without its line feed. No text from a file can start a line of its own.
impl fmt::Display for SettingsFault {
    ghost use Rattle.settings.specs.Faults.{fault_line};

    ghost output = { λ fault. Some (fault_line fault) };

    fn fmt<W: fmt::Write>(&self, f: &mut fmt::Formatter<W>) -> fmt::Result {
        match self {
            SettingsFault::NotToml => f.write_str("settings: not toml"),
            SettingsFault::UnknownKey(key) => write!(f, "settings: {key}: unknown key"),
            SettingsFault::Missing(key) => write!(f, "settings: {key}: missing"),
            SettingsFault::WrongKind(key) => write!(f, "settings: {key}: wrong kind"),
            SettingsFault::OutOfRange(key) => write!(f, "settings: {key}: out of range"),
            SettingsFault::BadAddress(key) => write!(f, "settings: {key}: bad address"),
            SettingsFault::NoMemory => f.write_str("out of memory"),
        }
    }
}

impl fmt::Debug for SettingsFault {
    fn fmt<W: fmt::Write>(&self, f: &mut fmt::Formatter<W>) -> fmt::Result {
        fmt::Display::fmt(self, f)
    }
}

impl Error for SettingsFault {}
