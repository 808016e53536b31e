ghost use Rattle.std.specs.{Prelude.{◌≡◌, ◌≢◌, ◌≤◌, IfSome, IfNone, IfOk, IfErr, Err, string_bytes, option_map}, Str.IsUtf8};
ghost use Rattle.toml.specs.{Data.{Members, get_member}, Errors.IsBlank, View.{view, table_view}};
ghost use Rattle.settings.specs.{Table.{key_name, setting, an_address, a_number, a_level, a_truth, address, number, level, truth, required, optional}, Document.{Reads, IsDocument, IsFirstUnknown, HasNoUnknown, IsSettingsOf, IsFaultOf}};

use crate::addresses::{Address, address_of};
use crate::faults::{KeyText, SettingsFault};
use crate::fields::Settings;
use crate::levels::LogLevel;
use crate::table::{AddressRow, Key, NumberRow};
use std::alloc::Global;
use toml::{Table, Value};

/// The settings of a text, or the first fault in it.
///
/// `NoMemory` says nothing about the text. A blank text and bytes that are not UTF-8 need no memory.
pub fn parse(alloc: Global, bytes: &[u8]) -> Result<Settings, SettingsFault>
    ensures settings { IfOk result (λ s. IsSettingsOf bytes.now s) }
    ensures fault { IfErr result (λ fault. fault ≢ SettingsFault.NoMemory → IsFaultOf bytes.now fault) }
    ensures only { IfOk result (λ s. (t : Settings) → IsSettingsOf bytes.now t → (key : Key) → setting t key ≡ setting s key) }
    ensures none { IfErr result (λ fault. fault ≢ SettingsFault.NoMemory → (s : Settings) → ¬ (IsSettingsOf bytes.now s)) }
    ensures memory { result ≡ Err SettingsFault.NoMemory → IsUtf8 bytes.now × (¬ (IsBlank bytes.now)) }
{
    let document = match document_of(alloc, bytes) {
        Ok(document) => document,
        Err(fault) => return Err(fault),
    };
    match first_unknown(&document) {
        Some(name) => Err(unknown_key(alloc, name.as_str())),
        None => Settings::of(&document),
    }
}

fn document_of(alloc: Global, bytes: &[u8]) -> Result<Table, SettingsFault>
    ensures document { IfOk result (λ document. IsDocument bytes.now (table_view document)) }
    ensures fault { IfErr result (λ fault. fault ≢ SettingsFault.NoMemory
        → (fault ≡ SettingsFault.NotToml) × ((document : Members) → ¬ (IsDocument bytes.now document))) }
    ensures memory { result ≡ Err SettingsFault.NoMemory → IsUtf8 bytes.now × (¬ (IsBlank bytes.now)) }
{
    let Ok(text) = std::str::from_utf8(bytes) else {
        return Err(SettingsFault::NotToml);
    };
    match toml::table_from_str(alloc, text) {
        Ok(document) => Ok(document),
        Err(error) if error.is_memory() => Err(SettingsFault::NoMemory),
        Err(_) => Err(SettingsFault::NotToml),
    }
}

/// The fault that this key is unknown, or `NoMemory` if there is none for a copy of its name.
fn unknown_key(alloc: Global, name: &str) -> SettingsFault
    ensures { result ≢ SettingsFault.NoMemory → result ≡ SettingsFault.UnknownKey name.now }
{
    match KeyText::new(alloc, name) {
        Ok(name) => SettingsFault::UnknownKey(name),
        Err(_) => SettingsFault::NoMemory,
    }
}

/// The first name at the top level, in byte order, that is not a key.
fn first_unknown(document: &Table) -> Option<&String>
    ensures some { IfSome result (λ name. IsFirstUnknown (table_view document.now) (string_bytes name.now)) }
    ensures none { IfNone result (HasNoUnknown (table_view document.now)) }
{
    for name in document.keys() {
        if Key::named(name.as_str()).is_none() {
            return Some(name);
        }
    }
    None
}

pub(crate) fn address_at(document: &Table, row: AddressRow) -> Result<Address, SettingsFault>
    ensures reads { Reads address (required row.key (an_address row.lowest_port)) (table_view document.now) result }
    ensures range { IfOk result (λ a. row.lowest_port ≤ a.1) }
{
    let Some(value) = value_at(document, row.key) else {
        return Err(SettingsFault::Missing(row.key));
    };
    let Some(text) = value.as_str() else {
        return Err(SettingsFault::WrongKind(row.key));
    };
    match address_of(text) {
        Some(address) if row.lowest_port <= address.1 => Ok(address),
        _ => Err(SettingsFault::BadAddress(row.key)),
    }
}

pub(crate) fn number_at(document: &Table, row: NumberRow) -> Result<u32, SettingsFault>
    requires { (row.low ≤ row.default) × (row.default ≤ row.high) }
    ensures reads { Reads number (optional row.key (a_number row.low row.high) (number row.default)) (table_view document.now) result }
    ensures range { IfOk result (λ n. (row.low ≤ n) × (n ≤ row.high)) }
{
    let Some(value) = value_at(document, row.key) else {
        return Ok(row.default);
    };
    let Some(n) = value.as_integer() else {
        return Err(SettingsFault::WrongKind(row.key));
    };
    match u32::try_from(n) {
        Ok(n) if row.low <= n && n <= row.high => Ok(n),
        _ => Err(SettingsFault::OutOfRange(row.key)),
    }
}

pub(crate) fn level_at(
    document: &Table,
    key: Key,
    default: LogLevel,
) -> Result<LogLevel, SettingsFault>
    ensures reads { Reads level (optional key a_level (level default)) (table_view document.now) result }
{
    let Some(value) = value_at(document, key) else {
        return Ok(default);
    };
    let Some(text) = value.as_str() else {
        return Err(SettingsFault::WrongKind(key));
    };
    match LogLevel::named(text) {
        Some(level) => Ok(level),
        None => Err(SettingsFault::OutOfRange(key)),
    }
}

pub(crate) fn truth_at(document: &Table, key: Key, default: bool) -> Result<bool, SettingsFault>
    ensures reads { Reads truth (optional key a_truth (truth default)) (table_view document.now) result }
{
    let Some(value) = value_at(document, key) else {
        return Ok(default);
    };
    match value.as_bool() {
        Some(truth) => Ok(truth),
        None => Err(SettingsFault::WrongKind(key)),
    }
}

fn value_at(document: &Table, key: Key) -> Option<&Value>
    ensures { option_map (λ v. view v.now) result ≡ get_member (key_name key) (table_view document.now) }
{
    document.get(key.name())
}
