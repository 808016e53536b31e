//! The settings file.
ghost use Rattle.std.specs.Prelude.{◌≡◌, ◌<◌, ◌≤◌, Ok, Err, None, IfOk, IfErr, IfSome, length, vec_len};
ghost use Rattle.settings.specs.{Table.level_name, Document.IsSettingsOf};
ghost use Rattle.program.specs.Faults.{FileSets, HasFault};

use crate::faults::ConfigFault;
use crate::streams::{FileName, Stream, Unopened, log_error};
use commands::setting_text;
use input::{InputFault, read_at_most};
use log::Log;
use settings::{Key, LogLevel, Settings, SettingsFault};
use std::alloc::Global;
use std::fs::{self, File};
use std::io::Read;
use std::net::SocketAddrV4;
use std::rt::Files;

/// The most bytes of a settings file.
const MAX_CONFIG_BYTES: usize = 65_536;

/// The settings of the file at a path. The file is closed in each case. If a socket at an address was passed, the file
/// may leave out where to listen. Refuses with `Read` if it cannot be opened or read, and otherwise as [`read`] does.
/// Logs the cause: what the system or the parser says.
pub fn load<R: AllocGlobal + Files, L: Log>(
    rt: &R,
    log: &L,
    path: &str,
    passed: Option<SocketAddrV4>,
) -> Result<Settings, ConfigFault> {
    let name = FileName("config", path);
    match File::open(rt, path) {
        Ok(inner) => {
            let mut file = Stream { name, inner, log };
            let answer = match passed {
                Some(address) => read_beside(log, rt.alloc(), path, &mut file, address),
                None => read(log, rt.alloc(), path, &mut file),
            };
            if matches!(&answer, Err(ConfigFault::Long)) {
                log_length(rt, log, path, &name);
            }
            answer
        }
        Err(error) => {
            log_error(log, &"config", &Unopened { path, error });
            Err(ConfigFault::Read)
        }
    }
}

/// Logs that a file is too long, with its length if the system says it.
fn log_length(rt: &impl Files, log: &impl Log, path: &str, name: &FileName<'_>) {
    match fs::metadata(rt, path) {
        Ok(found) if found.len() > MAX_CONFIG_BYTES as u64 => {
            let bytes = found.len();
            log_error(
                log,
                name,
                &format_args!("{bytes} bytes are more than {MAX_CONFIG_BYTES}"),
            );
        }
        _ => log_error(
            log,
            name,
            &format_args!("there are more than {MAX_CONFIG_BYTES} bytes"),
        ),
    }
}

/// As [`read`], but if the file leaves out where to listen, a line with this address stands after its text.
fn read_beside<F: Read, L: Log>(
    log: &L,
    alloc: Global,
    path: &str,
    file: &mut F,
    address: SocketAddrV4,
) -> Result<Settings, ConfigFault> {
    let text = read_whole(alloc, file)?;
    let parsed = settings::parse(alloc, text.as_slice());
    let line = match &parsed {
        Err(SettingsFault::Missing(Key::Listen)) => {
            format!(in alloc; "\nlisten = \"{address}\"\n")?
        }
        _ => String::new(alloc),
    };
    read(
        log,
        alloc,
        path,
        &mut text.as_slice().chain(line.as_bytes()),
    )
}

/// The settings of a file, from all of its bytes. Refuses with `Read` if the reader gives an error, with `Long` if
/// there are more than 65,536 bytes, whatever their text, with `Settings` if the text has a fault, and with
/// `NoMemory`. Logs the cause of a fault of the text, with the path. The bytes that were read are then lost.
pub fn read<F: Read, L: Log>(
    log: &L,
    alloc: Global,
    path: &str,
    file: &mut F,
) -> Result<Settings, ConfigFault>
    ensures settings { IfOk result (λ s. IfSome (F.remaining file.old) (λ bytes. FileSets bytes s)) }
    ensures fault { IfErr result (λ fault. IfSome (F.remaining file.old) (λ bytes. HasFault bytes fault)) }
{
    let text = read_whole(alloc, file)?;
    match settings::parse(alloc, text.as_slice()) {
        Ok(settings) => Ok(settings),
        Err(fault) => {
            log_cause(log, alloc, path, text.as_slice(), &fault);
            Err(ConfigFault::from(fault))
        }
    }
}

/// The settings of a text that the arguments of the command line gave. Refuses with `Settings` if the text has a
/// fault, and logs the cause by the argument's own name. Refuses with `NoMemory`.
pub fn parse_arguments<L: Log>(log: &L, alloc: Global, text: &[u8]) -> Result<Settings, ConfigFault>
    ensures settings { IfOk result (λ s. IsSettingsOf text.now s) }
{
    match settings::parse(alloc, text) {
        Ok(settings) => Ok(settings),
        Err(fault) => {
            log_argument_cause(log, alloc, text, &fault);
            Err(ConfigFault::from(fault))
        }
    }
}

fn log_argument_cause(log: &impl Log, alloc: Global, text: &[u8], fault: &SettingsFault) {
    if let Some(cause) = settings::argument_cause(alloc, text, fault) {
        log_error(log, &"settings", &cause);
    }
}

/// The settings with the level of this name, if one is named. Refuses with `Settings` a name that no level has, and
/// logs the cause.
pub fn at_level<L: Log>(
    log: &L,
    alloc: Global,
    mut settings: Settings,
    name: Option<&str>,
) -> Result<Settings, ConfigFault>
    ensures same { name.entry ≡ None → result ≡ Ok settings }
    ensures rest { IfOk result (λ s. s ≡ record settings { log = s.log }) }
    ensures level { IfSome name.entry (λ n. IfOk result (λ s. n.now ≡ level_name s.log)) }
    ensures refused { IfErr result (λ fault. fault ≡ ConfigFault.Settings (SettingsFault.OutOfRange Key.Log)) }
{
    let Some(name) = name else {
        return Ok(settings);
    };
    match LogLevel::named(name) {
        Some(level) => {
            settings.log = level;
            Ok(settings)
        }
        None => {
            let fault = SettingsFault::OutOfRange(Key::Log);
            if let Ok(text) = setting_text(alloc, Key::Log, name) {
                log_argument_cause(log, alloc, text.as_bytes(), &fault);
            }
            Err(ConfigFault::from(fault))
        }
    }
}

fn log_cause(log: &impl Log, alloc: Global, path: &str, text: &[u8], fault: &SettingsFault) {
    if let Some(cause) = settings::cause(alloc, text, fault) {
        log_error(log, &FileName("settings", path), &cause);
    }
}

/// Reads the file to its end, or to one byte past the most, which shows that the file is too long.
fn read_whole<F: Read>(alloc: Global, file: &mut F) -> Result<Vec<u8>, ConfigFault>
    ensures most { IfOk result (λ text. vec_len text ≤ 65536) }
    ensures whole { IfOk result (λ text. IfSome (F.remaining file.old) (λ bytes. text.items ≡ bytes)) }
    ensures fault { IfErr result (λ fault. IfSome (F.remaining file.old) (λ bytes. HasFault bytes fault)) }
{
    match read_at_most(alloc, file, MAX_CONFIG_BYTES + 1) {
        Ok(text) if text.len() > MAX_CONFIG_BYTES => Err(ConfigFault::Long),
        Ok(text) => Ok(text),
        Err(InputFault::Unreadable) => Err(ConfigFault::Read),
        Err(InputFault::NoMemory) => Err(ConfigFault::NoMemory),
    }
}
