//! The file of statistics for a monitor. It is made beside its place, and renamed into it, so whoever opens it finds
//! all of a text.
ghost use Rattle.std.specs.{Prelude.{◌≡◌, IfErr, true}, Fs.{asks_write, asks_create_new}};
ghost use Rattle.program.specs.Faults.{status_of};

use crate::faults::ProgramFault;
use crate::recording_file::{EISDIR, OLD, Unmade, first_bytes, is_same, refused};
use crate::streams::{FileName, log_error};
use commands::{Relay, Source};
use log::Log;
use std::alloc::{AllocError, AllocGlobal};
use std::fs::{self, OpenOptions};
use std::io::{self, ErrorKind, Write};
use std::rt::Files;

/// What every such file begins with (`Monitored` of `statistics`).
const FIRST_WORDS: &[u8] = b"# HELP relayd_";

/// Where the file is, and where it is made.
#[derive(Drop)]
pub struct StatsFile {
    path: String,
    beside: String,
}

/// A handle that replaces such files. A thread can be started with one that needs only this, but not with `Files`.
pub trait Replacing {
    /// Replaces the file by one with this text (rename(2)). After an error the old one is there, and nothing beside it.
    fn replace(&self, file: &StatsFile, text: &str) -> io::Result<()>;
}

impl<R: Files> Replacing for R {
    fn replace(&self, file: &StatsFile, text: &str) -> io::Result<()> {
        let replaced = file.make(self, text).and_then(|()| file.rename(self));
        if replaced.is_err() {
            let _ = fs::remove_file(self, file.beside.as_str());
        }
        replaced
    }
}

/// Refuses with `StatsFile`, and logs the cause, a file that is the settings', or one of `--record`, which it would
/// replace. Other files are told apart by what is in them.
pub(crate) fn look_apart<R: AllocGlobal + Files>(
    rt: &R,
    log: &impl Log,
    relay: &Relay<'_>,
) -> Result<(), ProgramFault> {
    let Some(path) = relay.stats_file else {
        return Ok(());
    };
    let mut what = None;
    if let Some(record) = relay.record {
        let old = format!(in rt.alloc(); "{record}{OLD}")?;
        let in_parts = relay.extras.record_size.is_some();
        if is_same(rt, path, record) || in_parts && is_same(rt, path, old.as_str()) {
            what = Some("is a file of --record");
        }
    }
    if let Source::File(config, _) = &relay.settings {
        if is_same(rt, path, config) {
            what = Some("is the file of --config");
        }
    }
    let Some(what) = what else {
        return Ok(());
    };
    log_error(log, &FileName("stats-file", path), &what);
    Err(ProgramFault::StatsFile)
}

/// The file at a path, if one is given. Refuses with `StatsFile`, and logs the cause, if it cannot be replaced: nothing
/// can be made beside it, or something is there that is neither empty nor such a file. Refuses with `NoMemory`.
pub(crate) fn find_file<R: AllocGlobal + Files>(
    rt: &R,
    log: &impl Log,
    path: Option<&str>,
) -> Result<Option<StatsFile>, ProgramFault>
    ensures { IfErr result (λ fault. status_of fault ≡ 1) }
{
    let Some(path) = path else {
        return Ok(None);
    };
    match file_at(rt, path) {
        Ok(file) => Ok(Some(file)),
        Err(why) => Err(refused(log, "stats-file", path, why)),
    }
}

fn file_at<R: AllocGlobal + Files>(rt: &R, path: &str) -> Result<StatsFile, Unmade> {
    look_at(rt, path)?;
    let beside = name_beside(rt, path)?;
    drop(make(rt, beside.as_str())?);
    fs::remove_file(rt, beside.as_str())?;
    let path = format!(in rt.alloc(); "{path}")?;
    Ok(StatsFile { path, beside })
}

/// A name in the same folder that no other process uses: it ends in the number of this one, if the system says it.
fn name_beside<R: AllocGlobal + Files>(rt: &R, path: &str) -> Result<String, AllocError> {
    match fs::read_link(rt, "/proc/self") {
        Ok(process) => {
            let process = process.as_path().display();
            format!(in rt.alloc(); "{path}.{process}")
        }
        Err(_) => format!(in rt.alloc(); "{path}.new"),
    }
}

/// Refuses what is at a path, unless that is nothing, a file without bytes, or one of statistics.
fn look_at(rt: &impl Files, path: &str) -> Result<(), Unmade> {
    let port = path.rsplit(':').next().unwrap_or("");
    if path == "-" || port.len() < path.len() && port.parse::<u16>().is_ok() {
        return Err(Unmade::Taken("a file is wanted, which a monitor reads"));
    }
    let found = match fs::metadata(rt, path) {
        Ok(found) => found,
        Err(error) if error.kind() == ErrorKind::NotFound && !path.is_empty() => return Ok(()),
        Err(error) => return Err(Unmade::System(error)),
    };
    if found.is_dir() {
        return Err(Unmade::System(io::Error::from_raw_os_error(EISDIR)));
    }
    if !found.is_file() {
        return Err(Unmade::Taken("is there, and is no file"));
    }
    let (first, _) = first_bytes(rt, path)?;
    if found.len() == 0 || first.starts_with(FIRST_WORDS) {
        Ok(())
    } else {
        Err(Unmade::Taken("is there, and has no statistics of a relay"))
    }
}

/// Makes the file of this name. One that an earlier process with the same number has left is removed.
fn make<R: Files>(rt: &R, name: &str) -> io::Result<R::File> {
    match how_to_make().open(rt, name) {
        Err(error) if error.kind() == ErrorKind::AlreadyExists => {
            fs::remove_file(rt, name)?;
            how_to_make().open(rt, name)
        }
        made => made,
    }
}

/// Nothing that is there is opened, so no link is followed (open(2), `O_EXCL`).
fn how_to_make() -> OpenOptions
    ensures { (asks_write result ≡ true) × (asks_create_new result ≡ true) }
{
    let mut how = OpenOptions::new();
    how.write(true).create_new(true);
    how
}

impl StatsFile {
    /// The path, as it was typed.
    pub(crate) fn path(&self) -> &str {
        self.path.as_str()
    }

    fn make(&self, rt: &impl Files, text: &str) -> io::Result<()> {
        make(rt, self.beside.as_str())?.write_all(text.as_bytes())
    }

    fn rename(&self, rt: &impl Files) -> io::Result<()> {
        fs::rename(rt, self.beside.as_str(), self.path.as_str())
    }
}
