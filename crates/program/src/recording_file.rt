//! The file that a relay records into. No file is emptied for it: a recording that is there is kept under another
//! name, and any other file that is not empty is refused.
ghost use Rattle.std.specs.{Prelude.{◌≡◌, IfErr, true, false}, Fs.{asks_read, asks_write, asks_append, asks_truncate, asks_create, asks_create_new}};
ghost use Rattle.program.specs.Faults.{status_of};

use crate::faults::ProgramFault;
use crate::streams::{FileName, Unopened, log_error, log_text};
use libc::net as system;
use libc::types::pollfd;
use log::{Level, Log};
use record_lines::Parts;
use settings::EndOfLine;
use std::alloc::{AllocError, Global};
use std::fs::{self, File, Metadata, OpenFile, OpenOptions};
use std::io::{self, BufWriter, ErrorKind, Read, Write};
use std::mem;
use std::os::fd::AsRawFd;
use std::os::unix::fs::{FileTypeExt, MetadataExt};
use std::rt::Files;

/// What every recording begins with.
pub(crate) const FIRST_WORDS: [u8; 17] = *b"relayd recording ";

const MOST_KEPT: u32 = 9_999;

/// The bytes that are gathered for one write(2).
const MAX_WRITE: usize = 65_536;

/// The error of writing to a folder (errno(3)).
pub(crate) const EISDIR: i32 = 21;

/// Why a file cannot be recorded into, or replaced.
#[derive(Drop)]
pub(crate) enum Unmade {
    System(io::Error),
    /// This is there.
    Taken(&'static str),
    NoMemory,
}

/// What is at a path to record into. A file there is locked (`hold`).
#[derive(Drop)]
pub(crate) enum Place<F> {
    Nothing,
    Recording(F),
    /// A file without bytes, a device, or a pipe that somebody reads: it is written into as it is.
    Open(F),
}

/// Which file it is: its device, and its number there (stat(2)).
type FileId = (u64, u64);

/// The file that is recorded into. With names it can be followed by others.
#[derive(Drop)]
pub struct RecordFiles<R: Files> {
    rt: R,
    file: BufWriter<R::File>,
    names: Option<Names>,
}

/// The path of the last file, and that of the one before it.
#[derive(Drop)]
struct Names {
    path: String,
    old: String,
    /// The file before the last.
    before: Option<FileId>,
}

impl<R: Files + Drop> Parts for RecordFiles<R>
where
    R::File: AsRawFd,
{
    fn add(&mut self, bytes: &[u8]) -> io::Result<()> {
        self.file.write_all(bytes)
    }

    /// The file becomes the one before the last, in place of the one that was (rename(2)). A file of another is left
    /// where it is. Without names there is no next file.
    fn begin_next(&mut self) -> io::Result<()> {
        self.file.flush()?;
        let Some(names) = &mut self.names else {
            return Err(io::Error::from(ErrorKind::Unsupported));
        };
        let last = Some(id_of(&self.file.get_ref().metadata()?));
        let found = id_at(&self.rt, names.path.as_str())?;
        let old = id_at(&self.rt, names.old.as_str())?;
        if found.is_some() && found != last || old.is_some() && old != names.before {
            let what = "another file has the name of one of its parts";
            return Err(io::Error::new(ErrorKind::AlreadyExists, what));
        }
        fs::rename(&self.rt, names.path.as_str(), names.old.as_str())?;
        let file = how_to_open(false).open(&self.rt, names.path.as_str())?;
        lock(&file);
        drop(mem::replace(self.file.get_mut(), file));
        names.before = last;
        Ok(())
    }

    fn flush(&mut self) -> io::Result<()> {
        self.file.flush()
    }
}

impl From<io::Error> for Unmade {
    fn from(error: io::Error) -> Unmade {
        Unmade::System(error)
    }
}

impl From<AllocError> for Unmade {
    fn from(_error: AllocError) -> Unmade {
        Unmade::NoMemory
    }
}

/// What is at the path to record into, if one is given. Refuses with `Record`, and logs the cause, if nothing can be
/// recorded there: it cannot be looked at, or is a file that is neither empty nor a recording, or that another relay
/// has locked, a pipe that nobody reads, a folder, or a link to nothing; or, for a recording `in_parts`, if it is no
/// file by itself, or its second name is of anything but an empty file or a recording. Nothing is made or moved.
pub(crate) fn find_place<R: AllocGlobal + Files>(
    rt: &R,
    log: &impl Log,
    path: Option<&str>,
    in_parts: bool,
) -> Result<Place<R::File>, ProgramFault>
where
    R::File: AsRawFd,
    ensures { IfErr result (λ fault. status_of fault ≡ 1) }
{
    let Some(path) = path else {
        return Ok(Place::Nothing);
    };
    if in_parts {
        let old = format!(in rt.alloc(); "{path}{OLD}")?;
        place_of(rt, log, old.as_str(), true)?;
    }
    place_of(rt, log, path, in_parts)
}

fn place_of<R: Files>(
    rt: &R,
    log: &impl Log,
    path: &str,
    in_parts: bool,
) -> Result<Place<R::File>, ProgramFault>
where
    R::File: AsRawFd,
    ensures { IfErr result (λ fault. status_of fault ≡ 1) }
{
    match look_at(rt, path, in_parts) {
        Ok(place) => Ok(place),
        Err(why) => Err(refused(log, "record", path, why)),
    }
}

/// What is at a path. Of a recording in parts it must be a file by itself, since it will be renamed.
fn look_at<R: Files>(rt: &R, path: &str, in_parts: bool) -> Result<Place<R::File>, Unmade>
where
    R::File: AsRawFd,
{
    if in_parts {
        match fs::symlink_metadata(rt, path) {
            Ok(found) if !found.is_file() && !found.is_dir() => {
                return Err(Unmade::Taken("is there, and is no file"));
            }
            _ => {}
        }
    }
    place_at(rt, path)
}

/// What follows the name of a recording in parts, in the name of the part before the last.
pub(crate) const OLD: &str = ".old";

/// Opens the file at a path to record into, if one is given, where this was found. What an earlier run has left there,
/// and at the second name, gets names of its own. Refuses with `Record`, and logs the cause, if it cannot be opened.
/// Refuses with `NoMemory`.
pub(crate) fn create<R: AllocGlobal + Files + Copy + Drop>(
    rt: &R,
    log: &impl Log,
    path: Option<&str>,
    place: Place<R::File>,
    in_parts: bool,
) -> Result<Option<RecordFiles<R>>, ProgramFault>
where
    R::File: AsRawFd,
    ensures { IfErr result (λ fault. status_of fault ≡ 1) }
{
    let Some(path) = path else {
        return Ok(None);
    };
    match files_at(rt, log, path, place, in_parts) {
        Ok(files) => Ok(Some(files)),
        Err(why) => Err(refused(log, "record", path, why)),
    }
}

fn names_of(alloc: Global, path: &str, in_parts: bool) -> Result<Option<Names>, AllocError> {
    if !in_parts {
        return Ok(None);
    }
    let old = format!(in alloc; "{path}{OLD}")?;
    let (path, before) = (format!(in alloc; "{path}")?, None);
    Ok(Some(Names { path, old, before }))
}

fn files_at<R: AllocGlobal + Files + Copy + Drop>(
    rt: &R,
    log: &impl Log,
    path: &str,
    place: Place<R::File>,
    in_parts: bool,
) -> Result<RecordFiles<R>, Unmade>
where
    R::File: AsRawFd,
{
    let names = names_of(rt.alloc(), path, in_parts)?;
    if let Some(names) = &names {
        keep_old(rt, log, names)?;
    }
    let file = open_new(rt, log, path, place)?;
    let file = BufWriter::with_capacity(rt.alloc(), MAX_WRITE, file)?;
    Ok(RecordFiles {
        rt: *rt,
        file,
        names,
    })
}

/// Logs the cause by the option's name, and returns the option's fault; `NoMemory` if memory ran out.
pub(crate) fn refused(log: &impl Log, name: &'static str, path: &str, why: Unmade) -> ProgramFault
    ensures { status_of result ≡ 1 }
{
    match why {
        Unmade::NoMemory => return ProgramFault::from(AllocError),
        Unmade::System(error) => log_error(log, &name, &Unopened { path, error }),
        Unmade::Taken(what) => log_error(log, &FileName(name, path), &what),
    }
    if name == "record" {
        ProgramFault::Record
    } else {
        ProgramFault::StatsFile
    }
}

fn place_at<R: Files>(rt: &R, path: &str) -> Result<Place<R::File>, Unmade>
where
    R::File: AsRawFd,
{
    if path == "-" {
        return Err(Unmade::Taken("for standard output write /dev/stdout"));
    }
    let found = match fs::metadata(rt, path) {
        Ok(found) => found,
        Err(error) if error.kind() == ErrorKind::NotFound => return nothing_at(rt, path),
        Err(error) => return Err(Unmade::System(error)),
    };
    if found.is_dir() {
        return Err(Unmade::System(io::Error::from_raw_os_error(EISDIR)));
    }
    if found.file_type().is_fifo() {
        return pipe_at(rt, path);
    }
    if !found.is_file() {
        return Ok(Place::Open(how_to_open(true).open(rt, path)?));
    }
    if found.len() == 0 {
        return Ok(Place::Open(hold(rt, how_to_open(true).open(rt, path)?, path)?));
    }
    let (first, length) = first_bytes(rt, path)?;
    if length < first.len() || first != FIRST_WORDS {
        return Err(Unmade::Taken("is there, and is no recording"));
    }
    Ok(Place::Recording(hold(rt, File::open(rt, path)?, path)?))
}

/// Locks a file for as long as it is open. Refuses one that another process has locked, or that has lost this name
/// meanwhile: a relay locks what it records into, and renames a recording that is there only while it holds its lock.
fn hold<R: Files>(rt: &R, file: R::File, path: &str) -> Result<R::File, Unmade>
where
    R::File: AsRawFd,
{
    if lock(&file) && id_of(&fs::metadata(rt, path)?) == id_of(&file.metadata()?) {
        Ok(file)
    } else {
        let what = "another relay records into it (it is locked): each needs a FILE of its own";
        Err(Unmade::Taken(what))
    }
}

/// Returns false if another process has locked the file (flock(2)). Where files cannot be locked, none is.
fn lock(file: &impl AsRawFd) -> bool {
    libc::flock(file.as_raw_fd(), libc::LOCK_EX | libc::LOCK_NB) == 0
        || io::Error::from_raw_os_error(os::errno()).kind() != ErrorKind::WouldBlock
}

fn id_of(found: &Metadata) -> FileId {
    (found.dev(), found.ino())
}

/// The file that has this name, if there is one. A link counts as itself.
fn id_at(rt: &impl Files, path: &str) -> io::Result<Option<FileId>> {
    match fs::symlink_metadata(rt, path) {
        Ok(found) => Ok(Some(id_of(&found))),
        Err(error) if error.kind() == ErrorKind::NotFound => Ok(None),
        Err(error) => Err(error),
    }
}

/// Whether two paths are of one file, by any names. It need not be there: then their folders are one, and the names in
/// it.
pub(crate) fn is_same(rt: &impl Files, one: &str, other: &str) -> bool {
    match (fs::metadata(rt, one), fs::metadata(rt, other)) {
        (Ok(one), Ok(other)) => one.is_file() && id_of(&one) == id_of(&other),
        (Err(_), Err(_)) => {
            let ((folder, name), (other_folder, other_name)) = (split(one), split(other));
            let folders = (fs::metadata(rt, folder), fs::metadata(rt, other_folder));
            name == other_name
                && matches!(folders, (Ok(one), Ok(other)) if id_of(&one) == id_of(&other))
        }
        _ => false,
    }
}

/// The folder of a path, and the name in it.
fn split(path: &str) -> (&str, &str) {
    match path.rsplit_once('/') {
        Some(("", name)) => ("/", name),
        Some(both) => both,
        None => (".", path),
    }
}

fn nothing_at<R: Files>(rt: &R, path: &str) -> Result<Place<R::File>, Unmade> {
    match fs::symlink_metadata(rt, path) {
        Ok(_) => Err(Unmade::Taken("is a link to a file that is not there")),
        Err(_) => Ok(Place::Nothing),
    }
}

/// Opens a pipe, if somebody reads it. With an end that also reads, opening waits for nobody (fifo(7)).
fn pipe_at<R: Files>(rt: &R, path: &str) -> Result<Place<R::File>, Unmade>
where
    R::File: AsRawFd,
{
    let both = OpenOptions::new().read(true).write(true).open(rt, path)?;
    let end = how_to_open(true).open(rt, path)?;
    drop(both);
    if has_reader(&end) {
        Ok(Place::Open(end))
    } else {
        Err(Unmade::Taken("is a FIFO that nobody reads"))
    }
}

/// Whether somebody reads a pipe (poll(2), `POLLERR`).
fn has_reader(end: &impl AsRawFd) -> bool {
    let mut asked = [pollfd {
        fd: end.as_raw_fd(),
        events: system::POLLOUT,
        revents: 0,
    }];
    system::poll(&mut asked, 0);
    asked[0].revents & system::POLLERR == 0
}

/// Gives what an earlier run has left at the second name a name of its own.
fn keep_old<R: AllocGlobal + Files>(rt: &R, log: &impl Log, names: &Names) -> Result<(), Unmade>
where
    R::File: AsRawFd,
{
    match look_at(rt, names.old.as_str(), true)? {
        Place::Nothing => Ok(()),
        there => {
            keep(rt, log, names.old.as_str(), names.path.as_str())?;
            drop(there);
            Ok(())
        }
    }
}

fn open_new<R: AllocGlobal + Files>(
    rt: &R,
    log: &impl Log,
    path: &str,
    place: Place<R::File>,
) -> Result<R::File, Unmade>
where
    R::File: AsRawFd,
{
    match place {
        Place::Open(file) => Ok(file),
        Place::Nothing => make(rt, path),
        Place::Recording(there) => {
            keep(rt, log, path, path)?;
            let made = make(rt, path);
            // What was there stays locked until the new one is.
            drop(there);
            made
        }
    }
}

fn make<R: Files>(rt: &R, path: &str) -> Result<R::File, Unmade>
where
    R::File: AsRawFd,
{
    hold(rt, how_to_open(false).open(rt, path)?, path)
}

/// How to open a file that is there, or make one that is not. Even if a file has come or gone since, none is emptied
/// (open(2), `O_APPEND` and `O_EXCL`).
fn how_to_open(is_there: bool) -> OpenOptions
    ensures whole { (asks_truncate result ≡ false) × (asks_create result ≡ false) }
    ensures behind { (asks_append result ≡ true) × (asks_write result ≡ false) × (asks_read result ≡ false) }
    ensures there { is_there ≡ true → asks_create_new result ≡ false }
    ensures made { is_there ≡ false → asks_create_new result ≡ true }
{
    let mut how = OpenOptions::new();
    how.append(true).create_new(!is_there);
    how
}

/// Gives the file of this name the first free one of `PATH.1`, `PATH.2` and so on.
fn keep<R: AllocGlobal + Files>(
    rt: &R,
    log: &impl Log,
    name: &str,
    path: &str,
) -> Result<(), Unmade> {
    let kept = free_name(rt, rt.alloc(), path)?;
    // This replaces the empty file that `free_name` has made.
    fs::rename(rt, name, kept.as_str())?;
    log_kept(log, name, kept.as_str());
    Ok(())
}

fn log_kept(log: &impl Log, path: &str, kept: &str) {
    let (name, kept) = (EndOfLine(path), EndOfLine(kept));
    log_text(
        log,
        Level::Info,
        &format_args!("record: {name}: was there, and is {kept} now"),
    );
}

/// As many bytes of a file as every recording begins with, and how many the file has of these.
pub(crate) fn first_bytes(rt: &impl Files, path: &str) -> io::Result<([u8; 17], usize)> {
    let mut first = [0u8; 17];
    let length = File::open(rt, path)?.read(&mut first)?;
    Ok((first, length))
}

/// The first free name after a path. An empty file has this name now, so that nobody else takes the name.
fn free_name(rt: &impl Files, alloc: Global, path: &str) -> Result<String, Unmade> {
    for number in 1..=MOST_KEPT {
        let name = format!(in alloc; "{path}.{number}")?;
        match how_to_open(false).open(rt, name.as_str()) {
            Ok(_) => return Ok(name),
            Err(error) if error.kind() == ErrorKind::AlreadyExists => {}
            Err(error) => return Err(Unmade::System(error)),
        }
    }
    Err(Unmade::System(io::Error::from(ErrorKind::AlreadyExists)))
}
