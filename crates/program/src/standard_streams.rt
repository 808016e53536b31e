//! Standard streams that are closed when the program starts. A file or a socket that the program opens gets the
//! lowest number that is not open (open(2), socket(2)), and would be used in the place of a closed stream.
ghost use Rattle.std.specs.Prelude.{◌≡◌, IfOk, IfSome};
ghost use Rattle.program.specs.Starting.{number, StandsIn};

use crate::faults::FAULT;
use std::fmt;
use std::fs::OpenOptions;
use std::io::{self, ErrorKind, Write};
use std::os::fd::{AsFd, AsRawFd};
use std::rt::Files;

/// What stands in for a closed stream.
const NOWHERE: &str = "/dev/null";

/// The error of a call on a descriptor that is not open (errno(3)).
const EBADF: i32 = 9;

/// A standard stream.
#[derive(Clone, Copy)]
pub enum StandardStream {
    Input,
    Output,
    Errors,
}

impl StandardStream {
    fn number(self) -> i32
        ensures { result ≡ number self }
    {
        match self {
            Self::Input => 0,
            Self::Output => 1,
            Self::Errors => 2,
        }
    }

    /// How the file is opened that stands in for the stream. Each use of input and of errors fails as that of a closed
    /// stream; output takes what is written, but no command writes to it ([`act`](crate::act)).
    fn standing_in(self) -> OpenOptions
        ensures { StandsIn self result }
    {
        let mut how = OpenOptions::new();
        match self {
            Self::Input | Self::Output => how.write(true),
            Self::Errors => how.read(true),
        };
        how
    }
}

impl fmt::Display for StandardStream {
    fn fmt<W: fmt::Write>(&self, f: &mut fmt::Formatter<W>) -> fmt::Result {
        f.write_str(match self {
            Self::Input => "input",
            Self::Output => "output",
            Self::Errors => "errors",
        })
    }
}

/// A closed stream for which nothing can stand in.
#[derive(Drop)]
pub struct Unheld {
    stream: StandardStream,
    cause: io::Error,
}

/// The files that stand in for closed streams. As long as they are held, nothing else gets the streams' numbers.
#[derive(Drop)]
pub struct Held<F> {
    input: Option<F>,
    output: Option<F>,
    errors: Option<F>,
}

impl<F> Held<F> {
    /// Whether standard output was closed.
    pub fn has_output(&self) -> bool {
        self.output.is_some()
    }
}

/// Has a file stand in for each standard stream that is closed. The program must have opened nothing before. Refuses
/// if `/dev/null` cannot be opened, or does not get the number of the stream.
pub fn hold_closed<R, I: AsFd, O: AsFd, E: AsFd>(
    rt: &R,
    input: &I,
    output: &O,
    errors: &E,
) -> Result<Held<R::File>, Unheld>
where
    R: Files,
    R::File: AsRawFd,
{
    // In this order each file gets the lowest number that is not open, which is its stream's.
    Ok(Held {
        input: stand_in(rt, StandardStream::Input, input)?,
        output: stand_in(rt, StandardStream::Output, output)?,
        errors: stand_in(rt, StandardStream::Errors, errors)?,
    })
}

/// A file with the number of a stream that is closed. None if the stream is open.
fn stand_in<R, S: AsFd>(rt: &R, stream: StandardStream, open: &S) -> Result<Option<R::File>, Unheld>
where
    R: Files,
    R::File: AsRawFd,
    ensures { IfOk result (λ held. IfSome held (λ file. IfSome (R.File.raw_fd file) (λ fd. fd ≡ number stream))) }
{
    if !is_closed(open) {
        return Ok(None);
    }
    let cause = match stream.standing_in().open(rt, NOWHERE) {
        Ok(file) if file.as_raw_fd() == stream.number() => return Ok(Some(file)),
        Ok(_) => io::Error::from(ErrorKind::AlreadyExists),
        Err(error) => error,
    };
    Err(Unheld { stream, cause })
}

/// True if no copy of a stream can be made: it is closed (fcntl(2), `F_DUPFD`).
fn is_closed(stream: &impl AsFd) -> bool {
    match stream.as_fd().try_clone_to_owned() {
        Ok(_) => false,
        Err(error) => error.raw_os_error() == Some(EBADF),
    }
}

/// Writes to `errors`, or else to `output`, that nothing can stand in for a closed stream. Returns the exit status.
pub fn report_unheld(output: &mut impl Write, errors: &mut impl Write, fault: &Unheld) -> u8
    ensures { result ≡ 1 }
{
    if write_unheld(errors, fault).is_err() {
        let _ = write_unheld(output, fault);
    }
    FAULT
}

fn write_unheld(stream: &mut impl Write, fault: &Unheld) -> io::Result<()> {
    let (closed, cause) = (fault.stream, &fault.cause);
    writeln!(
        stream,
        "relayd: {closed}: is closed, and {NOWHERE} cannot be opened in its place: {cause}"
    )
}
