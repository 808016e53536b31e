//! Whether the program was started with a listening socket, as systemd starts a service (sd_listen_fds(3)).
ghost use Rattle.std.specs.Prelude.{◌≡◌, IfErr};
ghost use Rattle.program.specs.Faults.{status_of};

use crate::faults::ProgramFault;
use crate::streams::log_error;
use log::Log;
use sizes::ServerFault;
use sockets::{Passed, take_passed};
use std::alloc::{AllocError, AllocGlobal};
use std::env::{self, Env, VarError};

/// The variables that name the process to which descriptors are passed, and how many, from 3 on.
const PROCESS: &str = "LISTEN_PID";

const COUNT: &str = "LISTEN_FDS";

/// The socket with which the program was started, if it was. The program must have opened nothing before.
///
/// Refuses with `Listen`, and logs the cause, if another number than one was passed, or if a relay cannot listen on it.
/// Refuses with `NoMemory`.
pub(crate) fn passed_socket<R: AllocGlobal + Env>(
    rt: &R,
    log: &impl Log,
) -> Result<Option<Passed>, ProgramFault>
    ensures { IfErr result (λ fault. status_of fault ≡ 1) }
{
    let Some(process) = variable(rt, PROCESS)? else {
        return Ok(None);
    };
    let Some(count) = variable(rt, COUNT)? else {
        return Ok(None);
    };
    if process.as_str().parse::<i32>() != Ok(libc::getpid()) {
        return Ok(None);
    }
    if count.as_str() != "1" {
        let wanted = format_args!("{COUNT} is {count}, and 1 is wanted");
        log_error(log, &"listen", &wanted);
        return Err(ProgramFault::Server(ServerFault::Listen));
    }
    match take_passed(log) {
        Ok(passed) => Ok(Some(passed)),
        Err(fault) => Err(ProgramFault::Server(fault)),
    }
}

/// The text of a variable. None if it is not set, or is not UTF-8.
fn variable<R: AllocGlobal + Env>(rt: &R, name: &str) -> Result<Option<String>, AllocError> {
    match env::var(rt, name) {
        Ok(text) => Ok(Some(text)),
        Err(VarError::OutOfMemory) => Err(AllocError),
        Err(VarError::NotPresent | VarError::NotUnicode) => Ok(None),
    }
}
