//! Standard input as a sign: a relay with `--until-eof` opens no more connections once its standard input has ended.
//! Nothing waits for the thread that reads: standard input may never end.
ghost use Rattle.std.specs.Prelude.{◌≡◌, ◌⊎◌, IfErr};

use crate::logging::level_filter;
use crate::streams::log_text;
use log::{Level, LevelFilter, Logged};
use os::set_thread_name;
use relay_log::log_no_thread;
use settings::LogLevel;
use sizes::ServerFault;
use sockets::Stop;
use std::alloc::AllocGlobal;
use std::io::{self, Eprint, Stdin};
use std::sync::{Arc, Wait};
use std::thread::{Builder, Threads};
use writer_queue::{Direct, LogQueue, Queued};

/// Returns a stop. If standard input `is_sign`, starts a thread that reads standard input to its end, throws that away,
/// and sets the stop. A read that fails counts as the end. Logs the end at level info, a failed read at level warn.
/// Refuses with `NoMemory`. Refuses with `Threads`, and logs the cause, if the thread cannot be started.
pub(crate) fn watch<R>(
    rt: R,
    input: Stdin,
    level: LogLevel,
    is_sign: bool,
    queue: &Arc<LogQueue>,
) -> Result<Arc<Stop>, ServerFault>
where
    R: AllocGlobal + Threads + Eprint + Wait + Send + Copy + Drop + 'static,
    ensures refused { IfErr result (λ fault. (fault ≡ ServerFault.NoMemory) ⊎ (fault ≡ ServerFault.Threads)) }
{
    let stop = Arc::new(rt.alloc(), Stop::new())?;
    if !is_sign {
        return Ok(stop);
    }
    let lines = queue.clone()?;
    let sign = stop.clone()?;
    let level = level_filter(level);
    let read = move || {
        set_thread_name(b"stdin");
        read_to_end(&rt, input, level, &lines);
        sign.set();
    };
    if Builder::new().spawn(&rt, read).is_err() {
        let form = queue.form();
        return Err(log_no_thread(&Direct { rt, form }));
    }
    Ok(stop)
}

fn read_to_end<R>(rt: &R, mut input: Stdin, level: LevelFilter, queue: &LogQueue)
where
    R: Eprint + Wait + Copy + Drop,
{
    let log = Logged::new(*rt, level, Queued { rt: *rt, queue });
    match io::copy(&mut input, &mut io::sink()) {
        Ok(_) => log_text(
            &log,
            Level::Info,
            &"input: has ended, so no more clients are accepted",
        ),
        Err(error) => {
            let text = format_args!("input: {error}, so no more clients are accepted");
            log_text(&log, Level::Warn, &text);
        }
    }
}
