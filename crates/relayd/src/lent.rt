//! What the program lends the server.
ghost use Rattle.std.specs.Prelude.{IfNone, IfSome};
ghost use Rattle.server.specs.Serves.{Serves};

use libc::types::timespec;
use program::{Beside, Given};
use server::{Clock, Lent, Outcome, System, serve_recorded};

/// Serves with what is given, and with what runs beside the server.
pub fn serve<R: System>(rt: &R, beside: &Beside<HostRuntime>, given: Given<HostRuntime>) -> Outcome
    ensures { IfNone given.files (IfSome result.served (Serves given.settings (λ second. Unit {0}))) }
{
    let (settings, extras) = (given.settings, given.extras);
    let lent = Lent {
        rt,
        alloc: beside.rt.alloc(),
        gate: beside,
        clock: &MonotonicClock,
        stop: &beside.stop,
        statistics: beside.statistics(),
        patience: extras.patience,
        log_clients: extras.log_clients,
    };
    let most = extras.most_of_part();
    serve_recorded(&settings, given.bound, lent, given.files, most)
}

/// The system's monotonic clock (clock_gettime(2)): the whole seconds since some moment before the program began, or
/// 0 if the clock cannot be read. Each turn reads it, so it asks for the seconds alone: the standard library's clock
/// makes a duration of seconds and nanoseconds, which takes twice as long.
#[derive(Clone, Copy)]
pub struct MonotonicClock;

impl Clock for MonotonicClock {
    fn second(&self) -> u64 {
        let mut time = timespec {
            tv_sec: 0,
            tv_nsec: 0,
        };
        if libc::clock_gettime(libc::CLOCK_MONOTONIC, &mut time) != 0 {
            return 0;
        }
        u64::try_from(time.tv_sec).unwrap_or(0)
    }
}
