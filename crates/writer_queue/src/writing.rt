//! The thread that writes the log.
use crate::limits::soon;
use crate::parked::Drain;
use crate::queue::{LogQueue, Written};
use crate::sink::Direct;
use log::warn;
use std::convert::Infallible;
use std::io::Eprint;
use std::sync::Wait;

/// Writes the queue's lines to standard error, each by one write, until the queue is closed and all are written.
/// After a write, logs how many lines were left out, if any were. A line that cannot be written is lost.
pub fn write_lines<R: Eprint + Wait>(rt: &R, queue: &LogQueue) -> Written {
    match queue.lines.drain(rt, &mut Writer { rt, queue }, soon()) {
        Ok(drained) => queue.end(drained),
        Err(never) => match never {},
    }
}

#[derive(Drop)]
struct Writer<'a, R> {
    rt: &'a R,
    queue: &'a LogQueue,
}

impl<R: Eprint + Wait> Drain for Writer<'_, R> {
    type Error = Infallible;

    fn drain(&mut self) -> Result<bool, Infallible> {
        let mut found = false;
        for _line in self.rt.forever() {
            log_left_out(self.rt, self.queue);
            let Some(line) = self.queue.take(self.rt) else {
                return Ok(found);
            };
            line.write(self.rt);
            found = true;
        }
        Ok(found)
    }
}

fn log_left_out<R: Eprint>(rt: &R, queue: &LogQueue) {
    let count = queue.take_left_out();
    if count > 0 {
        let form = queue.form();
        warn!(Direct { rt, form }; target: "relayd", "log: {count} lines left out");
    }
}
