// The thread that writes.
use crate::gap::write_some;
use crate::lines::Lines;
use crate::queue::{RecordQueue, soon};
use log::{Log, warn};
use record_lines::{Header, Parts};
use std::io;
use std::sync::Wait;
use writer_queue::Drain;

/// Writes the header, then the records, each queue's in order, until the queues are closed and then found empty, and
/// then the last record: that all is recorded (in parts, all since the last gap), or that some were lost.
/// [`RecordQueue::close`] closes the queues. A record that finds no room closes them, too, unless the recording is
/// `in_parts`: then the writer writes all that waits, and that some are lost, and what follows is the next part, in the
/// next file. A file has at most `most` bytes, or 1,024 if that is more ([`Lines`], where the clauses are). It flushes
/// before it rests and after the last record, and takes no memory. If a file cannot be written, the recording ends:
/// that is logged, unless lost records had ended it, and what was written stays. What waits is dropped then, and each
/// act that begins from then on is counted as lost. One thread calls this, once for a [`RecordQueue`].
pub fn write_records<R: Wait + Log, P: Parts>(
    rt: &R,
    queue: &RecordQueue,
    header: Header,
    most: u64,
    parts: P,
) {
    if let Err(error) = write_recording(rt, queue, header, most, parts) {
        if queue.stop() {
            warn!(rt; target: "relayd", "record: {error}, so the recording ends here");
        }
    }
}

fn write_recording<R: Wait, P: Parts>(
    rt: &R,
    queue: &RecordQueue,
    header: Header,
    most: u64,
    parts: P,
) -> io::Result<()> {
    let lines = Lines::begin(parts, header, most)?;
    Writer { rt, queue, lines }.write()
}

#[derive(Drop)]
struct Writer<'a, R, P> {
    rt: &'a R,
    queue: &'a RecordQueue,
    lines: Lines<P>,
}

impl<R: Wait, P: Parts> Writer<'_, R, P> {
    fn write(&mut self) -> io::Result<()> {
        let (rt, queue) = (self.rt, self.queue);
        let drained = queue.waiting.drain(rt, self, soon())?;
        self.lines.put(&queue.last(drained))?;
        self.lines.flush()
    }
}

impl<R: Wait, P: Parts> Drain for Writer<'_, R, P> {
    type Error = io::Error;

    fn drain(&mut self) -> io::Result<bool> {
        let mut found = false;
        for _look in self.rt.forever() {
            let seen = self.queue.breaks.read();
            if let Some(none_waits) = write_some(self.rt, self.queue, seen, &mut self.lines)? {
                // What was put before the gap is written: nothing waited after it had begun.
                if let Some(full) = self.queue.go_on(none_waits) {
                    self.lines.put(&full.0)?;
                }
                break;
            }
            found = true;
        }
        self.lines.flush()?;
        Ok(found)
    }
}
