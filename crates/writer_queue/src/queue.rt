//! The queue of the log's lines.
ghost use Rattle.std.specs.Prelude.{◌≡◌, [], ◌∷◌, IfOk};

use crate::left_out::taken;
use crate::limits::MAX_LINES;
use crate::line::{LogLine, Unwritten};
use crate::parked::ParkedQueue;
use crate::sink::Form;
use crossbeam_queue::ArrayQueue;
use queues::{Drained, Spent};
use std::alloc::{AllocError, Global};
use std::sync::Wait;
use std::sync::atomic::{AtomicBool, AtomicU64, Ordering};

/// At most [`MAX_LINES`] finished lines, oldest first, between the threads that log and the one that writes.
#[derive(Drop)]
pub struct LogQueue {
    pub(crate) lines: ParkedQueue<LogLine, 1>,
    form: Form,
    /// Lines that found the queue full, and were not logged as left out yet.
    left_out: AtomicU64,
    is_written: AtomicBool,
}

/// Every line was written. Only [`LogQueue::end`] makes one.
#[derive(Drop)]
pub struct Written(());

impl LogQueue {
    /// An empty queue. It takes memory for all its lines; no later call takes any.
    pub fn new(alloc: Global, form: Form) -> Result<LogQueue, AllocError>
        ensures room { IfOk result (λ made. made.lines ≡ 4096 ∷ []) }
    {
        Ok(LogQueue {
            lines: ParkedQueue::new([ArrayQueue::new(alloc, MAX_LINES)?]),
            form,
            left_out: AtomicU64::new(0),
            is_written: AtomicBool::new(false),
        })
    }

    /// How its lines begin.
    pub fn form(&self) -> Form {
        self.form
    }

    /// Puts a line after the others, or counts it if the queue is full, and wakes the writer if it sleeps.
    pub fn put(&self, rt: &impl Wait, line: LogLine) -> Spent {
        match self.lines.put(rt, 0, line) {
            Some(spent) => spent,
            None => self.lines.count(rt, &self.left_out),
        }
    }

    /// Takes the oldest line, to be written.
    pub(crate) fn take(&self, rt: &impl Wait) -> Option<Unwritten> {
        self.lines.take(rt, 0).map(Unwritten::new)
    }

    /// How many lines were left out since the last call.
    pub(crate) fn take_left_out(&self) -> u64 {
        taken(&self.left_out)
    }

    /// Lets the writer end once every line is written, and wakes it. What is put later may not be written.
    pub fn close(&self) {
        self.lines.close();
    }

    /// Whether every line was written, and the writer has ended.
    pub fn is_written(&self) -> bool {
        self.is_written.load(Ordering::SeqCst)
    }

    /// Marks all as written: the writer found the queue closed and then empty.
    pub(crate) fn end(&self, _drained: Drained) -> Written {
        self.is_written.store(true, Ordering::SeqCst);
        Written(())
    }
}
