//! How many clients each poller has. By these counts a poller leaves clients to others.
ghost use Rattle.std.specs.Prelude.{◌≤◌};

use crate::limits::{LEAST_MARGIN, MARGIN_PART};
use sizes::Split;
use std::alloc::{AllocError, Global};
use std::sync::Arc;
use std::sync::atomic::AtomicBool;
use std::sync::atomic::Ordering::SeqCst;

/// Whether a poller takes clients, and how many it has: each of its clients has a share of this value.
#[derive(Drop)]
pub(crate) struct Load {
    /// The most clients that it can have.
    most: usize,
    listens: AtomicBool,
}

/// For each poller how many clients it has. Nothing depends on these counts but which poller takes a client first.
#[derive(Drop)]
pub(crate) struct Loads {
    each: Vec<Arc<Load>>,
    /// Whether the last opening that failed found no descriptor for its target, and no client was accepted since.
    short: AtomicBool,
}

impl Loads {
    /// The loads of pollers that listen and have no client.
    pub(crate) fn new(alloc: Global, split: Split) -> Result<Loads, AllocError> {
        let mut each = Vec::with_capacity(alloc, split.pollers())?;
        for poller in 0..split.pollers() {
            let load = Load {
                most: split.part(poller).slots,
                listens: AtomicBool::new(true),
            };
            each.push(Arc::new(alloc, load)?)?;
        }
        let short = AtomicBool::new(false);
        Ok(Loads { each, short })
    }

    pub(crate) fn set_short(&self, short: bool) {
        self.short.store(short, SeqCst);
    }

    pub(crate) fn is_short(&self) -> bool {
        self.short.load(SeqCst)
    }

    /// Counts one client more of this poller, until the share is dropped. None if it cannot be counted.
    pub(crate) fn share(&self, poller: usize) -> Option<Arc<Load>> {
        Arc::try_clone(self.each.get(poller)?).ok()
    }

    /// This poller takes no more clients.
    pub(crate) fn close(&self, poller: usize) {
        if let Some(load) = self.each.get(poller) {
            load.listens.store(false, SeqCst);
        }
    }

    /// Whether this poller has more clients than another poller that can take one, by more than the margin.
    pub(crate) fn is_ahead(&self, poller: usize) -> bool {
        let Some(load) = self.each.get(poller) else {
            return false;
        };
        let own = clients(load);
        for other in &self.each {
            let count = clients(other);
            let is_far = own > count.saturating_add(margin(count));
            if is_far && count < other.most && other.listens.load(SeqCst) {
                return true;
            }
        }
        false
    }
}

/// How many clients a poller has. Its load has one more share, in the list of all.
fn clients(load: &Arc<Load>) -> usize {
    Arc::strong_count(load).saturating_sub(1)
}

/// How many more clients than `count`, another's number, a poller may have and still take the next one.
fn margin(count: usize) -> usize
    ensures { 2 ≤ result }
{
    (count / MARGIN_PART).max(LEAST_MARGIN)
}
