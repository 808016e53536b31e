//! The stop of a relay: no more connections are opened, and every poller hears of it at once.
use crate::poll::Wakers;
use std::sync::atomic::AtomicBool;
use std::sync::atomic::Ordering::SeqCst;
use std::sync::{Arc, OnceLock};

/// Whether no more connections may be opened. Each poller looks before it waits for reports, and whoever says so ends
/// the waits of all.
#[derive(Drop)]
pub struct Stop {
    is_set: AtomicBool,
    /// The wakers of the pollers, once there are any.
    wakers: OnceLock<Arc<Wakers>>,
}

/// The flag was set. Only [`Stop::set_flag`] makes this value.
#[derive(Drop)]
pub(crate) struct IsSet(());

impl Stop {
    /// More connections may be opened.
    pub fn new() -> Stop {
        Stop {
            is_set: AtomicBool::new(false),
            wakers: OnceLock::new(),
        }
    }

    /// The flag that pollers look at.
    pub fn flag(&self) -> &AtomicBool {
        &self.is_set
    }

    /// From now on no more connections may be opened. The flag is set before a poller is woken, so each finds it set. A
    /// poller whose waker is not here yet has not looked at the flag either.
    pub fn set(&self) {
        let set = self.set_flag();
        if let Some(wakers) = self.wakers.get() {
            wakers.wake_all(&set);
        }
    }

    fn set_flag(&self) -> IsSet {
        self.is_set.store(true, SeqCst);
        IsSet(())
    }

    /// These pollers, which do not run yet, are woken by a stop.
    pub(crate) fn reach(&self, wakers: Arc<Wakers>) {
        let _ = self.wakers.try_set(wakers);
    }
}
