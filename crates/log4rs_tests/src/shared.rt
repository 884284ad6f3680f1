//! Signals between two threads.

use log4rs::OutOfMemory;
use std::alloc::Global;
use std::rt::Clock;
use std::sync::Arc;
use std::sync::atomic::{AtomicBool, Ordering};
use std::thread;
use std::time::Duration;

/// Signals between two calls.
#[derive(Drop)]
pub(crate) struct Signals {
    /// Whether the first call has begun to wait.
    pub(crate) began: AtomicBool,
    /// Whether the other call has returned.
    pub(crate) answered: AtomicBool,
}

impl Signals {
    pub(crate) fn new(alloc: Global) -> Result<Arc<Signals>, OutOfMemory> {
        let signals = Signals {
            began: AtomicBool::new(false),
            answered: AtomicBool::new(false),
        };
        Ok(Arc::new(alloc, signals)?)
    }
}

/// Returns whether a flag is set within about ten seconds.
pub(crate) fn is_set<W: Clock>(rt: &W, flag: &AtomicBool) -> bool {
    for _ in 0..10_000 {
        if flag.load(Ordering::SeqCst) {
            return true;
        }
        thread::sleep(rt, Duration::from_millis(1));
    }
    false
}
