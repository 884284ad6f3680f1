//! Gates, which pace workers and end them.

use crate::error::OutOfMemory;
use std::alloc::Global;
use std::rt::Clock;
use std::sync::atomic::{AtomicBool, Ordering};
use std::sync::{Arc, Wait};
use std::thread;
use std::time::Duration;

/// Paces a worker, and ends it.
pub trait Gate {
    /// Waits this many milliseconds and returns `true`, or returns `false` if the worker is to end.
    fn turn(&mut self, millis: u64) -> bool;
}

/// Makes a turn whenever the gate lets the milliseconds of the rate pass; each turn returns the next
/// rate. Ends when there is none, or when the gate says so.
pub fn at_rate<R: Wait, G: Gate, T>(rt: &R, gate: &mut G, mut rate: Option<u64>, mut turn: T)
where
    T: FnMut() -> Option<u64>,
    requires { T.IsAlwaysCallable turn }
{
    for _ in rt.forever() {
        match rate {
            Some(millis) if gate.turn(millis) => rate = turn(),
            _ => break,
        }
    }
}

/// The longest sleep of a `StopGate`, in milliseconds.
const PIECE: u64 = 10;

/// Tells workers to end. Once it is set, it stays set for all that share it.
#[derive(Drop)]
pub struct StopFlag {
    flag: Arc<AtomicBool>,
}

impl StopFlag {
    /// Creates a flag that is not set. Fails if an allocation fails.
    pub fn new(alloc: Global) -> Result<StopFlag, OutOfMemory> {
        Ok(StopFlag {
            flag: Arc::new(alloc, AtomicBool::new(false))?,
        })
    }

    /// Returns another handle of the same flag, for another thread. Allocates nothing, and fails
    /// only if the flag has too many handles to count.
    pub fn share(&self) -> Result<StopFlag, OutOfMemory> {
        Ok(StopFlag {
            flag: Arc::try_clone(&self.flag)?,
        })
    }

    /// Sets the flag.
    pub fn stop(&self) {
        self.flag.store(true, Ordering::SeqCst);
    }

    /// Returns whether the flag is set.
    pub fn is_stopped(&self) -> bool {
        self.flag.load(Ordering::SeqCst)
    }

    /// Creates a gate that lets turns pass until the flag is set. It sleeps by `clock`. Fails as
    /// `share` does.
    pub fn gate<X>(&self, clock: X) -> Result<StopGate<X>, OutOfMemory>
    where
        X: Drop,
    {
        let stop = self.share()?;
        Ok(StopGate { clock, stop })
    }
}

/// A gate that sleeps in pieces of at most 10 milliseconds, and ends its worker at the first piece
/// after its flag was set.
#[derive(Drop)]
pub struct StopGate<X> {
    clock: X,
    stop: StopFlag,
}

impl<X: Clock> Gate for StopGate<X> {
    fn turn(&mut self, millis: u64) -> bool {
        for _ in 0..millis / PIECE {
            if self.stop.is_stopped() {
                return false;
            }
            thread::sleep(&self.clock, Duration::from_millis(PIECE));
        }
        if self.stop.is_stopped() {
            return false;
        }
        thread::sleep(&self.clock, Duration::from_millis(millis % PIECE));
        !self.stop.is_stopped()
    }
}
