//! A logger that threads share, and how each logs.

use crate::macros::{Informs, Told, here};
use crate::sample::thread_samples;
use crate::work::repeat;
use anyhow::{Result, bail};
use log4rs::append::Append;
use log4rs::config::runtime::config::ConfigOf;
use log4rs::filter::AnyFilter;
use log4rs::threads::{LoggerOf, ReportFault};
use log4rs::{Entry, LogError, OutOfMemory};
use std::alloc::Global;
use std::fs::Files;
use std::rt::Clock;
use std::sync::atomic::{AtomicU64, Ordering};
use std::sync::{Arc, Wait};

/// Counts the failed appends.
#[derive(Drop)]
pub struct Faults {
    count: Arc<AtomicU64>,
}

impl ReportFault for Faults {
    fn report(&self, _: &LogError) {
        self.count.fetch_add(1, Ordering::SeqCst);
    }
}

/// A logger whose faults are counted.
type Counted<A, R> = LoggerOf<A, AnyFilter, Faults, R>;

/// A logger, and the record that each thread logs.
#[derive(Drop)]
pub struct Shared<A, R> {
    logger: Counted<A, R>,
    faults: Arc<AtomicU64>,
    samples: Vec<Entry<'static>>,
}

impl<A: Append + Drop, R: Drop> Shared<A, R> {
    /// Creates a logger of a configuration for this number of threads.
    pub fn new(
        rt: R,
        alloc: Global,
        config: ConfigOf<A, AnyFilter>,
        threads: usize,
    ) -> Result<Shared<A, R>, OutOfMemory> {
        let faults = Arc::new(alloc, AtomicU64::new(0))?;
        let handler = Faults {
            count: Arc::try_clone(&faults)?,
        };
        let logger = LoggerOf::with_handler(rt, alloc, config, Some(handler))?;
        Ok(Shared {
            logger,
            faults,
            samples: thread_samples(alloc, threads)?,
        })
    }

    /// Returns the number of records that failed.
    pub fn faults(&self) -> u64 {
        self.faults.load(Ordering::SeqCst)
    }

    /// Fails if a record failed.
    pub fn all_are_logged(&self) -> Result<()> {
        match self.faults() {
            0 => Ok(()),
            faults => bail!("{faults} records were not logged"),
        }
    }
}

impl<A: Append + Drop, R: Wait + Eprint + Clone + Drop> Shared<A, R> {
    /// Logs the record of a thread `times` times through a logger of its own; nothing if there is no
    /// such thread.
    pub fn log(&self, thread: usize, times: u64) {
        let Some(sample) = self.samples.get(thread) else {
            return;
        };
        let Ok(logger) = self.logger.share() else {
            self.faults.fetch_add(times, Ordering::SeqCst);
            return;
        };
        for _ in 0..times {
            logger.log(&sample.logged, &sample.context);
        }
    }
}

impl<A, R> Shared<A, R>
where
    A: Append + Drop,
    R: AllocGlobal + Files + Clock + Wait + Eprint + Copy + Drop,
{
    /// Returns a runtime of the calling thread whose macros log to the logger.
    pub fn told(&self, rt: R) -> Result<Told<&Counted<A, R>, R>, OutOfMemory> {
        here(rt, rt.alloc(), &self.logger)
    }

    /// Logs to the target of a thread `times` times by a macro; nothing if there is no such thread.
    pub fn log_by_macro(&self, rt: R, thread: usize, times: u64) {
        let Some(sample) = self.samples.get(thread) else {
            return;
        };
        if let Err(_) = self.repeat_macro(rt, &sample.logged.target, times) {
            self.faults.fetch_add(times, Ordering::SeqCst);
        }
    }

    /// Logs to a target `times` times by a macro.
    fn repeat_macro(&self, rt: R, target: &str, times: u64) -> Result<u64, OutOfMemory> {
        repeat(&mut Informs::new(self.told(rt)?, target), times)
    }
}
