//! Loggers: a configuration behind a lock, loaded whole for each record.

use crate::current::CurrentOf;
use crate::fill::{Draft, Fill};
use crate::handle::HandleOf;
use crate::leaving::LeavingOf;
use crate::loaded::{LoadedOf, flush_all};
use crate::present::{PresentOf, Seated};
use crate::report::{Handler, ReportFault};
use log::{Level, LevelFilter};
use log4rs_append::{AnyAppender, Append, Log, Steps};
use log4rs_base::filter::{AnyFilter, Filter};
use log4rs_base::print::print_fault;
use log4rs_base::{Context, Gate, LogError, OutOfMemory, Record, at_rate};
use log4rs_config::runtime::config::ConfigOf;
use std::alloc::Global;
use std::sync::{Arc, Wait};

/// Milliseconds between two steps of a worker.
const TURN: u64 = 10;

/// A logger that threads share, with handler `H` and runtime `W`. Its calls may wait for other
/// threads; creating it and its handles never waits.
#[derive(Drop)]
pub struct LoggerOf<A, F, H, W> {
    pub(crate) rt: W,
    pub(crate) alloc: Global,
    current: Arc<PresentOf<A, F, H>>,
    /// Where it loads the configuration.
    seat: usize,
    /// Configurations that were in force and still have appenders to retire.
    leaving: Arc<LeavingOf<A, F, H>>,
}

/// A logger over stores `S` that threads share.
pub type Logger<S, W> = LoggerOf<AnyAppender<S>, AnyFilter, Handler, W>;

impl<A: Append + Drop, F: Filter + Drop, W: Drop> LoggerOf<A, F, Handler, W> {
    /// Creates a logger of this configuration, whose faults go to this handler until the
    /// configuration is swapped.
    pub fn new_with_err_handler(
        rt: W,
        alloc: Global,
        config: ConfigOf<A, F>,
        handler: Box<dyn Fn(&LogError) + Send + Sync + Drop>,
    ) -> Result<LoggerOf<A, F, Handler, W>, OutOfMemory>
        requires { IsAlwaysCallable handler }
    {
        LoggerOf::with_handler(rt, alloc, config, Some(Handler::new(handler)))
    }
}

impl<A: Append + Drop, F: Filter + Drop, H: Drop, W: Drop> LoggerOf<A, F, H, W> {
    /// Creates a logger of this configuration, whose faults are printed to standard error.
    pub fn new(
        rt: W,
        alloc: Global,
        config: ConfigOf<A, F>,
    ) -> Result<LoggerOf<A, F, H, W>, OutOfMemory> {
        LoggerOf::with_handler(rt, alloc, config, None)
    }

    /// Creates a logger of this configuration. Its faults go to the handler until the configuration
    /// is swapped, or to standard error if there is none.
    pub fn with_handler(
        rt: W,
        alloc: Global,
        config: ConfigOf<A, F>,
        handler: Option<H>,
    ) -> Result<LoggerOf<A, F, H, W>, OutOfMemory> {
        let current = Arc::new(alloc, CurrentOf::new(alloc, config, handler)?)?;
        Ok(LoggerOf {
            rt,
            alloc,
            current: Arc::new(alloc, PresentOf::new(alloc, &current)?)?,
            seat: 0,
            leaving: Arc::new(alloc, LeavingOf::new(alloc))?,
        })
    }
}

impl<A: Append + Drop, F: Filter + Drop, H: Drop, W: Clone + Drop> LoggerOf<A, F, H, W> {
    /// Returns a handle that swaps the configuration.
    pub fn handle(&self) -> Result<HandleOf<A, F, H, W>, OutOfMemory> {
        Ok(HandleOf {
            rt: self.rt.clone()?,
            alloc: self.alloc,
            current: Arc::try_clone(&self.current)?,
            leaving: Arc::try_clone(&self.leaving)?,
        })
    }

    /// Returns the same logger for another thread: a swap through one is a swap for both. To load
    /// the configuration, eight such loggers write to words of their own; threads that share one
    /// write to the same words, which is slower.
    pub fn share(&self) -> Result<LoggerOf<A, F, H, W>, OutOfMemory> {
        Ok(LoggerOf {
            rt: self.rt.clone()?,
            alloc: self.alloc,
            current: Arc::try_clone(&self.current)?,
            seat: self.current.seat(),
            leaving: Arc::try_clone(&self.leaving)?,
        })
    }
}

impl<A: Append + Drop, F: Filter + Drop, H: Drop, W: Wait> LoggerOf<A, F, H, W> {
    /// Returns the current configuration. The lock is free again when this returns.
    fn present(&self) -> Result<Seated<A, F, H>, OutOfMemory> {
        self.current.load(&self.rt, self.seat)
    }
}

impl<A: Append + Drop, F: Filter + Drop, H: Drop, W: Wait + Clone + Drop> LoggerOf<A, F, H, W> {
    /// Loads one whole configuration.
    pub fn load(&self) -> Result<LoadedOf<A, F, H, W>, OutOfMemory> {
        let rt = self.rt.clone()?;
        let current = self.present()?;
        Ok(LoadedOf {
            rt,
            alloc: self.alloc,
            current,
        })
    }
}

impl<A: Append, F: Filter, H, W: Wait> LoggerOf<A, F, H, W> {
    /// Returns whether a record of this level and target passes the level of the logger that
    /// governs it in the current configuration. A level above the greatest of all levels, or not
    /// above the least, waits for nobody.
    pub fn enabled(&self, level: Level, target: &str) -> bool {
        match self.current.answer(level) {
            Some(known) => known,
            None => self.enabled_there(level, target),
        }
    }

    /// Returns the same by the lists. It may wait for the lock.
    #[inline(never)]
    fn enabled_there(&self, level: Level, target: &str) -> bool {
        let current = self.current.read(&self.rt, self.seat);
        current.lists().enabled(level, target)
    }

    /// Returns the greatest of all levels of the current configuration.
    pub fn max_log_level(&self) -> LevelFilter {
        self.current
            .read(&self.rt, self.seat)
            .lists()
            .max_log_level()
    }
}

impl<A: Append + Drop, F: Filter + Drop, H: Drop, W: Wait + Eprint> LoggerOf<A, F, H, W> {
    /// Flushes every appender of the current configuration, each under that appender's lock alone.
    /// A swap does not wait for it.
    pub fn flush(&self) {
        match self.present() {
            Ok(current) => flush_all(&self.rt, &current),
            Err(fault) => print_fault(&self.rt, &fault),
        }
    }
}

impl<A: Append + Drop, F: Filter + Drop, H: ReportFault + Drop, W> LoggerOf<A, F, H, W>
where
    W: Wait + Eprint + Clone + Drop,
{
    /// Hands a fault to the handler of the current configuration; if there is none, prints `log4rs:
    /// ` and its text to standard error. No lock is held while the handler runs, so it may log,
    /// swap the configuration and set levels.
    pub fn report(&self, fault: &LogError) {
        match self.present() {
            Ok(current) => current.held.reporter.report(&self.rt, fault),
            Err(_) => print_fault(&self.rt, fault),
        }
    }

    /// Prints of each appender of the current configuration how many of its appends failed, if some
    /// did, to standard error. Prints nothing if a handler gets each fault.
    pub fn report_losses(&self) {
        match self.load() {
            Ok(loaded) => loaded.report_losses(),
            Err(fault) => print_fault(&self.rt, &fault),
        }
    }

    /// Delivers a record by one whole configuration, then hands each fault to its handler, in
    /// order. If an allocation fails, the handler gets one `Memory` and nothing is appended. A
    /// record above the greatest of all levels is left out, and waits for nobody.
    pub fn log(&self, logged: &Record, context: &Context<'_>) {
        if self.current.keeps_out(logged.level) {
            return;
        }
        match self.load() {
            Ok(loaded) => loaded.log(logged, context),
            Err(_) => self.report(&LogError::Memory),
        }
    }

    /// Loads one whole configuration, and asks it once. If it logs the level and the target of a
    /// record, makes the entry in the place of the draft's, and delivers it by that configuration, as
    /// `log` does.
    pub fn log_event<E: Fill>(&self, draft: &mut Draft<'_>, event: &E) {
        if self.current.keeps_out(event.level()) {
            return;
        }
        match self.load() {
            Ok(loaded) => loaded.log_event(draft, event),
            Err(_) => self.report(&LogError::Memory),
        }
    }
}

/// Background work of appenders, such as the moves of a rolling.
impl<A: Steps + Drop, F: Filter + Drop, H: ReportFault + Drop, W> LoggerOf<A, F, H, W>
where
    W: Wait + Eprint + Clone + Drop,
{
    /// First retires appenders that a swap found in use, if no call holds them. Then makes one step
    /// of the background work of each appender of one whole configuration, each under that
    /// appender's lock, and hands each fault to its handler. Returns how many appenders have work
    /// left, including those whose step failed and those in use by a call, which are not waited for.
    /// If an allocation fails, the handler gets one `Memory`, no step is made, and the result is 0.
    pub fn step_all(&self) -> usize {
        self.leaving.retire_free(&self.rt);
        match self.load() {
            Ok(loaded) => loaded.step_all(),
            Err(_) => {
                self.report(&LogError::Memory);
                0
            }
        }
    }

    /// Finishes the background work of all appenders of one whole configuration, each under its
    /// lock, and hands each fault to its handler. Returns how many of them failed. If an allocation
    /// fails, the handler gets one `Memory`, nothing is done, and the result is 1. First retires
    /// appenders that a swap found in use; those that fail are counted.
    pub fn drive_all(&self) -> usize {
        let left = self.leaving.retire_all(&self.rt);
        let failed = match self.load() {
            Ok(loaded) => loaded.drive_all(),
            Err(_) => {
                self.report(&LogError::Memory);
                1
            }
        };
        failed.saturating_add(left)
    }

    /// Calls `step_all` after each ten milliseconds that the gate lets pass, until the gate ends
    /// it. Holds no lock while it waits for the gate.
    pub fn step_worker<G: Gate>(&self, gate: &mut G) {
        at_rate(&self.rt, gate, Some(TURN), || {
            self.step_all();
            Some(TURN)
        });
    }
}

impl<A: Append + Drop, F: Filter + Drop, H: ReportFault + Drop, W> Log for LoggerOf<A, F, H, W>
where
    W: Wait + Eprint + Clone + Drop,
{
    fn enabled(&self, level: Level, target: &str) -> bool {
        LoggerOf::enabled(self, level, target)
    }

    fn log(&mut self, record: &Record, context: &Context<'_>) {
        LoggerOf::log(self, record, context);
    }

    fn flush(&mut self) {
        LoggerOf::flush(self);
    }
}
