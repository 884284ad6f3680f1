//! Threads that work beside a program.

ghost use Rattle.std.specs.Prelude.{◌≡◌, ◌↔◌, IfOk, IsSome, IsTrue, OnOk};
ghost use Rattle.log4rs_threads.specs.Workers.{stepping_of, rereading_of};

use crate::handle::HandleOf;
use crate::logger::LoggerOf;
use crate::report::{Handler, ReportFault};
use log4rs_append::{AnyAppender, Steps};
use log4rs_base::filter::{AnyFilter, Filter};
use log4rs_base::{OutOfMemory, StopFlag, StopGate, at_rate};
use log4rs_config::runtime::Rereads;
use log4rs_config::runtime::config::ConfigOf;
use std::alloc::{AllocError, Global};
use std::rt::Clock;
use std::sync::Wait;
use std::thread::{self, JoinHandle, Threads};
use thiserror::Error;

/// Errors of starting the threads.
#[derive(Debug, Drop, Error)]
pub enum WorkersError {
    /// An allocation failed.
    #[error("{}", OutOfMemory)]
    Memory,
    /// The system started no thread.
    #[error("no thread can be started")]
    Thread,
}

impl From<OutOfMemory> for WorkersError {
    fn from(_: OutOfMemory) -> Self {
        WorkersError::Memory
    }
}

impl From<AllocError> for WorkersError {
    fn from(_: AllocError) -> Self {
        WorkersError::Memory
    }
}

/// Threads that work beside a program: one makes the steps of appenders' background work, and one
/// reads the configuration again. `end` ends them. Dropping the value tells them to end without
/// waiting for them.
pub struct WorkersOf<A, F, H, W> {
    logger: LoggerOf<A, F, H, W>,
    stop: StopFlag,
    stepping: Option<JoinHandle<()>>,
    rereading: Option<JoinHandle<()>>,
}

impl<A: Drop, F: Drop, H: Drop, W: Drop> Drop for WorkersOf<A, F, H, W> {
    fn drop(self) {
        let Self {
            logger: _logger,
            stop,
            stepping: _stepping,
            rereading: _rereading,
        } = self;
        stop.stop();
    }
}

/// The threads beside a program whose logger has stores `S`.
pub type Workers<S, W> = WorkersOf<AnyAppender<S>, AnyFilter, Handler, W>;

/// A logger, its handle, and the threads that work beside it.
#[derive(Drop)]
pub struct LoggingOf<A, F, H, W> {
    /// The logger.
    pub logger: LoggerOf<A, F, H, W>,
    /// Swaps its configuration and sets its levels.
    pub handle: HandleOf<A, F, H, W>,
    /// The threads beside it.
    pub workers: WorkersOf<A, F, H, W>,
}

/// The work of one thread.
trait Work {
    fn run(self);
}

/// Makes a step of each appender at each turn.
#[derive(Drop)]
struct Stepping<A, F, H, W> {
    logger: LoggerOf<A, F, H, W>,
    gate: StopGate<W>,
}

impl<A, F, H, W> Work for Stepping<A, F, H, W>
where
    A: Steps + Drop,
    F: Filter + Drop,
    H: ReportFault + Drop,
    W: Wait + Clock + Eprint + Clone + Drop,
{
    fn run(self) {
        let Stepping { logger, mut gate } = self;
        logger.step_worker(&mut gate);
    }
}

/// Reads a configuration again at its rate, as long as it has one, then does what is left.
#[derive(Drop)]
struct Rereading<A, F, H, W, D> {
    rt: W,
    handle: HandleOf<A, F, H, W>,
    rereads: D,
    gate: StopGate<W>,
}

impl<A, F, H, W, D> Work for Rereading<A, F, H, W, D>
where
    A: Steps + Drop,
    F: Filter + Drop,
    H: Drop,
    W: Wait + Clock + Eprint + Drop,
    D: Rereads<A, F> + Drop,
{
    fn run(self) {
        let Rereading {
            rt,
            mut handle,
            mut rereads,
            mut gate,
        } = self;
        at_rate(&rt, &mut gate, rereads.rate(), || {
            rereads.reread(&mut handle);
            rereads.rate()
        });
        rereads.end(&mut handle);
    }
}

/// Starts a thread for some work.
fn start<W, K>(rt: &W, work: K) -> Result<JoinHandle<()>, WorkersError>
where
    W: Threads,
    K: Work + Send + Drop + 'static,
{
    match thread::spawn(rt, move || work.run()) {
        Ok(worker) => Ok(worker),
        Err(_) => Err(WorkersError::Thread),
    }
}

/// Waits until a thread has ended, if there is one.
fn join<W: Threads>(rt: &W, worker: Option<JoinHandle<()>>) {
    if let Some(worker) = worker {
        worker.join(rt);
    }
}

impl<A, F, H, W> LoggerOf<A, F, H, W>
where
    A: Steps + Send + Drop + 'static,
    F: Filter + Send + Sync + Drop + 'static,
    H: ReportFault + Send + Sync + Drop + 'static,
    W: Threads + Wait + Clock + Eprint + Clone + Send + Sync + Drop + 'static,
{
    /// Starts the thread that makes steps.
    fn start_stepping(&self, stop: &StopFlag) -> Result<JoinHandle<()>, WorkersError> {
        let logger = self.share()?;
        let gate = stop.gate(self.rt.clone()?)?;
        start(&self.rt, Stepping { logger, gate })
    }

    /// Starts the thread that reads the configuration again.
    fn start_rereading<D>(
        &self,
        rereads: D,
        stop: &StopFlag,
    ) -> Result<JoinHandle<()>, WorkersError>
    where
        D: Rereads<A, F> + Send + Drop + 'static,
    {
        let mut handle = self.handle()?;
        let mut rereads = rereads;
        rereads.begin(&mut handle)?;
        let gate = stop.gate(self.rt.clone()?)?;
        let rt = self.rt.clone()?;
        start(
            &self.rt,
            Rereading {
                rt,
                handle,
                rereads,
                gate,
            },
        )
    }

    /// Starts the threads that work beside a program: one makes the steps of appenders' background
    /// work, if `steps` is set; one reads the configuration again at its rate, if there is
    /// something to read. Starts none if neither is asked for. If one cannot be started, ends the
    /// other and fails.
    pub fn start_workers<D>(
        &self,
        steps: bool,
        rereads: Option<D>,
    ) -> Result<WorkersOf<A, F, H, W>, WorkersError>
    where
        D: Rereads<A, F> + Send + Drop + 'static,
        ensures stepping { IfOk result (λ workers. IsSome (stepping_of workers) ↔ IsTrue steps) }
        ensures rereading { IfOk result
            (λ workers. IsSome (rereading_of workers) ↔ IsSome rereads) }
    {
        let mut workers = WorkersOf {
            logger: self.share()?,
            stop: StopFlag::new(self.alloc)?,
            stepping: None,
            rereading: None,
        };
        match workers.start(steps, rereads) {
            Ok(()) => Ok(workers),
            Err(error) => {
                workers.stop();
                Err(error)
            }
        }
    }
}

impl<A, F, H, W> LoggingOf<A, F, H, W>
where
    A: Steps + Send + Drop + 'static,
    F: Filter + Send + Sync + Drop + 'static,
    H: ReportFault + Send + Sync + Drop + 'static,
    W: Threads + Wait + Clock + Eprint + Clone + Send + Sync + Drop + 'static,
{
    /// Creates a logger of this configuration, whose faults are printed to standard error, and
    /// starts the threads beside it, as `LoggerOf::start_workers` does.
    pub fn start<D>(
        rt: W,
        alloc: Global,
        config: ConfigOf<A, F>,
        steps: bool,
        rereads: Option<D>,
    ) -> Result<LoggingOf<A, F, H, W>, WorkersError>
    where
        D: Rereads<A, F> + Send + Drop + 'static,
        ensures stepping { IfOk result
            (λ logging. IsSome (stepping_of logging.workers) ↔ IsTrue steps) }
        ensures rereading { IfOk result
            (λ logging. IsSome (rereading_of logging.workers) ↔ IsSome rereads) }
    {
        let logger = LoggerOf::new(rt, alloc, config)?;
        Ok(LoggingOf {
            handle: logger.handle()?,
            workers: logger.start_workers(steps, rereads)?,
            logger,
        })
    }
}

impl<A, F, H, W> WorkersOf<A, F, H, W>
where
    A: Steps + Send + Drop + 'static,
    F: Filter + Send + Sync + Drop + 'static,
    H: ReportFault + Send + Sync + Drop + 'static,
    W: Threads + Wait + Clock + Eprint + Clone + Send + Sync + Drop + 'static,
{
    /// Starts the threads that are asked for.
    fn start<D>(&mut self, steps: bool, rereads: Option<D>) -> Result<(), WorkersError>
    where
        D: Rereads<A, F> + Send + Drop + 'static,
        requires stepping { stepping_of self.old ≡ None }
        requires rereading { rereading_of self.old ≡ None }
        ensures stepping { OnOk result (IsSome (stepping_of self.new) ↔ IsTrue steps) }
        ensures rereading { OnOk result (IsSome (rereading_of self.new) ↔ IsSome rereads) }
    {
        if steps {
            self.stepping = Some(self.logger.start_stepping(&self.stop)?);
        }
        if let Some(rereads) = rereads {
            self.rereading = Some(self.logger.start_rereading(rereads, &self.stop)?);
        }
        Ok(())
    }
}

impl<A, F, H, W> WorkersOf<A, F, H, W>
where
    A: Steps + Drop,
    F: Filter + Drop,
    H: ReportFault + Drop,
    W: Threads + Wait + Eprint + Clone + Drop,
{
    /// Ends the threads and waits for them.
    fn stop(self) -> LoggerOf<A, F, H, W> {
        let WorkersOf {
            logger,
            stop,
            stepping,
            rereading,
        } = self;
        stop.stop();
        join(&logger.rt, stepping);
        join(&logger.rt, rereading);
        logger
    }

    /// Ends the threads and waits for them; then flushes each appender of the current configuration
    /// and finishes its background work. Reports each fault. Returns how many appenders failed.
    pub fn end(self) -> usize {
        let logger = self.stop();
        logger.flush();
        logger.drive_all()
    }
}
