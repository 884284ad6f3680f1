//! Threads that work beside a program.

use crate::notes::{Notebook, log};
use crate::setup::{at_root, same};
use crate::shared::is_set;
use log::{Level, LevelFilter};
use log4rs::append::{Append, Steps};
use log4rs::config::runtime::BuildError;
use log4rs::filter::{Filter, ThresholdFilter};
use log4rs::threads::{HandleOf, Handler, LoggerOf, ReportFault};
use log4rs::{Context, LogError, OutOfMemory, Record};
use log4rs_build::AppenderErrors;
use log4rs_config::runtime::{HoldsConfig, Rereads, SharesAppenders};
use std::alloc::Global;
use std::rt::Clock;
use std::sync::atomic::{AtomicBool, Ordering};
use std::sync::{Arc, Wait};
use std::test::Fail;
use std::thread::{self, Threads};
use std::time::Duration;

/// Whether a step and a reread happened.
#[derive(Drop)]
struct Done {
    is_stepped: AtomicBool,
    is_reread: AtomicBool,
}

/// An appender that always has a step left, and notes everything else.
#[derive(Drop)]
struct Working<W> {
    book: Notebook<W>,
    done: Arc<Done>,
}

impl<W: Wait> Append for Working<W> {
    fn append(&mut self, record: &Record, _: &Context<'_>) -> Result<(), LogError> {
        self.book.note("a", &record.message)?;
        Ok(())
    }

    fn append_retired(&mut self, record: &Record, context: &Context<'_>) -> Result<(), LogError> {
        self.append(record, context)
    }

    fn flush(&mut self) {
        let _ = self.book.note("a", "flushed");
    }
}

impl<W: Wait> Steps for Working<W> {
    fn step(&mut self) -> Result<bool, LogError> {
        self.done.is_stepped.store(true, Ordering::SeqCst);
        Ok(true)
    }

    fn drive(&mut self) -> Result<(), LogError> {
        self.book.note("a", "driven")?;
        Err(LogError::Policy)
    }

    fn retire(&mut self) -> Result<(), LogError> {
        self.drive()
    }

    fn resume(&mut self) -> Result<(), LogError> {
        Ok(())
    }
}

/// Sets the root to Debug at the first reread, and asks for the next one a day later.
#[derive(Drop)]
struct Loosening<A, F, H, W> {
    handle: HandleOf<A, F, H, W>,
    done: Arc<Done>,
}

impl<A, F, H, W> Rereads<A, F> for Loosening<A, F, H, W>
where
    A: Append + Drop,
    F: Filter + Drop,
    H: Drop,
    W: Wait,
{
    type Faults = AppenderErrors;

    fn begin<O: SharesAppenders<A>>(&mut self, _holder: &mut O) -> Result<(), OutOfMemory> {
        Ok(())
    }

    fn rate(&self) -> Option<u64> {
        let is_reread = self.done.is_reread.load(Ordering::SeqCst);
        Some(if is_reread { 86_400_000 } else { 1 })
    }

    fn reread<O: HoldsConfig<A, F, AppenderErrors>>(&mut self, _holder: &mut O) {
        let _ = self.handle.set_root_level(LevelFilter::Debug);
        self.done.is_reread.store(true, Ordering::SeqCst);
    }

    fn end<O: SharesAppenders<A>>(&mut self, _holder: &mut O) {}
}

/// A logger with one appender.
type WorkingLogger<W> = LoggerOf<Working<W>, ThresholdFilter, Handler, W>;

/// Returns that nothing has happened.
fn nothing_done(alloc: Global) -> Result<Arc<Done>, OutOfMemory> {
    let done = Done {
        is_stepped: AtomicBool::new(false),
        is_reread: AtomicBool::new(false),
    };
    Ok(Arc::new(alloc, done)?)
}

/// Returns a logger with one appender, at Info.
fn logger_with<W: Wait + Clone + Drop>(
    rt: W,
    alloc: Global,
    book: &Notebook<W>,
    done: &Arc<Done>,
) -> Result<WorkingLogger<W>, BuildError> {
    let done = Arc::try_clone(done)?;
    let book = book.share()?;
    Ok(LoggerOf::new(rt, alloc, at_root(alloc, "a", Working { book, done })?)?)
}

/// Returns what rereads, if it is asked for.
fn rereader<A, F, H, W>(
    logger: &LoggerOf<A, F, H, W>,
    done: &Arc<Done>,
    is_asked: bool,
) -> Result<Option<Loosening<A, F, H, W>>, OutOfMemory>
where
    A: Append + Drop,
    F: Filter + Drop,
    H: Drop,
    W: Clone + Drop,
{
    if !is_asked {
        return Ok(None);
    }
    let done = Arc::try_clone(done)?;
    let handle = logger.handle()?;
    Ok(Some(Loosening { handle, done }))
}

/// Works until what was asked for happened, logs a Debug record, and ends. Returns whether all
/// happened in time, the only appender failed to be driven, and no step was made afterwards.
fn worked<A, F, H, W, D>(
    rt: &W,
    alloc: Global,
    logger: &mut LoggerOf<A, F, H, W>,
    rereads: Option<D>,
    steps: bool,
    done: &Done,
) -> Result<bool, Fail>
where
    A: Steps + Send + Drop + 'static,
    F: Filter + Send + Sync + Drop + 'static,
    H: ReportFault + Send + Sync + Drop + 'static,
    W: Threads + Wait + Clock + Eprint + Clone + Send + Sync + Drop + 'static,
    D: Rereads<A, F> + Send + Drop + 'static,
{
    let is_awaited = rereads.is_some();
    let workers = logger.start_workers(steps, rereads)?;
    let is_stepped = !steps || is_set(rt, &done.is_stepped);
    let is_reread = !is_awaited || is_set(rt, &done.is_reread);
    let is_logged = log(alloc, logger, (Level::Debug, "t", "one")).is_ok();
    let failed = workers.end();
    done.is_stepped.store(false, Ordering::SeqCst);
    thread::sleep(rt, Duration::from_millis(30));
    let is_ended = !done.is_stepped.load(Ordering::SeqCst);
    Ok(is_stepped && is_reread && is_logged && failed == 1 && is_ended)
}

#[test]
fn threads_work_until_they_are_ended(rt: HostRuntime) -> Result<(), Fail> {
    let alloc = rt.alloc();
    let book = Notebook::new(rt, alloc)?;
    for steps in [true, false] {
        for rereads in [true, false] {
            let done = nothing_done(alloc)?;
            let mut logger = logger_with(rt, alloc, &book, &done)?;
            let again = rereader(&logger, &done, rereads)?;
            assert!(rt; worked(&rt, alloc, &mut logger, again, steps, &done)?);
        }
    }
    // Rereading sets the level to Debug.
    let expected = "a one; a flushed; a driven; a flushed; a driven; \
        a one; a flushed; a driven; a flushed; a driven; ";
    same(&rt, book.take(alloc).as_str(), expected);
    Ok(())
}
