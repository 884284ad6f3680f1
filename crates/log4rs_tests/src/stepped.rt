//! Steps of appenders beside records.

use crate::notes::{Notebook, Noter, Telling, noting};
use crate::reloaded::Turns;
use crate::setup::{context, named, record, root, same};
use crate::shared::{Signals, is_set};
use log::{Level, LevelFilter};
use log4rs::append::{Append, Steps};
use log4rs::config::runtime::BuildError;
use log4rs::config::runtime::config::ConfigOf;
use log4rs::filter::{Filter, ThresholdFilter};
use log4rs::threads::{Gate, Handler, LoggerOf, ReportFault};
use log4rs::{Context, LogError, Record};
use std::alloc::{AllocError, Global};
use std::rt::Clock;
use std::sync::atomic::Ordering;
use std::sync::{Arc, Wait};
use std::test::Fail;
use std::thread::{self, Threads};

/// An appender with `left` steps left. It notes them, or fails with its name.
#[derive(Drop)]
struct Leaving<W> {
    noter: Noter<W>,
    left: u64,
}

impl<W: Wait> Leaving<W> {
    fn go(&mut self, steps: u64, how: &str) -> Result<(), LogError> {
        if self.noter.fails {
            return Err(LogError::Custom(self.noter.name.clone()?));
        }
        self.noter.book.note(&self.noter.name, how)?;
        self.left = self.left.saturating_sub(steps);
        Ok(())
    }
}

impl<W: Wait> Append for Leaving<W> {
    fn append(&mut self, record: &Record, context: &Context<'_>) -> Result<(), LogError> {
        self.noter.append(record, context)
    }

    fn append_retired(&mut self, record: &Record, context: &Context<'_>) -> Result<(), LogError> {
        self.append(record, context)
    }

    fn flush(&mut self) {
        self.noter.flush();
    }
}

impl<W: Wait> Steps for Leaving<W> {
    fn step(&mut self) -> Result<bool, LogError> {
        self.go(1, "steps")?;
        Ok(self.left > 0)
    }

    fn drive(&mut self) -> Result<(), LogError> {
        self.go(self.left, "drives")
    }

    fn retire(&mut self) -> Result<(), LogError> {
        self.drive()
    }

    fn resume(&mut self) -> Result<(), LogError> {
        Ok(())
    }
}

/// Builds a configuration of appenders that the root names, each with its name, the steps left, and
/// whether it fails.
fn stepping<W: Wait + Clone + Drop>(
    alloc: Global,
    book: &Notebook<W>,
    names: &str,
    rows: &[(&str, u64, bool)],
) -> Result<ConfigOf<Leaving<W>, ThresholdFilter>, BuildError> {
    let mut builder = ConfigOf::builder(alloc);
    for row in rows {
        let (name, left, fails) = *row;
        let noter = noting(alloc, book, (name, fails))?;
        builder = builder.appender(named(alloc, name, Leaving { noter, left })?)?;
    }
    builder.build(root(alloc, LevelFilter::Info, names)?)
}

/// The notes of three steps of each appender, of which one fails, and of a drive.
const STEPPED: &str = "a steps; told x; b steps; a steps; told x; b steps; \
    a steps; told x; b steps; a drives; told x; b drives; ";

#[test]
fn each_appender_goes_on(rt: HostRuntime) -> Result<(), Fail> {
    let alloc = rt.alloc();
    let book = Notebook::new(rt, alloc)?;
    let rows = [("a", 2, false), ("x", 1, true), ("b", 1, false)];
    let config = stepping(alloc, &book, "", &rows)?;
    let logger = LoggerOf::with_handler(rt, alloc, config, Some(book.share()?))?;
    for waiting in [2, 1, 1] {
        assert_eq!(rt; logger.step_all(), waiting);
    }
    assert_eq!(rt; logger.drive_all(), 1);
    same(&rt, book.take(alloc).as_str(), STEPPED);
    Ok(())
}

/// Cloning fails for lack of memory.
impl<W: Drop> Clone for Telling<W> {
    fn clone(&self) -> Result<Telling<W>, AllocError> {
        Err(AllocError)
    }
}

#[test]
fn a_refused_load(rt: HostRuntime) -> Result<(), Fail> {
    let alloc = rt.alloc();
    let book = Notebook::new(rt, alloc)?;
    let telling = Telling {
        book: book.share()?,
    };
    let config = stepping(alloc, &book, "", &[("a", 1, false), ("b", 1, false)])?;
    let logger: LoggerOf<_, _, Handler, _> = LoggerOf::new(telling, alloc, config)?;
    assert_eq!(rt; logger.step_all(), 0);
    assert_eq!(rt; logger.drive_all(), 1);
    let expected = "log4rs: out of memory; log4rs: out of memory; ";
    same(&rt, book.take(alloc).as_str(), expected);
    Ok(())
}

/// Notes two turns. At the second one it signals this, waits until a record was logged, and ends.
#[derive(Drop)]
struct UntilAnswered<W> {
    rt: W,
    turns: Turns<W>,
    signals: Arc<Signals>,
}

impl<W: Wait + Clock> Gate for UntilAnswered<W> {
    fn turn(&mut self, millis: u64) -> bool {
        if self.turns.turn(millis) {
            return true;
        }
        self.signals.began.store(true, Ordering::SeqCst);
        if !is_set(&self.rt, &self.signals.answered) {
            let _ = self.turns.book.note("a record", "waits");
        }
        false
    }
}

/// Runs a worker in one thread, and logs a record in another after a step.
fn log_beside<R, A, F, H>(
    rt: &R,
    logger: &LoggerOf<A, F, H, R>,
    gate: UntilAnswered<R>,
    logged: &Record,
    context: &Context<'_>,
    signals: &Signals,
)
where
    R: Threads + Wait + Clock + Eprint + Clone + Send + Sync + Drop,
    A: Steps + Send + Drop,
    F: Filter + Send + Sync + Drop,
    H: ReportFault + Send + Sync + Drop,
{
    thread::join(
        rt,
        move || {
            let mut gate = gate;
            logger.step_worker(&mut gate);
        },
        || {
            if is_set(rt, &signals.began) {
                logger.log(logged, context);
            }
            signals.answered.store(true, Ordering::SeqCst);
        },
    );
}

#[test]
fn a_record_waits_for_no_worker(rt: HostRuntime) -> Result<(), Fail> {
    let alloc = rt.alloc();
    let book = Notebook::new(rt, alloc)?;
    let signals = Signals::new(alloc)?;
    let turns = Turns {
        alloc,
        left: 2,
        book: book.share()?,
    };
    let gate = UntilAnswered {
        rt,
        turns,
        signals: Arc::try_clone(&signals)?,
    };
    let config = stepping(alloc, &book, "a", &[("a", 9, false)])?;
    let logger: LoggerOf<_, _, Handler, _> = LoggerOf::new(rt, alloc, config)?;
    let logged = record(alloc, (Level::Info, "t", "one"))?;
    log_beside(&rt, &logger, gate, &logged, &context(alloc), &signals);
    let expected = "turn 10; a steps; turn 10; a steps; a one; ";
    same(&rt, book.take(alloc).as_str(), expected);
    Ok(())
}
