//! Appenders that wait inside a call while another thread swaps the configuration, makes steps, or
//! finishes what is left.

use crate::notes::Notebook;
use crate::setup::{at_root, context, logger, named, record, root, same};
use crate::shared::{Signals, is_set};
use log::{Level, LevelFilter};
use log4rs::append::{Append, Locked, Steps};
use log4rs::config::runtime::BuildError;
use log4rs::config::runtime::config::ConfigOf;
use log4rs::filter::ThresholdFilter;
use log4rs::threads::{HandleOf, Handler, LoggerOf};
use log4rs::{Context, LogError, OutOfMemory, Record};
use log4rs_config::runtime::{SharedAppender, SharesAppenders};
use std::alloc::Global;
use std::rt::Clock;
use std::sync::atomic::Ordering;
use std::sync::{Arc, Wait};
use std::test::Fail;
use std::thread::{self, Threads};
use std::time::Duration;

/// An appender that notes each call at its end. In the calls that `how` names it signals this and
/// waits until another thread is done. Retiring it fails if `how` has `fails`.
#[derive(Drop)]
struct Slow<W> {
    rt: W,
    name: &'static str,
    how: &'static str,
    signals: Arc<Signals>,
    book: Notebook<W>,
}

impl<W: Wait + Clock> Slow<W> {
    fn go(&self, call: &str) -> Result<(), LogError> {
        if self.how.contains(call) {
            self.signals.began.store(true, Ordering::SeqCst);
            if !is_set(&self.rt, &self.signals.answered) {
                self.book.note(self.name, "waits too long")?;
            }
        }
        self.book.note(self.name, call)?;
        Ok(())
    }
}

impl<W: Wait + Clock> Append for Slow<W> {
    fn append(&mut self, _: &Record, _: &Context<'_>) -> Result<(), LogError> {
        self.go("appends")
    }

    fn append_retired(&mut self, record: &Record, context: &Context<'_>) -> Result<(), LogError> {
        self.append(record, context)
    }

    fn flush(&mut self) {
        let _ = self.go("flushes");
    }
}

impl<W: Wait + Clock> Steps for Slow<W> {
    fn step(&mut self) -> Result<bool, LogError> {
        self.go("steps")?;
        Ok(false)
    }

    fn drive(&mut self) -> Result<(), LogError> {
        self.go("drives")
    }

    fn retire(&mut self) -> Result<(), LogError> {
        self.go("retires")?;
        if self.how.contains("fails") {
            return Err(LogError::Policy);
        }
        Ok(())
    }

    fn resume(&mut self) -> Result<(), LogError> {
        self.go("resumes")
    }
}

type SlowLogger<W> = LoggerOf<Slow<W>, ThresholdFilter, Handler, W>;

type SlowHandle<W> = HandleOf<Slow<W>, ThresholdFilter, Handler, W>;

/// Appenders by their names, and their locks.
type Present<W> = Vec<SharedAppender<Slow<W>>>;

/// A configuration of locks.
type Again<W> = ConfigOf<Locked<Slow<W>>, ThresholdFilter>;

/// The name of an appender, and how it is slow.
type SlowRow = (&'static str, &'static str);

/// What the threads of a test share.
#[derive(Drop)]
struct Scene<W> {
    rt: W,
    alloc: Global,
    book: Notebook<W>,
    signals: Arc<Signals>,
}

impl<W: Wait + Clock + Clone + Drop> Scene<W> {
    fn new(rt: W, alloc: Global) -> Result<Scene<W>, OutOfMemory> {
        let book = Notebook::new(rt.clone()?, alloc)?;
        let signals = Signals::new(alloc)?;
        Ok(Scene {
            rt,
            alloc,
            book,
            signals,
        })
    }

    fn slow(&self, row: SlowRow) -> Result<Slow<W>, OutOfMemory> {
        let (name, how) = row;
        let rt = self.rt.clone()?;
        let signals = Arc::try_clone(&self.signals)?;
        Ok(Slow {
            rt,
            name,
            how,
            signals,
            book: self.book.share()?,
        })
    }

    /// Builds a configuration of these appenders, each with a logger of its name.
    fn config(&self, rows: &[SlowRow]) -> Result<ConfigOf<Slow<W>, ThresholdFilter>, BuildError> {
        let alloc = self.alloc;
        let mut builder = ConfigOf::builder(alloc);
        for row in rows {
            builder = builder.appender(named(alloc, row.0, self.slow(*row)?)?)?;
            builder = builder.logger(logger(alloc, row.0)?)?;
        }
        builder.build(root(alloc, LevelFilter::Off, "")?)
    }

    /// Returns a logger of these appenders.
    fn logger(&self, rows: &[SlowRow]) -> Result<SlowLogger<W>, BuildError> {
        let config = self.config(rows)?;
        Ok(LoggerOf::new(self.rt.clone()?, self.alloc, config)?)
    }

    /// Builds a configuration that has the locks of these appenders.
    fn again(&self, present: Present<W>) -> Result<Again<W>, BuildError> {
        let mut builder = ConfigOf::builder(self.alloc);
        for shared in present {
            let SharedAppender { name, lock } = shared;
            let appender = named(self.alloc, name.as_str(), lock)?;
            builder = builder.appender(appender)?;
        }
        builder.build(root(self.alloc, LevelFilter::Off, "")?)
    }
}

impl<W: Wait + Clock + Eprint + Clone + Drop> Scene<W> {
    /// Logs a record to an appender.
    fn log(&self, logger: &SlowLogger<W>, name: &str) -> Result<(), OutOfMemory> {
        let record = record(self.alloc, (Level::Info, name, "one"))?;
        logger.log(&record, &context(self.alloc));
        Ok(())
    }

    /// Sets a configuration with one appender.
    fn set(&self, handle: &SlowHandle<W>, name: &'static str) -> Result<(), BuildError> {
        handle.set_config(self.config(&[(name, "")])?)?;
        Ok(())
    }

    /// Waits until an appender waits.
    fn is_begun(&self) -> bool {
        is_set(&self.rt, &self.signals.began)
    }

    /// Lets the appender that waits go on.
    fn go_on(&self) {
        self.signals.answered.store(true, Ordering::SeqCst);
    }

    /// Notes whether these appenders are retired.
    fn note_all(&self, handle: &SlowHandle<W>, present: &Present<W>) -> Result<(), OutOfMemory> {
        for shared in present {
            let is_retired = shared.lock.is_retired();
            let word = if is_retired { "is retired" } else { "stays" };
            self.book.note(shared.name.as_str(), word)?;
        }
        Ok(())
    }

    /// Makes steps, and notes how many appenders have work left.
    fn step(&self, logger: &SlowLogger<W>) -> Result<(), OutOfMemory> {
        let word = match logger.step_all() {
            0 => "none",
            1 => "one",
            _ => "more",
        };
        self.book.note("left", word)
    }

    /// Puts a configuration of one lock in place, as a reading does, once an appender waits.
    fn keep(
        &self,
        handle: &SlowHandle<W>,
        name: &str,
        kept: Locked<Slow<W>>,
    ) -> Result<(), BuildError> {
        if self.is_begun() {
            handle.set_locked(at_root(self.alloc, name, kept)?)?;
        }
        Ok(())
    }

    /// Sets a configuration with another appender once an appender waits, notes which of the
    /// previous ones are retired, and lets the one that waits go on.
    fn set_beside(
        &self,
        handle: &SlowHandle<W>,
        name: &'static str,
        before: &Present<W>,
    ) -> Result<(), BuildError> {
        if self.is_begun() {
            self.set(handle, name)?;
            self.note_all(handle, before)?;
        }
        self.go_on();
        Ok(())
    }
}

/// A scene with a logger and its handle.
#[derive(Drop)]
struct Stage<W> {
    scene: Scene<W>,
    logger: SlowLogger<W>,
    handle: SlowHandle<W>,
}

impl<W: Wait + Clock + Clone + Drop> Stage<W> {
    /// Returns the stage of these appenders.
    fn new(rt: W, alloc: Global, rows: &[SlowRow]) -> Result<Stage<W>, BuildError> {
        let scene = Scene::new(rt, alloc)?;
        let logger = scene.logger(rows)?;
        let handle = logger.handle()?;
        Ok(Stage {
            scene,
            logger,
            handle,
        })
    }

    fn parts(&self) -> (&Scene<W>, &SlowLogger<W>, &SlowHandle<W>) {
        (&self.scene, &self.logger, &self.handle)
    }
}

/// Sets a configuration whose swap retires a slow appender first, and meanwhile one that keeps `x`.
fn keep_beside_a_swap<W>(
    scene: &Scene<W>,
    handle: &SlowHandle<W>,
    kept: Locked<Slow<W>>,
) -> Result<(), BuildError>
where
    W: Threads + Wait + Clock + Eprint + Clone + Send + Sync + Drop,
{
    let (set, put) = thread::join(
        &scene.rt,
        || scene.set(handle, "y"),
        move || {
            let put = scene.keep(handle, "x", kept);
            scene.go_on();
            put
        },
    );
    set?;
    put
}

#[test]
fn what_is_kept_stays_in_force(rt: HostRuntime) -> Result<(), Fail> {
    let alloc = rt.alloc();
    let stage = Stage::new(rt, alloc, &[("slow", "retires"), ("x", "")])?;
    let (scene, logger, handle) = stage.parts();
    if let Some(x) = handle.clone()?.shared_appenders()?.pop() {
        keep_beside_a_swap(scene, handle, x.lock)?;
    }
    logger.step_all();
    scene.note_all(handle, &handle.clone()?.shared_appenders()?)?;
    let expected = "y retires; slow retires; x steps; x stays; ";
    same(&rt, scene.book.take(alloc).as_str(), expected);
    Ok(())
}

/// Puts retired appenders in force, which resumes a slow one first, and meanwhile sets a
/// configuration without them.
fn swap_beside_resuming<W>(
    scene: &Scene<W>,
    handle: &SlowHandle<W>,
    again: Again<W>,
    before: &Present<W>,
) -> Result<(), BuildError>
where
    W: Threads + Wait + Clock + Eprint + Clone + Send + Sync + Drop,
{
    let (put, set) = thread::join(
        &scene.rt,
        move || handle.set_locked(again),
        || scene.set_beside(handle, "z", before),
    );
    put?;
    set
}

/// Returns the locks of the appenders, the last one first.
fn turned<W>(handle: &SlowHandle<W>) -> Result<Present<W>, OutOfMemory>
where
    W: Wait + Clock + Clone + Drop,
{
    let mut present = handle.clone()?.shared_appenders()?;
    present.reverse();
    Ok(present)
}

#[test]
fn what_left_stays_retired(rt: HostRuntime) -> Result<(), Fail> {
    let alloc = rt.alloc();
    let stage = Stage::new(rt, alloc, &[("x", ""), ("slow", "resumes")])?;
    let (scene, logger, handle) = stage.parts();
    let before = turned(handle)?;
    let again = scene.again(turned(handle)?)?;
    scene.set(handle, "y")?;
    swap_beside_resuming(scene, handle, again, &before)?;
    logger.step_all();
    scene.book.take(alloc);
    scene.note_all(handle, &before)?;
    let expected = "slow is retired; x is retired; ";
    same(&rt, scene.book.take(alloc).as_str(), expected);
    Ok(())
}

/// Logs a record to a slow appender, and meanwhile sets a configuration without it.
fn swap_beside_an_append<W>(
    scene: &Scene<W>,
    logger: &SlowLogger<W>,
    handle: &SlowHandle<W>,
    before: &Present<W>,
) -> Result<(), BuildError>
where
    W: Threads + Wait + Clock + Eprint + Clone + Send + Sync + Drop,
{
    let (logged, set) = thread::join(
        &scene.rt,
        || scene.log(logger, "a"),
        || scene.set_beside(handle, "b", before),
    );
    logged?;
    set
}

#[test]
fn what_was_in_use_is_finished(rt: HostRuntime) -> Result<(), Fail> {
    let alloc = rt.alloc();
    for (how, failed) in [("appends", 0), ("appends fails", 1)] {
        let stage = Stage::new(rt, alloc, &[("a", how)])?;
        let (scene, logger, handle) = stage.parts();
        let before = handle.clone()?.shared_appenders()?;
        swap_beside_an_append(scene, logger, handle, &before)?;
        assert_eq!(rt; logger.drive_all(), failed);
        let expected = "a stays; a appends; a retires; b drives; ";
        same(&rt, scene.book.take(alloc).as_str(), expected);
    }
    Ok(())
}

impl<W: Wait + Clock + Eprint + Clone + Drop> Scene<W> {
    /// Finishes all work. Returns whether the previous appenders are retired then.
    fn is_finished(
        &self,
        logger: &SlowLogger<W>,
        handle: &SlowHandle<W>,
        before: &Present<W>,
    ) -> bool {
        let failed = logger.drive_all();
        let mut is_finished = failed == 0;
        for shared in before {
            is_finished = is_finished && shared.lock.is_retired();
        }
        is_finished
    }

    /// Does so once an appender waits.
    fn is_finished_beside(
        &self,
        logger: &SlowLogger<W>,
        handle: &SlowHandle<W>,
        before: &Present<W>,
    ) -> bool {
        self.is_begun() && self.is_finished(logger, handle, before)
    }

    /// Lets an appender that waits go on after a while.
    fn go_on_later(&self) {
        if self.is_begun() {
            thread::sleep(&self.rt, Duration::from_millis(50));
        }
        self.go_on();
    }
}

/// Finishes all work once an appender waits, while another thread lets it go on. Returns whether the
/// previous appenders are retired then.
fn finish_beside<W>(
    scene: &Scene<W>,
    logger: &SlowLogger<W>,
    handle: &SlowHandle<W>,
    before: &Present<W>,
) -> bool
where
    W: Threads + Wait + Clock + Eprint + Clone + Send + Sync + Drop,
{
    let (is_finished, ()) = thread::join(
        &scene.rt,
        || scene.is_finished_beside(logger, handle, before),
        || scene.go_on_later(),
    );
    is_finished
}

/// Finishes all work in two threads at once, while a third lets a slow appender go on. Returns
/// whether both found the previous appenders retired at the end.
fn finish_twice<W>(
    scene: &Scene<W>,
    logger: &SlowLogger<W>,
    handle: &SlowHandle<W>,
    before: &Present<W>,
) -> bool
where
    W: Threads + Wait + Clock + Eprint + Clone + Send + Sync + Drop,
{
    let (first, second) = thread::join(
        &scene.rt,
        || scene.is_finished(logger, handle, before),
        || finish_beside(scene, logger, handle, before),
    );
    first && second
}

#[test]
fn nobody_returns_before_another_has_retired(rt: HostRuntime) -> Result<(), Fail> {
    let alloc = rt.alloc();
    let stage = Stage::new(rt, alloc, &[("a", "appends retires")])?;
    let (scene, logger, handle) = stage.parts();
    let before = handle.clone()?.shared_appenders()?;
    swap_beside_an_append(scene, logger, handle, &before)?;
    scene.signals.began.store(false, Ordering::SeqCst);
    scene.signals.answered.store(false, Ordering::SeqCst);
    assert!(rt; finish_twice(scene, logger, handle, &before));
    let expected = "a stays; a appends; a retires; b drives; b drives; ";
    same(&rt, scene.book.take(alloc).as_str(), expected);
    Ok(())
}

impl<W: Wait + Clock + Eprint + Clone + Drop> Scene<W> {
    /// Makes steps once an appender waits, takes it out by a configuration that keeps the other one,
    /// makes steps again, and lets it go on.
    fn take_out(
        &self,
        logger: &SlowLogger<W>,
        handle: &SlowHandle<W>,
        kept: Locked<Slow<W>>,
    ) -> Result<(), BuildError> {
        if self.is_begun() {
            self.step(logger)?;
        }
        self.keep(handle, "o", kept)?;
        self.step(logger)?;
        self.go_on();
        Ok(())
    }
}

/// Logs a record to an appender that is stuck in it, and meanwhile takes it out.
fn take_out_what_is_stuck<W>(
    scene: &Scene<W>,
    logger: &SlowLogger<W>,
    handle: &SlowHandle<W>,
    kept: Locked<Slow<W>>,
) -> Result<(), BuildError>
where
    W: Threads + Wait + Clock + Eprint + Clone + Send + Sync + Drop,
{
    let (logged, taken) = thread::join(
        &scene.rt,
        || scene.log(logger, "stuck"),
        move || scene.take_out(logger, handle, kept),
    );
    logged?;
    taken
}

/// The notes of steps before the swap and after it, and after the append.
const TAKEN_OUT: &str = "o steps; left one; o steps; left none; stuck appends; \
    stuck retires; o steps; left none; ";

#[test]
fn what_is_stuck_can_be_taken_out(rt: HostRuntime) -> Result<(), Fail> {
    let alloc = rt.alloc();
    let stage = Stage::new(rt, alloc, &[("stuck", "appends"), ("o", "")])?;
    let (scene, logger, handle) = stage.parts();
    if let Some(o) = handle.clone()?.shared_appenders()?.pop() {
        take_out_what_is_stuck(scene, logger, handle, o.lock)?;
    }
    scene.step(logger)?;
    same(&rt, scene.book.take(alloc).as_str(), TAKEN_OUT);
    Ok(())
}
