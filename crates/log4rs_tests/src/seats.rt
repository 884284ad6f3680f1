//! Loggers on different seats, each in a thread, while another thread swaps the configuration or
//! sets levels: what one has seen, no other may miss.

use crate::setup::{at_root, context, record, same};
use log::{Level, LevelFilter};
use log4rs::append::{Append, Steps};
use log4rs::config::runtime::BuildError;
use log4rs::config::runtime::config::ConfigOf;
use log4rs::filter::ThresholdFilter;
use log4rs::threads::{HandleOf, Handler, LoggerOf};
use log4rs::{Context, LogError, OutOfMemory, Record};
use log4rs_config::runtime::SharesAppenders;
use std::alloc::Global;
use std::rt::Clock;
use std::sync::atomic::{AtomicUsize, Ordering};
use std::sync::{Arc, Wait};
use std::test::Fail;
use std::thread::{self, Threads};
use std::time::Duration;

/// So many rounds are made: on a busy machine the threads of fewer may miss each other.
const ROUNDS: usize = 2_000;

/// A loop that waits makes so many turns at most.
const TURNS: usize = 20_000;

/// Lets others work before the next turn of a loop that waits. After ten thousand turns it sleeps,
/// so all turns take about ten seconds.
fn pause<W: Clock>(rt: &W, turn: usize) {
    if turn < TURNS / 2 {
        thread::yield_now();
    } else {
        thread::sleep(rt, Duration::from_millis(1));
    }
}

/// Returns whether a number is reached within about ten seconds.
fn is_reached<W: Clock>(rt: &W, number: &AtomicUsize, wanted: usize) -> bool {
    for turn in 0..TURNS {
        if number.load(Ordering::SeqCst) >= wanted {
            return true;
        }
        pause(rt, turn);
    }
    false
}

/// What the threads of a test tell each other: numbers of rounds.
#[derive(Drop)]
struct Board {
    /// The round of the appender that had the last record of the target `first`.
    first: AtomicUsize,
    /// The same of any other target.
    second: AtomicUsize,
    /// The last round whose change the first thread has seen.
    seen: AtomicUsize,
    /// The last round that the second thread has done.
    done: AtomicUsize,
    /// The last round that the thread that changes has begun.
    begun: AtomicUsize,
}

/// Has the board show its round.
#[derive(Drop)]
struct Showing {
    round: usize,
    board: Arc<Board>,
}

impl Append for Showing {
    fn append(&mut self, record: &Record, _: &Context<'_>) -> Result<(), LogError> {
        if record.target.as_str() == "first" {
            self.board.first.store(self.round, Ordering::SeqCst);
        } else {
            self.board.second.store(self.round, Ordering::SeqCst);
        }
        Ok(())
    }

    fn append_retired(&mut self, record: &Record, context: &Context<'_>) -> Result<(), LogError> {
        self.append(record, context)
    }

    fn flush(&mut self) {}
}

impl Steps for Showing {
    fn step(&mut self) -> Result<bool, LogError> {
        Ok(false)
    }

    fn drive(&mut self) -> Result<(), LogError> {
        Ok(())
    }

    fn retire(&mut self) -> Result<(), LogError> {
        Ok(())
    }

    fn resume(&mut self) -> Result<(), LogError> {
        Ok(())
    }
}

type ShowingLogger<W> = LoggerOf<Showing, ThresholdFilter, Handler, W>;

type ShowingHandle<W> = HandleOf<Showing, ThresholdFilter, Handler, W>;

/// What the threads of a test share.
#[derive(Drop)]
struct Scene<W> {
    rt: W,
    alloc: Global,
    board: Arc<Board>,
}

impl<W: Clone + Drop> Scene<W> {
    fn new(rt: W, alloc: Global) -> Result<Scene<W>, OutOfMemory> {
        let board = Board {
            first: AtomicUsize::new(0),
            second: AtomicUsize::new(0),
            seen: AtomicUsize::new(0),
            done: AtomicUsize::new(0),
            begun: AtomicUsize::new(0),
        };
        let board = Arc::new(alloc, board)?;
        Ok(Scene { rt, alloc, board })
    }

    /// Builds the configuration of a round, whose appender has the round as its name.
    fn config(&self, round: usize) -> Result<ConfigOf<Showing, ThresholdFilter>, BuildError> {
        let board = Arc::try_clone(&self.board)?;
        let name = format!(in self.alloc; "{round}")?;
        at_root(self.alloc, &name, Showing { round, board })
    }

    /// Returns a logger of the configuration of round 0, on the first seat.
    fn logger(&self) -> Result<ShowingLogger<W>, BuildError> {
        let config = self.config(0)?;
        Ok(LoggerOf::new(self.rt.clone()?, self.alloc, config)?)
    }

    /// Returns the same logger on the last seat.
    fn on_last_seat(&self, logger: &ShowingLogger<W>) -> Result<ShowingLogger<W>, OutOfMemory> {
        let mut last = logger.share()?;
        for _ in 0..6 {
            last = logger.share()?;
        }
        Ok(last)
    }
}

impl<W: Wait + Clock + Eprint + Clone + Drop> Scene<W> {
    /// Logs a record again and again until it is in the appender of the round. Returns whether that
    /// happened.
    fn is_shown(
        &self,
        logger: &ShowingLogger<W>,
        logged: &Record,
        around: &Context<'_>,
        round: usize,
    ) -> bool {
        for turn in 0..TURNS {
            logger.log(logged, around);
            if self.board.first.load(Ordering::SeqCst) == round {
                return true;
            }
            pause(&self.rt, turn);
        }
        false
    }

    /// In each round, logs until a record is in its appender, and tells this.
    fn watch(&self, logger: &ShowingLogger<W>) -> Result<(), OutOfMemory> {
        let logged = record(self.alloc, (Level::Info, "first", "one"))?;
        let around = context(self.alloc);
        for round in 1..=ROUNDS {
            if !self.is_shown(logger, &logged, &around, round) {
                break;
            }
            self.board.seen.store(round, Ordering::SeqCst);
        }
        Ok(())
    }

    /// In each round, logs one record once the first thread has seen the appender. Returns how many
    /// of them are in it.
    fn follow(&self, logger: &ShowingLogger<W>) -> Result<usize, OutOfMemory> {
        let logged = record(self.alloc, (Level::Info, "second", "two"))?;
        let around = context(self.alloc);
        let mut right: usize = 0;
        for round in 1..=ROUNDS {
            if !is_reached(&self.rt, &self.board.seen, round) {
                break;
            }
            logger.log(&logged, &around);
            if self.board.second.load(Ordering::SeqCst) == round {
                right = right.saturating_add(1);
            }
            self.board.done.store(round, Ordering::SeqCst);
        }
        Ok(right)
    }

    /// In each round, sets its configuration, and waits until the second thread has done.
    fn swap_all(&self, handle: &ShowingHandle<W>) -> Result<(), BuildError> {
        for round in 1..=ROUNDS {
            handle.set_config(self.config(round)?)?;
            if !is_reached(&self.rt, &self.board.done, round) {
                break;
            }
        }
        Ok(())
    }
}

/// A scene with a logger on the first seat, the same on the last one, and a handle.
#[derive(Drop)]
struct Stage<W> {
    scene: Scene<W>,
    logger: ShowingLogger<W>,
    last: ShowingLogger<W>,
    handle: ShowingHandle<W>,
}

impl<W: Clone + Drop> Stage<W> {
    fn new(rt: W, alloc: Global) -> Result<Stage<W>, BuildError> {
        let scene = Scene::new(rt, alloc)?;
        let logger = scene.logger()?;
        let last = scene.on_last_seat(&logger)?;
        let handle = logger.handle()?;
        Ok(Stage {
            scene,
            logger,
            last,
            handle,
        })
    }
}

/// Follows in one thread what another swaps. Returns in how many rounds the record was right.
fn followed<W>(
    scene: &Scene<W>,
    handle: &ShowingHandle<W>,
    logger: &ShowingLogger<W>,
) -> Result<usize, BuildError>
where
    W: Threads + Wait + Clock + Eprint + Clone + Send + Sync + Drop,
{
    let (right, swapped) = thread::join(
        &scene.rt,
        || scene.follow(logger),
        || scene.swap_all(handle),
    );
    swapped?;
    Ok(right?)
}

/// Makes all rounds. Returns in how many of them the second thread's record was in the appender that
/// the first had seen.
fn swapped<W>(
    scene: &Scene<W>,
    handle: &ShowingHandle<W>,
    first: &ShowingLogger<W>,
    second: &ShowingLogger<W>,
) -> Result<usize, BuildError>
where
    W: Threads + Wait + Clock + Eprint + Clone + Send + Sync + Drop,
{
    let (watched, right) = thread::join(
        &scene.rt,
        || scene.watch(first),
        || followed(scene, handle, second),
    );
    watched?;
    right
}

#[test]
fn a_configuration_that_one_has_seen(rt: HostRuntime) -> Result<(), Fail> {
    let stage = Stage::new(rt, rt.alloc())?;
    let right = swapped(&stage.scene, &stage.handle, &stage.logger, &stage.last)?;
    assert_eq!(rt; right, ROUNDS);
    let stage = Stage::new(rt, rt.alloc())?;
    let right = swapped(&stage.scene, &stage.handle, &stage.last, &stage.logger)?;
    assert_eq!(rt; right, ROUNDS);
    Ok(())
}

/// Whether a round sets the level to Trace. The others set it to Off.
fn is_on(round: usize) -> bool {
    round % 2 == 1
}

/// Returns the level that a round sets.
fn level_of(round: usize) -> LevelFilter {
    if is_on(round) {
        LevelFilter::Trace
    } else {
        LevelFilter::Off
    }
}

impl<W: Wait + Clock + Eprint + Clone + Drop> Scene<W> {
    /// Waits until the logger shows the level of a round in one way or another. Returns whether it
    /// did.
    fn is_level_shown(&self, logger: &ShowingLogger<W>, round: usize) -> bool {
        for turn in 0..TURNS {
            if logger.enabled(Level::Trace, "x") == is_on(round)
                || logger.max_log_level() == level_of(round)
            {
                return true;
            }
            pause(&self.rt, turn);
        }
        false
    }

    /// In each round, waits until its level is seen, and tells this.
    fn watch_levels(&self, logger: &ShowingLogger<W>) {
        for round in 1..=ROUNDS {
            if !self.is_level_shown(logger, round) {
                break;
            }
            self.board.seen.store(round, Ordering::SeqCst);
        }
    }

    /// Returns whether the highest level, and a record, go by the level of a round.
    fn is_level_kept(
        &self,
        logger: &ShowingLogger<W>,
        logged: &Record,
        around: &Context<'_>,
        round: usize,
    ) -> bool {
        if is_on(round) {
            self.board.second.store(1, Ordering::SeqCst);
            logger.log(logged, around);
            self.board.second.load(Ordering::SeqCst) == 0
                && logger.max_log_level() == LevelFilter::Trace
        } else {
            let is_off = logger.max_log_level() == LevelFilter::Off;
            self.board.second.store(1, Ordering::SeqCst);
            logger.log(logged, around);
            self.board.second.load(Ordering::SeqCst) == 1 && is_off
        }
    }

    /// In each round, asks and logs once the first thread has seen the level. Returns in how many
    /// rounds both went by it.
    fn follow_levels(&self, logger: &ShowingLogger<W>) -> Result<usize, OutOfMemory> {
        let logged = record(self.alloc, (Level::Trace, "x", "two"))?;
        let around = context(self.alloc);
        let mut right: usize = 0;
        for round in 1..=ROUNDS {
            if !is_reached(&self.rt, &self.board.seen, round) {
                break;
            }
            if self.is_level_kept(logger, &logged, &around, round) {
                right = right.saturating_add(1);
            }
            self.board.done.store(round, Ordering::SeqCst);
        }
        Ok(right)
    }

    /// In each round, sets its level, and waits until the second thread has done.
    fn set_levels(&self, handle: &ShowingHandle<W>) -> Result<(), BuildError> {
        for round in 1..=ROUNDS {
            handle.set_root_level(level_of(round))?;
            if !is_reached(&self.rt, &self.board.done, round) {
                break;
            }
        }
        Ok(())
    }
}

/// Follows in one thread the levels that another sets. Returns in how many rounds it went by them.
fn followed_levels<W>(
    scene: &Scene<W>,
    handle: &ShowingHandle<W>,
    logger: &ShowingLogger<W>,
) -> Result<usize, BuildError>
where
    W: Threads + Wait + Clock + Eprint + Clone + Send + Sync + Drop,
{
    let (right, set) = thread::join(
        &scene.rt,
        || scene.follow_levels(logger),
        || scene.set_levels(handle),
    );
    set?;
    Ok(right?)
}

/// Makes all rounds. Returns in how many of them the second thread went by the level that the first
/// had seen.
fn leveled<W>(
    scene: &Scene<W>,
    handle: &ShowingHandle<W>,
    first: &ShowingLogger<W>,
    second: &ShowingLogger<W>,
) -> Result<usize, BuildError>
where
    W: Threads + Wait + Clock + Eprint + Clone + Send + Sync + Drop,
{
    let ((), right) = thread::join(
        &scene.rt,
        || scene.watch_levels(first),
        || followed_levels(scene, handle, second),
    );
    right
}

#[test]
fn a_level_that_one_has_seen(rt: HostRuntime) -> Result<(), Fail> {
    let stage = Stage::new(rt, rt.alloc())?;
    stage.handle.set_root_level(LevelFilter::Off)?;
    let right = leveled(&stage.scene, &stage.handle, &stage.logger, &stage.last)?;
    assert_eq!(rt; right, ROUNDS);
    Ok(())
}

/// So many levels are set in a round in which the configuration is swapped once.
const LEVELS: usize = 10;

/// The configuration is swapped so many times.
const SWAPS: usize = 50;

impl<W: Wait + Clock + Eprint + Clone + Drop> Scene<W> {
    /// Sets levels of `x` by turns in each round, once it has begun, and tells that they are set.
    fn set_levels_of_x(&self, handle: &ShowingHandle<W>) -> Result<(), BuildError> {
        for round in 1..=SWAPS {
            if !is_reached(&self.rt, &self.board.begun, round) {
                break;
            }
            for turn in 0..LEVELS {
                handle.set_level("x", level_of(turn))?;
            }
            self.board.done.store(round, Ordering::SeqCst);
        }
        Ok(())
    }

    /// Sets a configuration in each round while levels are set. Returns in how many rounds a record
    /// afterwards was in the appender of the configuration.
    fn swap_beside_levels(
        &self,
        logger: &ShowingLogger<W>,
        handle: &ShowingHandle<W>,
    ) -> Result<usize, BuildError> {
        let logged = record(self.alloc, (Level::Info, "t", "one"))?;
        let around = context(self.alloc);
        let mut right: usize = 0;
        for round in 1..=SWAPS {
            let config = self.config(round)?;
            self.board.begun.store(round, Ordering::SeqCst);
            handle.set_config(config)?;
            if !is_reached(&self.rt, &self.board.done, round) {
                break;
            }
            logger.log(&logged, &around);
            if self.board.second.load(Ordering::SeqCst) == round {
                right = right.saturating_add(1);
            }
        }
        Ok(right)
    }
}

/// Sets levels in one thread and configurations in another. Returns in how many rounds the
/// configuration was the one that was set.
fn set_both<W>(
    scene: &Scene<W>,
    logger: &ShowingLogger<W>,
    handle: &ShowingHandle<W>,
) -> Result<usize, BuildError>
where
    W: Threads + Wait + Clock + Eprint + Clone + Send + Sync + Drop,
{
    let (set, swapped) = thread::join(
        &scene.rt,
        || scene.set_levels_of_x(handle),
        || scene.swap_beside_levels(logger, handle),
    );
    set?;
    swapped
}

#[test]
fn a_level_undoes_no_swap(rt: HostRuntime) -> Result<(), Fail> {
    let stage = Stage::new(rt, rt.alloc())?;
    let right = set_both(&stage.scene, &stage.logger, &stage.handle)?;
    assert_eq!(rt; right, SWAPS);
    let present = stage.handle.clone()?.shared_appenders()?;
    assert_eq!(rt; present.len(), 1);
    for shared in &present {
        same(&rt, shared.name.as_str(), "50");
    }
    Ok(())
}
