//! Calls of `enabled` for many targets.

use crate::work::Work;
use log::{Level, LevelFilter};
use log4rs::append::MemoryAppender;
use log4rs::config::runtime::builder::ConfigBuilderOf;
use log4rs::config::runtime::{BuildError, Logger, Root};
use log4rs::encode::AnyEncoder;
use log4rs::filter::AnyFilter;
use log4rs::{CoreOf, OutOfMemory};
use std::alloc::Global;

/// The number of loggers of the two workloads.
pub const LOGGERS: usize = 1_000;

pub const MANY_LOGGERS: usize = 10_000;

/// The maximum number of components of a logger's name.
const DEPTH: usize = 6;

/// The levels of the loggers, by turns.
const LEVELS: [LevelFilter; 5] = [
    LevelFilter::Warn,
    LevelFilter::Debug,
    LevelFilter::Off,
    LevelFilter::Info,
    LevelFilter::Trace,
];

/// A core without appenders, and the targets of its calls, by turns.
#[derive(Drop)]
pub struct Routing {
    core: CoreOf<MemoryAppender<AnyEncoder>, AnyFilter>,
    targets: Vec<String>,
    next: usize,
}

impl Routing {
    /// Creates so many loggers with names of one to six components, and three targets for each: its
    /// name, one below it, and one beside it.
    pub fn new(alloc: Global, count: usize) -> Result<Routing, BuildError> {
        let targets = targets(alloc, count)?;
        let core = core_of_loggers(alloc, count)?;
        Ok(Routing {
            core,
            targets,
            next: 0,
        })
    }
}

/// Returns the three targets of each logger.
fn targets(alloc: Global, count: usize) -> Result<Vec<String>, OutOfMemory> {
    let mut targets = Vec::new(alloc);
    for at in 0..count {
        let name = logger_name(alloc, at)?;
        push_targets(alloc, name.as_str(), &mut targets)?;
    }
    Ok(targets)
}

/// Appends the targets of a logger.
fn push_targets(alloc: Global, name: &str, targets: &mut Vec<String>) -> Result<(), OutOfMemory> {
    targets.push(String::from_str(alloc, name)?)?;
    targets.push(format!(in alloc; "{name}::below::it")?)?;
    targets.push(format!(in alloc; "{name}_beside")?)?;
    Ok(())
}

/// Returns the loggers.
fn loggers(alloc: Global, count: usize) -> Result<Vec<Logger>, OutOfMemory> {
    let mut loggers = Vec::with_capacity(alloc, count)?;
    for at in 0..count {
        let name = logger_name(alloc, at)?;
        loggers.push(Logger::builder(alloc).build(name, LEVELS[at % LEVELS.len()]))?;
    }
    Ok(loggers)
}

/// Returns a core of the loggers, without appenders.
fn core_of_loggers(
    alloc: Global,
    count: usize,
) -> Result<CoreOf<MemoryAppender<AnyEncoder>, AnyFilter>, BuildError> {
    let loggers = loggers(alloc, count)?;
    let root = Root::builder(alloc).build(LevelFilter::Info);
    let config = ConfigBuilderOf::default(alloc)
        .loggers(loggers)?
        .build(root)?;
    Ok(CoreOf::new(alloc, config)?)
}

/// Returns the name of a logger. In each group of six, every name is below the one before.
fn logger_name(alloc: Global, at: usize) -> Result<String, OutOfMemory> {
    let family = at / DEPTH;
    let mut name = format!(in alloc; "application{family}")?;
    for level in 0..at % DEPTH {
        name.push_str("::")?;
        name.push_str(format!(in alloc; "module{level}")?.as_str())?;
    }
    Ok(name)
}

impl Work for Routing {
    fn once(&mut self) -> Result<u64, OutOfMemory> {
        if self.next >= self.targets.len() {
            self.next = 0;
        }
        let Some(target) = self.targets.get(self.next) else {
            return Ok(0);
        };
        self.next += 1;
        Ok(u64::from(self.core.enabled(Level::Info, target)))
    }
}
