//! The levels of a configuration: the most verbose one, and a change at a name.

ghost use Rattle.std.specs.Prelude.{◌≡◌, ◌≤◌, [], All, Contains, IfOk, nat_le};
ghost use Rattle.std.specs.Prelude.{if◌then◌else◌};
ghost use Rattle.log.specs.Level.{filter_rank};
ghost use Rattle.log4rs_config.specs.Levels.{all_levels, leveled, with_level_at};
ghost use Rattle.log4rs_config.specs.Settings.{settings_of};
ghost use Rattle.std.specs.List.{list_any};
ghost use Rattle.std.specs.Str.{bytes_eq};

use crate::runtime::{Logger, Root};
use log::LevelFilter;
use log4rs_base::OutOfMemory;
use std::alloc::Global;

/// Returns the most verbose of the levels of a root and of loggers.
pub fn greatest_level(root: &Root, loggers: &[Logger]) -> LevelFilter
    ensures greatest { All (λ level. filter_rank level ≤ filter_rank result)
        (all_levels (settings_of [] root.now loggers.now)) }
    ensures one { Contains (all_levels (settings_of [] root.now loggers.now)) result }
{
    let mut greatest = root.level();
    for logger in loggers {
        greatest = more_verbose(greatest, logger.level());
    }
    greatest
}

/// Returns copies of loggers. Fails if an allocation fails.
pub fn copies(alloc: Global, loggers: &[Logger]) -> Result<Vec<Logger>, OutOfMemory>
    ensures { IfOk result (λ made. made.items ≡ loggers.now) }
{
    let mut made = Vec::with_capacity(alloc, loggers.len())?;
    for logger in loggers {
        made.push(logger.clone()?)?;
    }
    Ok(made)
}

/// Returns whether a logger has this name.
fn has_logger(loggers: &[Logger], name: &str) -> bool
    ensures { result ≡ list_any (λ logger. bytes_eq logger.name name.now) loggers.now }
{
    loggers.iter().any(|logger| logger.name() == name)
}

/// Returns a copy of a logger, with another level if it has this name.
fn copy_at(logger: &Logger, name: &str, level: LevelFilter) -> Result<Logger, OutOfMemory>
    ensures { IfOk result (λ copy. copy ≡ leveled name.now level logger.now) }
{
    let mut copy = logger.clone()?;
    if logger.name() == name {
        copy.set_level(level);
    }
    Ok(copy)
}

/// Returns copies of loggers, in which those of this name have another level. If there is none, a
/// last logger of this name and level is added, which is additive and has no appenders of its own.
/// Fails if an allocation fails.
pub fn with_level_at(
    alloc: Global,
    loggers: &[Logger],
    name: &str,
    level: LevelFilter,
) -> Result<Vec<Logger>, OutOfMemory>
    ensures { IfOk result (λ made. made.items ≡ with_level_at loggers.now name.now level) }
{
    let mut made = Vec::with_capacity(alloc, loggers.len())?;
    for logger in loggers {
        made.push(copy_at(logger, name, level)?)?;
    }
    if !has_logger(loggers, name) {
        let name = String::from_str(alloc, name)?;
        made.push(Logger::builder(alloc).build(name, level))?;
    }
    Ok(made)
}

/// Returns the one of two levels that lets more through.
fn more_verbose(a: LevelFilter, b: LevelFilter) -> LevelFilter
    ensures { result ≡ (if nat_le (filter_rank a) (filter_rank b) then b else a) }
{
    a.max(b)
}
