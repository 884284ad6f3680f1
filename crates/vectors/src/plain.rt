//! Routes by a linear search of the loggers, with which the routes of a core are compared.

use crate::fault::Fault;
use log::LevelFilter;
use log4rs_config::runtime::{Logger, Root};
use std::alloc::Global;

/// The level of a target, and the names of its appenders in the order of delivery, without regard
/// to filters.
#[derive(Drop)]
pub struct Route {
    pub level: LevelFilter,
    pub appenders: Vec<String>,
}

/// Returns whether the components of a logger's name are a prefix of a target's.
fn is_above(logger: &Logger, target: &str) -> bool {
    match target.strip_prefix(logger.name()) {
        Some(rest) => rest.is_empty() || rest.starts_with("::"),
        None => false,
    }
}

/// Returns the logger above the target with the longest name of fewer than `limit` bytes.
fn nearest<'l>(loggers: &'l [Logger], target: &str, limit: usize) -> Option<&'l Logger> {
    let mut found = None;
    let mut longest = 0;
    for logger in loggers {
        let length = logger.name().len();
        if longest < length && length < limit && is_above(logger, target) {
            found = Some(logger);
            longest = length;
        }
    }
    found
}

/// Appends copies of the names.
fn push_all(alloc: Global, names: &[String], all: &mut Vec<String>) -> Result<(), Fault> {
    for name in names {
        all.push(String::from_str(alloc, name.as_str())?)?;
    }
    Ok(())
}

/// Returns the route of a target: the appenders of the loggers above it, the nearest first, up to
/// one that is not additive, or else to the root.
pub fn plain_route(
    alloc: Global,
    root: &Root,
    loggers: &[Logger],
    target: &str,
) -> Result<Route, Fault> {
    let level = match nearest(loggers, target, usize::MAX) {
        Some(logger) => logger.level(),
        None => root.level(),
    };
    let mut appenders = Vec::new(alloc);
    let mut limit = usize::MAX;
    for _ in loggers {
        let Some(logger) = nearest(loggers, target, limit) else {
            break;
        };
        push_all(alloc, logger.appenders(), &mut appenders)?;
        if !logger.additive() {
            return Ok(Route { level, appenders });
        }
        limit = logger.name().len();
    }
    push_all(alloc, root.appenders(), &mut appenders)?;
    Ok(Route { level, appenders })
}
