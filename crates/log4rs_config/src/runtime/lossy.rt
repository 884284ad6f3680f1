//! The parts of a configuration without faults.

ghost use Rattle.std.specs.Prelude.{◌≡◌, [], IfOk, map, filter};
ghost use Rattle.log4rs_config.specs.Lossy.{are_first, firsts, kept_with, with_known};
ghost use Rattle.log4rs_config.specs.Name.{is_valid};
ghost use Rattle.log4rs_config.specs.Settings.{settings_of};

use crate::name::{NameSet, Named, is_valid_logger_name};
use crate::runtime::logger::Logger;
use crate::runtime::root::Root;
use log4rs_base::OutOfMemory;
use std::alloc::Global;

/// Returns whether each item is the first of its name.
fn mark_firsts<T: Named>(alloc: Global, items: &[T]) -> Result<Vec<bool>, OutOfMemory>
    ensures { IfOk result (λ marks. marks.items ≡ are_first [] (map T.name items.now)) }
{
    let mut names = NameSet::new(alloc);
    let mut marks = Vec::new(alloc);
    for item in items {
        let is_first = names.insert(item.name())?;
        marks.push(is_first)?;
    }
    Ok(marks)
}

/// Returns the first item of each name.
pub(crate) fn keep_firsts<T: Named + Drop>(
    alloc: Global,
    items: Vec<T>,
) -> Result<Vec<T>, OutOfMemory>
    ensures { IfOk result (λ kept. kept.items ≡ firsts T.name [] items.items) }
{
    let marks = mark_firsts(alloc, &items)?;
    let mut kept = Vec::new(alloc);
    for (item, is_first) in items.into_iter().zip(marks) {
        if is_first {
            kept.push(item)?;
        }
    }
    Ok(kept)
}

/// Returns the first logger of each name, if the name is valid, without its unknown appenders.
fn keep_loggers(
    alloc: Global,
    known: &NameSet<'_>,
    loggers: Vec<Logger>,
) -> Result<Vec<Logger>, OutOfMemory>
    ensures { IfOk result (λ kept. kept.items
        ≡ map (with_known known.now)
        (filter (λ logger. is_valid logger.name)
        (firsts (λ logger. logger.name) [] loggers.items))) }
{
    let mut kept = keep_firsts(alloc, loggers)?;
    kept.retain(|logger| is_valid_logger_name(logger.name()));
    for logger in kept.iter_mut() {
        logger.keep_known(known);
    }
    Ok(kept)
}

/// Returns what is kept of a root and of loggers beside these appenders.
pub(crate) fn keep_with<T: Named>(
    alloc: Global,
    appenders: &[T],
    root: Root,
    loggers: Vec<Logger>,
) -> Result<(Root, Vec<Logger>), OutOfMemory>
    ensures { IfOk result (λ parts. settings_of (map T.name appenders.now) parts.0 parts.1.items
        ≡ kept_with (map T.name appenders.now) root loggers.items) }
{
    let known = NameSet::of(alloc, appenders)?;
    let mut root = root;
    root.keep_known(&known);
    let loggers = keep_loggers(alloc, &known, loggers)?;
    Ok((root, loggers))
}
