//! The expected texts of configurations.

use crate::fault::Fault;
use crate::fields::{field, items, level_filter, text, texts_of};
use crate::rendered::{
    REFUSED, error_text, push_counted, push_fault, push_kept, push_level, push_logger, push_rate,
    push_sorted,
};
use serde_json::Value;
use std::alloc::Global;

/// Returns a part of a value: the field `name` of an object, or the item `at` of a list.
fn part<'a>(value: &'a Value, name: &str, at: usize) -> Result<&'a Value, Fault> {
    match value.as_array() {
        Some(list) => list.as_slice().get(at).ok_or(Fault::Malformed),
        None => field(value, name),
    }
}

/// Returns the text of a part.
fn part_text<'a>(value: &'a Value, name: &str, at: usize) -> Result<&'a str, Fault> {
    text(part(value, name, at)?)
}

/// Returns the items of a part.
fn part_items<'a>(value: &'a Value, name: &str, at: usize) -> Result<&'a [Value], Fault> {
    items(part(value, name, at)?)
}

/// Returns the refresh rate, if there is one.
fn rate(outcome: &Value) -> Result<Option<u64>, Fault> {
    let rate = part(outcome, "refresh_rate_ms", 0)?;
    if rate.is_null() {
        return Ok(None);
    }
    Ok(Some(rate.as_u64().ok_or(Fault::Malformed)?))
}

/// Appends the faults of appenders and filters.
fn push_faults(alloc: Global, told: &mut String, outcome: &Value) -> Result<(), Fault> {
    for fault in part_items(outcome, "appender_errors", 1)? {
        let class = part_text(fault, "of", 0)?;
        let name = part_text(fault, "name", 1)?;
        push_fault(alloc, told, class, name, part_text(fault, "fault", 2)?)?;
    }
    Ok(())
}

/// Appends the faults of the whole.
fn push_errors(alloc: Global, told: &mut String, outcome: &Value) -> Result<(), Fault> {
    let mut errors = Vec::new(alloc);
    for error in part_items(outcome, "config_errors", 2)? {
        let kind = part_text(error, "kind", 0)?;
        errors.push(error_text(alloc, kind, part_text(error, "name", 1)?)?)?;
    }
    push_sorted(told, &mut errors)
}

/// Appends the level and the names of appenders at these places.
fn push_levels(
    alloc: Global,
    told: &mut String,
    value: &Value,
    level: usize,
    appenders: usize,
) -> Result<(), Fault> {
    let level = level_filter(part(value, "level", level)?)?;
    let names = texts_of(alloc, part(value, "appenders", appenders)?)?;
    push_level(alloc, told, level, names.as_slice())
}

/// Appends the built appenders. The debug text of an appender begins with its kind.
fn push_appenders(alloc: Global, told: &mut String, outcome: &Value) -> Result<(), Fault> {
    for kept in part_items(outcome, "appenders", 5)? {
        let name = part_text(kept, "name", 0)?;
        let filters = part(kept, "filters", 1)?;
        match filters.as_u64() {
            Some(count) => push_counted(alloc, told, name, count)?,
            None => {
                let shown = text(field(kept, "debug")?)?.split_once(' ');
                let (kind, _) = shown.ok_or(Fault::Malformed)?;
                push_kept(
                    alloc,
                    told,
                    name,
                    kind,
                    texts_of(alloc, filters)?.as_slice(),
                )?;
            }
        }
    }
    Ok(())
}

/// Appends the loggers.
fn push_loggers(alloc: Global, told: &mut String, outcome: &Value) -> Result<(), Fault> {
    for logger in part_items(outcome, "loggers", 6)? {
        let additive = part(logger, "additive", 2)?.as_bool();
        let additive = additive.ok_or(Fault::Malformed)?;
        push_logger(alloc, told, part_text(logger, "name", 0)?, additive)?;
        push_levels(alloc, told, logger, 1, 3)?;
    }
    Ok(())
}

/// Returns whether the text is expected to be refused.
fn is_refused(outcome: &Value) -> bool {
    match outcome.as_str() {
        Some(word) => word == REFUSED,
        None => outcome.get("parse_error").is_some(),
    }
}

/// Appends the expected text of a configuration that is built. The outcome is an object, or the
/// list of its parts, with the level and the appenders of the root in place of the root.
fn push_outcome(alloc: Global, told: &mut String, outcome: &Value) -> Result<(), Fault> {
    push_rate(alloc, told, rate(outcome)?)?;
    push_faults(alloc, told, outcome)?;
    push_errors(alloc, told, outcome)?;
    told.push_str("root ")?;
    push_levels(alloc, told, outcome.get("root").unwrap_or(outcome), 3, 4)?;
    push_appenders(alloc, told, outcome)?;
    push_loggers(alloc, told, outcome)
}

/// Returns the expected text of a case.
pub fn expected(alloc: Global, case: &Value) -> Result<String, Fault> {
    let outcome = match case.get("differs") {
        Some(differs) => differs,
        None => field(case, "outcome")?,
    };
    if is_refused(outcome) {
        return Ok(String::from_str(alloc, REFUSED)?);
    }
    let mut told = String::new(alloc);
    push_outcome(alloc, &mut told, outcome)?;
    Ok(told)
}
