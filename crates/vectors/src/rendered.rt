//! Texts of configurations and routes.

use crate::fault::Fault;
use log::LevelFilter;
use std::alloc::Global;

/// The text of a refused configuration.
pub const REFUSED: &str = "refused";

/// Appends the refresh rate in milliseconds, if there is one.
pub fn push_rate(alloc: Global, out: &mut String, rate: Option<u64>) -> Result<(), Fault> {
    if let Some(rate) = rate {
        out.push_str(format!(in alloc; "rate {rate}; ")?.as_str())?;
    }
    Ok(())
}

/// Appends a fault of an appender or of its filter: the class, the appender's name and the fault.
pub fn push_fault(
    alloc: Global,
    out: &mut String,
    class: &str,
    name: &str,
    fault: &str,
) -> Result<(), Fault> {
    Ok(out.push_str(format!(in alloc; "{class} {name:?}: {fault}; ")?.as_str())?)
}

/// Appends texts in the order of their bytes.
pub fn push_sorted(out: &mut String, texts: &mut Vec<String>) -> Result<(), Fault> {
    texts.sort()?;
    for text in texts {
        out.push_str(text.as_str())?;
    }
    Ok(())
}

/// Returns the text of a fault of the whole: its kind, and the name that it is about.
pub fn error_text(alloc: Global, kind: &str, name: &str) -> Result<String, Fault> {
    Ok(format!(in alloc; "{kind} {name:?}; ")?)
}

/// Appends the level of the root or of a logger, and the names of its appenders.
pub fn push_level(
    alloc: Global,
    out: &mut String,
    level: LevelFilter,
    appenders: &[String],
) -> Result<(), Fault> {
    Ok(out.push_str(format!(in alloc; "{level} to {appenders:?}; ")?.as_str())?)
}

/// Appends the name of a logger, and whether it is additive.
pub fn push_logger(
    alloc: Global,
    out: &mut String,
    name: &str,
    additive: bool,
) -> Result<(), Fault> {
    let kind = if additive { "additive" } else { "alone" };
    Ok(out.push_str(format!(in alloc; "logger {name:?} {kind} ")?.as_str())?)
}

/// Appends the kind of an appender, its name and its filters.
pub fn push_kept(
    alloc: Global,
    out: &mut String,
    name: &str,
    kind: &str,
    filters: &[String],
) -> Result<(), Fault> {
    Ok(out.push_str(format!(in alloc; "{kind} {name:?} behind {filters:?}; ")?.as_str())?)
}

/// Appends the name of an appender and the number of its filters.
pub fn push_counted(
    alloc: Global,
    out: &mut String,
    name: &str,
    filters: u64,
) -> Result<(), Fault> {
    Ok(out.push_str(format!(in alloc; "{name:?} behind {filters}; ")?.as_str())?)
}
