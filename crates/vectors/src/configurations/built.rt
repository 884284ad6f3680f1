//! The texts of built configurations.

use crate::fault::Fault;
use crate::rendered::{
    error_text, push_counted, push_fault, push_kept, push_level, push_logger, push_sorted,
};
use jiff::Timestamp;
use jiff::tz::TimeZone;
use log4rs_append::AppenderOf;
use log4rs_base::filter::FilterOf;
use log4rs_build::{
    Absent, DeserializersOf, DeserializingConfigError, RawConfig, Surroundings, create_lossy,
};
use log4rs_config::runtime::appender::Filtered;
use log4rs_config::runtime::{ConfigError, Logger, Root};
use log4rs_rolling::Keep;
use log4rs_rolling::store::{FsMaker, Store};
use log4rs_settings::ConfigFault;
use std::alloc::Global;

/// Returns surroundings with an empty environment, at the epoch in UTC, with standard streams that
/// are no terminals.
fn surroundings(rt: &HostRuntime) -> Surroundings<'static> {
    let (alloc, stdout, stderr) = (rt.alloc(), rt.stdout(), rt.stderr());
    Surroundings::new(alloc, Timestamp::UNIX_EPOCH, TimeZone::UTC, stdout, stderr)
}

/// Returns the text of a fault of settings. For a bad value, a roller and a file it is only the
/// kind of the fault.
fn fault_text(alloc: Global, fault: &ConfigFault) -> Result<String, Fault> {
    match fault {
        ConfigFault::UnknownKind(class, kind) => {
            Ok(format!(in alloc; "UnknownKind({class}, {kind})")?)
        }
        ConfigFault::UnknownField(name) => Ok(format!(in alloc; "UnknownField({name})")?),
        ConfigFault::MissingField(name) => Ok(format!(in alloc; "MissingField({name})")?),
        ConfigFault::BadValue(_) => Ok(String::from_str(alloc, "BadValue")?),
        ConfigFault::Interval => Ok(String::from_str(alloc, "Interval")?),
        ConfigFault::Roller(_) => Ok(String::from_str(alloc, "Roller")?),
        ConfigFault::Log(_) => Ok(String::from_str(alloc, "Log")?),
    }
}

/// Appends the faults of appenders and filters.
fn push_faults(
    alloc: Global,
    told: &mut String,
    errors: &[DeserializingConfigError],
) -> Result<(), Fault> {
    for error in errors {
        let (class, name, fault) = match error {
            DeserializingConfigError::Appender(name, fault) => ("appender", name, fault),
            DeserializingConfigError::Filter(name, fault) => ("filter", name, fault),
        };
        let fault = fault_text(alloc, fault)?;
        push_fault(alloc, told, class, name.as_str(), fault.as_str())?;
    }
    Ok(())
}

/// Returns the kind of a fault of the whole, and the name that it is about.
fn parts(error: &ConfigError) -> (&'static str, &str) {
    match error {
        ConfigError::DuplicateAppenderName(name) => ("DuplicateAppenderName", name.as_str()),
        ConfigError::NonexistentAppender(name) => ("NonexistentAppender", name.as_str()),
        ConfigError::DuplicateLoggerName(name) => ("DuplicateLoggerName", name.as_str()),
        ConfigError::InvalidLoggerName(name) => ("InvalidLoggerName", name.as_str()),
    }
}

/// Appends the faults of the whole.
fn push_errors(alloc: Global, told: &mut String, errors: &[ConfigError]) -> Result<(), Fault> {
    let mut texts = Vec::new(alloc);
    for error in errors {
        let (kind, name) = parts(error);
        texts.push(error_text(alloc, kind, name)?)?;
    }
    push_sorted(told, &mut texts)
}

/// Appends all faults.
fn push_all_faults(
    alloc: Global,
    told: &mut String,
    faults: &[DeserializingConfigError],
    errors: &[ConfigError],
) -> Result<(), Fault> {
    push_faults(alloc, told, faults)?;
    push_errors(alloc, told, errors)
}

/// Returns the kind of an appender.
fn kind<S: Store + Drop, P: Keep<S>, E, C>(appender: &AppenderOf<S, P, E, C>) -> &'static str {
    match appender {
        AppenderOf::Console(_) => "ConsoleAppender",
        AppenderOf::File(_) => "FileAppender",
        AppenderOf::Rolling(_) => "RollingFileAppender",
        AppenderOf::Memory(_) => "MemoryAppender",
        AppenderOf::Custom(_) => "Custom",
    }
}

/// Returns the texts of filters.
fn filter_texts<F>(alloc: Global, filters: &[FilterOf<F>]) -> Result<Vec<String>, Fault> {
    let mut texts = Vec::new(alloc);
    for filter in filters {
        texts.push(match filter {
            FilterOf::Threshold(filter) => format!(in alloc; "{filter:?}")?,
            FilterOf::Custom(_) => String::from_str(alloc, "Custom")?,
        })?;
    }
    Ok(texts)
}

/// Appends the built appenders with their filters, or only with the number of them.
fn push_appenders<S: Store + Drop, P: Keep<S>, E, C, F>(
    alloc: Global,
    told: &mut String,
    appenders: &[Filtered<AppenderOf<S, P, E, C>, FilterOf<F>>],
    is_shown: bool,
) -> Result<(), Fault> {
    for kept in appenders {
        if is_shown {
            let filters = filter_texts(alloc, kept.filters())?;
            push_kept(
                alloc,
                told,
                kept.name(),
                kind(kept.appender()),
                filters.as_slice(),
            )?;
        } else {
            push_counted(alloc, told, kept.name(), kept.filters().len() as u64)?;
        }
    }
    Ok(())
}

/// Appends the root.
fn push_root(alloc: Global, told: &mut String, root: &Root) -> Result<(), Fault> {
    told.push_str("root ")?;
    push_level(alloc, told, root.level(), root.appenders())
}

/// Appends the loggers.
fn push_loggers(alloc: Global, told: &mut String, loggers: &[Logger]) -> Result<(), Fault> {
    for logger in loggers {
        push_logger(alloc, told, logger.name(), logger.additive())?;
        push_level(alloc, told, logger.level(), logger.appenders())?;
    }
    Ok(())
}

/// Appends the root, the appenders and the loggers.
fn push_parts<S: Store + Drop, P: Keep<S>, E, C, F>(
    alloc: Global,
    told: &mut String,
    root: &Root,
    appenders: &[Filtered<AppenderOf<S, P, E, C>, FilterOf<F>>],
    loggers: &[Logger],
    is_shown: bool,
) -> Result<(), Fault> {
    push_root(alloc, told, root)?;
    push_appenders(alloc, told, appenders, is_shown)?;
    push_loggers(alloc, told, loggers)
}

/// Deserializers without components of the caller's.
type CaseDeserializers = DeserializersOf<Absent, Absent, Absent, Absent>;

/// Builds a configuration over real files, and appends its faults and its parts.
pub fn push_built(
    rt: &HostRuntime,
    raw: RawConfig,
    is_shown: bool,
    told: &mut String,
) -> Result<(), Fault> {
    let alloc = rt.alloc();
    let mut deserializers = CaseDeserializers::new(alloc)?;
    let mut maker = FsMaker::new(alloc, *rt);
    let made = create_lossy(raw, &mut deserializers, &mut maker, &surroundings(rt))?;
    let faults = made.config_errors.errors();
    push_all_faults(alloc, told, made.appender_errors.errors(), faults)?;
    let config = &made.config;
    push_parts(
        alloc,
        told,
        config.root(),
        config.appenders(),
        config.loggers(),
        is_shown,
    )
}
