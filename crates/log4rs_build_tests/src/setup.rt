//! Configurations of the tests, and their texts.

use jiff::Timestamp;
use jiff::tz::TimeZone;
use log::Level;
use log4rs_append::{AppenderOf, MemoryAppender};
use log4rs_base::filter::{FilterOf, ThresholdFilter};
use log4rs_base::{Context, Record};
use log4rs_build::{
    BehindOf, BuiltOf, ConfigFrom, DeserializersOf, InitError, RawConfig, Surroundings,
    create_lossy, create_raw_config,
};
use log4rs_config::CoreOf;
use log4rs_encode::pattern::PatternEncoder;
use log4rs_rolling::{MemMaker, MemStore, SizeTrigger};
use log4rs_settings::Format;
use std::alloc::Global;
use std::io::{Stderr, Stdout};
use std::process::Abort;
use std::test::Fail;
use std::{env, fs, process};

/// The type of handed-in appenders.
pub(crate) type Kept = MemoryAppender<PatternEncoder>;

/// The deserializers of the tests.
pub(crate) type Parts = DeserializersOf<Kept, ThresholdFilter, PatternEncoder, SizeTrigger>;

/// A built configuration.
pub(crate) type Built = ConfigFrom<Kept, ThresholdFilter, PatternEncoder, SizeTrigger, MemStore>;

/// An appender of a built configuration.
type Appender = BuiltOf<Kept, ThresholdFilter, PatternEncoder, SizeTrigger, MemStore>;

type Behind = BehindOf<Kept, PatternEncoder, SizeTrigger, MemStore>;

type Logging = CoreOf<Behind, FilterOf<ThresholdFilter>>;

/// Asserts that a text is the expected one.
pub(crate) fn same(stop: &impl Abort, found: &str, expected: &str) {
    assert_eq!(stop; found, expected);
}

/// Creates a folder with this name in the system's temporary folder. Returns its path.
pub(crate) fn folder(rt: &HostRuntime, name: &str) -> Result<String, Fail> {
    let (temp, number) = (env::temp_dir(rt)?, process::id(rt.process()));
    let path = format!(in rt.alloc(); "{}/log4rs_{name}_{number}", temp.as_str())?;
    fs::create_dir(rt, path.as_str())?;
    Ok(path)
}

/// Returns surroundings with an empty environment, at the epoch.
pub(crate) fn surroundings(alloc: Global, stdout: Stdout, stderr: Stderr) -> Surroundings<'static> {
    Surroundings::new(alloc, Timestamp::UNIX_EPOCH, TimeZone::UTC, stdout, stderr)
}

/// Builds a configuration without its faulty parts. Returns it with the errors of its appenders and
/// filters, a bar, the errors of the whole, and a bar.
pub(crate) fn built(
    surroundings: &Surroundings<'_>,
    alloc: Global,
    parts: &mut Parts,
    text: &str,
) -> Result<(Built, String), Fail> {
    let raw = RawConfig::from_text(alloc, Format::Json, text)?;
    let mut maker = MemMaker::new(alloc);
    let built = create_lossy(raw, parts, &mut maker, surroundings)?;
    let mut told = String::new(alloc);
    for error in built.appender_errors.errors() {
        write!(told, "{error}; ")?;
    }
    told.push_str("| ")?;
    for fault in built.config_errors.errors() {
        write!(told, "{fault}; ")?;
    }
    told.push_str("| ")?;
    Ok((built.config, told))
}

/// Builds a configuration. Fails if a part is faulty.
pub(crate) fn created(
    surroundings: &Surroundings<'_>,
    alloc: Global,
    format: Format,
    text: &str,
) -> Result<Built, InitError> {
    let raw = RawConfig::from_text(alloc, format, text)?;
    let mut parts = Parts::new(alloc)?;
    create_raw_config(raw, &mut parts, &mut MemMaker::new(alloc), surroundings)
}

/// Writes the files of a store.
fn show_files(alloc: Global, store: &MemStore, shown: &mut String) -> Result<(), Fail> {
    for (path, bytes) in &store.files()? {
        let held = String::from_utf8(Vec::from_slice(alloc, bytes.as_slice())?)?;
        write!(shown, " {path}={held}")?;
    }
    Ok(())
}

/// Writes an appender: its name, the number of its filters, and what it holds.
fn show_appender(alloc: Global, appender: &Appender, shown: &mut String) -> Result<(), Fail> {
    write!(shown, "{} {}:", appender.name(), appender.filters().len())?;
    match appender.appender() {
        AppenderOf::File(file) => show_files(alloc, file.store(), shown)?,
        AppenderOf::Rolling(rolling) => show_files(alloc, rolling.store(), shown)?,
        AppenderOf::Custom(kept) => {
            for record in kept.records() {
                write!(shown, " {record}")?;
            }
        }
        AppenderOf::Console(_) => shown.push_str(" console")?,
        AppenderOf::Memory(_) => (),
    }
    shown.push_str("; ")?;
    Ok(())
}

/// Logs records of these levels and messages. Writes the appenders afterwards.
pub(crate) fn show_logged(
    alloc: Global,
    config: Built,
    records: &[(Level, &str)],
    shown: &mut String,
) -> Result<(), Fail> {
    let mut core: Logging = CoreOf::new(alloc, config)?;
    let context = Context::new(alloc, Timestamp::UNIX_EPOCH, TimeZone::UTC);
    for (level, message) in records {
        let message = String::from_str(alloc, message)?;
        let record = Record::new(*level, String::from_str(alloc, "t")?, message);
        core.log(&record, &context)?;
    }
    for appender in core.config().appenders() {
        show_appender(alloc, appender, shown)?;
    }
    Ok(())
}
