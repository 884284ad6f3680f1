//! A core and a logger configured by a text, over real files.

use crate::file_runs::folder;
use crate::from_file::{held, record};
use crate::world::same;
use jiff::Timestamp;
use jiff::tz::TimeZone;
use log4rs::append::Log;
use log4rs::config::raw::{ConfigFrom, DeserializersOf, Format, RawConfig};
use log4rs::config::{HandleFrom, InitError, LoggerFrom, create_raw_config, init_raw_config};
use log4rs::store::{FsMaker, FsStore};
use log4rs::{Absent, Context, CoreOf, OutOfMemory, Surroundings};
use std::alloc::Global;
use std::fs;
use std::sync::Wait;
use std::test::Fail;

/// A configuration with an appender to a file in `FOLDER`.
const TEXT: &str = r#"refresh_rate = "60 seconds"

[appenders.baz]
kind = "file"
path = "FOLDER/baz.log"
encoder = { pattern = "{m}" }

[root]
level = "info"
appenders = ["baz"]
"#;

type Parts = DeserializersOf<Absent, Absent, Absent, Absent>;

type Store = FsStore<HostRuntime>;

type Config = ConfigFrom<Absent, Absent, Absent, Absent, Store>;

type Logger<W> = LoggerFrom<Absent, Absent, Absent, Absent, Store, W>;

type Handle<W> = HandleFrom<Absent, Absent, Absent, Absent, Store, W>;

/// Parses the configuration for a folder.
fn parsed(alloc: Global, folder: &str) -> Result<RawConfig, Fail> {
    let text = TEXT.replace(alloc, "FOLDER", folder)?;
    Ok(RawConfig::from_text(alloc, Format::Toml, &text)?)
}

/// Returns surroundings with an empty environment, at the epoch.
fn surroundings(rt: &HostRuntime) -> Surroundings<'static> {
    let (alloc, stdout, stderr) = (rt.alloc(), rt.stdout(), rt.stderr());
    Surroundings::new(alloc, Timestamp::UNIX_EPOCH, TimeZone::UTC, stdout, stderr)
}

/// Builds a configuration over real files.
fn created(rt: &HostRuntime, raw: RawConfig) -> Result<Config, InitError> {
    let mut parts = Parts::new(rt.alloc())?;
    let (mut maker, around) = (FsMaker::new(rt.alloc(), *rt), surroundings(rt));
    create_raw_config(raw, &mut parts, &mut maker, &around)
}

/// Begins a logger over real files.
fn begun<W: Clone + Drop>(
    rt: W,
    files: &HostRuntime,
    raw: RawConfig,
) -> Result<(Logger<W>, Handle<W>), InitError> {
    let mut parts = Parts::new(files.alloc())?;
    let (mut maker, around) = (FsMaker::new(files.alloc(), *files), surroundings(files));
    init_raw_config(rt, raw, &mut parts, &mut maker, &around)
}

/// Logs a record at Info.
fn log_one<L: Log>(alloc: Global, logger: &mut L) -> Result<(), OutOfMemory> {
    let context = Context::new(alloc, Timestamp::UNIX_EPOCH, TimeZone::UTC);
    logger.log(&record(alloc, "init_from_raw_config")?, &context);
    Ok(())
}

/// Logs a record through a core.
fn log_by_core(rt: &HostRuntime, raw: RawConfig) -> Result<(), Fail> {
    let mut core = CoreOf::new(rt.alloc(), created(rt, raw)?)?;
    Ok(log_one(rt.alloc(), &mut core)?)
}

/// Logs a record by a logger, beside its handle.
fn log_by_logger<W: Wait + Eprint + Clone + Drop>(
    rt: W,
    files: &HostRuntime,
    raw: RawConfig,
) -> Result<(), Fail> {
    let (mut logger, _handle) = begun(rt, files, raw)?;
    Ok(log_one(files.alloc(), &mut logger)?)
}

#[test]
fn a_core_logs_as_a_text_says(rt: HostRuntime) -> Result<(), Fail> {
    let folder = folder(&rt, "core")?;
    let raw = parsed(rt.alloc(), folder.as_str())?;
    assert_eq!(rt; raw.refresh_rate(), Some(60_000));
    log_by_core(&rt, raw)?;
    let held = held(&rt, folder.as_str(), "baz.log")?;
    same(&rt, held.as_str(), "init_from_raw_config|");
    fs::remove_dir_all(&rt, folder.as_str())?;
    Ok(())
}

#[test]
fn a_logger_logs_as_a_text_says(rt: HostRuntime) -> Result<(), Fail> {
    let folder = folder(&rt, "logger")?;
    log_by_logger(rt, &rt, parsed(rt.alloc(), folder.as_str())?)?;
    let held = held(&rt, folder.as_str(), "baz.log")?;
    same(&rt, held.as_str(), "init_from_raw_config|");
    fs::remove_dir_all(&rt, folder.as_str())?;
    Ok(())
}
