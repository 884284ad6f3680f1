//! The sample of the Rust crate's README, as TOML.

use crate::setup::{Kept, created, same, surroundings};
use jiff::Timestamp;
use jiff::tz::TimeZone;
use log::Level;
use log4rs_append::AppenderOf;
use log4rs_base::filter::{FilterOf, ThresholdFilter};
use log4rs_base::{Context, OutOfMemory, Record};
use log4rs_build::{BehindOf, InitError, RawConfig};
use log4rs_config::CoreOf;
use log4rs_encode::pattern::PatternEncoder;
use log4rs_rolling::{MemStore, SizeTrigger};
use log4rs_settings::Format;
use std::alloc::Global;
use std::test::Fail;

type Behind = BehindOf<Kept, PatternEncoder, SizeTrigger, MemStore>;

type Logging = CoreOf<Behind, FilterOf<ThresholdFilter>>;

const SAMPLE: &str = r#"
refresh_rate = "30 seconds"

[appenders.stdout]
kind = "console"

[appenders.requests]
kind = "file"
path = "log/requests.log"
encoder = { pattern = "{d} - {m}{n}" }

[root]
level = "warn"
appenders = ["stdout"]

[loggers."app::backend::db"]
level = "info"

[loggers."app::requests"]
level = "info"
appenders = ["requests"]
additive = false
"#;

/// Targets, and after a bar the appender that an INFO record reaches.
const TARGETS: &str = "\
app::requests::x|requests
app::backend::db|stdout
app|
app::backend::dbx|
app:::requests|
|";

/// What the file holds after an INFO record of each target, whose message is the target.
const HELD: &str = "1970-01-01T00:00:00+00:00 - app::requests::x\n";

/// Returns the milliseconds between two readings.
fn rate(alloc: Global) -> Result<Option<u64>, InitError> {
    Ok(RawConfig::from_text(alloc, Format::Toml, SAMPLE)?.refresh_rate())
}

/// Returns the names of the appenders that an INFO record of a target reaches.
fn reached(alloc: Global, core: &Logging, target: &str) -> Result<String, OutOfMemory> {
    let mut names = String::new(alloc);
    if core.enabled(Level::Info, target) {
        for at in core.route(target).1 {
            if let Some(appender) = core.config().appenders().get(*at) {
                names.push_str(appender.name())?;
            }
        }
    }
    Ok(names)
}

/// Logs an INFO record of a target, whose message is the target.
fn log(alloc: Global, core: &mut Logging, target: &str) -> Result<(), Fail> {
    let message = String::from_str(alloc, target)?;
    let record = Record::new(Level::Info, message.clone()?, message);
    let context = Context::new(alloc, Timestamp::UNIX_EPOCH, TimeZone::UTC);
    core.log(&record, &context)?;
    Ok(())
}

/// Returns the text of the file, or an empty one if there is none.
fn held(alloc: Global, core: &Logging) -> Result<String, Fail> {
    for appender in core.config().appenders() {
        if let AppenderOf::File(file) = appender.appender() {
            if let Some(bytes) = file.store().file("log/requests.log")? {
                return Ok(String::from_utf8(bytes)?);
            }
        }
    }
    Ok(String::new(alloc))
}

/// Logs no record that the console would print.
#[test]
fn records_go_as_the_sample_says(rt: HostRuntime) -> Result<(), Fail> {
    let alloc = rt.alloc();
    assert!(rt; rate(alloc)? == Some(30_000));
    let around = surroundings(alloc, rt.stdout(), rt.stderr());
    let mut core: Logging = CoreOf::new(alloc, created(&around, alloc, Format::Toml, SAMPLE)?)?;
    for row in TARGETS.lines() {
        let (target, names) = row.split_once('|').unwrap_or((row, ""));
        same(&rt, reached(alloc, &core, target)?.as_str(), names);
        if names != "stdout" {
            log(alloc, &mut core, target)?;
        }
    }
    same(&rt, held(alloc, &core)?.as_str(), HELD);
    Ok(())
}
