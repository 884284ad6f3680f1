//! An appender of a kind of one's own, whose settings stand in the file custom_config.toml.

use anyhow::Result;
use jiff::Timestamp;
use jiff::tz::TimeZone;
use log::{LevelFilter, Log, Logged, info, trace, warn};
use log4rs::append::Append;
use log4rs::config::init_raw_config;
use log4rs::config::raw::{DeserializersOf, Format, HandedInOf, RawConfig, Tree};
use log4rs::store::MemMaker;
use log4rs::{Absent, Context, Facade, LogError, Origin, OutOfMemory, Record, Surroundings};
use std::fs::{self, Files};
use std::io::{Stderr, Stdout};
use std::rt::Clock;
use std::sync::Wait;

/// Prints each record behind a number.
#[derive(Drop)]
struct MyAppender<X> {
    rt: X,
    data: i128,
}

impl<X: Print> Append for MyAppender<X> {
    fn append(&mut self, record: &Record, _context: &Context<'_>) -> Result<(), LogError> {
        match println!(self.rt; "appender({}): {}", self.data, record.message) {
            Ok(()) => Ok(()),
            Err(_) => Err(LogError::Store),
        }
    }

    fn append_retired(&mut self, record: &Record, context: &Context<'_>) -> Result<(), LogError> {
        self.append(record, context)
    }

    fn flush(&mut self) {}
}

/// Returns the number in the settings of an appender, or 0.
fn data_in(settings: &Tree) -> i128 {
    match settings {
        Tree::Map(members) => match members.get("appender_data") {
            Some(Tree::Number(data)) => *data,
            _ => 0,
        },
        _ => 0,
    }
}

/// Deserializers with an appender of one's own.
type Parts<X> = DeserializersOf<MyAppender<X>, Absent, Absent, Absent>;

/// Hands in an appender for each of the kind `custom_appender`, with the number in its settings.
fn hand_in<X: Copy + Drop>(
    rt: X,
    raw: &RawConfig,
    parts: &mut Parts<X>,
) -> Result<(), OutOfMemory> {
    for named in raw.appenders() {
        if named.config.kind.as_str() == "custom_appender" {
            let data = data_in(&named.config.config);
            parts.hand_in(&named.name, HandedInOf::Appender(MyAppender { rt, data }))?;
        }
    }
    Ok(())
}

/// Reads the configuration.
fn parsed<X: AllocGlobal + Files>(rt: &X) -> Result<RawConfig> {
    let text = fs::read_to_string(rt, "custom_config.toml")?;
    Ok(RawConfig::from_text(rt.alloc(), Format::Toml, &text)?)
}

fn speak<R: Log>(rt: &R) {
    trace!(rt; "This is a trace message");
    info!(rt; "This is an info message");
    warn!(rt; "This is a warning message");
}

/// Logs three records as the file says.
pub fn run<X>(rt: X, stdout: Stdout, stderr: Stderr) -> Result<()>
where
    X: AllocGlobal + Files + Clock + Wait + Print + Eprint + Copy + Drop,
{
    let now = Timestamp::now(&rt)?;
    let around = Surroundings::new(rt.alloc(), now, TimeZone::UTC, stdout, stderr);
    let raw = parsed(&rt)?;
    let mut parts = Parts::new(rt.alloc())?;
    hand_in(rt, &raw, &mut parts)?;
    let mut maker = MemMaker::new(rt.alloc());
    let (logger, _) = init_raw_config(rt, raw, &mut parts, &mut maker, &around)?;
    let facade = Facade::new(rt.alloc(), &logger, rt, Origin::new(TimeZone::UTC));
    speak(&Logged::new(rt, LevelFilter::Trace, facade));
    Ok(())
}
