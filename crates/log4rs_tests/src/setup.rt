//! Records and configurations of the tests.

use jiff::Timestamp;
use jiff::tz::TimeZone;
use log::{Level, LevelFilter};
use log4rs::append::Append;
use log4rs::config::runtime::appender::Filtered;
use log4rs::config::runtime::config::ConfigOf;
use log4rs::config::runtime::{BuildError, Logger, Root};
use log4rs::filter::Filter;
use log4rs::{Context, OutOfMemory, Record, Surroundings};
use std::alloc::Global;
use std::io::{Stderr, Stdout};
use std::process::Abort;

/// A record: its level, its target and its message.
pub(crate) type RecordRow<'a> = (Level, &'a str, &'a str);

/// Asserts that a text is the expected one.
pub(crate) fn same(stop: &impl Abort, found: &str, expected: &str) {
    assert_eq!(stop; found, expected);
}

pub(crate) fn string(alloc: Global, text: &str) -> Result<String, OutOfMemory> {
    Ok(String::from_str(alloc, text)?)
}

pub(crate) fn record(alloc: Global, row: RecordRow<'_>) -> Result<Record, OutOfMemory> {
    let (level, target, message) = row;
    let target = string(alloc, target)?;
    Ok(Record::new(level, target, string(alloc, message)?))
}

pub(crate) fn context(alloc: Global) -> Context<'static> {
    Context::new(alloc, Timestamp::UNIX_EPOCH, TimeZone::UTC)
}

/// Returns a root with this level and the appenders of these names.
pub(crate) fn root(alloc: Global, level: LevelFilter, names: &str) -> Result<Root, OutOfMemory> {
    let mut builder = Root::builder(alloc);
    for name in names.split_whitespace() {
        builder = builder.appender(name)?;
    }
    Ok(builder.build(level))
}

/// Returns a logger at Info with an appender of its name.
pub(crate) fn logger(alloc: Global, name: &str) -> Result<Logger, OutOfMemory> {
    let own = string(alloc, name)?;
    let builder = Logger::builder(alloc).appender(name)?;
    Ok(builder.build(own, LevelFilter::Info))
}

/// Returns an appender under a name, without filters.
pub(crate) fn named<A: Drop, F: Drop>(
    alloc: Global,
    name: &str,
    appender: A,
) -> Result<Filtered<A, F>, OutOfMemory> {
    let name = string(alloc, name)?;
    Ok(Filtered::builder(alloc).build(name, appender))
}

/// Builds a configuration of one appender, which the root at Info names.
pub(crate) fn at_root<A: Append + Drop, F: Filter + Drop>(
    alloc: Global,
    name: &str,
    appender: A,
) -> Result<ConfigOf<A, F>, BuildError> {
    let appender = named(alloc, name, appender)?;
    let builder = ConfigOf::builder(alloc).appender(appender)?;
    builder.build(root(alloc, LevelFilter::Info, name)?)
}

/// Returns surroundings with an empty environment, at the epoch.
pub(crate) fn surroundings(alloc: Global, stdout: Stdout, stderr: Stderr) -> Surroundings<'static> {
    Surroundings::new(alloc, Timestamp::UNIX_EPOCH, TimeZone::UTC, stdout, stderr)
}
