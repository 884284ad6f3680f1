//! Configurations and records of the tests.

use jiff::Timestamp;
use jiff::tz::TimeZone;
use log::{Level, LevelFilter};
use log4rs_append::Append;
use log4rs_base::filter::{Filter, FilterOf, Response};
use log4rs_base::{Context, LogError, OutOfMemory, Record};
use log4rs_config::runtime::appender::Filtered;
use log4rs_config::runtime::builder::ConfigBuilderOf;
use log4rs_config::runtime::config::ConfigOf;
use log4rs_config::runtime::{BuildError, Logger, Root};
use log4rs_config::{CoreError, CoreOf};
use std::alloc::Global;
use std::process::Abort;

/// A logger: its name, its level, whether it is additive, and the names of its appenders, separated
/// by spaces.
pub(crate) type LoggerRow<'a> = (&'a str, LevelFilter, bool, &'a str);

/// A record: its level, its target and its message.
pub(crate) type RecordRow<'a> = (Level, &'a str, &'a str);

/// Asserts that a text is the expected one.
pub(crate) fn same(stop: &impl Abort, found: &str, expected: &str) {
    assert_eq!(stop; found, expected);
}

pub(crate) fn string(alloc: Global, text: &str) -> Result<String, OutOfMemory> {
    Ok(String::from_str(alloc, text)?)
}

fn strings(alloc: Global, words: &str) -> Result<Vec<String>, OutOfMemory> {
    let mut list = Vec::new(alloc);
    for word in words.split(' ') {
        if !word.is_empty() {
            list.push(string(alloc, word)?)?;
        }
    }
    Ok(list)
}

pub(crate) fn record(alloc: Global, row: RecordRow<'_>) -> Result<Record, OutOfMemory> {
    let (level, target, message) = row;
    let target = string(alloc, target)?;
    Ok(Record::new(level, target, string(alloc, message)?))
}

pub(crate) fn context(alloc: Global) -> Context<'static> {
    Context::new(alloc, Timestamp::UNIX_EPOCH, TimeZone::UTC)
}

/// Keeps the level and the message of each record, or fails with the error that the message names.
/// Counts its flushes.
#[derive(Drop)]
pub(crate) struct Keeper {
    alloc: Global,
    fails: bool,
    flushes: u64,
    kept: String,
}

impl Keeper {
    /// Returns the error that a message names.
    fn fault(&self, message: &str) -> Result<(), LogError> {
        match message {
            "store" => Err(LogError::Store),
            "memory" => Err(LogError::Memory),
            "policy" => Err(LogError::Policy),
            _ => {
                let flushes = self.flushes;
                Err(LogError::Custom(format!(in self.alloc; "{flushes} flushes")?))
            }
        }
    }
}

impl Append for Keeper {
    fn append(&mut self, record: &Record, _context: &Context<'_>) -> Result<(), LogError> {
        if self.fails {
            return self.fault(record.message.as_str());
        }
        write!(self.kept, "{} {}|", record.level, record.message)?;
        Ok(())
    }

    fn append_retired(&mut self, record: &Record, context: &Context<'_>) -> Result<(), LogError> {
        self.append(record, context)
    }

    fn flush(&mut self) {
        self.flushes = self.flushes.saturating_add(1);
    }
}

/// Accepts records with a message, and is neutral about others.
#[derive(Drop)]
pub(crate) struct Spoken;

impl Filter for Spoken {
    ghost use Rattle.std.specs.Prelude.{string_bytes, ◌==◌, if◌then◌else◌, length};
    ghost use Rattle.log4rs_base.specs.declared.filter.Response.TheVariants.{Accept, Neutral};

    ghost answer = { λ _ r. if length (string_bytes r.message) == 0 then Neutral else Accept };

    fn filter(&self, record: &Record) -> Response {
        if record.message.len() == 0 {
            Response::Neutral
        } else {
            Response::Accept
        }
    }
}

/// The filters of the tests.
pub(crate) type Filters = FilterOf<Spoken>;

/// An appender of the tests, with its filters.
pub(crate) type Appender = Filtered<Keeper, Filters>;

/// A configuration of such appenders.
pub(crate) type Config = ConfigOf<Keeper, Filters>;

/// Builds one.
pub(crate) type Builder = ConfigBuilderOf<Keeper, Filters>;

/// A core of one.
pub(crate) type Core = CoreOf<Keeper, Filters>;

/// Creates an appender, which fails if it is to.
pub(crate) fn keeping(alloc: Global, fails: bool) -> Keeper {
    Keeper {
        alloc,
        fails,
        flushes: 0,
        kept: String::new(alloc),
    }
}

/// Creates appenders with these names and no filters. Those behind an exclamation mark fail.
pub(crate) fn keepers(alloc: Global, names: &str) -> Result<Vec<Appender>, OutOfMemory> {
    let mut appenders = Vec::new(alloc);
    for name in names.split(' ') {
        let (name, fails) = match name.strip_prefix('!') {
            Some(name) => (name, true),
            None => (name, false),
        };
        let name = string(alloc, name)?;
        appenders.push(Appender::builder(alloc).build(name, keeping(alloc, fails)))?;
    }
    Ok(appenders)
}

pub(crate) fn logger(alloc: Global, row: LoggerRow<'_>) -> Result<Logger, OutOfMemory> {
    let (name, level, additive, appenders) = row;
    let name = string(alloc, name)?;
    let builder = Logger::builder(alloc).appenders(strings(alloc, appenders)?)?;
    Ok(builder.additive(additive).build(name, level))
}

pub(crate) fn root(
    alloc: Global,
    level: LevelFilter,
    appenders: &str,
) -> Result<Root, OutOfMemory> {
    let builder = Root::builder(alloc).appenders(strings(alloc, appenders)?)?;
    Ok(builder.build(level))
}

/// Returns a builder with these appenders and loggers.
pub(crate) fn builder(
    alloc: Global,
    appenders: Vec<Appender>,
    rows: &[LoggerRow<'_>],
) -> Result<Builder, OutOfMemory> {
    let mut builder = Builder::default(alloc).appenders(appenders)?;
    for row in rows {
        builder = builder.logger(logger(alloc, *row)?)?;
    }
    Ok(builder)
}

/// Builds a configuration with these appenders and loggers, and a root that names the appenders
/// `names`.
pub(crate) fn configured(
    alloc: Global,
    appenders: Vec<Appender>,
    rows: &[LoggerRow<'_>],
    level: LevelFilter,
    names: &str,
) -> Result<Config, BuildError> {
    let root = root(alloc, level, names)?;
    builder(alloc, appenders, rows)?.build(root)
}

/// Returns what the appenders keep, with a line feed after that of each.
pub(crate) fn held(alloc: Global, core: &Core) -> Result<String, OutOfMemory> {
    let mut texts = String::new(alloc);
    for appender in core.config().appenders() {
        texts.push_str(appender.appender().kept.as_str())?;
        texts.push_str("\n")?;
    }
    Ok(texts)
}

/// Logs the record of a row. Returns `ok`, or the errors of the failed appends, in order.
pub(crate) fn answered(
    alloc: Global,
    core: &mut Core,
    row: RecordRow<'_>,
) -> Result<String, OutOfMemory> {
    let mut texts = String::new(alloc);
    match core.log(&record(alloc, row)?, &context(alloc)) {
        Ok(()) => texts.push_str("ok")?,
        Err(CoreError::Memory) => return Err(OutOfMemory),
        Err(CoreError::Appenders(errors)) => {
            for error in &errors {
                write!(texts, "{error};")?;
            }
        }
    }
    Ok(texts)
}
