//! The configuration of the program.

use jiff::Timestamp;
use jiff::tz::TimeZone;
use log::LevelFilter;
use log4rs::append::{AnyAppender, Append, ConsoleAppender, FileAppender, MemoryAppender, Target};
use log4rs::config::runtime::{Appender, BuildError, Config, ConfigBuilder, Logger, Root};
use log4rs::encode::AnyEncoder;
use log4rs::encode::json::JsonEncoder;
use log4rs::encode::pattern::PatternEncoder;
use log4rs::encode::writer::ColorMode;
use log4rs::filter::{AnyFilter, Filter, ThresholdFilter};
use log4rs::store::Store;
use log4rs::{Context, LogError, OutOfMemory};
use std::alloc::Global;
use std::collections::BTreeMap;
use std::io::{Stderr, Stdout};

/// Returns the context of a record.
pub fn context(alloc: Global, moment: Timestamp) -> Result<Context<'static>, OutOfMemory> {
    let mut context = Context::new(alloc, moment, TimeZone::UTC);
    context.thread = Some(String::from_str(alloc, "main")?);
    context.thread_id = 1;
    Ok(context)
}

/// Returns a console that shows warnings and errors on standard output.
pub fn console<S: Store + Drop>(
    alloc: Global,
    stdout: Stdout,
    stderr: Stderr,
    mode: ColorMode,
    tty: bool,
) -> Result<Appender<S>, OutOfMemory> {
    let pattern = PatternEncoder::new(alloc, "{h({l}):<6} {t}: {m}{n}")?;
    let console = ConsoleAppender::builder(alloc)
        .encoder(AnyEncoder::Pattern(pattern))
        .target(Target::Stdout)
        .build(stdout, stderr, mode, tty)?;
    let warnings = AnyFilter::Threshold(ThresholdFilter::new(LevelFilter::Warn));
    Ok(
        Appender::builder(alloc).filter(warnings)?.build(
            String::from_str(alloc, "console")?,
            AnyAppender::Console(console),
        ),
    )
}

/// Returns an appender that keeps each record as a line of JSON.
pub fn memory<S: Store + Drop>(alloc: Global) -> Result<Appender<S>, OutOfMemory> {
    let kept = MemoryAppender::new(alloc, AnyEncoder::Json(JsonEncoder::new()));
    let name = String::from_str(alloc, "memory")?;
    Ok(Appender::builder(alloc).build(name, AnyAppender::Memory(kept)))
}

/// Returns an appender that writes each record at the end of the file of a path, in this store.
pub fn file<S: Store + Drop>(
    alloc: Global,
    path: &str,
    store: S,
    context: &Context<'_>,
) -> Result<Appender<S>, LogError> {
    let env = BTreeMap::new(alloc);
    let pattern = PatternEncoder::new(alloc, "{d(%H:%M)} {l} {m}{n}")?;
    let file = FileAppender::builder(alloc)
        .encoder(AnyEncoder::Pattern(pattern))
        .build(path, store, &env, context.moment, &context.zone)?;
    let name = String::from_str(alloc, "file")?;
    Ok(Appender::builder(alloc).build(name, AnyAppender::File(file)))
}

/// Returns the program's own appender, behind its own filter.
pub fn counted<S: Store + Drop>(
    alloc: Global,
    counter: Box<dyn Append + Send + Sync + Drop>,
    spoken: Box<dyn Filter + Send + Sync + Drop>,
) -> Result<Appender<S>, OutOfMemory> {
    let builder = Appender::builder(alloc).filter(AnyFilter::Custom(spoken))?;
    let name = String::from_str(alloc, "counter")?;
    Ok(builder.build(name, AnyAppender::Custom(counter)))
}

/// Returns a configuration that sends what the program logs to the console, to memory and to the
/// file, and what its disk logs to the counter too.
pub fn configuration<S: Store + Drop>(
    alloc: Global,
    appenders: Vec<Appender<S>>,
) -> Result<Config<S>, BuildError> {
    let root = Root::builder(alloc)
        .appender("console")?
        .appender("memory")?
        .appender("file")?
        .build(LevelFilter::Warn);
    let disk = Logger::builder(alloc)
        .appender("counter")?
        .build(String::from_str(alloc, "app::disk")?, LevelFilter::Info);
    let config = ConfigBuilder::default(alloc)
        .appenders(appenders)?
        .logger(disk)?
        .build(root)?;
    Ok(config)
}
