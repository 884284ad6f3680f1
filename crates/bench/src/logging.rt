//! The logging of a record.

use crate::sample::{sample, thread_target};
use crate::work::Work;
use log::LevelFilter;
use log4rs::append::Append;
use log4rs::config::runtime::appender::Filtered;
use log4rs::config::runtime::builder::ConfigBuilderOf;
use log4rs::config::runtime::config::ConfigOf;
use log4rs::config::runtime::{BuildError, Logger, Root};
use log4rs::filter::AnyFilter;
use log4rs::{CoreError, CoreOf, Entry, OutOfMemory};
use std::alloc::Global;

/// A core over one appender, and the record that it logs.
#[derive(Drop)]
pub struct Logging<A> {
    core: CoreOf<A, AnyFilter>,
    sample: Entry<'static>,
}

impl<A: Append + Drop> Logging<A> {
    pub fn new(alloc: Global, appender: A) -> Result<Logging<A>, BuildError> {
        let sample = sample(alloc)?;
        let config = config_over(alloc, appender)?;
        let core = CoreOf::new(alloc, config)?;
        Ok(Logging { core, sample })
    }
}

/// Builds a configuration whose root has this appender.
pub fn config_over<A: Append + Drop>(
    alloc: Global,
    appender: A,
) -> Result<ConfigOf<A, AnyFilter>, BuildError> {
    let appender = Filtered::builder(alloc).build(String::from_str(alloc, "sample")?, appender);
    let root = Root::builder(alloc)
        .appender("sample")?
        .build(LevelFilter::Info);
    ConfigBuilderOf::default(alloc)
        .appender(appender)?
        .build(root)
}

/// Builds a configuration in which each thread's target has one of these appenders.
pub fn config_apart<A: Append + Drop>(
    alloc: Global,
    appenders: Vec<A>,
) -> Result<ConfigOf<A, AnyFilter>, BuildError> {
    let mut builder = ConfigBuilderOf::default(alloc);
    for (thread, appender) in appenders.into_iter().enumerate() {
        builder = with_thread(alloc, builder, thread, appender)?;
    }
    builder.build(Root::builder(alloc).build(LevelFilter::Info))
}

/// Adds the appender of a thread, and the logger of its target.
fn with_thread<A: Append + Drop>(
    alloc: Global,
    builder: ConfigBuilderOf<A, AnyFilter>,
    thread: usize,
    appender: A,
) -> Result<ConfigBuilderOf<A, AnyFilter>, OutOfMemory> {
    let name = thread_target(alloc, thread)?;
    let logger = thread_logger(alloc, &name)?;
    let appender = Filtered::builder(alloc).build(name, appender);
    builder.appender(appender)?.logger(logger)
}

/// Returns the logger of a target, with the appender of the same name.
fn thread_logger(alloc: Global, name: &str) -> Result<Logger, OutOfMemory> {
    let builder = Logger::builder(alloc).appender(name)?;
    Ok(builder.build(String::from_str(alloc, name)?, LevelFilter::Info))
}

impl<A: Append> Work for Logging<A> {
    fn once(&mut self) -> Result<u64, OutOfMemory> {
        let Entry { logged, context } = &self.sample;
        match self.core.log(logged, context) {
            Ok(()) => Ok(1),
            Err(CoreError::Memory) => Err(OutOfMemory),
            Err(CoreError::Appenders(_)) => Ok(0),
        }
    }
}
