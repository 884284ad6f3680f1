//! A logger whose texts can be read back.

use crate::setup::{named, root, string};
use log::LevelFilter;
use log4rs::append::Append;
use log4rs::config::runtime::config::ConfigOf;
use log4rs::config::runtime::{BuildError, Logger};
use log4rs::encode::pattern::PatternEncoder;
use log4rs::encode::{Encode, Styled};
use log4rs::filter::ThresholdFilter;
use log4rs::threads::{LoggerOf, ReportFault};
use log4rs::{Context, LogError, Record};
use std::alloc::Global;
use std::io;
use std::io::ErrorKind;
use std::rt::Clock;
use std::sync::{Arc, Mutex, Wait};
use std::time::Duration;

/// A text that threads append to.
pub(crate) type Shared = Arc<Mutex<String>>;

/// A clock that stands still, or that cannot be read.
#[derive(Clone, Copy, Drop)]
pub(crate) struct Standing(pub(crate) Option<u64>);

impl Clock for Standing {
    fn monotonic(&self) -> io::Result<Duration> {
        self.since_1970()
    }

    fn since_1970(&self) -> io::Result<Duration> {
        match self.0 {
            Some(seconds) => Ok(Duration::from_secs(seconds)),
            None => Err(io::Error::from(ErrorKind::Other)),
        }
    }
}

/// Appends the text of each record, and `flushed` for each flush.
#[derive(Drop)]
pub(crate) struct Adding<W> {
    rt: W,
    encoder: PatternEncoder,
    styled: Styled,
    all: Shared,
}

impl<W: Wait> Append for Adding<W> {
    fn append(&mut self, record: &Record, context: &Context<'_>) -> Result<(), LogError> {
        self.styled.clear();
        self.encoder.encode(&mut self.styled, record, context)?;
        let text = self.styled.to_text()?;
        self.all.lock(&self.rt).push_str(text.as_str())?;
        Ok(())
    }

    fn append_retired(&mut self, record: &Record, context: &Context<'_>) -> Result<(), LogError> {
        self.append(record, context)
    }

    fn flush(&mut self) {
        let _ = self.all.lock(&self.rt).push_str("flushed\n");
    }
}

/// Appends the text of each fault.
#[derive(Drop)]
pub(crate) struct Telling<W> {
    rt: W,
    all: Shared,
}

impl<W: Wait> ReportFault for Telling<W> {
    fn report(&self, fault: &LogError) {
        let _ = writeln!(self.all.lock(&self.rt), "fault: {fault}");
    }
}

/// A logger whose appender and handler append to one text.
pub(crate) type Kept<W> = LoggerOf<Adding<W>, ThresholdFilter, Telling<W>, W>;

/// Builds a configuration with the root at Info and `app::quiet` off.
fn config<W: Wait + Drop>(
    alloc: Global,
    appender: Adding<W>,
) -> Result<ConfigOf<Adding<W>, ThresholdFilter>, BuildError> {
    let appender = named(alloc, "all", appender)?;
    let quiet = Logger::builder(alloc).build(string(alloc, "app::quiet")?, LevelFilter::Off);
    ConfigOf::builder(alloc)
        .appender(appender)?
        .logger(quiet)?
        .build(root(alloc, LevelFilter::Info, "all")?)
}

/// Returns a logger that appends to this text with a pattern.
pub(crate) fn kept<W: Wait + Clone + Drop>(
    rt: &W,
    alloc: Global,
    pattern: &str,
    all: &Shared,
) -> Result<Kept<W>, BuildError> {
    let adding = Adding {
        rt: rt.clone()?,
        encoder: PatternEncoder::new(alloc, pattern)?,
        styled: Styled::new(alloc),
        all: Arc::try_clone(all)?,
    };
    let config = config(alloc, adding)?;
    let telling = Telling {
        rt: rt.clone()?,
        all: Arc::try_clone(all)?,
    };
    Ok(LoggerOf::with_handler(rt.clone()?, alloc, config, Some(telling))?)
}
