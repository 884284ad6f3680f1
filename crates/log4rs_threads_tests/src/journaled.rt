//! Configurations whose appenders write to journals.

use crate::cores::{root, string};
use crate::journals::walked;
use log::LevelFilter;
use log4rs_base::OutOfMemory;
use log4rs_base::filter::ThresholdFilter;
use log4rs_config::runtime::BuildError;
use log4rs_config::runtime::appender::Filtered;
use log4rs_config::runtime::config::ConfigOf;
use log4rs_journal::{JournalAppender, SharedJournal};
use std::alloc::Global;
use std::sync::{Arc, Wait};
use std::test::Fail;

/// A journal that threads share.
pub(crate) type Journal<W> = Arc<SharedJournal<W>>;

const NAMES: [&str; 6] = ["a", "b", "c", "d", "e", "f"];

/// Creates a journal of messages.
pub(crate) fn journal<W: Clone + Drop>(rt: &W, alloc: Global) -> Result<Journal<W>, OutOfMemory> {
    let journal = SharedJournal::new(rt.clone()?, alloc, "{m}")?;
    Ok(Arc::new(alloc, journal)?)
}

/// Creates a journal for each of `NAMES`.
pub(crate) fn journals<W: Clone + Drop>(
    rt: &W,
    alloc: Global,
) -> Result<Vec<Journal<W>>, OutOfMemory> {
    let mut journals = Vec::new(alloc);
    for _ in NAMES {
        journals.push(journal(rt, alloc)?)?;
    }
    Ok(journals)
}

/// Builds a configuration with an appender to each journal, and a root that names the appenders
/// `names`.
pub(crate) fn configured<W: Wait + Drop>(
    alloc: Global,
    journals: &[Journal<W>],
    names: &str,
) -> Result<ConfigOf<JournalAppender<W>, ThresholdFilter>, BuildError> {
    let mut builder = ConfigOf::builder(alloc);
    for (journal, name) in journals.iter().zip(NAMES.iter()) {
        let appender = JournalAppender::new(Arc::try_clone(journal)?);
        let name = string(alloc, *name)?;
        builder = builder.appender(Filtered::builder(alloc).build(name, appender))?;
    }
    builder.build(root(alloc, LevelFilter::Info, names)?)
}

/// Returns the texts of the journals, with a semicolon after those of each.
pub(crate) fn held<W>(alloc: Global, journals: &[Journal<W>]) -> Result<String, Fail> {
    let mut held = String::new(alloc);
    for journal in journals {
        held.push_str(walked(alloc, journal)?.as_str())?;
        held.push_str(";")?;
    }
    Ok(held)
}
