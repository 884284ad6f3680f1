//! The appender to a rolled file, and its files.

use crate::sample::sample;
use crate::work::Work;
use anyhow::Result;
use log4rs::append::{Append, RollingFileAppender};
use log4rs::encode::pattern::PatternEncoder;
use log4rs::policy::{CompoundPolicyOf, FixedWindowRoller, Keep, SizeTrigger};
use log4rs::store::Store;
use log4rs::{Entry, OutOfMemory};
use std::alloc::Global;
use std::collections::BTreeMap;

/// Rolls a file by its size.
type BySize = CompoundPolicyOf<SizeTrigger, FixedWindowRoller>;

/// When and how a file is rolled.
#[derive(Clone, Copy)]
pub enum RollingWay {
    /// At once, if it has more than one mebibyte.
    AtOnce,
    /// In the background, after each record.
    InBackground,
}

impl RollingWay {
    /// Returns the size in bytes above which the file is rolled.
    fn limit(self) -> u64 {
        match self {
            RollingWay::AtOnce => 1024 * 1024,
            RollingWay::InBackground => 0,
        }
    }
}

/// The number of archives.
pub const COUNT: u32 = 5;

/// Creates an appender to the file at a path, with archives beside it.
pub fn rolling_appender<S: Store + Drop>(
    alloc: Global,
    store: S,
    path: &str,
    pattern: &str,
    rolled: RollingWay,
) -> Result<RollingFileAppender<S, BySize, PatternEncoder>> {
    let env = BTreeMap::new(alloc);
    let policy = policy(alloc, path, rolled, &env)?;
    let encoder = PatternEncoder::new(alloc, pattern)?;
    let builder = RollingFileAppender::builder(alloc).encoder(encoder);
    Ok(builder.build(path, store, policy, &env)?)
}

/// Creates a policy that rolls above the limit and keeps `COUNT` archives.
fn policy(
    alloc: Global,
    path: &str,
    rolled: RollingWay,
    env: &BTreeMap<String, String>,
) -> Result<BySize> {
    let names = format!(in alloc; "{path}.{{}}")?;
    let builder = FixedWindowRoller::builder().background(matches!(
        rolled,
        RollingWay::InBackground
    ));
    let roller = builder.build(alloc, &names, COUNT, env)?;
    Ok(BySize::new(SizeTrigger::new(rolled.limit()), roller))
}

/// An appender to a file that is rolled in the background after each record, and the record that it
/// appends.
#[derive(Drop)]
pub struct RollingBeside<S: Store + Drop>
where
    BySize: Keep<S>,
{
    appender: RollingFileAppender<S, BySize, PatternEncoder>,
    sample: Entry<'static>,
}

impl<S: Store + Drop> RollingBeside<S> {
    pub fn new(alloc: Global, store: S, path: &str, pattern: &str) -> Result<RollingBeside<S>> {
        let sample = sample(alloc)?;
        let appender = rolling_appender(alloc, store, path, pattern, RollingWay::InBackground)?;
        Ok(RollingBeside { appender, sample })
    }
}

impl<S: Store + Drop> Work for RollingBeside<S> {
    fn once(&mut self) -> Result<u64, OutOfMemory> {
        let Entry { logged, context } = &self.sample;
        let appended = self.appender.append(logged, context);
        let driven = self.appender.drive();
        Ok(u64::from(appended.is_ok() && driven.is_ok()))
    }
}
