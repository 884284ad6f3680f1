//! Loggers over appenders of any kind, which threads share.

use crate::setup::{at_root, context, record};
use log::Level;
use log4rs::append::{AnyAppender, Append, AppenderOf};
use log4rs::config::{Config, init_config};
use log4rs::encode::{Encode, EncoderOf};
use log4rs::filter::Filter;
use log4rs::policy::Policy;
use log4rs::store::{MemStore, Store};
use log4rs::threads::{LoggerOf, ReportFault};
use log4rs::{Context, LogError, OutOfMemory, Record};
use std::alloc::Global;
use std::sync::atomic::{AtomicU64, Ordering};
use std::sync::{Arc, Wait};
use std::test::Fail;
use std::thread::{self, Threads};

/// Counts records.
#[derive(Drop)]
struct Counter {
    records: Arc<AtomicU64>,
}

impl Append for Counter {
    fn append(&mut self, _: &Record, _: &Context<'_>) -> Result<(), LogError> {
        self.records.fetch_add(1, Ordering::SeqCst);
        Ok(())
    }

    fn append_retired(&mut self, record: &Record, context: &Context<'_>) -> Result<(), LogError> {
        self.append(record, context)
    }

    fn flush(&mut self) {}
}

/// Creates an appender of any kind that counts records.
fn counting(alloc: Global, records: &Arc<AtomicU64>) -> Result<AnyAppender<MemStore>, OutOfMemory> {
    let records = Arc::try_clone(records)?;
    Ok(AnyAppender::Custom(Box::new(alloc, Counter { records })?))
}

/// Logs a record a hundred times in each of two threads.
fn log_in_two<R, S, P, E, C, F, H>(
    rt: &R,
    logger: &LoggerOf<AppenderOf<S, P, E, C>, F, H, R>,
    logged: &Record,
    context: &Context<'_>,
)
where
    R: Threads + Wait + Eprint + Clone + Send + Sync + Drop,
    S: Store + Send + Drop,
    P: Policy<S> + Send + Drop,
    E: Encode + Send + Drop,
    C: Append + Send + Drop,
    F: Filter + Send + Sync + Drop,
    H: ReportFault + Send + Sync + Drop,
{
    let often = || {
        for _ in 0..100 {
            logger.log(logged, context);
        }
    };
    thread::join(rt, often, often);
}

/// The same, for encoders of log4rs and custom encoders `B`.
fn log_encoded<R, S, P, B, C, F, H>(
    rt: &R,
    logger: &LoggerOf<AppenderOf<S, P, EncoderOf<B>, C>, F, H, R>,
    logged: &Record,
    context: &Context<'_>,
)
where
    R: Threads + Wait + Eprint + Clone + Send + Sync + Drop,
    S: Store + Send + Drop,
    P: Policy<S> + Send + Drop,
    B: Encode + Send + Drop,
    C: Append + Send + Drop,
    F: Filter + Send + Sync + Drop,
    H: ReportFault + Send + Sync + Drop,
{
    log_in_two(rt, logger, logged, context);
}

#[test]
fn appenders_of_any_kind(rt: HostRuntime) -> Result<(), Fail> {
    let alloc = rt.alloc();
    let records = Arc::new(alloc, AtomicU64::new(0))?;
    let logged = record(alloc, (Level::Info, "app", "one"))?;
    let config: Config<MemStore> = at_root(alloc, "n", counting(alloc, &records)?)?;
    let (logger, _) = init_config(rt, alloc, config)?;
    log_encoded(&rt, &logger, &logged, &context(alloc));
    assert_eq!(rt; records.load(Ordering::SeqCst), 200);
    Ok(())
}
