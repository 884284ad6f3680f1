//! Records that four threads log while a fifth swaps the configuration.

use crate::cores::{context, record};
use crate::journaled::{Journal, configured, journal};
use crate::journals::walked;
use log::Level;
use log4rs_append::{Append, Steps};
use log4rs_base::filter::{Filter, ThresholdFilter};
use log4rs_base::{Context, OutOfMemory};
use log4rs_config::runtime::BuildError;
use log4rs_config::runtime::config::ConfigOf;
use log4rs_journal::{JournalAppender, SharedJournal};
use log4rs_threads::{HandleOf, Handler, LoggerOf, ReportFault};
use std::alloc::Global;
use std::sync::Wait;
use std::sync::atomic::{AtomicUsize, Ordering};
use std::test::Fail;
use std::thread;
use std::thread::Threads;

/// So many threads log.
const THREADS: usize = 4;

/// Each of them logs so many records.
const RECORDS: usize = 250;

const SWAPS: usize = 50;

/// So many records are logged between two swaps.
const BETWEEN: usize = THREADS * RECORDS / SWAPS;

/// Makes configurations by turns. What logs by them knows no more of their appenders than that they
/// may be sent to other threads.
trait Configures {
    type Appender: Steps;

    /// Makes the configuration of a turn.
    fn config(
        &self,
        alloc: Global,
        turn: usize,
    ) -> Result<ConfigOf<Self::Appender, ThresholdFilter>, BuildError>;
}

/// The journals of the appenders `a` and `b` of two configurations.
#[derive(Drop)]
struct Journals<R> {
    first: [Journal<R>; 2],
    second: [Journal<R>; 2],
}

impl<R: Wait + Drop> Configures for Journals<R> {
    type Appender = JournalAppender<R>;

    fn config(
        &self,
        alloc: Global,
        turn: usize,
    ) -> Result<ConfigOf<JournalAppender<R>, ThresholdFilter>, BuildError> {
        let pair = if turn % 2 == 0 {
            &self.first
        } else {
            &self.second
        };
        configured(alloc, pair.as_slice(), "a b")
    }
}

fn pair<R: Clone + Drop>(rt: &R, alloc: Global) -> Result<[Journal<R>; 2], OutOfMemory> {
    Ok([journal(rt, alloc)?, journal(rt, alloc)?])
}

/// Returns the configurations of the turns after the first one, the last one first.
fn in_turn<C: Configures>(
    alloc: Global,
    configures: &C,
) -> Result<Vec<ConfigOf<C::Appender, ThresholdFilter>>, BuildError>
where
    C::Appender: Drop,
{
    let mut configs = Vec::new(alloc);
    for turn in 0..SWAPS {
        configs.push(configures.config(alloc, SWAPS - turn)?)?;
    }
    Ok(configs)
}

/// Logs a record of a thread.
fn log_one<A, F, H, R>(
    alloc: Global,
    logger: &LoggerOf<A, F, H, R>,
    around: &Context<'_>,
    thread: usize,
    number: usize,
) -> Result<(), OutOfMemory>
where
    R: Wait + Eprint + Clone + Drop,
    A: Append + Drop,
    F: Filter + Drop,
    H: ReportFault + Drop,
{
    let message = format!(in alloc; "{thread} {number}")?;
    let record = record(alloc, (Level::Info, "app", message.as_str()))?;
    logger.log(&record, around);
    Ok(())
}

/// Logs the records of a thread through a logger of its own, and counts them.
fn log_many<A, F, H, R>(
    alloc: Global,
    logger: &LoggerOf<A, F, H, R>,
    logged: &AtomicUsize,
    thread: usize,
) -> Result<(), OutOfMemory>
where
    R: Wait + Eprint + Clone + Drop,
    A: Append + Drop,
    F: Filter + Drop,
    H: ReportFault + Drop,
{
    let own = logger.share()?;
    let around = context(alloc);
    for number in 0..RECORDS {
        log_one(alloc, &own, &around, thread, number)?;
        logged.fetch_add(1, Ordering::SeqCst);
    }
    Ok(())
}

/// Logs the records of all threads, each in its own.
fn log_in_threads<A, F, H, R>(
    rt: &R,
    alloc: Global,
    logger: &LoggerOf<A, F, H, R>,
    logged: &AtomicUsize,
) -> Result<(), OutOfMemory>
where
    R: Threads + Wait + Eprint + Clone + Send + Sync + Drop,
    A: Append + Send + Drop,
    F: Filter + Send + Sync + Drop,
    H: ReportFault + Send + Sync + Drop,
{
    let answers = thread::map_indices(
        rt,
        alloc,
        THREADS,
        &|thread: usize| log_many(alloc, logger, logged, thread),
    )?;
    for answer in answers {
        answer?;
    }
    Ok(())
}

/// Waits for a while until so many records are logged.
fn wait_for(logged: &AtomicUsize, count: usize) {
    for _ in 0..10_000 {
        if logged.load(Ordering::SeqCst) >= count {
            break;
        }
        thread::yield_now();
    }
}

/// Swaps to each of the configurations, the last one first, while records are logged.
fn swap_all<A, F, H, R>(
    handle: &HandleOf<A, F, H, R>,
    configs: Vec<ConfigOf<A, F>>,
    logged: &AtomicUsize,
) -> Result<(), OutOfMemory>
where
    R: Wait + Eprint + Drop,
    A: Steps + Drop,
    F: Filter + Drop,
    H: Drop,
{
    let mut configs = configs;
    for swap in 0..SWAPS {
        wait_for(logged, swap.saturating_mul(BETWEEN));
        if let Some(config) = configs.pop() {
            handle.set_config(config)?;
        }
    }
    Ok(())
}

/// Logs in four threads while this one swaps. All have ended when this returns.
fn log_beside_swaps<A, F, H, R>(
    rt: &R,
    alloc: Global,
    logger: &LoggerOf<A, F, H, R>,
    handle: &HandleOf<A, F, H, R>,
    configs: Vec<ConfigOf<A, F>>,
) -> Result<(), OutOfMemory>
where
    R: Threads + Wait + Eprint + Clone + Send + Sync + Drop,
    A: Steps + Send + Drop,
    F: Filter + Send + Sync + Drop,
    H: ReportFault + Send + Sync + Drop,
{
    let count = AtomicUsize::new(0);
    let logged = &count;
    let (answer, swapped) = thread::join(
        rt,
        || log_in_threads(rt, alloc, logger, logged),
        move || swap_all(handle, configs, logged),
    );
    answer?;
    swapped
}

/// Logs in four threads by the configuration of the first turn, while this one swaps to those of the
/// others.
fn log_by<C: Configures, R>(rt: &R, alloc: Global, configures: &C) -> Result<(), BuildError>
where
    C::Appender: Send + Drop,
    R: Threads + Wait + Eprint + Clone + Send + Sync + Drop,
{
    let configs = in_turn(alloc, configures)?;
    let config = configures.config(alloc, 0)?;
    let logger: LoggerOf<_, _, Handler, _> = LoggerOf::new(rt.clone()?, alloc, config)?;
    let handle = logger.handle()?;
    log_beside_swaps(rt, alloc, &logger, &handle, configs)?;
    Ok(())
}

/// Does so over new journals.
fn journaled<R>(rt: &R, alloc: Global) -> Result<Journals<R>, BuildError>
where
    R: Threads + Wait + Eprint + Clone + Send + Sync + Drop,
{
    let journals = Journals {
        first: pair(rt, alloc)?,
        second: pair(rt, alloc)?,
    };
    log_by(rt, alloc, &journals)?;
    Ok(journals)
}

/// Returns the parts of a text that brackets end, sorted.
fn sorted(alloc: Global, text: &str) -> Result<String, OutOfMemory> {
    let mut parts = Vec::new(alloc);
    for part in text.split(']') {
        parts.push(part)?;
    }
    parts.sort()?;
    let mut all = String::new(alloc);
    for part in parts {
        all.push_str(part)?;
        all.push_str("]")?;
    }
    Ok(all)
}

/// Returns the texts of a journal in brackets, which a new thread walks.
fn walked_beside<R: Threads + Wait + Sync>(
    rt: &R,
    alloc: Global,
    journal: &SharedJournal<R>,
) -> Result<String, Fail> {
    let (texts, ()) = thread::join(rt, || walked(alloc, journal), || ());
    texts
}

/// Returns the texts of these journals in brackets, sorted.
fn held<R: Threads + Wait + Sync>(
    rt: &R,
    alloc: Global,
    journals: &[&Journal<R>],
) -> Result<String, Fail> {
    let mut all = String::new(alloc);
    for journal in journals {
        all.push_str(walked_beside(rt, alloc, &**journal)?.as_str())?;
    }
    Ok(sorted(alloc, &all)?)
}

/// Returns the messages of all threads in brackets, sorted.
fn messages(alloc: Global) -> Result<String, OutOfMemory> {
    let mut all = String::new(alloc);
    for thread in 0..THREADS {
        for number in 0..RECORDS {
            let message = format!(in alloc; "[{thread} {number}]")?;
            all.push_str(&message)?;
        }
    }
    sorted(alloc, &all)
}

#[test]
fn each_record_is_whole_in_one_pair_of_journals(rt: HostRuntime) -> Result<(), Fail> {
    let alloc = rt.alloc();
    let journals = journaled(&rt, alloc)?;
    let ([a, b], [c, d]) = (&journals.first, &journals.second);
    let all = messages(alloc)?;
    assert!(rt; held(&rt, alloc, &[a, c])?.as_str() == all.as_str());
    assert!(rt; held(&rt, alloc, &[b, d])?.as_str() == all.as_str());
    assert!(rt; held(&rt, alloc, &[a])?.as_str() == held(&rt, alloc, &[b])?.as_str());
    assert!(rt; held(&rt, alloc, &[c])?.as_str() == held(&rt, alloc, &[d])?.as_str());
    Ok(())
}
