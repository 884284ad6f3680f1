//! The workloads of threads that log at once.

use crate::arguments::Task;
use crate::logging::{config_apart, config_over};
use crate::measured::print_measured;
use crate::sharing::Shared;
use crate::together::Together;
use crate::workload::Workload;
use anyhow::Result;
use log4rs::append::{Append, MemoryAppender};
use log4rs::config::runtime::config::ConfigOf;
use log4rs::encode::pattern::PatternEncoder;
use log4rs::filter::AnyFilter;
use std::fs::Files;
use std::rt::Clock;
use std::sync::Wait;
use std::thread::{self, Threads};
use std::time::Instant;

/// Times threads that log to one appender in memory.
pub fn share_memory<R>(rt: R, together: Together, task: &Task<'_>) -> Result<()>
where
    R: AllocGlobal + Files + Threads + Wait + Clock + Print + Eprint + Copy + Send + Sync + Drop,
    R::File: Send,
    R::Dir: Send,
{
    let alloc = rt.alloc();
    let pattern = task.pattern.unwrap_or(Workload::LogMemory.pattern());
    let memory = MemoryAppender::new(alloc, PatternEncoder::new(alloc, pattern)?);
    log_together(rt, together, task, memory)
}

/// Times threads that log to one appender.
pub fn log_together<R, A>(rt: R, together: Together, task: &Task<'_>, appender: A) -> Result<()>
where
    R: AllocGlobal + Files + Threads + Wait + Clock + Print + Eprint + Copy + Send + Sync + Drop,
    R::File: Send,
    R::Dir: Send,
    A: Append + Send + Drop,
{
    let config = config_over(rt.alloc(), appender)?;
    log_in_threads(rt, together, task, config)
}

/// Times threads of which each logs to one of these appenders.
pub fn log_apart<R, A>(rt: R, together: Together, task: &Task<'_>, appenders: Vec<A>) -> Result<()>
where
    R: AllocGlobal + Files + Threads + Wait + Clock + Print + Eprint + Copy + Send + Sync + Drop,
    R::File: Send,
    R::Dir: Send,
    A: Append + Send + Drop,
{
    let config = config_apart(rt.alloc(), appenders)?;
    log_in_threads(rt, together, task, config)
}

/// Times threads that log by one configuration.
fn log_in_threads<R, A>(
    rt: R,
    together: Together,
    task: &Task<'_>,
    config: ConfigOf<A, AnyFilter>,
) -> Result<()>
where
    R: AllocGlobal + Files + Threads + Wait + Clock + Print + Eprint + Copy + Send + Sync + Drop,
    R::File: Send,
    R::Dir: Send,
    A: Append + Send + Drop,
{
    let threads = task.asked.threads();
    let shared = Shared::new(rt, rt.alloc(), config, threads)?;
    measure_threads(rt, together, task, &shared)
}

/// Logs in each of so many threads at once, `times` times.
fn log_at_once<R, A>(
    rt: &R,
    together: Together,
    threads: usize,
    shared: &Shared<A, R>,
    times: u64,
) -> Result<()>
where
    R: AllocGlobal + Files + Threads + Wait + Clock + Eprint + Copy + Send + Sync + Drop,
    R::File: Send,
    R::Dir: Send,
    A: Append + Send + Drop,
{
    let alloc = rt.alloc();
    if together.is_by_macro() {
        let log = |thread: usize| shared.log_by_macro(*rt, thread, times);
        thread::map_indices(rt, alloc, threads, &log)?;
    } else {
        let log = |thread: usize| shared.log(thread, times);
        thread::map_indices(rt, alloc, threads, &log)?;
    }
    Ok(())
}

/// Logs in each thread for the warm-up, and then with the clock running. Prints the result.
fn measure_threads<R, A>(
    rt: R,
    together: Together,
    task: &Task<'_>,
    shared: &Shared<A, R>,
) -> Result<()>
where
    R: AllocGlobal + Files + Threads + Wait + Clock + Print + Eprint + Copy + Send + Sync + Drop,
    R::File: Send,
    R::Dir: Send,
    A: Append + Send + Drop,
{
    let (alloc, threads) = (rt.alloc(), task.asked.threads());
    log_at_once(&rt, together, threads, shared, task.warm_up())?;
    let failed = shared.faults();
    let begin = Instant::now(&rt)?;
    log_at_once(&rt, together, threads, shared, task.records)?;
    let nanos = begin.elapsed(&rt)?.as_nanos();
    let name = format!(in alloc; "{} {threads}", together.name())?;
    let records = task.records.saturating_mul(threads as u64);
    let yielded = records.saturating_sub(shared.faults().saturating_sub(failed));
    print_measured(&rt, &name, task.is_timed, records, nanos, yielded)
}
