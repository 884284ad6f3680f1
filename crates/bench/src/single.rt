//! The workloads of one thread.

use crate::arguments::Task;
use crate::encoding::Encoding;
use crate::files::{file_in, remove_files};
use crate::logging::{Logging, config_over};
use crate::macros::{Details, Informs, InformsOf, Quotes};
use crate::measured::measure;
use crate::rolled::{RollingBeside, RollingWay, rolling_appender};
use crate::routing::{LOGGERS, MANY_LOGGERS, Routing};
use crate::sample::{TARGET, long_text};
use crate::sharing::Shared;
use crate::workload::Workload;
use anyhow::Result;
use log4rs::append::{Append, MemoryAppender};
use log4rs::encode::Encode;
use log4rs::encode::json::JsonEncoder;
use log4rs::encode::pattern::PatternEncoder;
use log4rs::store::FsStore;
use std::fs::Files;
use std::rt::Clock;
use std::sync::Wait;

/// Runs one workload, and prints the result.
pub fn run<R>(rt: &R, workload: Workload, task: &Task<'_>, path: &str) -> Result<()>
where
    R: AllocGlobal + Files + Clock + Wait + Print + Eprint + Copy + Drop,
{
    let alloc = rt.alloc();
    let pattern = task.pattern.unwrap_or(workload.pattern());
    match workload {
        Workload::Pattern
        | Workload::PatternDate
        | Workload::PatternSimple
        | Workload::PatternWidth => {
            let encoder = PatternEncoder::new(alloc, pattern)?;
            encode(rt, workload, task, encoder)
        }
        Workload::Json => encode(rt, workload, task, JsonEncoder::new()),
        Workload::Route => route(rt, workload, task, LOGGERS),
        Workload::RouteMany => route(rt, workload, task, MANY_LOGGERS),
        Workload::LogMemory => {
            let encoder = PatternEncoder::new(alloc, pattern)?;
            let memory = MemoryAppender::new(alloc, encoder);
            measure(rt, workload.name(), task, &mut Logging::new(alloc, memory)?)
        }
        Workload::File
        | Workload::Facade
        | Workload::FacadeNumber
        | Workload::FacadeDate
        | Workload::FacadeLong
        | Workload::FacadeOff
        | Workload::Rolling
        | Workload::RollingBackground => {
            let measured = log_to_files(rt, workload, task, path, pattern);
            remove_files(alloc, rt, path, 0)?;
            measured
        }
    }
}

/// Runs a workload that logs to the file at a path.
fn log_to_files<R>(
    rt: &R,
    workload: Workload,
    task: &Task<'_>,
    path: &str,
    pattern: &str,
) -> Result<()>
where
    R: AllocGlobal + Files + Clock + Wait + Print + Eprint + Copy + Drop,
{
    let alloc = rt.alloc();
    let store = FsStore::new(alloc, *rt);
    match workload {
        Workload::Rolling => {
            let rolled = rolling_appender(alloc, store, path, pattern, RollingWay::AtOnce)?;
            measure(rt, workload.name(), task, &mut Logging::new(alloc, rolled)?)
        }
        Workload::RollingBackground => {
            let mut rolling = RollingBeside::new(alloc, store, path, pattern)?;
            measure(rt, workload.name(), task, &mut rolling)
        }
        Workload::Facade
        | Workload::FacadeNumber
        | Workload::FacadeDate
        | Workload::FacadeLong
        | Workload::FacadeOff => {
            let file = file_in(alloc, store, path, pattern)?;
            log_by_macro(*rt, workload, task, file)
        }
        _ => {
            let file = file_in(alloc, store, path, pattern)?;
            measure(rt, workload.name(), task, &mut Logging::new(alloc, file)?)
        }
    }
}

/// Runs a workload that logs to an appender by a macro. Fails if a record could not be made or
/// appended.
fn log_by_macro<R, A>(rt: R, workload: Workload, task: &Task<'_>, appender: A) -> Result<()>
where
    R: AllocGlobal + Files + Clock + Wait + Print + Eprint + Copy + Drop,
    A: Append + Drop,
{
    let alloc = rt.alloc();
    let shared = Shared::new(rt, alloc, config_over(alloc, appender)?, 0)?;
    measure_by_macro(&rt, workload, task, &shared)?;
    shared.all_are_logged()
}

/// Times the macro of a workload, and prints the result.
fn measure_by_macro<R, A>(
    rt: &R,
    workload: Workload,
    task: &Task<'_>,
    shared: &Shared<A, R>,
) -> Result<()>
where
    R: AllocGlobal + Files + Clock + Wait + Print + Eprint + Copy + Drop,
    A: Append + Drop,
{
    let told = shared.told(*rt)?;
    let name = workload.name();
    match workload {
        Workload::FacadeOff => measure(rt, name, task, &mut Details::new(told, TARGET)),
        Workload::FacadeNumber => measure(rt, name, task, &mut InformsOf::new(told, TARGET)),
        Workload::FacadeLong => {
            let text = long_text(rt.alloc())?;
            measure(rt, name, task, &mut Quotes::new(told, TARGET, &text))
        }
        _ => measure(rt, name, task, &mut Informs::new(told, TARGET)),
    }
}

/// Runs a workload that asks whether targets are enabled under so many loggers.
fn route<R: AllocGlobal + Clock + Print>(
    rt: &R,
    workload: Workload,
    task: &Task<'_>,
    count: usize,
) -> Result<()> {
    measure(
        rt,
        workload.name(),
        task,
        &mut Routing::new(rt.alloc(), count)?,
    )
}

/// Runs a workload that encodes.
fn encode<R: AllocGlobal + Clock + Print, E: Encode + Drop>(
    rt: &R,
    workload: Workload,
    task: &Task<'_>,
    encoder: E,
) -> Result<()> {
    measure(
        rt,
        workload.name(),
        task,
        &mut Encoding::new(rt.alloc(), encoder)?,
    )
}
