use crate::notes::{Notebook, Noter, configured, log};
use crate::setup::{context, record, same, string};
use log::{Level, LevelFilter};
use log4rs::append::{Append, LogAppender};
use log4rs::config::init_config_with_err_handler;
use log4rs::config::runtime::BuildError;
use log4rs::filter::{Filter, ThresholdFilter};
use log4rs::threads::{HandleOf, LoadedOf, LoggerOf, ReportFault};
use log4rs::{CoreError, LogError, OutOfMemory};
use std::alloc::Global;
use std::sync::Wait;
use std::test::Fail;

/// A logger whose appenders and handler note in one book.
type Noted<W> = LoggerOf<Noter<W>, ThresholdFilter, Notebook<W>, W>;

/// Its handle.
type NotedHandle<W> = HandleOf<Noter<W>, ThresholdFilter, Notebook<W>, W>;

/// A loaded configuration of such a logger.
type NotedLoaded<W> = LoadedOf<Noter<W>, ThresholdFilter, Notebook<W>, W>;

/// Has a logger report a fault.
fn report<A, F, H, W>(alloc: Global, logger: &LoggerOf<A, F, H, W>) -> Result<(), OutOfMemory>
where
    A: Append + Drop,
    F: Filter + Drop,
    H: ReportFault + Drop,
    W: Wait + Eprint + Clone + Drop,
{
    let fault = LogError::Custom(string(alloc, "z")?);
    logger.report(&fault);
    Ok(())
}

/// Appends a record, and flushes.
fn append<A: Append>(alloc: Global, appender: &mut A) -> Result<(), LogError> {
    let record = record(alloc, (Level::Warn, "t", "three"))?;
    appender.append(&record, &context(alloc))?;
    appender.flush();
    Ok(())
}

/// The notes of a record, of a reported fault, and of a record and a flush through an appender that
/// passes them on, with two appenders that fail.
const TOLD: &str = "b one; told x; told y; told z; \
    b three; told x; told y; x flushed; b flushed; y flushed; ";

#[test]
fn a_handler_gets_each_fault(rt: HostRuntime) -> Result<(), Fail> {
    let alloc = rt.alloc();
    let book = Notebook::new(rt, alloc)?;
    let told = book.share()?;
    let handler: Box<dyn Fn(&LogError) + Send + Sync + Drop> = Box::new(
        alloc,
        move |fault: &LogError| told.report(fault),
    )?;
    let rows = [("x", true), ("b", false), ("y", true)];
    let config = configured(alloc, &book, LevelFilter::Info, "x b y", &rows)?;
    let (mut logger, _) = init_config_with_err_handler(rt, alloc, config, handler)?;
    log(alloc, &mut logger, (Level::Info, "t", "one"))?;
    report(alloc, &logger)?;
    append(alloc, &mut LogAppender::new(logger))?;
    same(&rt, book.take(alloc).as_str(), TOLD);
    Ok(())
}

/// Logs a Debug record below `app::db` and an Info record elsewhere, and notes the highest level.
fn log_two<W: Wait + Eprint + Clone + Drop>(
    alloc: Global,
    logger: &mut Noted<W>,
    book: &Notebook<W>,
) -> Result<(), OutOfMemory> {
    log(alloc, logger, (Level::Debug, "app::db::x", "below"))?;
    log(alloc, logger, (Level::Info, "app", "elsewhere"))?;
    book.note("highest", logger.max_log_level().as_str())
}

/// Changes levels, and logs after each change. No logger of the configuration has a name that is
/// set here, and one name is invalid.
fn change_levels<W: Wait + Eprint + Clone + Drop>(
    alloc: Global,
    logger: &mut Noted<W>,
    handle: &NotedHandle<W>,
    book: &Notebook<W>,
) -> Result<(), BuildError> {
    log_two(alloc, logger, book)?;
    handle.set_level("app::db", LevelFilter::Debug)?;
    log_two(alloc, logger, book)?;
    handle.set_root_level(LevelFilter::Info)?;
    log_two(alloc, logger, book)?;
    handle.set_level("app::db", LevelFilter::Off)?;
    log_two(alloc, logger, book)?;
    if handle.set_level("app:::db", LevelFilter::Trace).is_err() {
        book.note("handle", "refuses")?;
    }
    log_two(alloc, logger, book)?;
    Ok(())
}

/// The notes of two appenders, of which one fails, and of the handler: with the root at Warn; with
/// Debug at `app::db`; with the root at Info too; with `app::db` off; and after an invalid name.
const LEVELS: &str = "highest WARN; \
    a below; told x; highest DEBUG; \
    a below; told x; a elsewhere; told x; highest DEBUG; \
    a elsewhere; told x; highest INFO; \
    handle refuses; a elsewhere; told x; highest INFO; ";

/// Returns whether an appender of a loaded configuration refuses a record.
fn refuse<A, F, H, W>(alloc: Global, loaded: &LoadedOf<A, F, H, W>) -> Result<bool, OutOfMemory>
where
    A: Append + Drop,
    F: Filter + Drop,
    H: Drop,
    W: Wait + Drop,
{
    let record = record(alloc, (Level::Warn, "t", "three"))?;
    let answer = loaded.log_on(&mut loaded.locks(), &record, &context(alloc));
    Ok(matches!(answer, Err(CoreError::Appenders(_))))
}

/// Returns the appender of each delivery of a record, and its fault.
fn reported<A, F, H, W>(alloc: Global, loaded: &LoadedOf<A, F, H, W>) -> Result<String, OutOfMemory>
where
    A: Append + Drop,
    F: Filter + Drop,
    H: Drop,
    W: Wait + Drop,
{
    let record = record(alloc, (Level::Warn, "t", "four"))?;
    let mut text = String::new(alloc);
    for (at, answer) in &loaded.log_report(&record, &context(alloc))? {
        match answer {
            Ok(()) => write!(text, "{at}, ")?,
            Err(fault) => write!(text, "{at} {fault}, ")?,
        }
    }
    Ok(text)
}

/// Logs a Debug record through nine loggers that share a logger's configuration: one more than it
/// has seats.
fn log_shared<W: Wait + Eprint + Clone + Drop>(
    alloc: Global,
    logger: &Noted<W>,
) -> Result<(), OutOfMemory> {
    for _ in 0..9 {
        let mut shared = logger.share()?;
        log(alloc, &mut shared, (Level::Debug, "t", "two"))?;
    }
    Ok(())
}

/// Swaps to a configuration with the appenders `b` and `y` at Debug. Logs to it, also through
/// loggers that share it, and through the one that was loaded before, which tells no handler.
fn swap<W: Wait + Eprint + Clone + Drop>(
    alloc: Global,
    logger: &mut Noted<W>,
    handle: &NotedHandle<W>,
    loaded: &NotedLoaded<W>,
    book: &Notebook<W>,
) -> Result<(), BuildError> {
    let rows = [("b", false), ("y", true)];
    handle.set_config(configured(alloc, book, LevelFilter::Debug, "b y", &rows)?)?;
    if logger.enabled(Level::Debug, "t") && !logger.enabled(Level::Trace, "t") {
        book.note("highest", handle.max_log_level().as_str())?;
    }
    log(alloc, logger, (Level::Debug, "t", "two"))?;
    log_shared(alloc, logger)?;
    if refuse(alloc, loaded)? {
        book.note("loaded", "refuses")?;
    }
    book.note("reported", reported(alloc, loaded)?.as_str())?;
    Ok(())
}

/// The notes of `swap`. The faults of the new configuration are printed.
const SWAPPED: &str = "highest DEBUG; \
    b two; b two; b two; b two; b two; b two; b two; b two; b two; b two; \
    a three; loaded refuses; a four; reported 0, 1 x, ; ";

#[test]
fn levels_and_configurations_change(rt: HostRuntime) -> Result<(), Fail> {
    let alloc = rt.alloc();
    let book = Notebook::new(rt, alloc)?;
    let rows = [("a", false), ("x", true)];
    let config = configured(alloc, &book, LevelFilter::Warn, "a x", &rows)?;
    let mut logger = LoggerOf::with_handler(rt, alloc, config, Some(book.share()?))?;
    let handle = logger.handle()?;
    change_levels(alloc, &mut logger, &handle, &book)?;
    same(&rt, book.take(alloc).as_str(), LEVELS);
    let loaded = logger.load()?;
    swap(alloc, &mut logger, &handle, &loaded, &book)?;
    same(&rt, book.take(alloc).as_str(), SWAPPED);
    Ok(())
}
