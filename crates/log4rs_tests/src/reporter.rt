//! The output of the default reporter.

use crate::notes::{Notebook, Telling};
use crate::setup::{context, named, record, root, same, string};
use log::{Level, LevelFilter};
use log4rs::append::{Append, Steps};
use log4rs::config::runtime::config::ConfigOf;
use log4rs::config::runtime::{BuildError, Logger};
use log4rs::filter::{Filter, ThresholdFilter};
use log4rs::threads::{Handler, LoggerOf, ReportFault};
use log4rs::{Context, LogError, OutOfMemory, Record};
use std::alloc::Global;
use std::sync::Wait;
use std::test::Fail;

/// An appender whose append returns the result that the first word of the message names, and whose
/// steps from then on return that of the second. `torn` is refused once.
#[derive(Drop)]
struct Moody {
    alloc: Global,
    steps: String,
    is_torn: bool,
}

/// Returns the result that a word names.
fn answer(alloc: Global, word: &str) -> Result<(), LogError> {
    match word {
        "ok" | "torn" => Ok(()),
        "store" => Err(LogError::Store),
        "memory" => Err(LogError::Memory),
        "policy" => Err(LogError::Policy),
        _ => Err(LogError::Custom(string(alloc, word)?)),
    }
}

impl Append for Moody {
    fn append(&mut self, record: &Record, _: &Context<'_>) -> Result<(), LogError> {
        let (append, steps) = record.message.split_once(' ').unwrap_or(("ok", "ok"));
        self.steps = string(self.alloc, steps)?;
        self.is_torn = append == "torn" && !self.is_torn;
        answer(self.alloc, if self.is_torn { "store" } else { append })
    }

    fn append_retired(&mut self, record: &Record, context: &Context<'_>) -> Result<(), LogError> {
        self.append(record, context)
    }

    fn flush(&mut self) {}
}

impl Steps for Moody {
    fn step(&mut self) -> Result<bool, LogError> {
        answer(self.alloc, self.steps.as_str())?;
        Ok(false)
    }

    fn drive(&mut self) -> Result<(), LogError> {
        answer(self.alloc, self.steps.as_str())
    }

    fn retire(&mut self) -> Result<(), LogError> {
        self.drive()
    }

    fn resume(&mut self) -> Result<(), LogError> {
        Ok(())
    }
}

/// Returns an appender that has not failed yet.
fn calm(alloc: Global) -> Result<Moody, OutOfMemory> {
    let steps = string(alloc, "ok")?;
    Ok(Moody {
        alloc,
        steps,
        is_torn: false,
    })
}

/// Returns a logger with the appender of its name alone.
fn alone(alloc: Global, name: &str) -> Result<Logger, OutOfMemory> {
    let own = string(alloc, name)?;
    let builder = Logger::builder(alloc).appender(name)?.additive(false);
    Ok(builder.build(own, LevelFilter::Info))
}

/// Builds a configuration with six appenders, a logger for each, and the root for all.
fn six(alloc: Global) -> Result<ConfigOf<Moody, ThresholdFilter>, BuildError> {
    let names = "a b c d e f";
    let mut builder = ConfigOf::builder(alloc);
    for name in names.split_whitespace() {
        builder = builder.appender(named(alloc, name, calm(alloc)?)?)?;
        builder = builder.logger(alone(alloc, name)?)?;
    }
    builder.build(root(alloc, LevelFilter::Info, names)?)
}

/// Actions, and after a bar what each prints. `log` logs a record to an appender, or to all of them,
/// `note` logs it with its faults noted and reports them afterwards, `step` makes a step, and
/// `drive` makes all remaining steps.
const ROWS: &str = "\
log a store ok|appender a: the store refused an operation
log a store ok|
log b ok ok|
log a store ok|
log b store ok|appender b: the store refused an operation
log a memory ok|appender a: out of memory
log a policy ok|appender a: the policy failed
log a one ok|appender a: one
log a one ok|
note a one ok|
note a two ok|appender a: two
note a ok ok|
log a two one|appender a: two
step|appender a: one
log a ok one|appender a works again: 10 appends failed
step|
log b one one|appender b: one
step|appender b: one
drive|
log a ok two|
drive|appender a: two
log a ok ok|
step|
log a ok two|
log b ok ok|appender b works again: 2 appends failed
step|appender a: two
log b one ok|appender b: one
log c torn ok|appender c: the store refused an operation
log c ok ok|appender c works again: 1 append failed
log all it ok|appender a: it; log4rs: appender b: it; log4rs: appender c: it; log4rs: appender d: it; log4rs: appender e: it; log4rs: appender f: it
";

/// Logs a record to the target `a` or `b`, at once or with its faults noted.
fn log_row<F, H, W>(
    alloc: Global,
    logger: &LoggerOf<Moody, F, H, W>,
    at_once: bool,
    row: &str,
) -> Result<(), OutOfMemory>
where
    F: Filter + Drop,
    H: ReportFault + Drop,
    W: Wait + Eprint + Clone + Drop,
{
    let (target, message) = row.split_once(' ').unwrap_or((row, ""));
    let record = record(alloc, (Level::Info, target, message))?;
    if at_once {
        logger.log(&record, &context(alloc));
        return Ok(());
    }
    let loaded = logger.load()?;
    let mut errors = Vec::new(alloc);
    loaded.log_noting(&mut loaded.locks(), &mut errors, &record, &context(alloc))?;
    loaded.report_appends(&errors);
    Ok(())
}

/// Does the action of a row.
fn act<F, H, W>(
    alloc: Global,
    logger: &LoggerOf<Moody, F, H, W>,
    row: &str,
) -> Result<(), OutOfMemory>
where
    F: Filter + Drop,
    H: ReportFault + Drop,
    W: Wait + Eprint + Clone + Drop,
{
    match row.split_once(' ') {
        Some((how, row)) => log_row(alloc, logger, how == "log", row)?,
        None if row == "step" => {
            logger.step_all();
        }
        None => {
            logger.drive_all();
        }
    }
    Ok(())
}

/// Adds a row, and the line that it printed.
fn push_row(shown: &mut String, row: &str, printed: &str) -> Result<(), OutOfMemory> {
    let line = printed.trim_end_matches("; ");
    let line = line.strip_prefix("log4rs: ").unwrap_or(line);
    for part in [row, "|", line, "\n"] {
        shown.push_str(part)?;
    }
    Ok(())
}

/// Does the action of each row. Returns the rows, with what each printed.
fn printed<F, H, W, V>(
    alloc: Global,
    logger: &LoggerOf<Moody, F, H, W>,
    book: &Notebook<V>,
) -> Result<String, OutOfMemory>
where
    F: Filter + Drop,
    H: ReportFault + Drop,
    W: Wait + Eprint + Clone + Drop,
    V: Wait,
{
    let mut shown = String::new(alloc);
    for row in ROWS.lines() {
        let (what, _) = row.split_once('|').unwrap_or((row, ""));
        act(alloc, logger, what)?;
        let lines = book.take(alloc);
        push_row(&mut shown, what, lines.as_str())?;
    }
    Ok(shown)
}

#[test]
fn each_fault_is_printed_once(rt: HostRuntime) -> Result<(), Fail> {
    let alloc = rt.alloc();
    let book = Notebook::new(rt, alloc)?;
    let telling = Telling {
        book: book.share()?,
    };
    let logger: LoggerOf<_, _, Handler, _> = LoggerOf::new(&telling, alloc, six(alloc)?)?;
    let printed = printed(alloc, &logger, &book)?;
    same(&rt, printed.as_str(), ROWS);
    Ok(())
}
