use crate::cores::{context, record, root, same, string};
use crate::journaled::{configured, held, journals};
use crate::sessions::{JournaledPublisher, shown};
use log::{Level, LevelFilter};
use log4rs_base::OutOfMemory;
use log4rs_config::runtime::Logger;
use log4rs_threads::{PublisherOf, SwapError};
use std::alloc::Global;
use std::sync::Wait;
use std::test::Fail;

/// The appender of the root, and the names of loggers without appenders.
const ROWS: &str = "b|
z|
c|x x
z|x:
c|x y
a|x y:z";

/// The results of swaps to `ROWS`.
const ANSWERS: &str = "\
ok
errors in the configuration: Reference to nonexistent appender: `z`
errors in the configuration: Duplicate logger name `x`
errors in the configuration: Reference to nonexistent appender: `z`; Invalid logger name `x:`
ok
errors in the configuration: Invalid logger name `y:z`
";

/// Returns loggers with these names and no appenders.
fn loggers(alloc: Global, names: &str) -> Result<Vec<Logger>, OutOfMemory> {
    let mut loggers = Vec::new(alloc);
    for name in names.split_whitespace() {
        loggers.push(Logger::builder(alloc).build(string(alloc, name)?, LevelFilter::Error))?;
    }
    Ok(loggers)
}

/// Writes the result of a swap.
fn show(answer: &Result<(), SwapError>, text: &mut String) -> Result<(), OutOfMemory> {
    match answer {
        Ok(()) => text.push_str("ok\n")?,
        Err(error) => writeln!(text, "{error}")?,
    }
    Ok(())
}

/// Swaps to this root and these loggers. Writes the result.
fn show_swapped<W: Wait + Clone + Drop>(
    alloc: Global,
    publisher: &mut JournaledPublisher<W>,
    named: &str,
    names: &str,
    text: &mut String,
) -> Result<(), OutOfMemory> {
    let loggers = loggers(alloc, names)?;
    let root = root(alloc, LevelFilter::Info, named)?;
    show(&publisher.swap(root, loggers), text)
}

/// Swaps to each of `ROWS`. Returns the results.
fn swapped<W: Wait + Clone + Drop>(
    alloc: Global,
    publisher: &mut JournaledPublisher<W>,
) -> Result<String, OutOfMemory> {
    let mut text = String::new(alloc);
    for row in ROWS.lines() {
        let (named, names) = row.split_once('|').unwrap_or((row, ""));
        show_swapped(alloc, publisher, named, names, &mut text)?;
    }
    Ok(text)
}

#[test]
fn faults(rt: HostRuntime) -> Result<(), Fail> {
    let alloc = rt.alloc();
    let journals = journals(&rt, alloc)?;
    let config = configured(alloc, &journals, "a")?;
    let (mut publisher, mut sessions) = PublisherOf::open(rt, alloc, config, 1)?;
    let answers = swapped(alloc, &mut publisher);
    let logged = match (sessions.pop(), record(alloc, (Level::Info, "app", "one"))) {
        (Some(mut session), Ok(record)) => session.log(&record, &context(alloc)).ok(),
        _ => None,
    };
    publisher.end();
    same(&rt, answers?.as_str(), ANSWERS);
    let Some(report) = logged else {
        panic!(rt; "nothing was delivered");
    };
    same(&rt, shown(alloc, &report)?.as_str(), "2: 2 ok");
    same(&rt, held(alloc, &journals)?.as_str(), ";;[one];;;;");
    Ok(())
}
