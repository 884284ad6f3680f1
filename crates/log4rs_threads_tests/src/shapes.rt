//! Events and shapes of the tests of worlds, and the texts of their sinks.

ghost use Rattle.std.specs.Prelude.{◌<◌, vec_len, IfOk};

use crate::cores::{context, logger, record, root, string};
use log::{Level, LevelFilter};
use log4rs_base::{Entry, OutOfMemory};
use log4rs_config::runtime::Logger;
use log4rs_threads::{Event, Shape, ShapeAppender, Sinks};
use std::alloc::Global;

/// Splits a text at its first blank.
fn cut(text: &str) -> (&str, &str) {
    text.split_once(' ').unwrap_or((text, ""))
}

/// Returns loggers at this level. A line has the name of a logger and the names of its appenders;
/// `quiet` is not additive.
fn loggers(alloc: Global, level: LevelFilter, lines: &str) -> Result<Vec<Logger>, OutOfMemory> {
    let mut loggers = Vec::new(alloc);
    for line in lines.lines() {
        let (name, appenders) = cut(line);
        loggers.push(logger(alloc, (name, level, name != "quiet", appenders))?)?;
    }
    Ok(loggers)
}

/// Returns an appender. The threshold of `c` is Warn.
fn appender(alloc: Global, name: &str, pattern: &str) -> Result<ShapeAppender, OutOfMemory> {
    let least = if name == "c" {
        LevelFilter::Warn
    } else {
        LevelFilter::Trace
    };
    Ok(ShapeAppender {
        name: string(alloc, name)?,
        thresholds: Vec::from_slice(alloc, &[least])?,
        pattern: string(alloc, pattern)?,
    })
}

/// Returns appenders. A line has the name of an appender and its pattern.
fn appenders(alloc: Global, lines: &str) -> Result<Vec<ShapeAppender>, OutOfMemory> {
    let mut appenders = Vec::new(alloc);
    for line in lines.lines() {
        let (name, pattern) = cut(line);
        appenders.push(appender(alloc, name, pattern)?)?;
    }
    Ok(appenders)
}

/// Returns a shape, with the root and all loggers at this level. The root names the appenders
/// `named`.
fn shape(
    alloc: Global,
    level: LevelFilter,
    named: &str,
    logger_lines: &str,
    appender_lines: &str,
) -> Result<Shape, OutOfMemory> {
    Ok(Shape {
        root: root(alloc, level, named)?,
        loggers: loggers(alloc, level, logger_lines)?,
        appenders: appenders(alloc, appender_lines)?,
    })
}

/// Returns two shapes. In the first, records of `app` go to `b` and `a`, those of `app::twice` to
/// `a`, `b` and `a` again, and those of `quiet` only to `c`. In the second, whose root names `named`
/// and whose appenders are those of the lines, records from Warn on are logged.
pub(crate) fn shapes(
    alloc: Global,
    named: &str,
    appender_lines: &str,
) -> Result<Vec<Shape>, OutOfMemory>
    ensures { IfOk result (λ made. 0 < vec_len made) }
{
    let logger_lines = "app b\napp::twice a\nquiet c";
    let lines = "a {m}\nb {l} {m}\nc {t} {m}";
    let mut made = Vec::new(alloc);
    made.push(shape(alloc, LevelFilter::Info, "a", logger_lines, lines)?)?;
    made.push(shape(alloc, LevelFilter::Warn, named, "", appender_lines)?)?;
    Ok(made)
}

/// Returns the loading of an entry. The text has its level, its target and its message.
fn load(alloc: Global, caller: u64, text: &str) -> Result<Event<'static>, OutOfMemory> {
    let (level, rest) = cut(text);
    let (target, message) = cut(rest);
    let level = level.parse::<Level>().unwrap_or(Level::Error);
    let logged = record(alloc, (level, target, message))?;
    let context = context(alloc);
    Ok(Event::Load {
        caller,
        entry: Entry { logged, context },
    })
}

/// Returns the event of a line such as `load 1 info app one`, `step 1` or `swap 1`.
fn event(alloc: Global, line: &str) -> Result<Event<'static>, OutOfMemory> {
    let (word, rest) = cut(line);
    let (number, text) = cut(rest);
    match word {
        "load" => load(alloc, number.parse().unwrap_or(0), text),
        "step" => Ok(Event::Step {
            caller: number.parse().unwrap_or(0),
        }),
        _ => Ok(Event::Swap {
            shape: number.parse().unwrap_or(0),
        }),
    }
}

/// Returns the events of lines.
pub(crate) fn events(alloc: Global, lines: &str) -> Result<Vec<Event<'static>>, OutOfMemory> {
    let mut events = Vec::new(alloc);
    for line in lines.lines() {
        events.push(event(alloc, line)?)?;
    }
    Ok(events)
}

/// Returns the texts of the sinks of two shapes, with a bar after each text, a line feed after each
/// sink, and a line `-` after each shape.
pub(crate) fn held(alloc: Global, sinks: &Sinks) -> Result<String, OutOfMemory> {
    let mut shown = String::new(alloc);
    for shape in 0..2 {
        for place in 0..9 {
            if let Some(texts) = sinks.texts(shape, place) {
                for text in texts {
                    write!(shown, "{text}|")?;
                }
                shown.push_str("\n")?;
            }
        }
        shown.push_str("-\n")?;
    }
    Ok(shown)
}
