use crate::rows::cut;
use crate::setup::same;
use log4rs_settings::{Format, TopConfig, read};
use std::alloc::{AllocError, Global};
use std::test::Fail;

/// Writes names, each after a space.
fn show_names(shown: &mut String, names: &Vec<String>) -> Result<(), AllocError> {
    for name in names {
        shown.push(' ')?;
        shown.push_str(name)?;
    }
    Ok(())
}

/// Writes a configuration: its rate, its root, its appenders, then its loggers.
fn show(shown: &mut String, top: &TopConfig) -> Result<(), AllocError> {
    match top.refresh_rate {
        None => shown.push_str("no rate")?,
        Some(rate) => write!(shown, "{rate}")?,
    }
    write!(shown, ", {}", top.root.level.as_str())?;
    show_names(shown, &top.root.appenders)?;
    for appender in &top.appenders {
        write!(shown, ", {} is {}", appender.name, appender.config.kind)?;
    }
    for logger in &top.loggers {
        let (level, additive) = (logger.config.level.as_str(), logger.config.additive);
        write!(shown, ", {} {level} {additive}", logger.name)?;
        show_names(shown, &logger.config.appenders)?;
    }
    Ok(())
}

/// Returns the text of the configuration, or its error.
fn top(alloc: Global, text: &str) -> Result<String, Fail> {
    let mut shown = String::new(alloc);
    match TopConfig::read(alloc, read(alloc, Format::Json, text)?) {
        Ok(top) => show(&mut shown, &top)?,
        Err(error) => write!(shown, "{error}")?,
    }
    Ok(shown)
}

/// Configurations, and their texts or errors.
const TOPS: &str = r#"{} => no rate, DEBUG
{"refresh_rate":null,"root":null,"appenders":null,"loggers":null} => no rate, DEBUG
{"root":{"level":null,"appenders":null},"appenders":{},"loggers":{}} => no rate, DEBUG
{"refresh_rate":"1h 30m","root":{"level":"wArn","appenders":["b","a","b"]}} => 5400000, WARN b a b
{"appenders":{"b":{"kind":"x"},"a":{"kind":"y","filters":null}}} => no rate, DEBUG, a is y, b is x
{"loggers":{"n":{"level":"off","appenders":["x"],"additive":false},"m":{"level":"info"}}} => no rate, DEBUG, m INFO true, n OFF false x
{"loggers":{"m":{"level":"info","appenders":null,"additive":null}}} => no rate, DEBUG, m INFO true
[] => a list is no object
{"rot":{}} => unknown field `rot`
{"zz":1,"root":5,"aa":1} => unknown field `aa`
{"refresh_rate":"30"} => refresh_rate: "30" is no duration, such as "30 seconds"
{"refresh_rate":30,"root":5} => refresh_rate: 30 is no duration, such as "30 seconds"
{"root":5,"appenders":5} => root: 5 is no object
{"root":{"level":"loud","zz":1}} => root: unknown field `zz`
{"root":{"level":"loud","appenders":5}} => root.level: "loud" is no level
{"root":{"additive":true}} => root: unknown field `additive`
{"root":{"appenders":"a"}} => root.appenders: "a" is no list of names
{"root":{"appenders":["a",5]}} => root.appenders.1: 5 is no name
{"root":{"appenders":[null]}} => root.appenders.0: null is no name
{"root":{"level":"a\n\u001b[31m"}} => root.level: "a\n\u{1b}[31m" is no level
{"root":{"level":"0123456789012345678901234567890123456789"}} => root.level: "0123456789012345678901234567890123456789" is no level
{"root":{"level":"0123456789012345678901234567890123456789x"}} => root.level: "0123456789012345678901234567890123456789…" is no level
{"a\n":5} => unknown field `a\n`
{"appenders":5,"loggers":5} => appenders: 5 is no object
{"appenders":[]} => appenders: a list is no object
{"appenders":{"b":5,"a":{}}} => appenders.a: missing field `kind`
{"appenders":{"b":{},"a":5}} => appenders.a: 5 is no object
{"appenders":{"a":{"kind":5}}} => appenders.a.kind: 5 is no text
{"appenders":{"a":{"kind":"x","filters":{}}}} => appenders.a.filters: an object is no list of filters
{"appenders":{"a":{"kind":"x","filters":[{"kind":"y"},{}]}}} => appenders.a.filters.1: missing field `kind`
{"appenders":{"a":{"kind":"x","filters":[true]}}} => appenders.a.filters.0: true is no object
{"appenders":{"a":{"kind":"x"}},"loggers":5} => loggers: 5 is no object
{"loggers":{"a":{}}} => loggers.a: missing field `level`
{"loggers":{"b":{"level":"verbose"},"a::x":{"level":"info"}}} => loggers.b.level: "verbose" is no level
{"loggers":{"a":{"level":null}}} => loggers.a.level: null is no level
{"loggers":{"a":{"additive":5,"appenders":5}}} => loggers.a: missing field `level`
{"loggers":{"a":{"level":"info","additive":5,"appenders":5}}} => loggers.a.appenders: 5 is no list of names
{"loggers":{"a":{"level":"info","additive":5}}} => loggers.a.additive: 5 is no truth value
{"loggers":{"a":{"level":5,"path":5}}} => loggers.a: unknown field `path`
{"loggers":{"b":{},"a":5}} => loggers.a: 5 is no object
{"loggers":{"a":null}} => loggers.a: null is no object"#;

#[test]
fn tops(rt: HostRuntime) -> Result<(), Fail> {
    for row in TOPS.lines() {
        let (text, expected) = cut(row);
        let shown = top(rt.alloc(), text)?;
        same(&rt, shown.as_str(), expected);
    }
    Ok(())
}
