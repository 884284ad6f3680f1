use crate::rows::cut;
use crate::setup::{Parts, built, created, same, surroundings};
use log4rs_build::{InitError, RawConfig, Surroundings};
use log4rs_settings::Format;
use std::alloc::{AllocError, Global};
use std::test::Fail;

/// Configurations, the outcome of the strict build, which leaves nothing out, and after arrows the
/// errors of appenders and filters, and those of the whole.
const FAULTY: &str = r#"
{"appenders":{"b":{"kind":"nope"},"a":{"kind":"file","path":"a.log","zz":1}},"root":{"appenders":["a","b"]}} => Deserializing => error deserializing appender a: unknown field `zz`; error deserializing appender b: no appender deserializer for kind `nope` registered; | Reference to nonexistent appender: `a`; Reference to nonexistent appender: `b`; |
{"appenders":{"r":{"kind":"rolling_file","path":"r.log","policy":{"trigger":{"kind":"time","interval":0},"roller":{"kind":"delete"}}}}} => Deserializing => error deserializing appender r: the number of an interval is below 1; | |
{"appenders":{"r":{"kind":"rolling_file","path":"r.log","policy":{"trigger":{"kind":"size","limit":10},"roller":{"kind":"fixed_window","pattern":"r.log","count":2}}}}} => Deserializing => error deserializing appender r: pattern does not contain `{}`; | |
{"appenders":{"f":{"kind":"file","filters":[{"kind":"nope"},{"kind":"threshold"}]}}} => Deserializing => error deserializing filter attached to appender f: no filter deserializer for kind `nope` registered; error deserializing filter attached to appender f: missing field `level`; error deserializing appender f: missing field `path`; | |
{"root":{"appenders":["gone"]}} => BuildConfig => | Reference to nonexistent appender: `gone`; |
{"appenders":{"f":{"kind":"file","path":"f.log"}},"root":{"appenders":["f","f"]}} => built => | |"#;

/// Builds the configuration of a text strictly. Returns `built` or the name of its error.
fn answer(surroundings: &Surroundings<'_>, alloc: Global, text: &str) -> &'static str {
    match created(surroundings, alloc, Format::Json, text) {
        Ok(_) => "built",
        Err(InitError::Deserializing(_)) => "Deserializing",
        Err(InitError::BuildConfig(_)) => "BuildConfig",
        Err(_) => "other",
    }
}

/// Returns the outcome of the strict build and the errors of the other.
fn outcome(surroundings: &Surroundings<'_>, alloc: Global, text: &str) -> Result<String, Fail> {
    let answer = answer(surroundings, alloc, text);
    let (_, told) = built(surroundings, alloc, &mut Parts::new(alloc)?, text)?;
    Ok(format!(in alloc; "{answer} => {}", told.as_str().trim_end())?)
}

#[test]
fn faulty_parts(rt: HostRuntime) -> Result<(), Fail> {
    let alloc = rt.alloc();
    let around = surroundings(alloc, rt.stdout(), rt.stderr());
    for row in FAULTY.trim_start().lines() {
        let (text, expected) = cut(row);
        same(&rt, outcome(&around, alloc, text)?.as_str(), expected);
    }
    Ok(())
}

/// JSON texts of docs/CONFIGURATION.md that are no configurations, and their errors.
const JSON: &str = r#"{"root":{"level":1.5}} => root.level: there is a floating-point number;
{"a":[1}} => a bracket closes one of the other kind at line 1, column 9;
{"root": => the text ends too early at line 1, column 8;
[[[[[[[[[[[[[[[[[[[[[[[[[[[[[[[[[[[[[[[[[[[[[[[[[[[[[[[[[[[[[[[[[[[[[[[[[[[[[[[[[[[[[[[[[[[[[[[[[[[[[[[[[[[[[[[[[[[[[[[[[[[[[[[[]]]]]]]]]]]]]]]]]]]]]]]]]]]]]]]]]]]]]]]]]]]]]]]]]]]]]]]]]]]]]]]]]]]]]]]]]]]]]]]]]]]]]]]]]]]]]]]]]]]]]]]]]]]]]]]]]]]]]]]]]]]]]]]] => the text is nested too deep at line 1, column 129;
{"rot":{}} => unknown field `rot`;
{"root":{"level":"loud"}} => root.level: "loud" is no level;
{"loggers":{"app":{}}} => loggers.app: missing field `level`;
{"appenders":{"a":{"path":"a.log"}}} => appenders.a: missing field `kind`"#;

/// TOML texts of docs/CONFIGURATION.md that are no configurations, and their errors.
const TOML: &str = r#"x = [1, 1979-05-27] => x.1: there is a date-time;
root = 1
root = 2 => a key stands twice at line 2, column 1;
a = [1} => `,` or `]` is missing at line 1, column 7;
a = x => the text is not of its format at line 1, column 5;
a = 9223372036854775808 => a number is out of range at line 1, column 5;
refresh_rate = "30" => refresh_rate: "30" is no duration, such as "30 seconds""#;

/// Parses a text. Returns why it is no configuration, or the name of another outcome.
fn refusal(alloc: Global, format: Format, text: &str) -> Result<String, AllocError> {
    match RawConfig::from_text(alloc, format, text) {
        Err(InitError::Parse(error)) => format!(in alloc; "{error}"),
        Err(_) => String::from_str(alloc, "another error"),
        Ok(_) => String::from_str(alloc, "a configuration"),
    }
}

#[test]
fn refused_texts(rt: HostRuntime) -> Result<(), Fail> {
    for (format, rows) in [(Format::Json, JSON), (Format::Toml, TOML)] {
        for row in rows.split(";\n") {
            let (text, expected) = cut(row);
            let refusal = refusal(rt.alloc(), format, text)?;
            same(&rt, refusal.as_str(), expected);
        }
    }
    Ok(())
}
