use crate::setup::{Parts, built, same, show_logged, surroundings};
use log::Level;
use log4rs_build::RawConfig;
use log4rs_settings::{Format, Maker};
use std::alloc::Global;
use std::test::Fail;

/// Returns the refresh rate, the root and the loggers of a configuration, or their defaults.
fn asked(alloc: Global, raw: &RawConfig) -> Result<String, Fail> {
    let root = raw.root()?;
    let rate = raw.refresh_rate().unwrap_or(0);
    let mut shown = format!(in alloc; "{rate}; {}", root.level().as_str())?;
    for name in root.appenders() {
        write!(shown, " {name}")?;
    }
    for logger in &raw.loggers()? {
        let (name, additive) = (logger.name(), logger.additive());
        write!(shown, "; {name} {} {additive}", logger.level().as_str())?;
        for name in logger.appenders() {
            write!(shown, " {name}")?;
        }
    }
    Ok(shown)
}

/// A text, and its refresh rate, its root and its loggers.
const ASKED: (&str, &str) = (
    "refresh_rate = '1h 30m'
root = { level = 'Warn', appenders = ['b', 'a'] }
[loggers]
n = { level = 'off', appenders = ['x'], additive = false }
m = { level = 'info' }",
    "5400000; WARN b a; m INFO true; n OFF false x",
);

/// A configuration with the inserted maker `log`, and with `file`, which has no maker.
const MADE: &str =
    r#"{"appenders":{"a":{"kind":"log","path":"a.log"},"b":{"kind":"file","path":"b.log"}},
    "root":{"appenders":["a"]}}"#;

#[test]
fn lists(rt: HostRuntime) -> Result<(), Fail> {
    let (text, expected) = ASKED;
    let raw = RawConfig::from_text(rt.alloc(), Format::Toml, text)?;
    same(&rt, asked(rt.alloc(), &raw)?.as_str(), expected);
    let raw = RawConfig::default(rt.alloc());
    same(&rt, asked(rt.alloc(), &raw)?.as_str(), "0; DEBUG");
    Ok(())
}

#[test]
fn makers(rt: HostRuntime) -> Result<(), Fail> {
    let alloc = rt.alloc();
    let around = surroundings(alloc, rt.stdout(), rt.stderr());
    let mut parts = Parts::empty(alloc);
    assert!(rt; parts.maker("appender", "file").is_none());
    parts.insert("log", Maker::File)?;
    assert!(rt; matches!(parts.maker("appender", "log"), Some(Maker::File)));
    let (config, mut shown) = built(&around, alloc, &mut parts, MADE)?;
    show_logged(alloc, config, &[(Level::Info, "i")], &mut shown)?;
    let expected =
        "error deserializing appender b: no appender deserializer for kind `file` registered; | | \
         a 0: a.log=1970-01-01T00:00:00+00:00 INFO t - i\n; ";
    same(&rt, shown.as_str(), expected);
    Ok(())
}
