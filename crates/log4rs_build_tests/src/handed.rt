use crate::setup::{Parts, built, same, show_logged, surroundings};
use log::{Level, LevelFilter};
use log4rs_append::MemoryAppender;
use log4rs_base::OutOfMemory;
use log4rs_base::filter::{Filter, ThresholdFilter};
use log4rs_build::{Deserializers, HandedInOf, RawConfig, Surroundings};
use log4rs_encode::pattern::PatternEncoder;
use log4rs_rolling::{MemMaker, SizeTrigger};
use log4rs_settings::Format;
use std::alloc::Global;
use std::test::Fail;

/// Two components with the names of their appenders, the number of builds, a configuration, and after
/// an arrow the errors and the appenders of each build.
const HANDED_IN: &str = r#"a encoder 1{m}, a encoder 2{m}
3
{"appenders":{"a":{"kind":"file","path":"a.log","encoder":{"kind":"mine"}},"b":{"kind":"file","path":"b.log","encoder":{"kind":"mine"}}},"root":{"appenders":["a"]}}
=> error deserializing appender b: no encoder deserializer for kind `mine` registered; | | a 0: a.log=1i1w; error deserializing appender b: no encoder deserializer for kind `mine` registered; | | a 0: a.log=2i2w; error deserializing appender a: no encoder deserializer for kind `mine` registered; error deserializing appender b: no encoder deserializer for kind `mine` registered; | Reference to nonexistent appender: `a`; |
---
b appender 1{m}, b appender 2{m}
2
{"appenders":{"a":{"kind":"mine"},"b":{"kind":"mine"}},"root":{"appenders":["b"]}}
=> error deserializing appender a: no appender deserializer for kind `mine` registered; | | b 0: 1i 1w; error deserializing appender a: no appender deserializer for kind `mine` registered; | | b 0: 2i 2w;
---
r trigger 1, r trigger 0
3
{"appenders":{"r":{"kind":"rolling_file","path":"r","encoder":{"pattern":"{m}"},"policy":{"trigger":{"kind":"mine"},"roller":{"kind":"fixed_window","pattern":"r.{}","count":1}}}},"root":{"appenders":["r"]}}
=> | | r 0: r.0=iw; | | r 0: r.0=w; error deserializing appender r: no trigger deserializer for kind `mine` registered; | Reference to nonexistent appender: `r`; |
---
f filter warn, g filter off
2
{"appenders":{"f":{"kind":"file","path":"f.log","encoder":{"pattern":"{m}"},"filters":[{"kind":"x"},{"kind":"y"}]}},"root":{"appenders":["f"]}}
=> error deserializing filter attached to appender f: no filter deserializer for kind `y` registered; | | f 1: f.log=w; error deserializing filter attached to appender f: no filter deserializer for kind `x` registered; error deserializing filter attached to appender f: no filter deserializer for kind `y` registered; | | f 0: f.log=iw;"#;

/// Hands in a component such as `a encoder {m}` or `f filter warn`.
fn hand_in(alloc: Global, parts: &mut Parts, told: &str) -> Result<(), OutOfMemory> {
    let (name, rest) = told.split_once(' ').unwrap_or((told, ""));
    let (kind, value) = rest.split_once(' ').unwrap_or((rest, ""));
    let part = match kind {
        "appender" => {
            let encoder = PatternEncoder::new(alloc, value)?;
            HandedInOf::Appender(MemoryAppender::new(alloc, encoder))
        }
        "filter" => {
            let level = value.parse().unwrap_or(LevelFilter::Off);
            HandedInOf::Filter(ThresholdFilter::new(level))
        }
        "encoder" => HandedInOf::Encoder(PatternEncoder::new(alloc, value)?),
        _ => HandedInOf::Trigger(SizeTrigger::new(value.parse().unwrap_or(0))),
    };
    Ok(parts.hand_in(name, part)?)
}

/// Builds a configuration `times` times, each time with two records. Returns the errors and the
/// appenders of each build.
fn came(
    surroundings: &Surroundings<'_>,
    alloc: Global,
    parts: &mut Parts,
    text: &str,
    times: u64,
) -> Result<String, Fail> {
    let mut shown = String::new(alloc);
    for _ in 0..times {
        let (config, told) = built(surroundings, alloc, parts, text)?;
        shown.push_str(told.as_str())?;
        let records = [(Level::Info, "i"), (Level::Warn, "w")];
        show_logged(alloc, config, &records, &mut shown)?;
    }
    Ok(shown)
}

/// Hands in the components of a row and does its builds. Returns what came, and what the row
/// expects.
fn row<'a>(
    surroundings: &Surroundings<'_>,
    alloc: Global,
    row: &'a str,
) -> Result<(String, &'a str), Fail> {
    let (front, expected) = row.split_once("\n=> ").unwrap_or((row, ""));
    let (handed, rest) = front.split_once('\n').unwrap_or((front, ""));
    let (times, text) = rest.split_once('\n').unwrap_or((rest, ""));
    let mut parts = Parts::new(alloc)?;
    for part in handed.split(", ") {
        hand_in(alloc, &mut parts, part)?;
    }
    let times = times.parse().unwrap_or(0);
    Ok((
        came(surroundings, alloc, &mut parts, text, times)?,
        expected,
    ))
}

#[test]
fn handed_in(rt: HostRuntime) -> Result<(), Fail> {
    let around = surroundings(rt.alloc(), rt.stdout(), rt.stderr());
    for told in HANDED_IN.split("\n---\n") {
        let (came, expected) = row(&around, rt.alloc(), told)?;
        same(&rt, came.as_str().trim_end(), expected);
    }
    Ok(())
}

#[test]
fn boxed(rt: HostRuntime) -> Result<(), Fail> {
    let alloc = rt.alloc();
    let around = surroundings(alloc, rt.stdout(), rt.stderr());
    let mut parts = Deserializers::new(alloc)?;
    let filter: Box<dyn Filter + Send + Sync + Drop> = Box::new(
        alloc,
        ThresholdFilter::new(LevelFilter::Warn),
    )?;
    parts.hand_in("a", HandedInOf::Filter(filter))?;
    let text = r#"{"appenders":{"a":{"kind":"file","path":"a.log","filters":[{"kind":"mine"}]}}}"#;
    let raw = RawConfig::from_text(alloc, Format::Json, text)?;
    let mut maker = MemMaker::new(alloc);
    let (appenders, errors) = raw.appenders_lossy(&mut parts, &mut maker, &around)?;
    assert!(rt; errors.is_empty() && appenders.len() == 1);
    Ok(())
}
