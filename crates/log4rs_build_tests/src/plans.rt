use crate::rows::cut;
use crate::setup::same;
use crate::shown::shown;
use log4rs_base::{OutOfMemory, Target};
use log4rs_settings::{
    AppenderConfig, AppenderPlan, EncoderConfig, EncoderPlan, FilterConfig, FilterPlan, Format,
    Maker, Makers, PolicyPlan, RollerPlan, Tree, TreeError, TriggerPlan, Waiting, appender_plan,
    filter_plan, read,
};
use std::alloc::{AllocError, Global};
use std::process::Abort;
use std::test::Fail;

/// Writes an encoder.
fn show_encoder(shown: &mut String, plan: &EncoderPlan) -> Result<(), AllocError> {
    match plan {
        EncoderPlan::Pattern(pattern) => {
            shown.push_str(", pattern ")?;
            shown.push_str(pattern)
        }
        EncoderPlan::Json => shown.push_str(", json"),
        EncoderPlan::HandedIn => shown.push_str(", handed in"),
    }
}

/// Writes a trigger.
fn show_trigger(shown: &mut String, plan: TriggerPlan) -> Result<(), AllocError> {
    match plan {
        TriggerPlan::Size(limit) => write!(shown, ", size {limit}"),
        TriggerPlan::Time(config) => {
            let (modulate, delay) = (config.modulate, config.max_random_delay);
            write!(shown, ", time {:?} {modulate} {delay}", config.interval)
        }
        TriggerPlan::OnStartUp(least) => write!(shown, ", onstartup {least}"),
        TriggerPlan::HandedIn => shown.push_str(", handed in"),
    }
}

/// Writes a policy: its trigger, then its roller.
fn show_policy(shown: &mut String, plan: &PolicyPlan) -> Result<(), AllocError> {
    show_trigger(shown, plan.trigger)?;
    match &plan.roller {
        RollerPlan::Delete => shown.push_str(", delete"),
        RollerPlan::FixedWindow(window) => {
            let (base, count) = (window.base, window.count);
            write!(shown, ", {} {count} from {base}", window.pattern)?;
            if window.background {
                shown.push_str(" in the background")?;
            }
            Ok(())
        }
    }
}

/// Writes the target or the path of an appender, and its flag.
fn show_output(shown: &mut String, name: &str, flag: bool) -> Result<(), AllocError> {
    shown.push_str(name)?;
    shown.push_str(if flag { " true" } else { " false" })
}

/// Writes an appender.
fn show_plan(shown: &mut String, plan: &AppenderPlan) -> Result<(), AllocError> {
    match plan {
        AppenderPlan::Console {
            target,
            tty_only,
            encoder,
        } => {
            let stream = match target {
                Target::Stdout => "stdout",
                Target::Stderr => "stderr",
            };
            show_output(shown, stream, *tty_only)?;
            show_encoder(shown, encoder)
        }
        AppenderPlan::File {
            path,
            append,
            encoder,
        } => {
            show_output(shown, path, *append)?;
            show_encoder(shown, encoder)
        }
        AppenderPlan::RollingFile {
            path,
            append,
            encoder,
            policy,
        } => {
            show_output(shown, path, *append)?;
            show_encoder(shown, encoder)?;
            show_policy(shown, policy)
        }
        AppenderPlan::HandedIn => shown.push_str("handed in"),
    }
}

/// Returns the plan of the appender of a text, or its error.
fn appender(alloc: Global, makers: &Makers, waiting: Waiting, text: &str) -> Result<String, Fail> {
    let config = AppenderConfig::read(alloc, read(alloc, Format::Json, text)?)?;
    let mut shown = String::new(alloc);
    match appender_plan(alloc, makers, waiting, config.kind.as_str(), &config.config) {
        Ok(plan) => show_plan(&mut shown, &plan)?,
        Err(error) => write!(shown, "{error}")?,
    }
    Ok(shown)
}

/// Returns the plan of the filter of a text, or its error.
fn filter(alloc: Global, makers: &Makers, waiting: usize, text: &str) -> Result<String, Fail> {
    let config = FilterConfig::read(alloc, read(alloc, Format::Json, text)?)?;
    let mut shown = String::new(alloc);
    match filter_plan(alloc, makers, waiting, &config) {
        Ok(FilterPlan::Threshold(level)) => shown.push_str(level.as_str())?,
        Ok(FilterPlan::HandedIn) => shown.push_str("handed in")?,
        Err(error) => write!(shown, "{error}")?,
    }
    Ok(shown)
}

/// Filters, and their plans or errors.
const FILTERS: &str = r#"{"kind":"threshold","level":"wArn"} => WARN
{"kind":"threshold","level":"off","zz":1} => OFF
{"kind":"threshold"} => missing field `level`
{"kind":"threshold","level":null} => level: null is no level
{"kind":"threshold","level":"loud"} => level: "loud" is no level
{"kind":"console"} => no filter deserializer for kind `console` registered"#;

/// Appenders, and their plans or errors.
const APPENDERS: &str = r#"{"kind":"console"} => stdout false, pattern {d} {l} {t} - {m}{n}
{"kind":"console","target":null,"tty_only":null,"encoder":null} => stdout false, pattern {d} {l} {t} - {m}{n}
{"kind":"console","target":"stderr","tty_only":true,"encoder":{"kind":"json"}} => stderr true, json
{"kind":"console","target":"stdout","encoder":{"pattern":"{m}"}} => stdout false, pattern {m}
{"kind":"console","encoder":{"kind":"pattern","pattern":null}} => stdout false, pattern {d} {l} {t} - {m}{n}
{"kind":"console","encoder":{"kind":null}} => stdout false, pattern {d} {l} {t} - {m}{n}
{"kind":"console","target":"Stdout"} => target: "Stdout" is no `stdout` or `stderr`
{"kind":"console","target":1,"tty_only":1} => target: 1 is no `stdout` or `stderr`
{"kind":"console","target":1,"zz":1,"aa":1} => unknown field `aa`
{"kind":"console","path":"a.log"} => unknown field `path`
{"kind":"console","tty_only":1,"encoder":{"kind":5}} => encoder.kind: 5 is no text
{"kind":"console","tty_only":1,"encoder":{"kind":"nope"}} => tty_only: 1 is no truth value
{"kind":"console","encoder":[]} => encoder: a list is no object
{"kind":"console","encoder":{"kind":"nope"}} => encoder: no encoder deserializer for kind `nope` registered
{"kind":"console","encoder":{"kind":"console"}} => encoder: no encoder deserializer for kind `console` registered
{"kind":"console","encoder":{"patern":"x","pattern":5}} => encoder: unknown field `patern`
{"kind":"console","encoder":{"pattern":5}} => encoder.pattern: 5 is no text
{"kind":"console","encoder":{"kind":"json","pattern":"x"}} => encoder: unknown field `pattern`
{"kind":"file","path":"a.log"} => a.log true, pattern {d} {l} {t} - {m}{n}
{"kind":"file","path":"a.log","append":false,"encoder":{"kind":"json"}} => a.log false, json
{"kind":"file"} => missing field `path`
{"kind":"file","path":null} => path: null is no text
{"kind":"file","path":5,"append":5} => path: 5 is no text
{"kind":"file","append":5,"encoder":{"kind":"nope"}} => missing field `path`
{"kind":"file","path":"a","append":5,"encoder":5} => encoder: 5 is no object
{"kind":"file","path":5,"zz":1} => unknown field `zz`
{"kind":"file","path":"a","policy":{}} => unknown field `policy`
{"kind":"rolling_file","path":"a"} => missing field `policy`
{"kind":"rolling_file","policy":null} => missing field `path`
{"kind":"rolling_file","path":"a","policy":null,"encoder":5} => policy: null is no object
{"kind":"rolling_file","path":"a","policy":{"zz":1},"encoder":{"kind":"nope"}} => encoder: no encoder deserializer for kind `nope` registered
{"kind":"nope"} => no appender deserializer for kind `nope` registered"#;

/// Members of policies, and their plans or errors.
const POLICIES: &str =
    r#""trigger":{"kind":"size","limit":"1 kb"},"roller":{"kind":"delete"} => size 1024, delete
"kind":"compound","trigger":{"kind":"size","limit":3},"roller":{"kind":"delete"} => size 3, delete
"trigger":{"kind":"time","interval":"2 hours"},"roller":{"kind":"delete"} => time Hour(2) false 0, delete
"trigger":{"kind":"time","interval":1,"modulate":true,"max_random_delay":9},"roller":{"kind":"delete"} => time Second(1) true 9, delete
"trigger":{"kind":"onstartup"},"roller":{"kind":"fixed_window","pattern":"a{}","count":2} => onstartup 1, a{} 2 from 0
"trigger":{"kind":"onstartup","min_size":7},"roller":{"kind":"fixed_window","pattern":"a{}","count":4294967295,"base":5} => onstartup 7, a{} 4294967295 from 5
 => policy: missing field `trigger`
"trigger":{"kind":"nope"} => policy: missing field `roller`
"trigger":{"kind":"nope"},"roller":null => policy.roller: null is no object
"trigger":{},"roller":{} => policy.trigger: missing field `kind`
"trigger":5,"zz":5 => policy: unknown field `zz`
"kind":"nope","zz":5 => policy: no policy deserializer for kind `nope` registered
"trigger":{"kind":"nope"},"roller":{"kind":"nope"} => policy.trigger: no trigger deserializer for kind `nope` registered
"trigger":{"kind":"size","limit":1},"roller":{"kind":"nope"} => policy.roller: no roller deserializer for kind `nope` registered
"trigger":{"kind":"size"},"roller":{"kind":"fixed_window"} => policy.trigger: missing field `limit`
"trigger":{"kind":"size","limit":"1 k"},"roller":{"kind":"delete"} => policy.trigger.limit: "1 k" is no size
"trigger":{"kind":"size","limit":"18014398509481984 kb"},"roller":{"kind":"delete"} => policy.trigger.limit: "18014398509481984 kb" is no size
"trigger":{"kind":"time","interval":0},"roller":{"kind":"nope"} => policy.trigger.interval: the number of an interval is below 1
"trigger":{"kind":"time","interval":0,"modulate":5},"roller":{"kind":"nope"} => policy.trigger.modulate: 5 is no truth value
"trigger":{"kind":"time","interval":-1},"roller":{"kind":"nope"} => policy.trigger.interval: -1 is no interval
"trigger":{"kind":"onstartup","limit":1},"roller":{"kind":"delete"} => policy.trigger: unknown field `limit`
"trigger":{"kind":"onstartup"},"roller":{"kind":"delete","count":1} => policy.roller: unknown field `count`
"trigger":{"kind":"onstartup"},"roller":{"kind":"fixed_window","count":"1"} => policy.roller: missing field `pattern`
"trigger":{"kind":"onstartup"},"roller":{"kind":"fixed_window","pattern":"a","base":-1} => policy.roller: missing field `count`
"trigger":{"kind":"onstartup"},"roller":{"kind":"fixed_window","pattern":"a","count":4294967296} => policy.roller.count: 4294967296 is no whole number that fits
"trigger":{"kind":"onstartup"},"roller":{"kind":"fixed_window","pattern":"a","count":1,"base":-1} => policy.roller.base: -1 is no whole number that fits
"trigger":{"kind":"onstartup"},"roller":{"kind":"fixed_window","pattern":"a{}","count":1,"background":true} => onstartup 1, a{} 1 from 0 in the background
"trigger":{"kind":"onstartup"},"roller":{"kind":"fixed_window","pattern":"a{}","count":1,"background":false} => onstartup 1, a{} 1 from 0
"trigger":{"kind":"onstartup"},"roller":{"kind":"fixed_window","pattern":"a{}","count":1,"background":null} => onstartup 1, a{} 1 from 0
"trigger":{"kind":"onstartup"},"roller":{"kind":"fixed_window","pattern":"a{}","count":1,"background":1} => policy.roller.background: 1 is no truth value
"trigger":{"kind":"onstartup"},"roller":{"kind":"fixed_window","pattern":"a{}","count":1,"background":"true"} => policy.roller.background: "true" is no truth value
"trigger":{"kind":"onstartup"},"roller":{"kind":"fixed_window","count":1,"background":1} => policy.roller: missing field `pattern`
"trigger":{"kind":"onstartup"},"roller":{"kind":"fixed_window","pattern":"a{}","count":1,"base":-1,"background":1} => policy.roller.base: -1 is no whole number that fits
"trigger":{"kind":"onstartup"},"roller":{"kind":"delete","background":true} => policy.roller: unknown field `background`
"trigger":{"kind":"onstartup"},"roller":{"kind":"fixed_window","pattern":"a{}","count":1,"backgrounds":true} => policy.roller: unknown field `backgrounds`"#;

/// Appenders, and their plans if one component of each class was handed in.
const HANDED_IN: &str = r#"{"kind":"mine","zz":1} => handed in
{"kind":"file","path":"p","encoder":{"kind":"mine","zz":1}} => p true, handed in
{"kind":"rolling_file","path":"p","encoder":{"kind":"json"},"policy":{"trigger":{"kind":"mine"},"roller":{"kind":"delete"}}} => p true, json, handed in, delete
{"kind":"rolling_file","path":"p","encoder":{"kind":"json"},"policy":{"trigger":{"kind":"mine"},"roller":{"kind":"mine"}}} => policy.roller: no roller deserializer for kind `mine` registered"#;

const NOTHING: Waiting = Waiting {
    appenders: 0,
    filters: 0,
    encoders: 0,
    triggers: 0,
};

const ONE_EACH: Waiting = Waiting {
    appenders: 1,
    filters: 1,
    encoders: 1,
    triggers: 1,
};

/// The text of an appender up to the members of its policy.
const BEFORE: &str = r#"{"kind":"rolling_file","path":"p","encoder":{"kind":"json"},"policy":{"#;

/// Returns the text of an appender whose policy has these members.
fn with_policy(alloc: Global, members: &str) -> Result<String, AllocError> {
    let mut text = String::from_str(alloc, BEFORE)?;
    text.push_str(members)?;
    text.push_str("}}")?;
    Ok(text)
}

fn filters(rt: &impl Abort, alloc: Global, makers: &Makers) -> Result<(), Fail> {
    for row in FILTERS.lines() {
        let (text, expected) = cut(row);
        let shown = filter(alloc, makers, 0, text)?;
        same(rt, shown.as_str(), expected);
    }
    let shown = filter(alloc, makers, 1, r#"{"kind":"mine"}"#)?;
    same(rt, shown.as_str(), "handed in");
    Ok(())
}

fn appenders(rt: &impl Abort, alloc: Global, makers: &Makers) -> Result<(), Fail> {
    for (rows, waiting) in [(APPENDERS, NOTHING), (HANDED_IN, ONE_EACH)] {
        for row in rows.lines() {
            let (text, expected) = cut(row);
            let shown = appender(alloc, makers, waiting, text)?;
            same(rt, shown.as_str(), expected);
        }
    }
    Ok(())
}

fn policies(rt: &impl Abort, alloc: Global, makers: &Makers) -> Result<(), Fail> {
    for row in POLICIES.lines() {
        let (members, expected) = cut(row);
        let text = with_policy(alloc, members)?;
        let shown = appender(alloc, makers, NOTHING, text.as_str())?;
        let shown = shown.as_str();
        let policy = shown.strip_prefix("p true, json, ").unwrap_or(shown);
        same(rt, policy, expected);
    }
    Ok(())
}

#[test]
fn plans(rt: HostRuntime) -> Result<(), Fail> {
    let alloc = rt.alloc();
    let makers = Makers::new(alloc)?;
    filters(&rt, alloc, &makers)?;
    appenders(&rt, alloc, &makers)?;
    policies(&rt, alloc, &makers)
}

/// Classes, settings, and the kind and the other settings that are read of them, or the fault.
const READ: &str = r#"filter|{"knd":"threshold","level":"error"}|missing field `kind`
encoder|{}|pattern {}"#;

/// Returns a kind and the other settings.
fn described(alloc: Global, kind: &str, config: &Tree) -> Result<String, AllocError> {
    let settings = shown(alloc, config)?;
    format!(in alloc; "{kind} {settings}")
}

/// Reads a filter or an encoder. Returns its kind and its other settings.
fn component(alloc: Global, class: &str, tree: Tree) -> Result<String, TreeError> {
    if class == "filter" {
        let filter = FilterConfig::read(alloc, tree)?;
        return Ok(described(alloc, &filter.kind, &filter.config)?);
    }
    let encoder = EncoderConfig::read(alloc, tree)?;
    Ok(described(alloc, &encoder.kind, &encoder.config)?)
}

/// Returns what is read of the settings of a class, or the fault.
fn read_as(alloc: Global, class: &str, text: &str) -> Result<String, Fail> {
    match component(alloc, class, read(alloc, Format::Json, text)?) {
        Ok(text) => Ok(text),
        Err(fault) => Ok(format!(in alloc; "{fault}")?),
    }
}

#[test]
fn settings_without_a_kind(rt: HostRuntime) -> Result<(), Fail> {
    for row in READ.lines() {
        let (class, rest) = row.split_once('|').unwrap_or((row, ""));
        let (text, expected) = rest.split_once('|').unwrap_or((rest, ""));
        let came = read_as(rt.alloc(), class, text)?;
        same(&rt, came.as_str(), expected);
    }
    Ok(())
}

/// Classes, and the kinds that have makers.
const KINDS: &str = "appender => console
appender => file
appender => rolling_file
policy => compound
trigger => size
trigger => time
trigger => onstartup
roller => delete
roller => fixed_window
encoder => pattern
encoder => json
filter => threshold";

#[test]
fn makers(rt: HostRuntime) -> Result<(), Fail> {
    let makers = Makers::new(rt.alloc())?;
    let none = Makers::empty(rt.alloc());
    for row in KINDS.lines() {
        let (class, kind) = cut(row);
        assert!(rt; makers.maker(class, kind).is_some(), "{row}");
        assert!(rt; none.maker(class, kind).is_none(), "{row}");
        assert!(rt; makers.maker("kind", kind).is_none(), "{row}");
    }
    Ok(())
}

/// Returns makers of which `file` makes consoles as an appender, and size triggers as a trigger.
fn replaced(alloc: Global) -> Result<Makers, OutOfMemory> {
    let mut makers = Makers::new(alloc)?;
    makers.insert("file", Maker::Console)?;
    makers.insert("file", Maker::Size)?;
    Ok(makers)
}

#[test]
fn replaced_makers(rt: HostRuntime) -> Result<(), Fail> {
    let makers = replaced(rt.alloc())?;
    assert!(rt; makers.maker("trigger", "file").is_some());
    let text = r#"{"kind":"file","target":"stderr","encoder":{"kind":"json"}}"#;
    let shown = appender(rt.alloc(), &makers, NOTHING, text)?;
    same(&rt, shown.as_str(), "stderr false, json");
    Ok(())
}
