//! Cores whose files are rolled in the background, step by step and to the end.

use crate::background::{Beside, beside};
use crate::rolling::built;
use crate::setup::{context, cut, held, planned, record, same, shown, store, string};
use log::LevelFilter;
use log4rs_append::RollingFileAppender;
use log4rs_base::filter::AnyFilter;
use log4rs_base::{LogError, OutOfMemory};
use log4rs_config::runtime::appender::Filtered;
use log4rs_config::runtime::builder::ConfigBuilderOf;
use log4rs_config::runtime::config::ConfigOf;
use log4rs_config::{CoreOf, Root};
use log4rs_encode::AnyEncoder;
use log4rs_rolling::MemStore;
use std::alloc::Global;
use std::test::Fail;

/// An appender to a file that is rolled in the background.
type Rolled = RollingFileAppender<MemStore, Beside, AnyEncoder>;

/// Such an appender in a configuration.
type Named = Filtered<Rolled, AnyFilter>;

/// Builds an appender of this name to `f` in a store of its own, which is empty and has this plan.
fn named(alloc: Global, name: &str, plan: &str) -> Result<Named, Fail> {
    let store = store(alloc, "", planned(alloc, plan)?.as_slice())?;
    let rolled = built(alloc, true, "f", store, beside(alloc, 2)?)?;
    Ok(Filtered::builder(alloc).build(string(alloc, name)?, rolled))
}

/// Returns a builder with the appenders `a` and `b`, whose stores have these plans.
fn both(
    alloc: Global,
    plan: &str,
    other: &str,
) -> Result<ConfigBuilderOf<Rolled, AnyFilter>, Fail> {
    let builder = ConfigOf::builder(alloc).appender(named(alloc, "a", plan)?)?;
    Ok(builder.appender(named(alloc, "b", other)?)?)
}

/// Builds a core that logs each record to `a` and to `b`.
fn core(alloc: Global, plan: &str, other: &str) -> Result<CoreOf<Rolled, AnyFilter>, Fail> {
    let builder = both(alloc, plan, other)?;
    let root = Root::builder(alloc).appender("a")?.appender("b")?;
    Ok(CoreOf::new(alloc, builder.build(root.build(LevelFilter::Trace))?)?)
}

/// Returns the word of the outcome of a step.
fn stepped(outcome: Result<bool, LogError>) -> &'static str {
    match outcome {
        Ok(true) => "more",
        Ok(false) => "done",
        Err(fault) => shown(&Err(fault)),
    }
}

/// Logs a message, and returns the word of the outcome.
fn logged(
    alloc: Global,
    core: &mut CoreOf<Rolled, AnyFilter>,
    message: &str,
) -> Result<&'static str, OutOfMemory> {
    let record = record(alloc, message)?;
    Ok(match core.log(&record, &context(alloc)) {
        Ok(()) => "ok",
        Err(_) => "failed",
    })
}

/// Makes a step or a drive of the appender `b` alone, and returns the word of the outcome.
fn alone(core: &mut CoreOf<Rolled, AnyFilter>, drives: bool) -> &'static str {
    if core.config().appenders().len() != 2 {
        return "none";
    }
    if drives {
        shown(&core.drive(1))
    } else {
        stepped(core.step(1))
    }
}

/// Does an act and writes its outcomes, each after a space: `!` makes a step and `*` a drive of
/// each appender, `!b` and `*b` of `b` alone, and any other act is a message that is logged.
fn act(
    alloc: Global,
    core: &mut CoreOf<Rolled, AnyFilter>,
    act: &str,
    text: &mut String,
) -> Result<(), Fail> {
    match act {
        "!" => {
            for outcome in core.step_all()? {
                write!(text, " {}", stepped(outcome))?;
            }
        }
        "*" => {
            for outcome in core.drive_all()? {
                write!(text, " {}", shown(&outcome))?;
            }
        }
        "!b" => write!(text, " {}", alone(core, false))?,
        "*b" => write!(text, " {}", alone(core, true))?,
        message => write!(text, " {}", logged(alloc, core, message)?)?,
    }
    Ok(())
}

/// Writes the files of each appender of a core, after a semicolon.
fn files(alloc: Global, core: CoreOf<Rolled, AnyFilter>, text: &mut String) -> Result<(), Fail> {
    let config = core.into_config();
    for appender in config.appenders() {
        text.push_str(" ;")?;
        text.push_str(held(alloc, appender.appender().store())?.as_str())?;
    }
    Ok(())
}

/// Does the acts of a line. Returns the outcomes and the files, and what the line expects.
fn came(alloc: Global, line: &str) -> Result<(String, &str), Fail> {
    let (plan, rest) = cut(line);
    let (other, rest) = cut(rest);
    let (acts, expected) = cut(rest);
    let mut core = core(alloc, plan, other)?;
    let mut text = String::new(alloc);
    for word in acts.split_whitespace() {
        act(alloc, &mut core, word, &mut text)?;
    }
    files(alloc, core, &mut text)?;
    Ok((text, expected))
}

/// The plans of the stores of `a` and of `b`, acts, and the expected outcomes and the files of
/// both. An append leaves `f.rolling`, which is gone after a drive. Each step makes one move in
/// each. A refused move is told at its place and stops no other.
const ACTS: &str = "||aaaaaaaaaaa| ok ; f.rolling=aaaaaaaaaaa ; f.rolling=aaaaaaaaaaa
||aaaaaaaaaaa *| ok ok ok ; f.0=aaaaaaaaaaa ; f.0=aaaaaaaaaaa
||aaaaaaaaaaa ! b ! !| ok more more ok done done done done ; f=b f.0=aaaaaaaaaaa ; f=b f.0=aaaaaaaaaaa
.....x||aaaaaaaaaaa *| ok store ok ; f.rolling=aaaaaaaaaaa ; f.0=aaaaaaaaaaa
|.....x|aaaaaaaaaaa * *| ok ok store ok ok ; f.0=aaaaaaaaaaa ; f.0=aaaaaaaaaaa
|.....x|aaaaaaaaaaa ! ! !| ok more store done more done done ; f.0=aaaaaaaaaaa ; f.0=aaaaaaaaaaa
||aaaaaaaaaaa *b| ok ok ; f.rolling=aaaaaaaaaaa ; f.0=aaaaaaaaaaa
||aaaaaaaaaaa !b !b !| ok more done more done ; f.rolling=aaaaaaaaaaa ; f.0=aaaaaaaaaaa
||* !| ok ok done done ; f= ; f=";

#[test]
fn cores_are_finished(rt: HostRuntime) -> Result<(), Fail> {
    for line in ACTS.lines() {
        let (came, expected) = came(rt.alloc(), line)?;
        same(&rt, came.as_str(), expected);
    }
    Ok(())
}
