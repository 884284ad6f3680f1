//! Cases of rolling appenders: starting files, runs of records, and the resulting files.

use crate::fault::Fault;
use crate::fields::{field, flag, items, list, natural, text, texts};
use crate::folder::{texts_below, write_texts};
use crate::verdict::{Verdict, compare};
use jiff::Timestamp;
use jiff::tz::TimeZone;
use log::Level;
use log4rs_append::{Append, RollingFileAppender};
use log4rs_base::{Context, LogError, Record};
use log4rs_encode::pattern::PatternEncoder;
use log4rs_rolling::store::{FsStore, MemStore, Store};
use log4rs_rolling::{
    AnyRoller, AnyTriggerOf, CompoundPolicyOf, DeleteRoller, FixedWindowRoller, OnStartUpTrigger,
    RollerError, SizeTrigger,
};
use serde_json::Value;
use std::alloc::Global;
use std::collections::BTreeMap;
use std::fs::{self, Files};

/// The policy of a case, with a standard trigger.
type CasePolicy = CompoundPolicyOf<AnyTriggerOf<SizeTrigger>, AnyRoller>;

/// The appender of a case.
type CaseAppender<S> = RollingFileAppender<S, CasePolicy, PatternEncoder>;

/// Returns the trigger of a case.
fn trigger(case: &Value) -> Result<AnyTriggerOf<SizeTrigger>, Fault> {
    let settings = field(case, "trigger")?;
    match text(field(settings, "kind")?)? {
        "size" => Ok(AnyTriggerOf::Size(SizeTrigger::new(natural(settings, "limit")?))),
        "onstartup" => {
            let trigger = OnStartUpTrigger::new(natural(settings, "min_size")?);
            Ok(AnyTriggerOf::OnStartUp(trigger))
        }
        _ => Err(Fault::Malformed),
    }
}

/// Returns an index or a count.
fn index(settings: &Value, name: &str) -> Result<u32, Fault> {
    u32::try_from(natural(settings, name)?).map_err(|_| Fault::Malformed)
}

/// Returns the window of a case, below a folder.
fn window(
    alloc: Global,
    settings: &Value,
    folder: &str,
    env: &BTreeMap<String, String>,
) -> Result<FixedWindowRoller, Fault> {
    let builder = FixedWindowRoller::builder().base(index(settings, "base")?);
    let count = index(settings, "count")?;
    let pattern = text(field(settings, "pattern")?)?;
    let pattern = format!(in alloc; "{folder}{pattern}")?;
    match builder.build(alloc, pattern.as_str(), count, env) {
        Ok(roller) => Ok(roller),
        Err(RollerError::Memory) => Err(Fault::Memory),
        Err(_) => Err(Fault::Malformed),
    }
}

/// Returns the roller of a case, below a folder.
fn roller(
    alloc: Global,
    case: &Value,
    folder: &str,
    env: &BTreeMap<String, String>,
) -> Result<AnyRoller, Fault> {
    let settings = field(case, "roller")?;
    match text(field(settings, "kind")?)? {
        "delete" => Ok(AnyRoller::Delete(DeleteRoller::new())),
        "fixed_window" => Ok(AnyRoller::FixedWindow(window(alloc, settings, folder, env)?)),
        _ => Err(Fault::Malformed),
    }
}

/// The parts of a case's appender.
#[derive(Drop)]
struct CaseParts {
    append: bool,
    env: BTreeMap<String, String>,
    path: String,
    policy: CasePolicy,
    encoder: PatternEncoder,
}

/// Returns the policy of a case, below a folder.
fn policy(
    alloc: Global,
    case: &Value,
    folder: &str,
    env: &BTreeMap<String, String>,
) -> Result<CasePolicy, Fault> {
    Ok(CompoundPolicyOf::new(trigger(case)?, roller(alloc, case, folder, env)?))
}

/// Returns the parts of a case's appender, below a folder.
fn parts(alloc: Global, case: &Value, folder: &str) -> Result<CaseParts, Fault> {
    let append = flag(case, "append")?;
    let path = text(field(case, "path")?)?;
    let pattern = text(field(case, "encoder")?)?;
    let env = texts(alloc, case, "env")?;
    let path = format!(in alloc; "{folder}{path}")?;
    let policy = policy(alloc, case, folder, &env)?;
    let encoder = PatternEncoder::new(alloc, pattern)?;
    Ok(CaseParts {
        append,
        env,
        path,
        policy,
        encoder,
    })
}

/// Builds an appender. Returns `None` if it is refused.
fn appender<S: Store + Drop>(
    alloc: Global,
    parts: CaseParts,
    store: S,
) -> Result<Option<CaseAppender<S>>, Fault> {
    let CaseParts {
        append,
        env,
        path,
        policy,
        encoder,
    } = parts;
    let builder = RollingFileAppender::builder(alloc)
        .append(append)
        .encoder(encoder);
    match builder.build(path.as_str(), store, policy, &env) {
        Ok(appender) => Ok(Some(appender)),
        Err(LogError::Memory) => Err(Fault::Memory),
        Err(_) => Ok(None),
    }
}

/// Appends a message. Returns whether it succeeded, as a text.
fn answer<A: Append>(
    alloc: Global,
    appender: &mut A,
    message: &Value,
) -> Result<&'static str, Fault> {
    let message = String::from_str(alloc, text(message)?)?;
    let record = Record::new(Level::Info, String::new(alloc), message);
    let context = Context::new(alloc, Timestamp::UNIX_EPOCH, TimeZone::UTC);
    match appender.append(&record, &context) {
        Ok(()) => Ok(" ok"),
        Err(LogError::Memory) => Err(Fault::Memory),
        Err(_) => Ok(" fault"),
    }
}

/// Appends messages, and adds the result of each to `came`.
fn append_all<A: Append>(
    alloc: Global,
    appender: &mut A,
    messages: &[Value],
    came: &mut String,
) -> Result<(), Fault> {
    for message in messages {
        came.push_str(answer(alloc, appender, message)?)?;
    }
    Ok(())
}

/// Appends the messages of a run to a new appender, and adds the results to `came`. Returns the
/// appender.
fn run<S: Store + Drop>(
    alloc: Global,
    case: &Value,
    folder: &str,
    store: S,
    messages: &[Value],
    came: &mut String,
) -> Result<Option<CaseAppender<S>>, Fault> {
    let parts = parts(alloc, case, folder)?;
    let Some(mut appender) = appender(alloc, parts, store)? else {
        return Ok(None);
    };
    append_all(alloc, &mut appender, messages, came)?;
    Ok(Some(appender))
}

/// Returns the expected text of a case: the results of each run, and the files.
fn expected(alloc: Global, case: &Value) -> Result<String, Fault> {
    let mut expected = String::new(alloc);
    for answers in list(case, "ok")? {
        expected.push_str(" run")?;
        for answer in items(answers)? {
            let is_ok = answer.as_bool().ok_or(Fault::Malformed)?;
            expected.push_str(if is_ok { " ok" } else { " fault" })?;
        }
    }
    push_texts(alloc, &mut expected, &texts(alloc, case, "files")?)?;
    Ok(expected)
}

/// Appends files and their texts.
fn push_texts(
    alloc: Global,
    came: &mut String,
    files: &BTreeMap<String, String>,
) -> Result<(), Fault> {
    for (path, text) in files {
        came.push_str(format!(in alloc; "; {path}={text}")?.as_str())?;
    }
    Ok(())
}

/// Runs a case over real files in an empty folder, whose path ends with `/`. Returns the results
/// and the files.
fn on_disk<R: Files + AllocGlobal + Clone + Drop>(
    rt: &R,
    folder: &str,
    case: &Value,
) -> Result<String, Fault> {
    let alloc = rt.alloc();
    let mut came = String::new(alloc);
    write_texts(rt, folder, &texts(alloc, case, "initial")?)?;
    for messages in list(case, "runs")? {
        came.push_str(" run")?;
        let store = FsStore::new(alloc, rt);
        run(alloc, case, folder, store, items(messages)?, &mut came)?;
    }
    push_texts(alloc, &mut came, &texts_below(rt, folder)?)?;
    Ok(came)
}

/// Returns the files of a store, as texts.
fn told(alloc: Global, store: &MemStore) -> Result<BTreeMap<String, String>, Fault> {
    let mut told = BTreeMap::new(alloc);
    for (path, bytes) in &store.files()? {
        let bytes = Vec::from_slice(alloc, bytes.as_slice())?;
        let text = String::from_utf8(bytes).map_err(|_| Fault::Malformed)?;
        told.insert(path.clone()?, text)?;
    }
    Ok(told)
}

/// Creates a store in memory with these files.
fn store(alloc: Global, told: &BTreeMap<String, String>) -> Result<MemStore, Fault> {
    let mut files = BTreeMap::new(alloc);
    for (path, text) in told {
        files.insert(path.clone()?, Vec::from_slice(alloc, text.as_bytes())?)?;
    }
    Ok(MemStore::new(alloc, files))
}

/// Runs a case in memory. Each run begins with the files of the last one. Returns the results and
/// the files.
fn in_memory(alloc: Global, case: &Value) -> Result<String, Fault> {
    let mut came = String::new(alloc);
    let mut files = texts(alloc, case, "initial")?;
    for messages in list(case, "runs")? {
        came.push_str(" run")?;
        let store = store(alloc, &files)?;
        if let Some(appender) = run(alloc, case, "", store, items(messages)?, &mut came)? {
            files = told(alloc, appender.store())?;
        }
    }
    push_texts(alloc, &mut came, &files)?;
    Ok(came)
}

/// Returns whether a case names a folder. A store in memory has none.
fn names_folder(alloc: Global, case: &Value) -> Result<bool, Fault> {
    let initial = texts(alloc, case, "initial")?;
    let pattern = match field(case, "roller")?.get("pattern") {
        Some(pattern) => text(pattern)?,
        None => "",
    };
    Ok(
        text(field(case, "path")?)?.contains('/')
            || pattern.contains('/')
            || initial.keys().any(|path| path.contains('/')),
    )
}

/// Runs a case over real files in a new folder. Returns the results and the files.
fn in_new_folder<R: Files + AllocGlobal + Clone + Drop>(
    rt: &R,
    folder: &str,
    case: &Value,
) -> Result<String, Fault> {
    fs::create_dir(rt, folder)?;
    let came = on_disk(rt, folder, case);
    fs::remove_dir_all(rt, folder)?;
    came
}

/// Replays a case over real files in a new folder, and in memory if it names no folder.
pub fn replay_rolling<R: Files + AllocGlobal + Clone + Drop>(
    rt: &R,
    folder: &str,
    case: &Value,
) -> Result<Verdict, Fault> {
    let alloc = rt.alloc();
    let came = in_new_folder(rt, folder, case)?;
    let expected = expected(alloc, case)?;
    if came.as_str() != expected.as_str() || names_folder(alloc, case)? {
        return Ok(compare(alloc, &expected, &came)?);
    }
    Ok(compare(alloc, &expected, &in_memory(alloc, case)?)?)
}
