use crate::background::Beside;
use crate::disk::{folder, text};
use crate::rolling::built_by;
use crate::setup::{
    append, append_retired, cut, environment, held, pattern, planned, roller, same, shown, store,
};
use jiff::Timestamp;
use jiff::tz::TimeZone;
use log4rs_append::{Append, FileAppender, RollingFileAppender, Steps};
use log4rs_base::LogError;
use log4rs_encode::AnyEncoder;
use log4rs_rolling::store::Store;
use log4rs_rolling::{CompoundPolicyOf, FsStore, MemStore, RollerError, SizeTrigger};
use std::alloc::Global;
use std::fs;
use std::test::Fail;

/// Builds an appender to the file at a path of the store.
pub(crate) fn built_with<S: Store + Drop>(
    alloc: Global,
    encoder: AnyEncoder,
    append: bool,
    path: &str,
    store: S,
) -> Result<FileAppender<S, AnyEncoder>, LogError> {
    let env = environment(alloc)?;
    FileAppender::builder(alloc)
        .encoder(encoder)
        .append(append)
        .build(path, store, &env, Timestamp::UNIX_EPOCH, &TimeZone::UTC)
}

/// Builds an appender of messages to the file at a path of the store.
fn built<S: Store + Drop>(
    alloc: Global,
    append: bool,
    path: &str,
    store: S,
) -> Result<FileAppender<S, AnyEncoder>, LogError> {
    built_with(alloc, pattern(alloc, "{m}")?, append, path, store)
}

/// `append` or `truncate`, the path, the plan of a store where `f` holds `old`, two messages, and
/// after bars the outcomes and the files.
const CASES: &str = "\
truncate|f||a b|ok ok f=ab
append|f||a b|ok ok f=oldab
append|new||a b|ok ok f=old new=ab
append|d/$ENV{NAME}-$TIME{%Y}||a b|ok ok d/f-1970=ab f=old
append|g|.111x111|abcdef xyz|store ok f=old g=abcxyz
truncate|f|.x|a b|store ok f=b
append|f|x|a b|not built
append|d/f|x|a b|not built";

/// Appends two records. Returns both outcomes and the files.
fn both(
    alloc: Global,
    appender: &mut FileAppender<MemStore, AnyEncoder>,
    one: &str,
    two: &str,
) -> Result<String, Fail> {
    let first = shown(&append(alloc, appender, one));
    let second = shown(&append(alloc, appender, two));
    let files = held(alloc, appender.store())?;
    Ok(format!(in alloc; "{first} {second}{files}")?)
}

/// Appends two records to the file of a line. Returns both outcomes and the files, or `not built` if
/// the building fails, and what the line expects.
fn came(alloc: Global, line: &str) -> Result<(String, &str), Fail> {
    let (mode, rest) = cut(line);
    let (path, rest) = cut(rest);
    let (plan, rest) = cut(rest);
    let (messages, expected) = cut(rest);
    let (one, two) = messages.split_once(' ').unwrap_or((messages, ""));
    let store = store(alloc, "f=old", planned(alloc, plan)?.as_slice())?;
    match built(alloc, mode == "append", path, store) {
        Ok(mut appender) => Ok((both(alloc, &mut appender, one, two)?, expected)),
        Err(_) => Ok((String::from_str(alloc, "not built")?, expected)),
    }
}

#[test]
fn files_and_refusals(rt: HostRuntime) -> Result<(), Fail> {
    for line in CASES.lines() {
        let (came, expected) = came(rt.alloc(), line)?;
        same(&rt, came.as_str(), expected);
    }
    Ok(())
}

/// Appends a record to a column that is wider than memory. Returns the outcome and the files.
fn too_wide(alloc: Global) -> Result<String, Fail> {
    let store = store(alloc, "f=old", &[])?;
    let wide = pattern(alloc, "a{m:18446744073709551615}")?;
    let mut appender = built_with(alloc, wide, true, "f", store)?;
    let answer = append(alloc, &mut appender, "x");
    let files = held(alloc, appender.store())?;
    Ok(format!(in alloc; "{}{files}", shown(&answer))?)
}

#[test]
fn a_column_wider_than_memory(rt: HostRuntime) -> Result<(), Fail> {
    same(&rt, too_wide(rt.alloc())?.as_str(), "memory f=old");
    Ok(())
}

/// Opens the file at a path of real files, and appends a message. Returns the outcome and the
/// number of refused operations, or `not built`.
fn appended(
    rt: &HostRuntime,
    append_mode: bool,
    path: &str,
    message: &str,
) -> Result<String, Fail> {
    let store = FsStore::new(rt.alloc(), rt);
    match built(rt.alloc(), append_mode, path, store) {
        Ok(mut appender) => {
            let answer = shown(&append(rt.alloc(), &mut appender, message));
            let refusals = appender.store().refusals();
            Ok(format!(in rt.alloc(); "{answer} {refusals}")?)
        }
        Err(_) => Ok(String::from_str(rt.alloc(), "not built")?),
    }
}

#[test]
fn real_files(rt: HostRuntime) -> Result<(), Fail> {
    let folder = folder(&rt, "appenders")?;
    let path = format!(in rt.alloc(); "{}/below/f", folder.as_str())?;
    let path = path.as_str();
    for (append_mode, expected) in [(true, "one"), (true, "oneone"), (false, "one")] {
        same(
            &rt,
            appended(&rt, append_mode, path, "one")?.as_str(),
            "ok 0",
        );
        same(&rt, text(&rt, "", path)?.as_str(), expected);
    }
    let below = format!(in rt.alloc(); "{path}/f")?;
    for path in ["", "/dev/full/f", folder.as_str(), below.as_str(), "a\0b"] {
        same(
            &rt,
            appended(&rt, true, path, "lost")?.as_str(),
            "not built",
        );
    }
    same(
        &rt,
        appended(&rt, true, "/dev/full", "lost")?.as_str(),
        "store 1",
    );
    fs::remove_dir_all(&rt, folder.as_str())?;
    Ok(())
}

/// A store of real files.
type Disk<'a> = FsStore<&'a HostRuntime>;

/// Builds an appender that empties a real file.
fn plain<'a>(
    rt: &'a HostRuntime,
    path: &str,
    end: &str,
) -> Result<FileAppender<Disk<'a>, AnyEncoder>, LogError> {
    let alloc = rt.alloc();
    built_with(
        alloc,
        pattern(alloc, end)?,
        false,
        path,
        FsStore::new(alloc, rt),
    )
}

/// Returns a policy that never rolls the files of this test, with one archive.
fn seldom(alloc: Global) -> Result<Beside, RollerError> {
    let roller = roller(alloc, ("f.{}", 0, 1, false))?;
    Ok(CompoundPolicyOf::new(SizeTrigger::new(1_000_000), roller))
}

/// Builds an appender that empties a real file and may roll it.
fn rolled<'a>(
    rt: &'a HostRuntime,
    path: &str,
    end: &str,
) -> Result<RollingFileAppender<Disk<'a>, Beside, AnyEncoder>, LogError> {
    let alloc = rt.alloc();
    let Ok(policy) = seldom(alloc) else {
        return Err(LogError::Policy);
    };
    let store = FsStore::new(alloc, rt);
    built_by(alloc, pattern(alloc, end)?, false, path, store, policy)
}

/// Appends a message, and retires the appender. Returns whether both worked.
fn is_left<A: Steps>(alloc: Global, old: &mut A) -> bool {
    append(alloc, old, "one").is_ok() && old.retire().is_ok()
}

/// Appends a message to an appender, one to its retired predecessor, and one again. Returns whether
/// all worked.
fn is_shared<A: Append, B: Append>(alloc: Global, old: &mut A, new: &mut B) -> bool {
    append(alloc, new, "two").is_ok()
        && append_retired(alloc, old, "late").is_ok()
        && append(alloc, new, "four").is_ok()
}

/// Has an appender and its successor, which both empty the file, append by turns. Returns whether
/// all worked.
fn plain_in_turn(rt: &HostRuntime, path: &str) -> Result<bool, LogError> {
    let mut old = plain(rt, path, "{m};")?;
    let is_left = is_left(rt.alloc(), &mut old);
    let mut new = plain(rt, path, "{m}.")?;
    Ok(is_left && is_shared(rt.alloc(), &mut old, &mut new))
}

/// The same of appenders that may roll the file.
fn rolled_in_turn(rt: &HostRuntime, path: &str) -> Result<bool, LogError> {
    let mut old = rolled(rt, path, "{m};")?;
    let is_left = is_left(rt.alloc(), &mut old);
    let mut new = rolled(rt, path, "{m}.")?;
    Ok(is_left && is_shared(rt.alloc(), &mut old, &mut new))
}

#[test]
fn a_late_record_empties_no_file(rt: HostRuntime) -> Result<(), Fail> {
    let folder = folder(&rt, "late")?;
    let path = format!(in rt.alloc(); "{}/f", folder.as_str())?;
    let path = path.as_str();
    assert!(rt; plain_in_turn(&rt, path)?);
    same(&rt, text(&rt, "", path)?.as_str(), "two.late;four.");
    assert!(rt; rolled_in_turn(&rt, path)?);
    same(&rt, text(&rt, "", path)?.as_str(), "two.late;four.");
    fs::remove_dir_all(&rt, folder.as_str())?;
    Ok(())
}
