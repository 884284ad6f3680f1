//! Records, contexts, stores and rollers of the tests.

use jiff::Timestamp;
use jiff::tz::TimeZone;
use log::Level;
use log4rs_append::Append;
use log4rs_base::{Context, LogError, OutOfMemory, Record};
use log4rs_encode::AnyEncoder;
use log4rs_encode::pattern::PatternEncoder;
use log4rs_rolling::store::Planned;
use log4rs_rolling::{FixedWindowRoller, MemStore, RollerError};
use std::alloc::Global;
use std::collections::BTreeMap;
use std::process::Abort;
use std::test::Fail;

/// Asserts that a text is the expected one.
pub(crate) fn same(stop: &impl Abort, found: &str, expected: &str) {
    assert_eq!(stop; found, expected);
}

pub(crate) fn string(alloc: Global, text: &str) -> Result<String, OutOfMemory> {
    Ok(String::from_str(alloc, text)?)
}

/// Returns an error record with the target `app`.
pub(crate) fn record(alloc: Global, message: &str) -> Result<Record, OutOfMemory> {
    let target = string(alloc, "app")?;
    Ok(Record::new(Level::Error, target, string(alloc, message)?))
}

/// Returns a context at the epoch in UTC.
pub(crate) fn context(alloc: Global) -> Context<'static> {
    Context::new(alloc, Timestamp::UNIX_EPOCH, TimeZone::UTC)
}

/// Appends the record of a message.
pub(crate) fn append<A: Append>(
    alloc: Global,
    appender: &mut A,
    message: &str,
) -> Result<(), LogError> {
    let record = record(alloc, message)?;
    appender.append(&record, &context(alloc))
}

/// Appends the record of a message as to a retired appender.
pub(crate) fn append_retired<A: Append>(
    alloc: Global,
    appender: &mut A,
    message: &str,
) -> Result<(), LogError> {
    let record = record(alloc, message)?;
    appender.append_retired(&record, &context(alloc))
}

/// Returns the word of an outcome.
pub(crate) fn shown(answer: &Result<(), LogError>) -> &'static str {
    match answer {
        Ok(()) => "ok",
        Err(LogError::Store) => "store",
        Err(LogError::Memory) => "memory",
        Err(LogError::Policy) => "policy",
        Err(LogError::Custom(_)) => "custom",
    }
}

/// Creates an encoder with a pattern.
pub(crate) fn pattern(alloc: Global, pattern: &str) -> Result<AnyEncoder, OutOfMemory> {
    Ok(AnyEncoder::Pattern(PatternEncoder::new(alloc, pattern)?))
}

/// Sets a variable of an environment.
fn set(
    alloc: Global,
    env: &mut BTreeMap<String, String>,
    name: &str,
    value: &str,
) -> Result<(), OutOfMemory> {
    env.insert(string(alloc, name)?, string(alloc, value)?)?;
    Ok(())
}

/// Returns an environment in which `NAME` is `f`, and `A0` and `A1` are `same`.
pub(crate) fn environment(alloc: Global) -> Result<BTreeMap<String, String>, OutOfMemory> {
    let mut env = BTreeMap::new(alloc);
    set(alloc, &mut env, "NAME", "f")?;
    set(alloc, &mut env, "A0", "same")?;
    set(alloc, &mut env, "A1", "same")?;
    Ok(env)
}

/// Returns the plan of these letters: `x` refuses, `1` and `2` take as many bytes, and `.` lets
/// pass.
pub(crate) fn planned(alloc: Global, letters: &str) -> Result<Vec<Planned>, OutOfMemory> {
    let mut plan = Vec::new(alloc);
    for letter in letters.chars() {
        plan.push(match letter {
            '1' => Planned::Take(1),
            '2' => Planned::Take(2),
            'x' => Planned::Refuse,
            _ => Planned::Do,
        })?;
    }
    Ok(plan)
}

/// Returns a store with this plan and the files of a text such as `f=abc g=`.
pub(crate) fn store(alloc: Global, told: &str, plan: &[Planned]) -> Result<MemStore, OutOfMemory> {
    let mut files = BTreeMap::new(alloc);
    for file in told.split(' ') {
        if let Some((path, text)) = file.split_once('=') {
            let bytes = Vec::from_slice(alloc, text.as_bytes())?;
            files.insert(string(alloc, path)?, bytes)?;
        }
    }
    let mut store = MemStore::new(alloc, files);
    store.plan(Vec::from_slice(alloc, plan)?);
    Ok(store)
}

/// Returns the files of a store in the form that `store` reads, each after a space.
pub(crate) fn held(alloc: Global, store: &MemStore) -> Result<String, Fail> {
    let mut text = String::new(alloc);
    for (path, bytes) in &store.files()? {
        let file = String::from_utf8(Vec::from_slice(alloc, bytes.as_slice())?)?;
        write!(text, " {path}={file}")?;
    }
    Ok(text)
}

/// A window of archives: the pattern, the lowest index, the number of archives, and whether only
/// renames are allowed.
pub(crate) type Window<'a> = (&'a str, u32, u32, bool);

/// Splits a line at its first bar.
pub(crate) fn cut(line: &str) -> (&str, &str) {
    line.split_once('|').unwrap_or((line, ""))
}

/// Returns the number before the first bar of a line, and the rest.
fn number(line: &str) -> (u32, &str) {
    let (digits, rest) = cut(line);
    (digits.parse().unwrap_or(0), rest)
}

/// Returns the window in the first three columns of a line, with copies allowed, and the rest.
pub(crate) fn window(line: &str) -> (Window<'_>, &str) {
    let (pattern, rest) = cut(line);
    let (base, rest) = number(rest);
    let (count, rest) = number(rest);
    ((pattern, base, count, false), rest)
}

/// Builds the roller of a window.
pub(crate) fn roller(alloc: Global, window: Window<'_>) -> Result<FixedWindowRoller, RollerError> {
    let (pattern, base, count, rename_only) = window;
    let Ok(env) = environment(alloc) else {
        return Err(RollerError::Memory);
    };
    FixedWindowRoller::builder()
        .base(base)
        .rename_only(rename_only)
        .build(alloc, pattern, count, &env)
}
