//! Sequences of store operations and their outcomes.

use log4rs_rolling::store::{Open, Renamed, Store, StoreError};
use std::alloc::Global;
use std::fmt::{Debug, Display};
use std::test::Fail;

/// Returns the path of a file of the test.
pub(crate) fn path_in(alloc: Global, folder: &str, path: &str) -> Result<String, Fail> {
    if path.is_empty() || path.starts_with('/') {
        return Ok(String::from_str(alloc, path)?);
    }
    Ok(format!(in alloc; "{folder}/{path}")?)
}

/// Returns the text of an outcome.
fn shown<T: Display + Drop, E: Debug + Drop>(
    alloc: Global,
    answer: Result<T, E>,
) -> Result<String, Fail> {
    match answer {
        Ok(value) => Ok(format!(in alloc; "{value}")?),
        Err(error) => Ok(format!(in alloc; "{error:?}")?),
    }
}

/// Does an operation on a path, or on two, other than a rename.
fn done_at<S: Store>(
    store: &mut S,
    name: &str,
    one: &str,
    two: &str,
) -> Result<&'static str, StoreError> {
    match name {
        "dirs" => store.make_dirs(one)?,
        "append" => store.open(one, Open::Append)?,
        "truncate" => store.open(one, Open::Truncate)?,
        "copy" => store.copy(one, two)?,
        _ => store.remove(one)?,
    }
    Ok("ok")
}

/// Renames a file. Returns the outcome.
fn renamed<S: Store>(store: &mut S, from: &str, to: &str) -> Result<&'static str, StoreError> {
    match store.rename(from, to)? {
        Renamed::Moved => Ok("moved"),
        Renamed::Missing => Ok("missing"),
    }
}

/// Does an operation such as `len`, `write abc`, `close`, `append f` or `rename f g`. Paths that do
/// not begin with `/` are relative to the folder. Returns the outcome.
fn done<S: Store>(alloc: Global, folder: &str, store: &mut S, step: &str) -> Result<String, Fail> {
    let (name, rest) = step.split_once(' ').unwrap_or((step, ""));
    match name {
        "len" => return shown(alloc, store.len()),
        "write" => return shown(alloc, store.write(rest.as_bytes())),
        "close" => {
            store.close();
            return Ok(String::from_str(alloc, "ok")?);
        }
        _ => (),
    }
    let (one, two) = rest.split_once(' ').unwrap_or((rest, ""));
    let one = path_in(alloc, folder, one)?;
    let two = path_in(alloc, folder, two)?;
    let (one, two) = (one.as_str(), two.as_str());
    match name {
        "rename" => shown(alloc, renamed(store, one, two)),
        _ => shown(alloc, done_at(store, name, one, two)),
    }
}

/// Does the operations that semicolons separate. Returns the outcomes, separated by spaces.
pub(crate) fn answers<S: Store>(
    alloc: Global,
    folder: &str,
    store: &mut S,
    steps: &str,
) -> Result<String, Fail> {
    let mut text = String::new(alloc);
    for step in steps.split(';') {
        if !text.is_empty() {
            text.push(' ')?;
        }
        text.push_str(done(alloc, folder, store, step)?.as_str())?;
    }
    Ok(text)
}

/// Operations with the same outcomes in every store.
pub(crate) const ALIKE: &str = "len;write x;dirs d;truncate a;write abc;len;append a;write de;\
    write ;len;close;len;copy a b;copy a a;rename b c;rename b d;remove b;copy b c;append a;len;\
    rename a c;write f;truncate b;append c;len;remove b;write fg;copy c e;len;truncate g";

/// The outcomes of `ALIKE`.
pub(crate) const ALIKE_ANSWERS: &str =
    "NotOpen NotOpen ok ok 3 3 ok 2 0 5 ok NotOpen ok ok moved missing Absent Absent ok 5 moved \
     NotOpen ok ok 5 ok 2 ok NotOpen ok";
