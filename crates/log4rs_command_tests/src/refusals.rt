//! Configuration files that are refused.

use crate::file_runs::{ended_over, folder, path_in};
use crate::runs::{lines_of, parts};
use std::fs;
use std::rt::Clock;
use std::sync::Wait;
use std::test::Fail;
use std::thread::Threads;

/// Runs with the configuration in a file. Returns the error after the path of the file, or the
/// whole outcome if the run ends otherwise.
fn refused<X: Threads + Wait + Clock + Clone + Copy + Send + Sync + Drop + 'static>(
    rt: &HostRuntime,
    files: X,
    folder: &str,
    name: &str,
) -> Result<String, Fail> {
    let mut input = b"INFO a 1\n".as_slice();
    let came = ended_over(rt, files, folder, name, &mut input)?;
    let begin = format!(in rt.alloc(); "2||log4rs-run: {folder}/{name}: ")?;
    let said = came.as_str().strip_prefix(begin.as_str());
    Ok(String::from_str(rt.alloc(), said.unwrap_or(came.as_str()))?)
}

const TOO_DEEP: &str = "the text is nested too deep at line 1, column ";

/// The name of a file, its text, and the beginning of the error, separated by arrows.
const TEXTS: &str = "\
log4rs -> x -> unable to determine the file format
.toml -> x -> unable to determine the file format
log4rs.TOML -> x -> unsupported file format `TOML`
log4rs.yml -> x -> the `yaml_format` feature is required for YAML support
empty.json ->  -> the text ends too early
open.toml -> root = { -> the text is not of its format
twice.toml -> root = {}¶root = {} -> a key stands twice at line 2, column 1
bracket.json -> {\"root\": {\"level\": \"info\"]} -> a bracket closes one of the other kind
list.json -> [] -> a list is no object
field.json -> {\"roots\": {}} -> unknown field `roots`
limit.toml -> appenders.a.kind = 1 -> appenders.a.kind: 1 is no text
level.toml -> root.level = 'loud' -> root.level: \"loud\" is no level
level.json -> {\"loggers\": {\"a\": {}}} -> loggers.a: missing field `level`
kind.toml -> appenders.a = {} -> appenders.a: missing field `kind`
types.toml -> appenders = [] -> appenders: a list is no object
float.toml -> root.level = 1.5 -> root.level: there is a floating-point number
date.toml -> root.level = 2016-03-20 -> root.level: there is a date-time
rate.json -> {\"refresh_rate\": \"30\"} -> refresh_rate: \"30\" is no duration, such as \"30 seconds\"
float.json -> {\"refresh_rate\": 1.5} -> refresh_rate: there is a floating-point number
minus.json -> {\"appenders\": {\"a\": {\"policy\": {\"limit\": -0}}}} -> appenders.a.policy.limit: there is a floating-point number
first.json -> {\"root\": {\"level\": 1.5}, \"loggers\": {\"a\": [1, 2.5]}} -> loggers.a.1: there is a floating-point number";

/// The name of a file, and the beginning of the error, separated by an arrow.
const FILES: &str = "\
none.toml -> No such file or directory
folder.toml -> Is a directory
bytes.toml -> stream did not contain valid UTF-8";

/// Writes the file of a row. Returns its name and the beginning of the error.
fn written<'a>(rt: &HostRuntime, folder: &str, row: &'a str) -> Result<(&'a str, &'a str), Fail> {
    let (name, rest) = parts(row)?;
    let (text, fault) = parts(rest)?;
    let text = lines_of(rt.alloc(), text)?;
    fs::write(rt, path_in(rt, folder, name)?.as_str(), text.as_str())?;
    Ok((name, fault))
}

#[test]
fn files_and_texts(rt: HostRuntime) -> Result<(), Fail> {
    let folder = folder(&rt, "refused")?;
    let folder = folder.as_str();
    fs::create_dir(&rt, path_in(&rt, folder, "folder.toml")?.as_str())?;
    fs::write(
        &rt,
        path_in(&rt, folder, "bytes.toml")?.as_str(),
        b"root = '\xff'",
    )?;
    for row in TEXTS.lines() {
        let (name, fault) = written(&rt, folder, row)?;
        let said = refused(&rt, rt, folder, name)?;
        assert!(rt; said.starts_with(fault) && said.ends_with("\n"), "{said}");
    }
    for row in FILES.lines() {
        let (name, fault) = parts(row)?;
        let said = refused(&rt, rt, folder, name)?;
        assert!(rt; said.starts_with(fault) && said.ends_with("\n"), "{said}");
    }
    for (name, begin) in [("deep.toml", "x = "), ("deep.json", "")] {
        let text = format!(in rt.alloc(); "{begin}{}", "[".repeat(rt.alloc(), 2000)?)?;
        fs::write(&rt, path_in(&rt, folder, name)?.as_str(), text.as_str())?;
        let said = refused(&rt, rt, folder, name)?;
        assert!(rt;
            said.starts_with(TOO_DEEP) && said.ends_with("\n"),
            "{said}"
        );
    }
    fs::remove_dir_all(&rt, folder)?;
    Ok(())
}
