//! Runs with configurations in files.

use crate::world::{Still, Telling, arguments, config_file, host_of, same};
use log4rs_command::command::run;
use std::io::{BufRead, ErrorKind};
use std::rt::Clock;
use std::sync::Wait;
use std::test::Fail;
use std::thread::Threads;
use std::{env, fs, process};

/// Creates a folder for a test in the system's temporary folder. Returns its path.
pub(crate) fn folder(rt: &HostRuntime, name: &str) -> Result<String, Fail> {
    let (temp, number) = (env::temp_dir(rt)?, process::id(rt.process()));
    let path = format!(in rt.alloc(); "{}/log4rs_run_{number}_{name}", temp.as_str())?;
    fs::create_dir(rt, path.as_str())?;
    Ok(path)
}

/// Returns the path of a file in a folder.
pub(crate) fn path_in(rt: &HostRuntime, folder: &str, name: &str) -> Result<String, Fail> {
    Ok(format!(in rt.alloc(); "{folder}/{name}")?)
}

/// Runs with the configuration in a file of a folder, which is `FOLDER` in the environment. Further
/// arguments stand behind the name of the file, each after a bar. Returns the status, the output,
/// and what was printed to standard error followed by the error output, separated by bars.
pub(crate) fn ended_over<
    X: Threads + Wait + Clock + Clone + Copy + Send + Sync + Drop + 'static,
    R: BufRead,
>(rt: &HostRuntime, files: X, folder: &str, words: &str, input: &mut R) -> Result<String, Fail> {
    let (name, _) = words.split_once('|').unwrap_or((words, ""));
    let file = config_file(rt, path_in(rt, folder, name)?);
    let args = format!(in rt.alloc(); "file|{folder}/{words}")?;
    let args = arguments(rt.alloc(), args.as_str())?;
    let (mut out, mut err) = (Vec::new(rt.alloc()), Vec::new(rt.alloc()));
    let mut host = host_of(rt, Telling::new(files, rt.alloc())?, Still);
    let variable = String::from_str(rt.alloc(), "FOLDER")?;
    let value = String::from_str(rt.alloc(), folder)?;
    host.env.insert(variable, value)?;
    let status = run(&args, file, &mut host, input, &mut out, &mut err);
    let (out, err) = (String::from_utf8(out)?, String::from_utf8(err)?);
    let told = host.files.take(rt.alloc());
    Ok(format!(in rt.alloc(); "{status}|{out}|{told}{err}")?)
}

const TOML: &str = "
refresh_rate = '60 seconds'
appenders.all = { kind = 'file', path = '$ENV{FOLDER}/all.log', encoder.pattern = '{l} {m};' }
appenders.dated.kind = 'file'
appenders.dated.path = '$ENV{FOLDER}/made/$TIME{%Y-%m-%d}.log'
appenders.dated.encoder.pattern = '{d} {t}'
root = { level = 'info', appenders = ['all'] }
loggers.'a::b' = { level = 'error', appenders = ['dated'] }
";

const JSON: &str = r#"{"appenders": {
"late": {"kind": "file", "path": "$ENV{FOLDER}/late.log", "encoder": {"pattern": "{m};"},
"filters": [{"kind": "threshold", "level": "warn"}]},
"rolled": {"kind": "rolling_file", "path": "$ENV{FOLDER}/rolled.log", "append": false,
"encoder": {"kind": "pattern", "pattern": "{m}"},
"policy": {"trigger": {"kind": "size", "limit": 3},
"roller": {"kind": "fixed_window", "pattern": "$ENV{FOLDER}/old/{}.log", "count": 2}}}},
"root": {"appenders": ["late", "rolled"]}}"#;

const FAULTY: &str = r#"{"appenders": {
"d": {"kind": "file", "path": "$ENV{FOLDER}/d.log", "encoder": {"pattern": "{m};"},
"filters": [{"kind": "odd"}, {"kind": "threshold"}]},
"c": {"kind": "file", "path": "$ENV{FOLDER}"},
"b": {"kind": "nope"},
"a": {"kind": "file", "path": "$ENV{FOLDER}/a.log", "zz": 1, "append": 2}},
"root": {"level": "info", "appenders": ["a", "d", "e"]},
"loggers": {"x:y": {"level": "info"}, "x": {"level": "off", "appenders": ["b"]}}}"#;

const FAULTS: &str = "\
1||log4rs: F/faulty.json: appenders.a: unknown field `zz`; appender a is left out
log4rs: F/faulty.json: appenders.b: no appender deserializer for kind `nope` registered; \
appender b is left out
log4rs: F/faulty.json: appender c is left out: its file cannot be opened
log4rs: F/faulty.json: appenders.d.filters.0: no filter deserializer for kind `odd` \
registered; appender d passes every record that its other filters pass
log4rs: F/faulty.json: appenders.d.filters.1: missing field `level`; appender d \
passes every record that its other filters pass
log4rs: Reference to nonexistent appender: `e`
log4rs: Invalid logger name `x:y`
log4rs: F/faulty.json: appender c is named by no logger and not by the root, so it logs nothing
";

const FULL: &str = r#"{"appenders": {
"b": {"kind": "file", "path": "/dev/full"},
"a\n\u001b[31m": {"kind": "file", "path": "/dev/full",
"filters": [{"kind": "threshold", "level": "warn"}]},
"c\r": {"kind": "\u0007"},
"d": {"kind": "file", "path": "$ENV{FOLDER}/d.log", "encoder": {"pattern": "{m};"}}},
"root": {"level": "info", "appenders": ["a\n\u001b[31m", "b", "d", "b"]}}"#;

const FAILED: &str = "\
1||log4rs: F/full.json: appenders.c\\r: no appender deserializer for kind `\\u{7}` registered; \
appender c\\r is left out
log4rs: F/full.json: appender c\\r is named by no logger and not by the root, so it logs nothing
log4rs: appenders a\\n\\u{1b}[31m and b write to one file: /dev/full
log4rs: appender b: the store refused an operation
log4rs: appender a\\n\\u{1b}[31m: the store refused an operation
log4rs: appender a\\n\\u{1b}[31m: 1 append failed
log4rs: appender b: 4 appends failed
";

const OVERLAPPING: &str = r#"{"appenders": {
"a": {"kind": "file", "path": "$ENV{FOLDER}/./one.log", "encoder": {"pattern": "{m};"}},
"b": {"kind": "file", "path": "$ENV{FOLDER}//one.log", "append": false},
"c": {"kind": "file", "path": "$ENV{FOLDER}/two.log"},
"d": {"kind": "rolling_file", "path": "$ENV{FOLDER}/two.log",
"policy": {"trigger": {"kind": "size", "limit": 100}, "roller": {"kind": "delete"}}},
"e": {"kind": "rolling_file", "path": "$ENV{FOLDER}/r.1.log",
"policy": {"trigger": {"kind": "size", "limit": 100},
"roller": {"kind": "fixed_window", "pattern": "$ENV{FOLDER}/./r.{}.log", "count": 2}}},
"f": {"kind": "nope", "path": "$ENV{FOLDER}/two.log"},
"g": {"kind": "console", "target": "stderr", "tty_only": true},
"h": {"kind": "rolling_file", "path": "$ENV{FOLDER}/h.log",
"policy": {"trigger": {"kind": "size", "limit": 100}, "roller": {"kind": "fixed_window",
"pattern": "$ENV{FOLDER}/h.{}.log", "count": 2, "background": true}}},
"i": {"kind": "file", "path": "$ENV{FOLDER}/h.log.rolling"}},
"root": {"level": "info", "appenders": ["a"]},
"loggers": {"none": {"level": "off", "appenders": ["b", "c", "d", "e", "g", "h", "i"]}}}"#;

const OVERLAPS: &str = "\
1||log4rs: F/overlapping.json: appenders.f: no appender deserializer for kind `nope` registered; \
appender f is left out
log4rs: F/overlapping.json: appender f is named by no logger and not by the root, so it logs nothing
log4rs: appenders a and b write to one file, which is emptied when it is opened: F/one.log
log4rs: appenders c and d write to one file: F/two.log
log4rs: appender e: its file has the name of one of its archives: F/r.1.log
log4rs: appenders h and i write to one file: F/h.log.rolling
";

const BACKGROUND: &str = "
appenders.foo.kind = 'rolling_file'
appenders.foo.path = '$ENV{FOLDER}/foo.log'
appenders.foo.encoder.pattern = '{m}{n}'
appenders.foo.policy.trigger = { kind = 'size', limit = 10 }
root = { level = 'info', appenders = ['foo'] }
[appenders.foo.policy.roller]
kind = 'fixed_window'
pattern = '$ENV{FOLDER}/foo.log.{}'
count = 2
background = true
";

/// The archives are below a file, so no move to them succeeds.
const UNDONE: &str = "
appenders.foo.kind = 'rolling_file'
appenders.foo.path = '$ENV{FOLDER}/foo.log'
appenders.foo.encoder.pattern = '{m}{n}'
appenders.foo.policy.trigger = { kind = 'size', limit = 10 }
root = { level = 'info', appenders = ['foo'] }
[appenders.foo.policy.roller]
kind = 'fixed_window'
pattern = '$ENV{FOLDER}/undone.toml/{}'
count = 2
background = true
";

const NOTHING_LOGGED: &str =
    "0||log4rs: F/empty.toml: there is no appender, so nothing is logged\n";

/// Stands for the text of a missing file.
const NO_FILE: &str = "no file";

/// The configuration file of the run that finds what a killed run left of a rolling in the
/// background.
const LEFT_BEHIND: &str = "left.toml";

/// The files that it finds: the waiting file and an archive.
const LEFT: [(&str, &str); 2] = [("foo.log.rolling", "rec-01\nrec-02\n"), ("foo.log.0", "A")];

/// Writes the files that the run of `LEFT_BEHIND` finds.
fn leave(rt: &HostRuntime, folder: &str, name: &str) -> Result<(), Fail> {
    if name != LEFT_BEHIND {
        return Ok(());
    }
    for (file, held) in LEFT {
        fs::write(rt, path_in(rt, folder, file)?.as_str(), held)?;
    }
    Ok(())
}

/// Returns whether a file has this text, or is missing if the text is `NO_FILE`.
fn holds(rt: &HostRuntime, path: &str, held: &str) -> Result<bool, Fail> {
    match fs::read_to_string(rt, path) {
        Ok(text) => Ok(text.as_str() == held),
        Err(fault) if fault.kind() == ErrorKind::NotFound => Ok(held == NO_FILE),
        Err(fault) => Err(Fail::from(fault)),
    }
}

/// Returns whether each file in a folder has its text. Files are separated by bars, as in
/// `a.log=one;|b.log=no file`.
fn hold(rt: &HostRuntime, folder: &str, files: &str) -> Result<bool, Fail> {
    for told in files.split('|') {
        let (file, held) = told.split_once('=').unwrap_or((told, ""));
        if !holds(rt, path_in(rt, folder, file)?.as_str(), held)? {
            return Ok(false);
        }
    }
    Ok(true)
}

/// Runs with a configuration of this name and text in a folder of its own. Returns the outcome, with
/// the folder as `F`, and after it whether files in the folder have other texts than these.
fn logged<X: Threads + Wait + Clock + Clone + Copy + Send + Sync + Drop + 'static>(
    rt: &HostRuntime,
    files: X,
    (name, text): (&str, &str),
    input: &str,
    held: &str,
) -> Result<String, Fail> {
    let folder = folder(rt, name)?;
    let folder = folder.as_str();
    fs::write(rt, path_in(rt, folder, name)?.as_str(), text)?;
    leave(rt, folder, name)?;
    let mut input = input.as_bytes();
    let came = ended_over(rt, files, folder, name, &mut input)?;
    let mut came = came.as_str().replace(rt.alloc(), folder, "F")?;
    if !hold(rt, folder, held)? {
        came.push_str("other files")?;
    }
    fs::remove_dir_all(rt, folder)?;
    Ok(came)
}

const LEVELS: &str = "INFO a 1\nDEBUG a 2\nWARN a::b 3\nERROR a::b 4\nWARN a::bc 5\nINFO a ";

const LONG: &str = "WARN a 1\nbad\nDEBUG a 22\nERROR a 333\nTRACE a 4444\nINFO a 5555\nINFO a 6";

#[test]
fn logs_by_files(rt: HostRuntime) -> Result<(), Fail> {
    let held =
        "all.log=INFO 1;ERROR 4;WARN 5;INFO ;|made/2016-03-20.log=2016-03-20T22:22:20+00:00 a::b";
    same(
        &rt,
        logged(&rt, rt, ("log4rs.toml", TOML), LEVELS, held)?.as_str(),
        "0||",
    );
    let held = "late.log=1;333;|rolled.log=6|old/0.log=5555|old/1.log=122333";
    let expected = "1||log4rs-run: line 2: malformed\n";
    same(
        &rt,
        logged(&rt, rt, ("log4rs.json", JSON), LONG, held)?.as_str(),
        expected,
    );
    let input = "INFO a 1\nERROR x 2\n";
    same(
        &rt,
        logged(&rt, rt, ("faulty.json", FAULTY), input, "d.log=1;")?.as_str(),
        FAULTS,
    );
    let input = "INFO a 1\nWARN x 2\nDEBUG x 3\n";
    same(
        &rt,
        logged(&rt, rt, ("full.json", FULL), input, "d.log=1;2;")?.as_str(),
        FAILED,
    );
    let overlapping = ("overlapping.json", OVERLAPPING);
    same(
        &rt,
        logged(&rt, rt, overlapping, "INFO a 1\n", "one.log=1;")?.as_str(),
        OVERLAPS,
    );
    let came = logged(&rt, rt, ("empty.toml", ""), "INFO a 1\n", "f=no file")?;
    same(&rt, came.as_str(), NOTHING_LOGGED);
    Ok(())
}

const SIX: &str = "INFO a rec-01\nINFO a rec-02\nINFO a rec-03\nINFO a rec-04\nINFO a rec-05\n\
    INFO a rec-06\n";

#[test]
fn rolls_in_the_background(rt: HostRuntime) -> Result<(), Fail> {
    let held = "foo.log=no file|foo.log.rolling=no file|foo.log.0=rec-05\nrec-06\n|\
        foo.log.1=rec-03\nrec-04\n|foo.log.2=no file";
    same(
        &rt,
        logged(&rt, rt, ("background.toml", BACKGROUND), SIX, held)?.as_str(),
        "0||",
    );
    let held = "foo.log=rec-03\n|foo.log.rolling=no file|foo.log.0=rec-01\nrec-02\n|foo.log.1=A";
    let came = logged(&rt, rt, (LEFT_BEHIND, BACKGROUND), "INFO a rec-03\n", held)?;
    same(&rt, came.as_str(), "0||");
    let two = "INFO a rec-01\nINFO a rec-02\n";
    let expected = "1||log4rs: appender foo: the store refused an operation\n";
    let held = "foo.log=no file|foo.log.rolling=rec-01\nrec-02\n";
    same(
        &rt,
        logged(&rt, rt, ("undone.toml", UNDONE), two, held)?.as_str(),
        expected,
    );
    Ok(())
}
