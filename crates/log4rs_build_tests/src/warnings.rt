//! Warnings about configurations.

use crate::rows::cut;
use crate::setup::{Parts, same, surroundings};
use log4rs_build::{HandedInOf, RawConfig, Surroundings};
use log4rs_rolling::SizeTrigger;
use log4rs_settings::Format;
use std::alloc::{AllocError, Global};
use std::test::Fail;

/// The path of the configuration file, as it was given.
const PATH: &str = "./c//a.toml";

/// Configurations and their warnings, with `&` first if a file is rolled in the background. A row
/// has the appenders of the root, or `-` without a root, those of a logger, or `-`, and the
/// appenders, each with its name, kind and settings. `FOLDER` is `x`, `BRACES` is `a{}b`, `X1` is
/// `y1z`, it is January 1970, and a trigger was handed in for `h`.
const ROWS: &str = "\
- | - |  => ./c//a.toml: there is no appender, so nothing is logged
a | b |  => ./c//a.toml: there is no appender, so nothing is logged
- | - | a console => ./c//a.toml: the root names no appender, so a record is logged nowhere unless its logger names one; ./c//a.toml: appender a is named by no logger and not by the root, so it logs nothing
 | a | a console => ./c//a.toml: the root names no appender, so a record is logged nowhere unless its logger names one
a | - | a console => 
a a | - | a console => 
aa | A | a console => ./c//a.toml: appender a is named by no logger and not by the root, so it logs nothing
b | - | b console, c console, a nope => ./c//a.toml: appender a is named by no logger and not by the root, so it logs nothing; ./c//a.toml: appender c is named by no logger and not by the root, so it logs nothing
a | c b | b console, c console, a nope => 
a | - | a file c/a.toml => appender a writes to the file of its configuration: c/a.toml
a | - | a window c//./a.toml r.{} 0 1 => appender a writes to the file of its configuration: c/a.toml
a | - | a file /c/a.toml => 
a | - | a file a.toml => 
a | - | a file c/../c/a.toml => 
a | - | a file c/$TIME{a}.toml => appender a writes to the file of its configuration: c/a.toml
a | - | a delete c/$TIME{a}.toml => appender a: nothing replaces `$TIME{a}` in its path: c/$TIME{a}.toml
a | - | a file $ENV{NOPE}/f.log => appender a: nothing replaces `$ENV{NOPE}` in its path: $ENV{NOPE}/f.log
a | - | a file $TIME{%Q}.log => appender a: nothing replaces `$TIME{%Q}` in its path: $TIME{%Q}.log
a | - | a file $ENV{NOPE.log => 
a | - | a window f $TIME{%Y}.{} 3 2 => appender a: nothing replaces `$TIME{%Y}` in the names of its archives: $TIME{%Y}.3
a | - | a shown f.log {nope}{h({x}{{}}{m})}{d(%Q)} => ./c//a.toml: appenders.a.encoder.pattern: each record shows {ERROR: unknown formatter `nope`}; ./c//a.toml: appenders.a.encoder.pattern: each record shows {ERROR: unknown formatter `x`}; ./c//a.toml: appenders.a.encoder.pattern: each record shows {ERROR: invalid date format}
a | - | a shown f.log {{ERROR:_x}}{m} => 
a | - | a shown f.log {K(a)} => ./c//a.toml: appenders.a.encoder.pattern: each record shows {ERROR: The log_kv feature is required to parse the key_value argument}
a b | - | a file x.log, b file x.log => appenders a and b write to one file: x.log
a b | - | a file x.log, b file y.log => 
a b | - | a anew ./x.log, b file x.log => appenders a and b write to one file, which is emptied when it is opened: x.log
a b | - | a file x.log, b anew .//x.log => appenders a and b write to one file, which is emptied when it is opened: x.log
a b c | - | c delete x.log, b file x.log, a file x.log => appenders a and b write to one file: x.log; appenders a and c write to one file: x.log; appenders b and c write to one file: x.log
a b | - | a nope x.log, b file x.log => 
a b | - | a file $ENV{FOLDER}/l, b file x/l => appenders a and b write to one file: x/l
a b | - | a file $TIME{%Y}/l, b file 1970/l => appenders a and b write to one file: 1970/l
a b | - | a delete $TIME{%Y}/l, b file 1970/l => appender a: nothing replaces `$TIME{%Y}` in its path: $TIME{%Y}/l
a b | - | a behind h.log h.{} 0 2, b file h.log.rolling => & appenders a and b write to one file: h.log.rolling
a b | - | a behind h.log h.{} 0 0, b file h.log.rolling => 
a b | - | a window h.log h.{} 0 2, b file h.log.rolling => 
a | - | a behind h.log h.log.{}ing 0 2 => & 
a | - | a behind 0 {}.rolling 0 2 => & appender a: its file has the name of one of its archives: 0.rolling
h b | - | h mine h.log h.{} 0 2, b file h.log.rolling => & appenders b and h write to one file: h.log.rolling
a b | - | a mine h.log h.{} 0 2, b file h.log.rolling => 
a b | - | a window r.log s.{} 0 2, b file s.1 => the file of appender b is an archive of appender a: s.1
a b | - | a window r.log s.{} 0 2, b file s.2 => 
a b | - | a window s.1 r.{} 0 2, b window r.0 s.{} 1 1 => the file of appender a is an archive of appender b: s.1; the file of appender b is an archive of appender a: r.0
a b | - | a window s.1 s.{} 0 2, b file s.0 => appender a: its file has the name of one of its archives: s.1; the file of appender b is an archive of appender a: s.0
a b | - | a behind 1 s.{} 0 2, b window x {}.rolling 0 2 => & the file of appender a is an archive of appender b: 1.rolling
a b | - | a window a s.{} 0 2, b window b ./s.{} 1 5 => appenders a and b have one pattern of archives: s.{}
a b | - | a window a s.{} 0 2, b window b s.{} 2 5 => 
a b | - | a window a s.{} 2 5, b window b s.{} 0 2 => 
a b | - | a window a s.{} 0 0, b window b s.{} 0 5 => 
a b | - | a window a s.{} 3 1, b window b s.{} 0 9 => appenders a and b have one pattern of archives: s.{}
a b | - | a window a s.{} 4294967295 1, b window b s.{} 4294967294 4294967295 => appenders a and b have one pattern of archives: s.{}
a b | - | a window a x/{} 0 2, b window b $ENV{FOLDER}//{} 0 2 => appenders a and b have one pattern of archives: x/{}
a b | - | a window a s.{} 0 2, b window b t.{} 0 2 => 
a b | - | a window c/a.toml s.{} 0 2, b file c/a.toml, c window s.0 s.{} 0 2 => ./c//a.toml: appender c is named by no logger and not by the root, so it logs nothing; appender a writes to the file of its configuration: c/a.toml; appender b writes to the file of its configuration: c/a.toml; appenders a and b write to one file: c/a.toml; appender c: its file has the name of one of its archives: s.0; the file of appender c is an archive of appender a: s.0; appenders a and c have one pattern of archives: s.{}
a | - | a window r.0 r.{} 0 1 => appender a: its file has the name of one of its archives: r.0
a | - | a window ./r.0 r.{} 0 1 => appender a: its file has the name of one of its archives: r.0
a | - | a window r.0 ./r.{} 0 1 => appender a: its file has the name of one of its archives: r.0
a | - | a window r.1 r.{} 0 1 => 
a | - | a window r.1 r.{} 1 1 => appender a: its file has the name of one of its archives: r.1
a | - | a window r.0 r.{} 1 1 => 
a | - | a window r.12 r.{} 10 3 => appender a: its file has the name of one of its archives: r.12
a | - | a window r.13 r.{} 10 3 => 
a | - | a window r.2 r.{} 12 3 => 
a | - | a window r.01 r.{} 0 9 => 
a | - | a window r.+1 r.{} 0 9 => 
a | - | a window r.4294967294 r.{} 0 4294967295 => appender a: its file has the name of one of its archives: r.4294967294
a | - | a window r.4294967295 r.{} 0 4294967295 => 
a | - | a window r.1.1 r.{}.{} 0 9 => appender a: its file has the name of one of its archives: r.1.1
a | - | a window r.1.2 r.{}.{} 0 9 => 
a | - | a window 7/r.7 {}/./r.{} 0 9 => appender a: its file has the name of one of its archives: 7/r.7
a | - | a window $ENV{FOLDER}/r.1 x/r.{} 0 9 => appender a: its file has the name of one of its archives: x/r.1
a | - | a window x/r.1 $ENV{FOLDER}/r.{} 0 9 => appender a: its file has the name of one of its archives: x/r.1
a | - | a window x1 $ENV{FOLDER}{} 0 9 => appender a: its file has the name of one of its archives: x1
a | - | a window a{}b/r.1 $ENV{BRACES}/r.{} 0 9 => appender a: its file has the name of one of its archives: a{}b/r.1
a | - | a window a1b/r.1 $ENV{BRACES}/r.{} 0 9 => 
a | - | a window y1z $ENV{X{}} 0 9 => appender a: its file has the name of one of its archives: y1z; appender a: nothing replaces `$ENV{X0}` in the names of its archives: $ENV{X0}
a | - | a window y1z $ENV{X{}} 2 9 => appender a: nothing replaces `$ENV{X2}` in the names of its archives: $ENV{X2}
a | - | a window r.0 r.{} 0 0 => ";

/// Paths, and how a warning names them if two appenders write to them.
const PATHS: &str = "\
r.0 => r.0
./r.0 => r.0
././r.0 => r.0
a/./b => a/b
a//b => a/b
a/b/. => a/b
a/b/ => a/b
/a/b => /a/b
/./a => /a
//a => /a
a/../b => a/../b
../a => ../a
/../a => /../a
.a/b. => .a/b.
.../a => .../a
. => 
/ => /";

/// Appends names in brackets.
fn push_names(text: &mut String, names: &str) -> Result<(), AllocError> {
    text.push('[')?;
    for name in names.split(' ') {
        if !name.is_empty() {
            write!(text, "'{name}', ")?;
        }
    }
    text.push_str("]")
}

/// Appends an appender of a row.
fn push_appender(text: &mut String, appender: &str) -> Result<(), AllocError> {
    let mut words = appender.split(' ');
    let name = words.next().unwrap_or("");
    let kind = words.next().unwrap_or("");
    let path = words.next().unwrap_or("");
    write!(text, "appenders.{name} = ")?;
    match kind {
        "console" => text.push_str("{ kind = 'console' }"),
        "nope" => write!(text, "{{ kind = 'nope', path = '{path}' }}"),
        "file" => write!(text, "{{ kind = 'file', path = '{path}' }}"),
        "shown" => {
            let pattern = words.next().unwrap_or("");
            write!(
                text,
                "{{ kind = 'file', path = '{path}', encoder.pattern = '{pattern}' }}"
            )
        }
        "anew" => write!(text, "{{ kind = 'file', path = '{path}', append = false }}"),
        _ => {
            write!(
                text,
                "{{ kind = 'rolling_file', path = '{path}', policy = {{ "
            )?;
            let trigger = if kind == "mine" { "mine" } else { "onstartup" };
            write!(text, "trigger.kind = '{trigger}', roller = ")?;
            let pattern = words.next().unwrap_or("");
            let base = words.next().unwrap_or("");
            let count = words.next().unwrap_or("");
            let background = kind != "window";
            if kind == "delete" {
                text.push_str("{ kind = 'delete' } } }")
            } else {
                write!(
                    text,
                    "{{ kind = 'fixed_window', pattern = '{pattern}', base = {base}, count = {count}, background = {background} }} }} }}"
                )
            }
        }
    }
}

/// Returns the configuration of a row in TOML.
fn text_of(alloc: Global, row: &str) -> Result<String, AllocError> {
    let (root, rest) = row.split_once(" | ").unwrap_or((row, ""));
    let (logger, appenders) = rest.split_once(" | ").unwrap_or((rest, ""));
    let mut text = String::new(alloc);
    if root != "-" {
        text.push_str("root.appenders = ")?;
        push_names(&mut text, root)?;
        text.push('\n')?;
    }
    if logger != "-" {
        text.push_str("loggers.l.level = 'info'\nloggers.l.appenders = ")?;
        push_names(&mut text, logger)?;
        text.push('\n')?;
    }
    for appender in appenders.split(", ") {
        if !appender.is_empty() {
            push_appender(&mut text, appender)?;
            text.push('\n')?;
        }
    }
    Ok(text)
}

/// Returns the standard makers, with a trigger handed in for `h`.
fn parts(alloc: Global) -> Result<Parts, Fail> {
    let mut parts = Parts::new(alloc)?;
    parts.hand_in("h", HandedInOf::Trigger(SizeTrigger::new(1)))?;
    Ok(parts)
}

/// Returns the warnings of the configuration of a row, and `&` first if it rolls in the background.
fn told(
    alloc: Global,
    parts: &Parts,
    around: &Surroundings<'_>,
    row: &str,
) -> Result<String, Fail> {
    let text = text_of(alloc, row)?;
    let raw = RawConfig::from_text(alloc, Format::Toml, text.as_str())?;
    let mut told = String::new(alloc);
    let plans = raw.plans(parts)?;
    if plans.rolls_in_background() {
        told.push_str("& ")?;
    }
    let planned = plans.planned(around)?;
    show_lines(&mut told, &plans.warnings(&planned, PATH, &around.env)?)?;
    Ok(told)
}

/// Appends lines, separated by `; `.
fn show_lines(told: &mut String, lines: &Vec<String>) -> Result<(), AllocError> {
    let mut several = false;
    for line in lines {
        if several {
            told.push_str("; ")?;
        }
        several = true;
        told.push_str(line)?;
    }
    Ok(())
}

/// Sets a variable of the environment.
fn put(alloc: Global, around: &mut Surroundings<'_>, name: &str, value: &str) -> Result<(), Fail> {
    let name = String::from_str(alloc, name)?;
    around.env.insert(name, String::from_str(alloc, value)?)?;
    Ok(())
}

/// Returns the surroundings of the rows.
fn around(rt: &HostRuntime) -> Result<Surroundings<'static>, Fail> {
    let alloc = rt.alloc();
    let mut around = surroundings(alloc, rt.stdout(), rt.stderr());
    put(alloc, &mut around, "FOLDER", "x")?;
    put(alloc, &mut around, "BRACES", "a{}b")?;
    put(alloc, &mut around, "X1", "y1z")?;
    Ok(around)
}

/// Returns a row of two appenders that write to a path.
fn both_at(alloc: Global, path: &str) -> Result<String, AllocError> {
    format!(in alloc; "a b | - | a file {path}, b file {path}")
}

#[test]
fn warnings(rt: HostRuntime) -> Result<(), Fail> {
    let parts = parts(rt.alloc())?;
    let around = around(&rt)?;
    for row in ROWS.lines() {
        let (configuration, expected) = cut(row);
        let told = told(rt.alloc(), &parts, &around, configuration)?;
        same(&rt, told.as_str(), expected);
    }
    for row in PATHS.lines() {
        let (path, expected) = cut(row);
        let row = both_at(rt.alloc(), path)?;
        let told = told(rt.alloc(), &parts, &around, row.as_str())?;
        let told = told.as_str();
        let file = told.strip_prefix("appenders a and b write to one file: ");
        assert_eq!(rt; file, Some(expected), "{row}");
    }
    Ok(())
}
