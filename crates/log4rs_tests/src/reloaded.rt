use crate::notes::{Notebook, Noter, Telling, log, noting};
use crate::setup::{same, surroundings};
use log::Level;
use log4rs::append::Log;
use log4rs::config::file::{ConfigSource, Gate, InitError, SourceError};
use log4rs::config::raw::{DeserializersOf, Format, HandedInOf, RawConfig};
use log4rs::config::{init_file, init_raw_config};
use log4rs::encode::pattern::PatternEncoder;
use log4rs::filter::ThresholdFilter;
use log4rs::policy::SizeTrigger;
use log4rs::store::MemMaker;
use log4rs::{OutOfMemory, Surroundings};
use std::alloc::Global;
use std::sync::Wait;
use std::test::Fail;

/// A source whose text changes after `quiet` questions for its stamp.
#[derive(Drop)]
struct Changing {
    alloc: Global,
    texts: [&'static str; 2],
    quiet: u64,
    changed: bool,
}

impl ConfigSource for Changing {
    fn modified(&mut self) -> Result<u64, SourceError> {
        self.changed = self.quiet == 0;
        self.quiet = self.quiet.saturating_sub(1);
        Ok(u64::from(self.changed))
    }

    fn read(&mut self) -> Result<String, SourceError> {
        let [before, after] = self.texts;
        let text = if self.changed { after } else { before };
        String::from_str(self.alloc, text).map_err(|_| SourceError::Memory)
    }

    /// Takes each first folder of a path for a device.
    fn are_on_two_devices(&self, first: &str, second: &str) -> bool {
        device_of(first) != device_of(second)
    }
}

/// Returns the first folder of a path.
fn device_of(path: &str) -> &str {
    path.split_once('/').unwrap_or(("", path)).0
}

/// A gate that notes its turns, and allows `left` of them.
#[derive(Drop)]
pub(crate) struct Turns<W> {
    pub(crate) alloc: Global,
    pub(crate) left: u64,
    pub(crate) book: Notebook<W>,
}

impl<W: Wait> Turns<W> {
    fn note(&self, millis: u64) -> Result<(), OutOfMemory> {
        let millis = format!(in self.alloc; "{millis}")?;
        self.book.note("turn", &millis)
    }
}

impl<W: Wait> Gate for Turns<W> {
    fn turn(&mut self, millis: u64) -> bool {
        if self.left == 0 || self.note(millis).is_err() {
            return false;
        }
        self.left -= 1;
        true
    }
}

type Parts<W> = DeserializersOf<Noter<W>, ThresholdFilter, PatternEncoder, SizeTrigger>;

/// Hands in three appenders for `a`, used in order.
fn hand_in<W: Clone + Drop>(
    alloc: Global,
    book: &Notebook<W>,
    parts: &mut Parts<W>,
) -> Result<(), OutOfMemory> {
    for name in "first second third".split_whitespace() {
        let noter = noting(alloc, book, (name, false))?;
        parts.hand_in("a", HandedInOf::Appender(noter))?;
    }
    Ok(())
}

/// Returns deserializers with these appenders.
fn parts<W: Clone + Drop>(alloc: Global, book: &Notebook<W>) -> Result<Parts<W>, OutOfMemory> {
    let mut parts = Parts::new(alloc)?;
    hand_in(alloc, book, &mut parts)?;
    Ok(parts)
}

const RATED: &str = r#"refresh_rate = "5 seconds"
appenders = { a = { kind = "mine" } }
root = { level = "info", appenders = ["a"] }"#;

const UNRATED: &str =
    r#"appenders = { a = { kind = "mine" }, b = { kind = "x" }, c = { kind = "y" } }
root = { level = "info", appenders = ["a", "b"] }"#;

const FASTER: &str = r#"refresh_rate = "2 seconds"
appenders = { a = { kind = "mine" } }
root = { level = "debug", appenders = ["a"] }"#;

/// Four rolled files. The archives of `b` and `d` lie on another device; `d` rolls in the background.
/// The roller of `c` keeps no archive.
const FAR: &str = r#"[appenders]
a = { kind = "mine" }
[appenders.b]
kind = "rolling_file"
path = "x/b.log"
policy.trigger = { kind = "size", limit = 9 }
policy.roller = { kind = "fixed_window", pattern = "y/b.{}", count = 2, base = 3 }
[appenders.c]
kind = "rolling_file"
path = "x/c.log"
policy.trigger = { kind = "size", limit = 9 }
policy.roller = { kind = "fixed_window", pattern = "y/c.{}", count = 0 }
[appenders.d]
kind = "rolling_file"
path = "./x/d.log"
policy.trigger = { kind = "size", limit = 9 }
policy.roller = { kind = "fixed_window", pattern = "y//d.{}", count = 2, background = true }
[appenders.e]
kind = "rolling_file"
path = "x/e.log"
policy.trigger = { kind = "size", limit = 9 }
policy.roller = { kind = "fixed_window", pattern = "x/old/e.{}", count = 2 }
[root]
level = "info"
appenders = ["a", "b", "c", "d", "e"]"#;

/// A rolled file that is read again.
const ROLLED: &str = r#"refresh_rate = "5 seconds"
appenders.a = { kind = "mine" }
root = { level = "info", appenders = ["a", "b"] }
[appenders.b]
kind = "rolling_file"
path = "b.log"
policy.trigger = { kind = "size", limit = 9 }
policy.roller = { kind = "delete" }"#;

/// Returns the text of this name, or one that is no configuration.
fn text_of(name: &str) -> &'static str {
    match name {
        "rated" => RATED,
        "unrated" => UNRATED,
        "faster" => FASTER,
        "far" => FAR,
        "rolled" => ROLLED,
        _ => "root = 1",
    }
}

/// The texts of a source before and after it changes, how many questions for the stamp find it
/// unchanged (the first is that of the load), and what is noted of printed faults, of a worker with
/// two turns, of an Info record and of a Debug record.
const SOURCES: &str = "\
rated|faster|2|turn 5000; turn 5000; second one; second two;
rated|faster|1|turn 5000; turn 2000; second one; second two;
rated|unrated|1|turn 5000; log4rs: appenders.b: no appender deserializer for kind `x` registered; appender b is left out; log4rs: appenders.c: no appender deserializer for kind `y` registered; appender c is left out; log4rs: Reference to nonexistent appender: `b`; second one;
rated|none|1|turn 5000; log4rs: the text is no configuration; turn 5000; first one;
unrated|rated|1|log4rs: log.toml: appenders.b: no appender deserializer for kind `x` registered; appender b is left out; log4rs: log.toml: appenders.c: no appender deserializer for kind `y` registered; appender c is left out; log4rs: log.toml: appender c is named by no logger and not by the root, so it logs nothing; no reloader; first one;
far|rated|1|log4rs: appender b: its archives lie on another device than its file, so each rolling copies: x/b.log, y/b.3; log4rs: appender d: its archives lie on another device than its file, so nothing rolls in the background: ./x/d.log, y/d.0; no reloader; first one;
rolled|rated|3|log4rs: log.toml: a Reloader opens all files anew at a change, before the old appenders end, and so may lose archives: a ConfigFile reads it again without loss; turn 5000; turn 5000; first one;";

/// Splits a line at its first bar.
fn cut(line: &str) -> (&str, &str) {
    line.split_once('|').unwrap_or((line, ""))
}

/// Returns the source of a row, and what the row expects.
fn source_of(alloc: Global, row: &'static str) -> (Changing, &'static str) {
    let (before, rest) = cut(row);
    let (after, rest) = cut(rest);
    let (quiet, expected) = cut(rest);
    let source = Changing {
        alloc,
        texts: [text_of(before), text_of(after)],
        quiet: quiet.parse().unwrap_or(0),
        changed: false,
    };
    (source, expected)
}

/// Logs an Info record and a Debug record.
fn log_two<L: Log>(alloc: Global, logger: &mut L) -> Result<(), OutOfMemory> {
    log(alloc, logger, (Level::Info, "t", "one"))?;
    log(alloc, logger, (Level::Debug, "t", "two"))
}

/// Starts a logger from a source, runs its reloader for two turns, and logs two records.
fn run<R: Wait + Eprint + Clone + Drop, W: Wait + Drop>(
    rt: &R,
    around: &Surroundings<'_>,
    source: &mut Changing,
    gate: &mut Turns<W>,
    parts: &mut Parts<W>,
    maker: &mut MemMaker,
) -> Result<(), Fail> {
    let alloc = gate.alloc;
    let own = rt.clone()?;
    let (mut logger, handle, reloader) = init_file(own, "log.toml", source, parts, maker, around)?;
    match reloader {
        Some(reloader) => reloader.run(rt, gate, &handle, source, parts, maker, around),
        None => {
            let _ = gate.book.note("no", "reloader");
        }
    }
    Ok(log_two(alloc, &mut logger)?)
}

/// Runs the source of a row. Returns the notes, and what the row expects.
fn noted<R: Wait + Eprint + Clone + Drop, W: Wait + Clone + Drop>(
    rt: &R,
    alloc: Global,
    book: &Notebook<W>,
    around: &Surroundings<'_>,
    row: &'static str,
) -> Result<(String, &'static str), Fail> {
    let (mut source, expected) = source_of(alloc, row);
    let mut parts = parts(alloc, book)?;
    let mut gate = Turns {
        alloc,
        left: 2,
        book: book.share()?,
    };
    let mut maker = MemMaker::new(alloc);
    run(rt, around, &mut source, &mut gate, &mut parts, &mut maker)?;
    Ok((book.take(alloc), expected))
}

#[test]
fn sources(rt: HostRuntime) -> Result<(), Fail> {
    let alloc = rt.alloc();
    let around = surroundings(alloc, rt.stdout(), rt.stderr());
    let book = Notebook::new(rt, alloc)?;
    let telling = Telling {
        book: book.share()?,
    };
    let told = &telling;
    for row in SOURCES.lines() {
        let (noted, expected) = noted(&told, alloc, &book, &around, row)?;
        same(&rt, noted.as_str().trim_end(), expected);
    }
    Ok(())
}

/// Starts a logger from a text, and logs two records.
fn begin<W: Wait + Eprint + Clone + Drop>(
    rt: W,
    alloc: Global,
    around: &Surroundings<'_>,
    parts: &mut Parts<W>,
) -> Result<(), InitError> {
    let raw = RawConfig::from_text(alloc, Format::Toml, RATED)?;
    let mut maker = MemMaker::new(alloc);
    let (mut logger, _) = init_raw_config(rt, raw, parts, &mut maker, around)?;
    Ok(log_two(alloc, &mut logger)?)
}

#[test]
fn a_text_begins_a_logger(rt: HostRuntime) -> Result<(), Fail> {
    let alloc = rt.alloc();
    let around = surroundings(alloc, rt.stdout(), rt.stderr());
    let book = Notebook::new(rt, alloc)?;
    let mut parts = parts(alloc, &book)?;
    begin(rt, alloc, &around, &mut parts)?;
    same(&rt, book.take(alloc).as_str(), "first one; ");
    Ok(())
}
