//! The messages about refused file operations.

use crate::setup::{Parts, folder, same, surroundings};
use log4rs_build::{RawConfig, TellOnceMaker, create_lossy, tell};
use log4rs_rolling::store::{FsMaker, MemMaker, Open, ReportingMaker, Store, StoreMaker};
use log4rs_settings::Format;
use std::alloc::Global;
use std::fmt::Display;
use std::fs::{self, Files};
use std::io::{self, ErrorKind};
use std::mem;
use std::process::Abort;
use std::sync::{Mutex, Wait};
use std::test::Fail;

/// Operations on paths below a folder, and what each prints. `d` is a folder, and `f` a file.
const STEPS: &str = "\
make f|
open f|
open d|log4rs: d: Is a directory (os error 21)
open d|
open d/.|log4rs: d/.: Is a directory (os error 21)
open d|log4rs: d: Is a directory (os error 21)
open d/no/x|log4rs: d/no/x: No such file or directory (os error 2)
rename d e|
open d/no/x|
open d|
open e|log4rs: e: Is a directory (os error 21)
remove d|
rename e d|
open d|log4rs: d: Is a directory (os error 21)
rename f no/f|log4rs: renaming f to no/f: No such file or directory (os error 2)
rename f g|
rename g no/f|log4rs: renaming g to no/f: No such file or directory (os error 2)
copy g d|log4rs: copying g to d: the target is no regular file
copy g h|
remove no|log4rs: no: No such file or directory (os error 2)
open no/two\tlines|log4rs: no/two\\tlines: No such file or directory (os error 2)
open /dev/full|
write|log4rs: /dev/full: No space left on device (os error 28)
write|
open h|
write|
open /dev/full|
write|";

/// A runtime that keeps what is printed to standard error.
#[derive(Drop)]
struct Listening<W> {
    rt: W,
    lines: Mutex<String>,
}

impl<W: Wait> Listening<W> {
    fn keep<D: Display + Drop>(&self, line: D) -> io::Result<()> {
        let mut lines = self.lines.lock(&self.rt);
        match write!(*lines, "{line}") {
            Ok(()) => Ok(()),
            Err(_) => Err(io::Error::from(ErrorKind::OutOfMemory)),
        }
    }

    /// Removes and returns all lines.
    fn take(&self, alloc: Global) -> String {
        mem::replace(&mut *self.lines.lock(&self.rt), String::new(alloc))
    }
}

impl<W: Wait> Wait for Listening<W> {}

impl<W: Wait> Eprint for Listening<W> {
    fn eprint<D: Display + Drop>(&self, value: D) -> io::Result<()> {
        self.keep(value)
    }

    fn eprintln<D: Display + Drop>(&self, value: D) -> io::Result<()> {
        self.keep(value)
    }
}

/// Returns the path below a folder. Absolute paths stay.
fn below(alloc: Global, folder: &str, path: &str) -> Result<String, Fail> {
    if path.starts_with('/') {
        return Ok(String::from_str(alloc, path)?);
    }
    Ok(format!(in alloc; "{folder}/{path}")?)
}

/// Does the operation of a line, and ignores its result. `make` opens a file too.
fn operate<S: Store>(alloc: Global, store: &mut S, folder: &str, line: &str) -> Result<(), Fail> {
    let (name, paths) = line.split_once(' ').unwrap_or((line, ""));
    let (one, two) = paths.split_once(' ').unwrap_or((paths, ""));
    let (one, two) = (below(alloc, folder, one)?, below(alloc, folder, two)?);
    let _is_done = match name {
        "rename" => store.rename(&one, &two).is_ok(),
        "copy" => store.copy(&one, &two).is_ok(),
        "remove" => store.remove(&one).is_ok(),
        "write" => store.write(b"text").is_ok(),
        _ => store.open(&one, Open::Append).is_ok(),
    };
    Ok(())
}

/// Returns the printed lines without the folder.
fn printed(alloc: Global, lines: &str, folder: &str) -> Result<String, Fail> {
    let mut shown = String::new(alloc);
    let folder = format!(in alloc; "{folder}/")?;
    for part in lines.split(folder.as_str()) {
        shown.push_str(part)?;
    }
    Ok(shown)
}

/// Does the operations of lines over stores of a maker, one after another: `new` makes another one.
/// Compares what each prints.
fn compare<X: Files + Abort, W: Wait, M: StoreMaker>(
    rt: &X,
    alloc: Global,
    folder: &str,
    listening: &Listening<W>,
    maker: &mut M,
    steps: &str,
) -> Result<(), Fail>
where
    M::Made: Drop,
{
    fs::create_dir(rt, below(alloc, folder, "d")?.as_str())?;
    let mut store = maker.make()?;
    for line in steps.split('\n') {
        let (step, expected) = line.split_once('|').unwrap_or((line, ""));
        if step == "new" {
            store = maker.make()?;
            continue;
        }
        operate(alloc, &mut store, folder, step)?;
        let lines = printed(alloc, listening.take(alloc).as_str(), folder)?;
        same(rt, lines.as_str(), expected);
    }
    Ok(())
}

#[test]
fn what_is_refused_is_printed_once(rt: HostRuntime) -> Result<(), Fail> {
    let alloc = rt.alloc();
    let folder = folder(&rt, "refused")?;
    let lines = Mutex::new(String::new(alloc));
    let listening = Listening { rt, lines };
    let mut maker = ReportingMaker::new(&listening, FsMaker::new(alloc, rt));
    compare(&rt, alloc, folder.as_str(), &listening, &mut maker, STEPS)?;
    fs::remove_dir_all(&rt, folder.as_str())?;
    Ok(())
}

/// The same over stores one of which is made after another, because of refusals.
const TRIED_AGAIN: &str = "\
make f|
open d|log4rs: d: Is a directory (os error 21)
new
open d|
open d/no/x|log4rs: d/no/x: No such file or directory (os error 2)
rename f no/f|log4rs: renaming f to no/f: No such file or directory (os error 2)
new
open d/no/x|
rename f no/f|
open h|
write|
open d|log4rs: d: Is a directory (os error 21)
new
open d|
rename d e|
open d|
write|
remove d|
rename e d|
new
open d|log4rs: d: Is a directory (os error 21)";

#[test]
fn what_is_tried_again_is_printed_once(rt: HostRuntime) -> Result<(), Fail> {
    let alloc = rt.alloc();
    let folder = folder(&rt, "tried-again")?;
    let lines = Mutex::new(String::new(alloc));
    let listening = Listening { rt, lines };
    let once = TellOnceMaker::new(alloc, FsMaker::new(alloc, rt))?;
    let mut maker = ReportingMaker::new(&listening, once);
    compare(
        &rt,
        alloc,
        folder.as_str(),
        &listening,
        &mut maker,
        TRIED_AGAIN,
    )?;
    fs::remove_dir_all(&rt, folder.as_str())?;
    Ok(())
}

/// A text with faulty parts, and what is printed of them. That `b` is named but left out is said
/// once.
const FAULTY: &str = r#"{"appenders":{"a":{"kind":"file","path":"a.log","filters":[{"kind":"x"}]},
    "b":{"kind":"y"}},"root":{"appenders":["a","b","c"]}}"#;

const TOLD: &str = "log4rs: appenders.a.filters.0: no filter deserializer for kind `x` registered; \
    appender a passes every record that its other filters pass\
    log4rs: appenders.b: no appender deserializer for kind `y` registered; appender b is left out\
    log4rs: Reference to nonexistent appender: `c`";

#[test]
fn the_faults_of_a_text_are_told(rt: HostRuntime) -> Result<(), Fail> {
    let alloc = rt.alloc();
    let around = surroundings(alloc, rt.stdout(), rt.stderr());
    let raw = RawConfig::from_text(alloc, Format::Json, FAULTY)?;
    let mut parts = Parts::new(alloc)?;
    let built = create_lossy(raw, &mut parts, &mut MemMaker::new(alloc), &around)?;
    let lines = Mutex::new(String::new(alloc));
    let listening = Listening { rt, lines };
    let _config = tell(&listening, "x.json", built, &[]);
    same(&rt, listening.take(alloc).as_str(), TOLD);
    Ok(())
}
