//! Origins of records: threads and processes.

use crate::kept::{Standing, kept};
use crate::setup::{same, string};
use jiff::tz::TimeZone;
use log::{LevelFilter, Logged, info};
use log4rs::{Backend, Facade, Origin, OutOfMemory};
use std::alloc::Global;
use std::fs::Files;
use std::process;
use std::sync::{Arc, Mutex};
use std::test::Fail;
use std::thread::{Builder, Threads};

/// Names of new threads, and after a bar the name read back, whether the process is this one, and
/// whether the thread is the first one of the process.
const NAMES: &str = "\
    worker|worker true false
    fifteen letters and more|fifteen letters true false
    letters: a to é|letters: a to  true false
    |unnamed true false";

/// Returns the name of the current thread, whether the process is `id`, and whether the thread is
/// its first.
fn show<X: Files>(rt: &X, alloc: Global, id: u32) -> Result<String, OutOfMemory> {
    let origin = Origin::here(rt, alloc, TimeZone::UTC)?;
    let (is_own, is_first) = (origin.pid == id, origin.tid == id as u64);
    let name = match &origin.thread {
        Some(name) => name.as_str(),
        None => "unnamed",
    };
    Ok(format!(in alloc; "{name} {is_own} {is_first}")?)
}

/// Calls `show` in a thread with this name, or in one without a name if it is empty.
fn show_thread<R: Threads>(
    threads: &R,
    rt: HostRuntime,
    id: u32,
    name: &str,
) -> Result<String, Fail> {
    let mut builder = Builder::new();
    if !name.is_empty() {
        builder = builder.name(string(rt.alloc(), name)?);
    }
    let thread = builder.spawn(threads, move || show(&rt, rt.alloc(), id))?;
    Ok(thread.join(threads)?)
}

#[test]
fn names_and_numbers(rt: HostRuntime) -> Result<(), Fail> {
    let id = process::id(rt.process());
    same(&rt, show(&rt, rt.alloc(), id)?.as_str(), "main true true");
    for row in NAMES.lines() {
        let (name, expected) = row.trim_start().split_once('|').unwrap_or_default();
        same(&rt, show_thread(&rt, rt, id, name)?.as_str(), expected);
    }
    Ok(())
}

/// Logs a record in the current thread.
fn say<L: Backend>(rt: HostRuntime, logger: &L, text: &str) -> Result<(), OutOfMemory> {
    let nameless = Origin::new(TimeZone::UTC);
    let facade = Facade::new(rt.alloc(), logger, Standing(Some(0)), nameless);
    let own = facade.here(&rt)?;
    info!(Logged::new(rt, LevelFilter::Trace, own); "{text}");
    Ok(())
}

#[test]
fn a_facade_shows_its_thread(rt: HostRuntime) -> Result<(), Fail> {
    let alloc = rt.alloc();
    let all = Arc::new(alloc, Mutex::new(String::new(alloc)))?;
    let logger = kept(&rt, alloc, "{T} {I} {m};", &all)?;
    say(rt, &logger, "here")?;
    same(&rt, all.lock(&rt).as_str(), "main 0 here;");
    Ok(())
}
