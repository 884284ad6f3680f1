//! Records handed to a `Core`: to standard output, to memory, to a file and to the program's own
//! appender, with a promise about the texts that arrive.

mod audit;
mod count;
mod line;
mod raised;
mod rolled;
mod setup;
mod spoken;
mod two;

use anyhow::Result;
use audit::all_are_logged;
use count::Count;
use jiff::Timestamp;
use log::Level;
use log4rs::append::{AnyAppender, Append};
use log4rs::config::runtime::Appender;
use log4rs::encode::writer::ColorMode;
use log4rs::filter::Filter;
use log4rs::store::FsStore;
use log4rs::{Core, Entry, record};
use setup::{configuration, console, context, counted, file, memory};
use spoken::Spoken;
use std::alloc::Global;
use std::{env, fs, process};
use two::log_two;

/// The store of the program's files: real files.
type Disk<'a> = FsStore<&'a HostRuntime>;

/// Logs two records to a core, and prints the texts that it kept. Then logs the two records whose
/// bytes are promised.
pub fn run(rt: &HostRuntime) -> Result<()> {
    let path = own_path(rt)?;
    log_to(rt, path.as_str())?;
    print!(rt; "in the file: {}", fs::read_to_string(rt, &path)?)?;
    fs::remove_file(rt, &path)?;
    print_two(rt)?;
    raised::run(rt)
}

/// Returns the path of a file of this run's own.
fn own_path(rt: &HostRuntime) -> Result<String> {
    let temporary = env::temp_dir(rt)?;
    let number = process::id(rt.process());
    Ok(format!(in rt.alloc(); "{}/guide_{number}.log", temporary.as_str())?)
}

/// Builds a core, whose file has this path, and logs to it.
fn log_to(rt: &HostRuntime, path: &str) -> Result<()> {
    let alloc = rt.alloc();
    let limit = 100;
    let counter: Box<dyn Append + Send + Sync + Drop> = Box::new(
        alloc,
        Count { records: 0, limit },
    )?;
    let spoken: Box<dyn Filter + Send + Sync + Drop> = Box::new(alloc, Spoken)?;
    let config = configuration(alloc, appenders(rt, counter, spoken, path)?)?;
    let mut core: Core<Disk<'_>> = Core::new(alloc, config)?;
    log_two_records(rt, &mut core)
}

/// Logs two records, and prints the texts that were kept.
fn log_two_records(rt: &HostRuntime, core: &mut Core<Disk<'_>>) -> Result<()> {
    let is_well = all_are_logged(core, &entries(rt.alloc())?)?;
    println!(rt; "all were logged: {is_well}")?;
    print_kept(rt, core)
}

/// Builds a console, an appender in memory, one to a file, and the program's own behind a filter of
/// its own.
fn appenders<'a>(
    rt: &'a HostRuntime,
    counter: Box<dyn Append + Send + Sync + Drop>,
    spoken: Box<dyn Filter + Send + Sync + Drop>,
    path: &str,
) -> Result<Vec<Appender<Disk<'a>>>> {
    let alloc = rt.alloc();
    let context = context(alloc, Timestamp::UNIX_EPOCH)?;
    let mut appenders = Vec::new(alloc);
    appenders.push(counted(alloc, counter, spoken)?)?;
    appenders.push(console(alloc, rt.stdout(), rt.stderr(), ColorMode::Auto, false)?)?;
    appenders.push(memory(alloc)?)?;
    appenders.push(file(alloc, path, FsStore::new(alloc, rt), &context)?)?;
    Ok(appenders)
}

/// Returns a record of the disk, and its context.
fn entry(alloc: Global, level: Level, message: &str) -> Result<Entry<'static>> {
    let logged = record!(in alloc; target: "app::disk", level, "{message}")?;
    let context = context(alloc, Timestamp::UNIX_EPOCH)?;
    Ok(Entry { logged, context })
}

/// Returns the entries that are logged.
fn entries(alloc: Global) -> Result<Vec<Entry<'static>>> {
    let mut entries = Vec::new(alloc);
    entries.push(entry(alloc, Level::Info, "started")?)?;
    entries.push(entry(alloc, Level::Warn, "low on disk")?)?;
    Ok(entries)
}

/// Prints the texts that the appender in memory holds.
fn print_kept(rt: &impl Print, core: &Core<Disk<'_>>) -> Result<()> {
    for appender in core.config().appenders() {
        if let AnyAppender::Memory(kept) = appender.appender() {
            for text in kept.records() {
                print!(rt; "kept: {text}")?;
            }
        }
    }
    Ok(())
}

/// Logs the two entries whose bytes are promised, and prints whether both were logged.
fn print_two(rt: &HostRuntime) -> Result<()> {
    let alloc = rt.alloc();
    let here = context(alloc, Timestamp::UNIX_EPOCH)?;
    let there = context(alloc, Timestamp::UNIX_EPOCH)?;
    let core = log_two(alloc, here, there)?;
    println!(rt; "both arrived: {}", core.is_some())?;
    Ok(())
}
