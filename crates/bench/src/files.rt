//! Appenders to files, and where the files are.

use crate::arguments::Task;
use crate::rolled::COUNT;
use crate::workload::Workload;
use anyhow::Result;
use jiff::Timestamp;
use jiff::tz::TimeZone;
use log4rs::OutOfMemory;
use log4rs::append::FileAppender;
use log4rs::encode::pattern::PatternEncoder;
use log4rs::store::{FsStore, Store};
use std::alloc::Global;
use std::collections::BTreeMap;
use std::fs::{self, Files};
use std::io::{self, ErrorKind};
use std::{env, process};

/// Returns a path with the number of this process.
pub fn own_path(rt: &HostRuntime, task: &Task<'_>) -> Result<String> {
    let temporary = env::temp_dir(rt)?;
    let folder = task.folder.unwrap_or(temporary.as_str());
    let number = process::id(rt.process());
    Ok(format!(in rt.alloc(); "{folder}/bench_{number}.log")?)
}

/// Creates an appender to a truncated file.
pub fn file_in<S: Store + Drop>(
    alloc: Global,
    store: S,
    path: &str,
    pattern: &str,
) -> Result<FileAppender<S, PatternEncoder>> {
    let builder = FileAppender::builder(alloc)
        .encoder(PatternEncoder::new(alloc, pattern)?)
        .append(false);
    let (env, moment) = (BTreeMap::new(alloc), Timestamp::UNIX_EPOCH);
    Ok(builder.build(path, store, &env, moment, &TimeZone::UTC)?)
}

/// Creates an appender to a truncated file that threads log to.
pub fn thread_file<R: Files + Drop>(
    alloc: Global,
    files: R,
    task: &Task<'_>,
    path: &str,
) -> Result<FileAppender<FsStore<R>, PatternEncoder>> {
    let pattern = task.pattern.unwrap_or(Workload::File.pattern());
    file_in(alloc, FsStore::new(alloc, files), path, pattern)
}

/// Creates an appender to a truncated file for each thread.
pub fn thread_files<R: Files + Copy + Drop>(
    alloc: Global,
    files: R,
    task: &Task<'_>,
    path: &str,
) -> Result<Vec<FileAppender<FsStore<R>, PatternEncoder>>> {
    let threads = task.asked.threads();
    let mut appenders = Vec::with_capacity(alloc, threads)?;
    for thread in 0..threads {
        let path = numbered(alloc, path, thread)?;
        appenders.push(thread_file(alloc, files, task, &path)?)?;
    }
    Ok(appenders)
}

/// Returns the path of the file of this number beside a path: an archive, or the file of a thread.
fn numbered(alloc: Global, path: &str, number: usize) -> Result<String, OutOfMemory> {
    Ok(format!(in alloc; "{path}.{number}")?)
}

/// Removes the file at a path, its archives, and the files of threads beside it.
pub fn remove_files<F: Files>(alloc: Global, files: &F, path: &str, threads: usize) -> Result<()> {
    remove_if_there(files, path)?;
    for number in 0..threads.max(COUNT as usize) {
        let file = numbered(alloc, path, number)?;
        remove_if_there(files, &file)?;
    }
    Ok(())
}

/// Removes a file, if it exists.
fn remove_if_there<F: Files>(files: &F, path: &str) -> io::Result<()> {
    match fs::remove_file(files, path) {
        Err(error) if error.kind() != ErrorKind::NotFound => Err(error),
        _ => Ok(()),
    }
}
