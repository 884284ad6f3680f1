//! Trails in memory, whose runs stop again and again.

use super::kept::{Kept, judged};
use super::trail::{Moves, Plan, paths, run_of, settings};
use anyhow::{Result, bail};
use log4rs::append::rolling_file::{RollingSettings, Run, sessions};
use log4rs::store::MemStore;
use std::alloc::Global;
use std::collections::BTreeMap;

/// The folder of the trail.
const FOLDER: &str = "trail";

/// The number of runs.
const RUNS: u64 = 3;

/// The number of records of a run that does not stop.
const RECORDS: u64 = 12;

/// More operations than a run makes if the file is rolled at once.
const MOST: u64 = 40;

/// More operations than a run makes if it is rolled in the background.
const MOST_BESIDE: u64 = 60;

/// Returns the runs, each of which stops after this many operations.
fn runs(alloc: Global, moves: Moves, operations: u64) -> Result<Vec<Run<'static>>> {
    let mut runs = Vec::new(alloc);
    for before in 0..RUNS {
        let plan = Plan {
            run: before + 1,
            records: RECORDS,
            stop_after: Some(operations),
            moves,
        };
        runs.push(run_of(alloc, plan)?)?;
    }
    Ok(runs)
}

/// Returns the text that a store keeps, from the oldest archive on.
fn joined(alloc: Global, store: &MemStore) -> Result<String> {
    let mut bytes = Vec::new(alloc);
    for path in &paths(alloc, FOLDER)? {
        if let Some(part) = store.file(path.as_str())? {
            bytes.extend_from_slice(part.as_slice())?;
        }
    }
    Ok(String::from_utf8(bytes)?)
}

/// Returns the files of a new store after runs.
fn stored(alloc: Global, settings: &RollingSettings, runs: &[Run<'_>]) -> Result<MemStore> {
    let store = MemStore::new(alloc, BTreeMap::new(alloc));
    let (store, report) = sessions(alloc, store, settings, runs);
    report?;
    Ok(store)
}

/// Returns the text that is kept after all runs, each of which stops after this many operations.
fn left_after(alloc: Global, moves: Moves, operations: u64) -> Result<String> {
    let settings = settings(alloc, FOLDER, moves)?;
    let runs = runs(alloc, moves, operations)?;
    let store = stored(alloc, &settings, runs.as_slice())?;
    joined(alloc, &store)
}

/// Returns the records that are kept then.
fn kept_after(alloc: Global, moves: Moves, operations: u64) -> Result<Option<Kept>> {
    let text = left_after(alloc, moves, operations)?;
    match judged(text.as_str()) {
        Ok(kept) => Ok(kept),
        Err(line) => bail!("after {operations} operations a line is out of order: {line:?}"),
    }
}

/// Stops runs after each number of operations, and prints what is kept: all results if the file is
/// rolled at once, and the last if it is rolled in the background.
pub fn sweep(rt: &HostRuntime) -> Result<()> {
    for operations in 0..=MOST {
        if let Some(kept) = kept_after(rt.alloc(), Moves::AtOnce, operations)? {
            println!(rt; "{operations}: {kept}")?;
        }
    }
    println!(rt; "Each trail of {RUNS} runs was whole, after 0 to {MOST} operations in each.")?;
    let mut last = None;
    for operations in 0..=MOST_BESIDE {
        last = kept_after(rt.alloc(), Moves::InBackground, operations)?;
    }
    println!(rt; "In the background each was whole, after 0 to {MOST_BESIDE} operations in each.")?;
    if let Some(kept) = last {
        println!(rt; "{MOST_BESIDE}: {kept}")?;
    }
    Ok(())
}
