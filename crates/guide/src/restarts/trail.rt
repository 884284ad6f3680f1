//! The trail: a rolled file, and the records of a run.

use anyhow::Result;
use jiff::Timestamp;
use jiff::tz::TimeZone;
use log::Level;
use log4rs::append::rolling_file::{
    Act, ActOutcome, Report, RollingSettings, Run, TriggerSettings,
};
use log4rs::{Context, Entry, OutOfMemory, record};
use std::alloc::Global;
use std::collections::BTreeMap;

/// The maximum size in bytes of the file before it is rolled.
const LIMIT: u64 = 40;

/// The number of archives.
const COUNT: u32 = 3;

/// In the background one step is made after this many records.
const RECORDS_A_STEP: u64 = 2;

/// The time at which archives are moved.
#[derive(Clone, Copy)]
pub enum Moves {
    /// In the append that rolls the file.
    AtOnce,
    /// In steps, between appends.
    InBackground,
}

/// The plan of a run.
#[derive(Clone, Copy)]
pub struct Plan {
    /// Its number.
    pub run: u64,
    /// The number of records that it appends.
    pub records: u64,
    /// The number of operations after which it stops, if it does.
    pub stop_after: Option<u64>,
    pub moves: Moves,
}

/// Returns the file of the trail.
fn active(alloc: Global, folder: &str) -> Result<String, OutOfMemory> {
    Ok(format!(in alloc; "{folder}/audit.log")?)
}

/// Returns the paths of the archives from the oldest to the newest, of the file that waits in the
/// background, and of the file.
pub fn paths(alloc: Global, folder: &str) -> Result<Vec<String>> {
    let mut paths = Vec::new(alloc);
    for newer in 0..COUNT {
        let index = COUNT - 1 - newer;
        paths.push(format!(in alloc; "{folder}/audit.{index}.log")?)?;
    }
    paths.push(format!(in alloc; "{folder}/audit.log.rolling")?)?;
    paths.push(active(alloc, folder)?)?;
    Ok(paths)
}

/// Returns a trail that is rolled at the limit, by renames alone.
pub fn settings(alloc: Global, folder: &str, moves: Moves) -> Result<RollingSettings, OutOfMemory> {
    Ok(RollingSettings {
        path: active(alloc, folder)?,
        pattern: format!(in alloc; "{folder}/audit.{{}}.log")?,
        base: 0,
        count: COUNT,
        rename_only: true,
        background: matches!(moves, Moves::InBackground),
        trigger: TriggerSettings::Size(LIMIT),
        encoder_pattern: "{m}{n}".to_owned(alloc)?,
        env: BTreeMap::new(alloc),
    })
}

/// Returns the entry of a record.
fn entry(alloc: Global, run: u64, number: u64) -> Result<Entry<'static>, OutOfMemory> {
    let logged = record!(in alloc; target: "audit", Level::Info, "run {run} record {number}")?;
    let context = Context::new(alloc, Timestamp::UNIX_EPOCH, TimeZone::UTC);
    Ok(Entry { logged, context })
}

/// Returns whether a run makes a step after the record with this number.
fn steps_behind(plan: Plan, number: u64) -> bool {
    matches!(plan.moves, Moves::InBackground) && number % RECORDS_A_STEP == 0
}

/// Returns the run of a plan.
pub fn run_of(alloc: Global, plan: Plan) -> Result<Run<'static>, OutOfMemory> {
    let mut acts = Vec::new(alloc);
    for done in 0..plan.records {
        acts.push(Act::Append(entry(alloc, plan.run, done + 1)?))?;
        if steps_behind(plan, done + 1) {
            acts.push(Act::Step)?;
        }
    }
    Ok(Run {
        acts,
        stop_after: plan.stop_after,
    })
}

/// Returns how many records were appended.
pub fn answered(report: &Report) -> usize {
    let mut number: usize = 0;
    for run in &report.runs {
        for outcome in &run.outcomes {
            if matches!(outcome, ActOutcome::Appended(Ok(()))) {
                number = number.saturating_add(1);
            }
        }
    }
    number
}
