//! A trail of real files.

use super::kept::judged;
use super::trail::{Plan, answered, paths, run_of, settings};
use anyhow::{Result, bail};
use log4rs::append::rolling_file::sessions;
use log4rs::store::FsStore;
use std::fs::{self, Files};
use std::io::ErrorKind;

/// Makes a run over the trail of a folder, and prints how many records were appended.
pub fn append(rt: &HostRuntime, folder: &str, plan: Plan) -> Result<()> {
    let done = appended(rt, folder, plan)?;
    println!(rt; "run {}: {done} records were answered Ok", plan.run)?;
    Ok(())
}

/// Returns how many records of a run were appended.
fn appended(rt: &HostRuntime, folder: &str, plan: Plan) -> Result<usize> {
    let alloc = rt.alloc();
    let settings = settings(alloc, folder, plan.moves)?;
    let runs = [run_of(alloc, plan)?];
    let (_, report) = sessions(alloc, FsStore::new(alloc, rt), &settings, &runs);
    Ok(answered(&report?))
}

/// Returns the text that a folder keeps, from the oldest archive on.
fn joined<R: Files + AllocGlobal>(rt: &R, folder: &str) -> Result<String> {
    let mut text = String::new(rt.alloc());
    for path in &paths(rt.alloc(), folder)? {
        match fs::read_to_string(rt, path.as_str()) {
            Ok(part) => text.push_str(part.as_str())?,
            Err(error) if error.kind() == ErrorKind::NotFound => {}
            Err(error) => bail!("{path}: {error}"),
        }
    }
    Ok(text)
}

/// Checks that a folder keeps the end of what the runs wrote, as far as its lines tell.
pub fn check(rt: &HostRuntime, folder: &str) -> Result<()> {
    let text = joined(rt, folder)?;
    match judged(text.as_str()) {
        Ok(Some(kept)) => println!(rt; "{kept}")?,
        Ok(None) => println!(rt; "no records")?,
        Err(line) => bail!("a line is out of order: {line:?}"),
    }
    Ok(())
}
