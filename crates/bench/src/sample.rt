//! The record of the workloads.

use jiff::Timestamp;
use jiff::tz::TimeZone;
use log::Level;
use log4rs::{Context, Entry, OutOfMemory, Record};
use std::alloc::Global;

/// The target of the record.
pub const TARGET: &str = "app::module::part";

/// Returns the record and its context.
pub fn sample(alloc: Global) -> Result<Entry<'static>, OutOfMemory> {
    sample_of(alloc, string(alloc, TARGET)?)
}

/// Returns the record with another target, and its context.
fn sample_of(alloc: Global, target: String) -> Result<Entry<'static>, OutOfMemory> {
    let mut logged = sample_record(alloc)?;
    logged.target = target;
    Ok(Entry {
        context: sample_context(alloc)?,
        logged,
    })
}

/// Returns the target of the records of a thread, as long as that of `sample` for the first ten.
pub fn thread_target(alloc: Global, thread: usize) -> Result<String, OutOfMemory> {
    Ok(format!(in alloc; "app::module::par{thread}")?)
}

/// Returns the record that each of these threads logs, and its context.
pub fn thread_samples(alloc: Global, threads: usize) -> Result<Vec<Entry<'static>>, OutOfMemory> {
    let mut samples = Vec::with_capacity(alloc, threads)?;
    for thread in 0..threads {
        samples.push(sample_of(alloc, thread_target(alloc, thread)?)?)?;
    }
    Ok(samples)
}

/// Copies a text.
fn string(alloc: Global, text: &str) -> Result<String, OutOfMemory> {
    Ok(String::from_str(alloc, text)?)
}

/// Returns a record with a message of 54 bytes.
fn sample_record(alloc: Global) -> Result<Record, OutOfMemory> {
    Ok(Record {
        level: Level::Info,
        target: string(alloc, TARGET)?,
        message: string(
            alloc,
            "user 471 fetched 23 rows from the table of recent days",
        )?,
        module_path: Some(string(alloc, TARGET)?),
        file: Some(string(alloc, "src/module/part.rs")?),
        line: Some(120),
    })
}

/// Returns the context of the record.
fn sample_context(alloc: Global) -> Result<Context<'static>, OutOfMemory> {
    let thread = string(alloc, "main")?;
    let moment = match Timestamp::new(1_458_512_540, 644_420_340) {
        Ok(moment) => moment,
        Err(_) => Timestamp::UNIX_EPOCH,
    };
    let mut context = Context::new(alloc, moment, TimeZone::UTC);
    context.thread = Some(thread);
    context.thread_id = 7;
    context.tid = 7;
    context.pid = 42;
    Ok(context)
}

/// Returns a text of 100,000 bytes.
pub fn long_text(alloc: Global) -> Result<String, OutOfMemory> {
    let mut text = String::new(alloc);
    for _ in 0..10_000 {
        text.push_str("0123456789")?;
    }
    Ok(text)
}
