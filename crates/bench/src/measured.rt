//! Times, as they are printed.

use crate::arguments::Task;
use crate::work::{Work, repeat};
use anyhow::Result;
use std::rt::Clock;
use std::time::Instant;

/// Does the work as a warm-up, and then with the clock running. Prints the result.
pub fn measure<R: Clock + Print, W: Work>(
    rt: &R,
    name: &str,
    task: &Task<'_>,
    work: &mut W,
) -> Result<()> {
    let records = task.records;
    repeat(work, task.warm_up())?;
    let begin = Instant::now(rt)?;
    let yielded = repeat(work, records)?;
    let nanos = begin.elapsed(rt)?.as_nanos();
    print_measured(rt, name, task.is_timed, records, nanos, yielded)
}

/// Prints how long the records took, or, untimed, the sum of their results.
pub fn print_measured<R: Print>(
    rt: &R,
    name: &str,
    is_timed: bool,
    records: u64,
    nanos: u128,
    yielded: u64,
) -> Result<()> {
    if !is_timed {
        println!(rt; "{name} {records} records yielded {yielded}")?;
        return Ok(());
    }
    let seconds = nanos / 1_000_000_000;
    let millis = nanos / 1_000_000 % 1000;
    let each = nanos / u128::from(records.max(1));
    println!(rt; "{name} {records} records {seconds}.{millis:03} s {each} ns/record")?;
    Ok(())
}
