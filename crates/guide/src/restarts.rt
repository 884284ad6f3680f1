//! An audit trail in a rolled file, stopped in the middle of its work.

mod disk;
mod kept;
mod memory;
mod trail;

use crate::USAGE;
use anyhow::{Result, bail};
use trail::{Moves, Plan};

/// The number of records of a run on disk that is not stopped.
const RECORDS: u64 = 2_000;

/// Appends to a trail in a folder, checks one, or stops trails in memory again and again.
pub fn run(rt: &HostRuntime, args: &[String]) -> Result<()> {
    match args {
        [] => memory::sweep(rt),
        [folder, word] if word.as_str() == "check" => disk::check(rt, folder.as_str()),
        [folder, run, ..] => disk::append(rt, folder.as_str(), planned(run, &args[2..])?),
        _ => bail!("{USAGE}"),
    }
}

/// Returns the plan of the run with this number, by the arguments after it.
fn planned(run: &String, options: &[String]) -> Result<Plan> {
    let mut plan = Plan {
        run: number(run)?,
        records: RECORDS,
        stop_after: None,
        moves: Moves::AtOnce,
    };
    for option in options {
        if option.as_str() == "background" {
            plan.moves = Moves::InBackground;
        } else {
            plan.stop_after = Some(number(option)?);
        }
    }
    Ok(plan)
}

/// Returns the number that an argument writes.
fn number(word: &String) -> Result<u64> {
    match word.as_str().parse::<u64>() {
        Ok(number) => Ok(number),
        Err(_) => bail!("{USAGE}"),
    }
}
