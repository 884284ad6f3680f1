//! The program `vectors`, which replays files of cases against log4rs and prints how many agree.
#![tactic(auto)]

mod configurations;
mod fault;
mod fields;
mod folder;
mod kind;
mod lines;
mod patterns;
mod plain;
mod rendered;
mod replay;
mod report;
mod rolling;
mod routing;
mod times;
mod verdict;

use anyhow::{Result, bail};
use kind::kind_of;
use replay::verdicts_of;
use std::convert::AsStr;
use std::{env, fs, io, process};

/// The files that are replayed if no argument names one.
const FILES: [&str; 14] = [
    "pattern.jsonl",
    "pattern-differences.jsonl",
    "pattern-rows.jsonl",
    "routing.jsonl",
    "routing-rows.jsonl",
    "json.jsonl",
    "json-rows.jsonl",
    "time.jsonl",
    "time-zone.jsonl",
    "time-rows.jsonl",
    "rolling.jsonl",
    "rolling-rows.jsonl",
    "config.jsonl",
    "config-rows.jsonl",
];

/// Replays the files of the arguments, or all if there are none. Fails if a case differs, or a case or
/// a file cannot be read.
fn main(rt: HostRuntime) -> Result<()> {
    let args: Vec<String> = env::args(&rt)?.skip(1).collect(rt.alloc())?;
    let agree = if args.is_empty() {
        replay_files(&rt, &FILES)?
    } else {
        replay_files(&rt, &args)?
    };
    if !agree {
        bail!("a case differs, or cannot be read");
    }
    Ok(())
}

/// Returns the folder of the cases that need files, in the system's temporary folder.
fn case_folder(rt: &HostRuntime) -> io::Result<String> {
    let temp = env::temp_dir(rt)?;
    let number = process::id(rt.process());
    Ok(format!(in rt.alloc(); "{}/log4rs_vectors_{number}/", temp.as_str())?)
}

/// Replays the files at these paths. Returns whether all cases agree.
fn replay_files<P: AsStr>(rt: &HostRuntime, paths: &[P]) -> io::Result<bool> {
    let folder = case_folder(rt)?;
    let mut all_agree = true;
    for path in paths {
        let agrees = replay_file(rt, folder.as_str(), path.as_str())?;
        all_agree = all_agree && agrees;
    }
    Ok(all_agree)
}

/// Replays a file, and prints the result. Returns whether all its cases agree.
fn replay_file(rt: &HostRuntime, folder: &str, path: &str) -> io::Result<bool> {
    let Some(kind) = kind_of(path) else {
        println!(rt; "{path}: not a kind of file that can be replayed")?;
        return Ok(false);
    };
    let text = match fs::read_to_string(rt, path) {
        Ok(text) => text,
        Err(fault) => {
            println!(rt; "{path}: {fault}")?;
            return Ok(false);
        }
    };
    let lines: Vec<&str> = text.lines().collect(rt.alloc())?;
    let verdicts = verdicts_of(rt, folder, kind, lines.as_slice())?;
    report::report(rt, path, verdicts.as_slice())
}
