//! The program of docs/GUIDE.md, in five parts: a record logged as a file says, records handed to a
//! `Core`, an appender of a kind of its own in a file, a service whose threads share a logger, and
//! an audit trail that is stopped and restarted.
#![tactic(auto)]

mod custom;
mod direct;
mod file;
mod restarts;
mod service;

use anyhow::{Result, bail};
use std::env;

/// The program's usage.
const USAGE: &str = "usage: guide [file | direct | custom | service | restarts]
       guide restarts FOLDER RUN [OPERATIONS] [background]
       guide restarts FOLDER check
the first does one part, or all in turn, of which `file` logs as log4rs.toml says; the second
appends the records of a run to a trail in FOLDER, which is rolled at once or in the background, and
stops after so many operations; the third looks at what is kept there";

/// Runs one part of the program, or all.
fn main(rt: HostRuntime) -> Result<()> {
    let args: Vec<String> = env::args(&rt)?.skip(1).collect(rt.alloc())?;
    let Some(part) = args.first() else {
        file::run(rt, rt.stdout(), rt.stderr())?;
        direct::run(&rt)?;
        custom::run(rt, rt.stdout(), rt.stderr())?;
        service::run(rt, rt.stdout(), rt.stderr())?;
        return restarts::run(&rt, &[]);
    };
    match part.as_str() {
        "file" => file::run(rt, rt.stdout(), rt.stderr()),
        "direct" => direct::run(&rt),
        "custom" => custom::run(rt, rt.stdout(), rt.stderr()),
        "service" => service::run(rt, rt.stdout(), rt.stderr()),
        "restarts" => restarts::run(&rt, &args[1..]),
        _ => bail!("{USAGE}"),
    }
}
