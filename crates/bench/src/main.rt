//! The program `bench`, which times workloads: of one thread, one record after another, and of threads
//! that log at once.
#![tactic(auto)]

mod arguments;
mod encoding;
mod files;
mod logging;
mod macros;
mod measured;
mod rolled;
mod routing;
mod sample;
mod sharing;
mod single;
mod threading;
mod together;
mod work;
mod workload;

use anyhow::{Result, bail};
use arguments::{Task, read_task};
use files::{own_path, remove_files, thread_file, thread_files};
use std::env;
use threading::{log_apart, log_together, share_memory};
use together::Together;

/// The usage of the bench.
const USAGE: &str = "usage: bench [--untimed] [--in FOLDER] WHAT N [PATTERN]
WHAT is pattern, pattern-date, pattern-simple, pattern-width, json, route, route-many, log-memory, file, facade,
facade-number, facade-date, facade-long, facade-off, rolling, rolling-background, threads T, threads-file T,
threads-files T, threads-facade T, threads-facade-files T, or all in turn, with four threads
facade: a macro of log makes each record, through a facade over a logger; else one record is made before the loop
threads: T threads log N records each through one logger, to memory, to one file, or to a file each
files are written in FOLDER, and removed";

/// The number of records of a workload that is only shown to run.
const FEW: u64 = 10;

/// Times the workloads of the arguments. Without arguments runs all with a few records, untimed.
fn main(rt: HostRuntime) -> Result<()> {
    let args: Vec<String> = env::args(&rt)?.skip(1).collect(rt.alloc())?;
    let task = task_of(&rt, &args)?;
    let path = own_path(&rt, &task)?;
    for workload in task.asked.workloads() {
        single::run(&rt, *workload, &task, &path)?;
    }
    for together in task.asked.together() {
        let measured = match together {
            Together::Memory => share_memory(rt, *together, &task),
            Together::File | Together::Facade => {
                let file = thread_file(rt.alloc(), rt, &task, &path)?;
                log_together(rt, *together, &task, file)
            }
            Together::Files | Together::FacadeFiles => {
                let files = thread_files(rt.alloc(), rt, &task, &path)?;
                log_apart(rt, *together, &task, files)
            }
        };
        remove_files(rt.alloc(), &rt, &path, task.asked.threads())?;
        measured?;
    }
    Ok(())
}

/// Returns the task of the arguments. Prints the usage and fails for wrong arguments.
fn task_of<'a>(rt: &impl Print, args: &'a [String]) -> Result<Task<'a>> {
    if args.is_empty() {
        return Ok(Task::brief(FEW));
    }
    let Some(task) = read_task(args) else {
        println!(rt; "{USAGE}")?;
        bail!("wrong arguments");
    };
    Ok(task)
}
