//! A service that logs by the macros of `log` as the file service.toml says: from four threads, and
//! then at another level.

mod requests;
mod workers;

use anyhow::{Result, bail};
use log::{LevelFilter, Logged, debug};
use log4rs::store::Store;
use log4rs::{PlainLogging, init};
use std::fs::{self, Files};
use std::io::{Stderr, Stdout};
use std::rt::{Clock, Env};
use std::sync::Wait;
use std::thread::Threads;
use workers::Worker;

/// The numbers of the requests of each worker.
const SHARES: [&[u32]; 4] = [&[1, 2], &[3], &[4], &[5]];

/// Runs the service, and prints its log, with the lines in the order of their texts.
pub fn run<X>(rt: X, stdout: Stdout, stderr: Stderr) -> Result<()>
where
    X: AllocGlobal + Files + Env + Clock + Threads + Wait + Print + Eprint + Copy,
    X: Send + Sync + Drop + 'static,
    X::File: Send + 'static,
    X::Dir: Send + 'static,
{
    let logging = init(rt, rt.alloc(), stdout, stderr, "service.toml")?;
    let served = serve(rt, &logging);
    if logging.end() > 0 {
        bail!("what was logged is not whole");
    }
    served?;
    print_sorted(&rt, "service.log")
}

/// Serves from four threads, and then changes the level.
fn serve<S, X>(rt: X, logging: &PlainLogging<S, X>) -> Result<()>
where
    S: Store + Send + Drop,
    X: AllocGlobal + Files + Clock + Threads + Wait + Eprint + Copy + Send + Sync + Drop,
    X::File: Send,
    X::Dir: Send,
{
    let mut workers = Vec::new(rt.alloc());
    for requests in SHARES {
        workers.push(Worker { requests })?;
    }
    logging.join_all(workers)?;
    logging.handle.set_root_level(LevelFilter::Debug)?;
    debug!(Logged::new(rt, LevelFilter::Trace, logging.facade()?); "all are served");
    Ok(())
}

/// Prints the lines of a file in order, and removes it.
fn print_sorted<X: AllocGlobal + Files + Print>(rt: &X, path: &str) -> Result<()> {
    let text = fs::read_to_string(rt, path)?;
    let mut lines = text.lines().collect::<Vec<&str>>(rt.alloc())?;
    lines.sort()?;
    for line in &lines {
        println!(rt; "{line}")?;
    }
    fs::remove_file(rt, path)?;
    Ok(())
}
