//! A program that logs as the file log4rs.toml says.

use anyhow::Result;
use log::{Log, warn};
use log4rs::{Program, with_file};
use std::fs::Files;
use std::io::{Stderr, Stdout};
use std::rt::{Clock, Env};
use std::sync::Wait;
use std::thread::Threads;

#[derive(Drop)]
struct Watch;

impl Program for Watch {
    type Answer = ();

    fn run<R: Log>(self, rt: &R) {
        let disk = "/dev/sda";
        warn!(rt; target: "app::disk", "low on {disk}");
    }
}

/// Logs a record.
pub fn run<X>(rt: X, stdout: Stdout, stderr: Stderr) -> Result<()>
where
    X: AllocGlobal + Files + Env + Clock + Threads + Wait + Eprint + Copy,
    X: Send + Sync + Drop + 'static,
    X::File: Send + 'static,
    X::Dir: Send + 'static,
{
    with_file(rt, rt.alloc(), stdout, stderr, "log4rs.toml", Watch)?;
    Ok(())
}
