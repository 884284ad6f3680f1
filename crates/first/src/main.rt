//! Logs records as the file log4rs.toml says.
#![tactic(auto)]

use anyhow::Result;
use log::{Log, info, warn};
use log4rs::{Program, with_file};

#[derive(Drop)]
struct Watch;

impl Program for Watch {
    type Answer = ();

    fn run<R: Log>(self, rt: &R) {
        let disk = "/dev/sda";
        info!(rt; "watching {disk}");
        warn!(rt; target: "app::disk", "low on {disk}");
    }
}

fn main(rt: HostRuntime) -> Result<()> {
    with_file(
        rt,
        rt.alloc(),
        rt.stdout(),
        rt.stderr(),
        "log4rs.toml",
        Watch,
    )?;
    Ok(())
}
