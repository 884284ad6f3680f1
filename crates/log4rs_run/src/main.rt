//! The program `log4rs-run`, which logs the records that it reads on standard input.
#![tactic(auto)]

use log4rs::config::file::{FileSource, NotedSource};
use log4rs::environment::{arguments, environment, is_terminal};
use log4rs::{FileStoreMaker, OutOfMemory, file_store_maker};
use log4rs_command::FileAccess;
use log4rs_command::command::run;
use log4rs_command::host::Host;
use log4rs_command::stop::{REFUSED, Stop};
use rand::make_rng;
use rand::rngs::StdRng;
use std::collections::BTreeMap;
use std::fs::{File, OpenOptions};
use std::io::{self, BufReader, BufWriter, LineWriter, Stderr, StdinLock, Stdout};
use std::os::fd::{AsRawFd, IntoRawFd};
use std::process::ExitCode;

fn main(rt: HostRuntime) -> ExitCode {
    if let Err(fault) = hold_streams(&rt) {
        return fail(&rt, &Stop::from(fault));
    }
    let (args, mut host) = match prepare(&rt) {
        Ok(prepared) => prepared,
        Err(stop) => return fail(&rt, &stop),
    };
    let (mut input, mut out, mut err) = match streams(&rt) {
        Ok(streams) => streams,
        Err(fault) => return fail(&rt, &Stop::from(fault)),
    };
    let file = match config_file(&rt, &args) {
        Ok(file) => file,
        Err(fault) => return fail(&rt, &Stop::from(fault)),
    };
    let status = run(&args, file, &mut host, &mut input, &mut out, &mut err);
    ExitCode::from(status)
}

/// Prints why the program cannot run, and returns its status.
fn fail(rt: &HostRuntime, stop: &Stop) -> ExitCode {
    let _ = eprintln!(rt; "{stop}");
    ExitCode::from(REFUSED)
}

/// The file that is opened in place of closed standard streams.
const NOWHERE: &str = "/dev/null";

/// Opens a file in place of each closed standard stream, so that no file opened later gets its
/// descriptor: an opening gets the lowest free one. The file is opened in the wrong direction, so
/// that reads and writes fail as on a closed stream.
fn hold_streams(rt: &HostRuntime) -> io::Result<()> {
    let input = OpenOptions::new().write(true).open(rt, NOWHERE)?;
    if input.as_raw_fd() == 0 {
        let _ = input.into_raw_fd();
    } else {
        drop(input);
    }
    for _ in 1..3 {
        let output = File::open(rt, NOWHERE)?;
        if output.as_raw_fd() > 2 {
            break;
        }
        let _ = output.into_raw_fd();
    }
    Ok(())
}

/// Returns the arguments and the surroundings of the run.
fn prepare(
    rt: &HostRuntime,
) -> Result<(Vec<String>, Host<HostRuntime, StdRng, HostRuntime>), Stop> {
    let args = arguments(rt, rt.alloc())?;
    let host = host_of(rt, &args)?;
    Ok((args, host))
}

/// Returns the source of the file at the second argument, which notes its results, and a maker of
/// stores of real files, which print what the system refuses.
fn config_file(
    rt: &HostRuntime,
    args: &[String],
) -> io::Result<FileAccess<NotedSource<FileSource<HostRuntime>>, FileStoreMaker<HostRuntime>>> {
    let path = match args.get(1) {
        Some(path) => path.clone()?,
        None => String::new(rt.alloc()),
    };
    Ok(FileAccess {
        source: NotedSource::new(FileSource::new(rt.alloc(), *rt, path)),
        maker: file_store_maker(*rt, rt.alloc())?,
    })
}

/// Returns the buffered standard streams of the process.
fn streams(
    rt: &HostRuntime,
) -> io::Result<
    (
        BufReader<StdinLock<'static>>,
        BufWriter<Stdout>,
        LineWriter<Stderr>,
    ),
> {
    let alloc = rt.alloc();
    let input = BufReader::new(alloc, rt.reader())?;
    let out = BufWriter::new(alloc, rt.stdout())?;
    let err = LineWriter::new(alloc, rt.stderr())?;
    Ok((input, out, err))
}

/// Returns the surroundings of the run: the clock, random words, the files, the environment and the
/// terminals of the process.
fn host_of(
    rt: &HostRuntime,
    args: &[String],
) -> Result<Host<HostRuntime, StdRng, HostRuntime>, Stop> {
    let env = environment_for(rt, args)?;
    let is_terminal = is_terminal(&env);
    Ok(Host {
        alloc: rt.alloc(),
        clock: *rt,
        random: make_rng::<StdRng, HostRuntime>(rt)?,
        files: *rt,
        env,
        stdout: rt.stdout(),
        stderr: rt.stderr(),
        is_terminal,
    })
}

/// Returns the environment for the command `file`, and an empty one for other commands.
fn environment_for(
    rt: &HostRuntime,
    args: &[String],
) -> Result<BTreeMap<String, String>, OutOfMemory> {
    match args.first() {
        Some(command) if command.as_str() == "file" => environment(rt, rt.alloc()),
        _ => Ok(BTreeMap::new(rt.alloc())),
    }
}
