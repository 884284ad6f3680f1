//! The surroundings of the tests' runs.

use log4rs_command::FileAccess;
use log4rs_command::host::Host;
use log4rs_rolling::FsMaker;
use log4rs_settings::FileSource;
use rand::SeedableRng;
use rand::rngs::StdRng;
use std::alloc::{AllocError, Global};
use std::collections::BTreeMap;
use std::fmt::Display;
use std::io::{self, ErrorKind};
use std::mem;
use std::process::Abort;
use std::rt::Clock;
use std::sync::{Mutex, Wait};
use std::thread::Threads;
use std::time::Duration;

/// A clock that stands still.
#[derive(Clone, Copy)]
pub(crate) struct Still;

impl Clock for Still {
    fn monotonic(&self) -> io::Result<Duration> {
        Ok(Duration::from_secs(0))
    }

    fn since_1970(&self) -> io::Result<Duration> {
        Ok(Duration::from_secs(1_458_512_540))
    }
}

/// A runtime that keeps what is printed to standard error.
#[derive(Clone, Copy)]
pub(crate) struct Telling<R: 'static> {
    rt: R,
    told: &'static Mutex<String>,
}

impl<R: Drop> Telling<R> {
    /// Creates a runtime that has kept nothing. Its text is leaked.
    pub(crate) fn new(rt: R, alloc: Global) -> Result<Telling<R>, AllocError> {
        let told = Box::leak(Box::new(alloc, Mutex::new(String::new(alloc)))?);
        Ok(Telling { rt, told })
    }
}

impl<R: Wait> Telling<R> {
    /// Removes and returns what was printed.
    pub(crate) fn take(&self, alloc: Global) -> String {
        mem::replace(&mut *self.told.lock(&self.rt), String::new(alloc))
    }

    fn keep<D: Display + Drop>(&self, value: D, end: &str) -> io::Result<()> {
        match write!(self.told.lock(&self.rt), "{value}{end}") {
            Ok(()) => Ok(()),
            Err(_) => Err(io::Error::from(ErrorKind::OutOfMemory)),
        }
    }
}

impl<R: Threads> Threads for Telling<R> {}

impl<R: Wait> Wait for Telling<R> {}

impl<R: Clock> Clock for Telling<R> {
    fn monotonic(&self) -> io::Result<Duration> {
        self.rt.monotonic()
    }

    fn since_1970(&self) -> io::Result<Duration> {
        self.rt.since_1970()
    }
}

impl<R: Wait> Eprint for Telling<R> {
    fn eprint<D: Display + Drop>(&self, value: D) -> io::Result<()> {
        self.keep(value, "")
    }

    fn eprintln<D: Display + Drop>(&self, value: D) -> io::Result<()> {
        self.keep(value, "\n")
    }
}

/// Returns a host with this clock and these files, a seeded random generator, an empty environment
/// and no terminals.
pub(crate) fn host_of<C, X>(rt: &HostRuntime, files: X, clock: C) -> Host<C, StdRng, X> {
    Host {
        alloc: rt.alloc(),
        clock,
        random: StdRng::seed_from_u64(1),
        files,
        env: BTreeMap::new(rt.alloc()),
        stdout: rt.stdout(),
        stderr: rt.stderr(),
        is_terminal: false,
    }
}

/// Asserts that a text is the expected one.
pub(crate) fn same(stop: &impl Abort, found: &str, expected: &str) {
    assert_eq!(stop; found, expected);
}

/// Returns the arguments that bars separate.
pub(crate) fn arguments(alloc: Global, text: &str) -> Result<Vec<String>, AllocError> {
    let mut args = Vec::new(alloc);
    for arg in text.split('|') {
        args.push(String::from_str(alloc, arg)?)?;
    }
    Ok(args)
}

/// Returns the source of the file at a path, and a maker of real files.
pub(crate) fn config_file(
    rt: &HostRuntime,
    path: String,
) -> FileAccess<FileSource<HostRuntime>, FsMaker<HostRuntime>> {
    FileAccess {
        source: FileSource::new(rt.alloc(), *rt, path),
        maker: FsMaker::new(rt.alloc(), *rt),
    }
}

/// Returns the same with an empty path.
pub(crate) fn no_file(
    rt: &HostRuntime,
) -> FileAccess<FileSource<HostRuntime>, FsMaker<HostRuntime>> {
    config_file(rt, String::new(rt.alloc()))
}
