//! Runs whose input, output or clock fails.

use crate::world::{Still, arguments, host_of, no_file};
use log4rs_command::command::run;
use std::io::{self, BufRead, BufReader, ErrorKind, Read, Write};
use std::rt::Clock;
use std::sync::Wait;
use std::test::Fail;
use std::thread::Threads;
use std::time::Duration;

/// A reader, a writer and a clock that always fail.
#[derive(Clone, Copy)]
struct Broken;

impl Read for Broken {
    fn read(&mut self, _buf: &mut [u8]) -> io::Result<usize> {
        Err(io::Error::from(ErrorKind::BrokenPipe))
    }
}

impl Write for Broken {
    fn write(&mut self, _buf: &[u8]) -> io::Result<usize> {
        Err(io::Error::from(ErrorKind::BrokenPipe))
    }

    fn flush(&mut self) -> io::Result<()> {
        Err(io::Error::from(ErrorKind::BrokenPipe))
    }
}

impl Clock for Broken {
    fn monotonic(&self) -> io::Result<Duration> {
        Err(io::Error::from(ErrorKind::BrokenPipe))
    }

    fn since_1970(&self) -> io::Result<Duration> {
        Err(io::Error::from(ErrorKind::BrokenPipe))
    }
}

/// A writer that accepts all bytes, and fails to flush.
#[derive(Clone, Copy)]
struct Stuck;

impl Write for Stuck {
    fn write(&mut self, buf: &[u8]) -> io::Result<usize> {
        Ok(buf.len())
    }

    fn flush(&mut self) -> io::Result<()> {
        Err(io::Error::from(ErrorKind::BrokenPipe))
    }
}

/// Runs the command `pattern` over this input, output and error output. Returns the status.
fn status<
    X: Threads + Wait + Eprint + Clock + Clone + Copy + Send + Sync + Drop + 'static,
    C: Clock + Drop,
    R: BufRead,
    O: Write,
    E: Write,
>(
    rt: &HostRuntime,
    files: X,
    clock: C,
    input: &mut R,
    out: &mut O,
    err: &mut E,
) -> Result<u8, Fail> {
    let args = arguments(rt.alloc(), "pattern|{m}")?;
    let mut host = host_of(rt, files, clock);
    Ok(run(&args, no_file(rt), &mut host, input, out, err))
}

const FAULT: &[u8] = b"log4rs-run: broken pipe\n";

#[test]
fn failed_streams_end_the_run(rt: HostRuntime) -> Result<(), Fail> {
    let begun = b"INFO a 1\nINFO a 2".as_slice();
    let mut input = BufReader::new(rt.alloc(), begun.chain(Broken))?;
    let (mut out, mut err) = (Vec::new(rt.alloc()), Vec::new(rt.alloc()));
    assert_eq!(rt; status(&rt, rt, Still, &mut input, &mut out, &mut err)?, 2);
    assert!(rt; out.is_empty() && err.as_slice() == FAULT);
    let mut input = b"INFO a 1\n".as_slice();
    err.clear();
    assert_eq!(rt;
        status(&rt, rt, Still, &mut input, &mut Broken, &mut err)?,
        2
    );
    assert!(rt; err.as_slice() == FAULT);
    let mut input = b"INFO a 1\n".as_slice();
    err.clear();
    assert_eq!(rt;
        status(&rt, rt, Still, &mut input, &mut Stuck, &mut err)?,
        2
    );
    assert!(rt; err.as_slice() == FAULT);
    let mut input = b"bad\nINFO a 1\n".as_slice();
    assert_eq!(rt;
        status(&rt, rt, Still, &mut input, &mut out, &mut Broken)?,
        2
    );
    assert!(rt; out.is_empty());
    Ok(())
}

#[test]
fn a_failed_clock_ends_the_run(rt: HostRuntime) -> Result<(), Fail> {
    let mut input = b"INFO a 1\n".as_slice();
    let (mut out, mut err) = (Vec::new(rt.alloc()), Vec::new(rt.alloc()));
    assert_eq!(rt; status(&rt, rt, Broken, &mut input, &mut out, &mut err)?, 2);
    assert!(rt; out.is_empty() && err.as_slice().starts_with(b"log4rs-run: "));
    Ok(())
}
