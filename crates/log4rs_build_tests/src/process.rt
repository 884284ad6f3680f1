ghost use Rattle.std.specs.Prelude.{◌≤◌, IfOk, length};

use crate::setup::same;
use log4rs_build::environment::{arguments, environment, is_terminal};
use std::alloc::Global;
use std::env::FillError;
use std::rt::Env;
use std::str::from_utf8;
use std::test::Fail;

/// A process with these arguments, or entries of the environment, separated by semicolons. It fills
/// no buffer that is shorter than `least`.
#[derive(Clone, Copy)]
struct Process {
    texts: &'static [u8],
    least: usize,
}

impl Process {
    fn fill(&self, at: usize, buf: &mut [u8]) -> Result<usize, FillError>
        ensures { IfOk result (λ taken. taken ≤ length buf.new) }
    {
        let mut texts = self.texts.split(|byte| *byte == b';');
        let text = texts.nth(at).ok_or(FillError::NotPresent)?;
        if buf.len() < self.least {
            return Err(FillError::TooLong);
        }
        let room = buf.get_mut(..text.len()).ok_or(FillError::TooLong)?;
        room.copy_from_slice(text);
        Ok(text.len().min(buf.len()))
    }
}

impl Env for Process {
    fn arg(&self, at: usize, buf: &mut [u8]) -> Result<usize, FillError> {
        self.fill(at, buf)
    }

    fn var(&self, _name: &str, _buf: &mut [u8]) -> Result<usize, FillError> {
        Err(FillError::NotPresent)
    }

    fn var_at(&self, at: usize, buf: &mut [u8]) -> Result<usize, FillError> {
        self.fill(at, buf)
    }
}

/// The name of a program and its arguments, and after a bar the arguments read, or the error.
const ARGUMENTS: &[u8] = b"\
    program|\n\
    program;file;a.toml|file, a.toml, \n\
    program;;x y;\xc3\xa9|, x y, \xc3\xa9, \n\
    \xff;a|a, \n\
    program;a;\xff;\xfe|argument 2 is not UTF-8";

/// The entries of an environment, and after a bar the variables read, and whether standard output
/// is a terminal.
const ENTRIES: &[u8] = b"\
    A=1|A=1 false\n\
    B=2;A=1;B=3|A=1 B=3 false\n\
    A=;B=x=y;=z;C|A= B=x=y false\n\
    A=\xff;\xff=1;B=\xc3\xa9|B=\xc3\xa9 false\n\
    LOG4RS_TTY=1|LOG4RS_TTY=1 true\n\
    LOG4RS_TTY=10|LOG4RS_TTY=10 false";

/// Returns the process of a row and the expected text.
fn cut(row: &'static [u8], least: usize) -> Result<(Process, &'static str), Fail> {
    let mut parts = row.split(|byte| *byte == b'|');
    let texts = parts.next().unwrap_or_default();
    let expected = from_utf8(parts.next().unwrap_or_default())?;
    Ok((Process { texts, least }, expected))
}

/// Returns the arguments of a process, or the error.
fn show_arguments(alloc: Global, process: Process) -> Result<String, Fail> {
    let mut shown = String::new(alloc);
    match arguments(&process, alloc) {
        Ok(arguments) => {
            for argument in &arguments {
                write!(shown, "{argument}, ")?;
            }
        }
        Err(fault) => write!(shown, "{fault}")?,
    }
    Ok(shown)
}

/// Returns the variables of a process, and whether they say that standard output is a terminal.
fn show_environment(alloc: Global, process: Process) -> Result<String, Fail> {
    let values = environment(&process, alloc)?;
    let mut shown = String::new(alloc);
    for (name, value) in &values {
        write!(shown, "{name}={value} ")?;
    }
    write!(shown, "{}", is_terminal(&values))?;
    Ok(shown)
}

#[test]
fn texts_of_a_process(rt: HostRuntime) -> Result<(), Fail> {
    for least in [0, 257, 5000] {
        for row in ARGUMENTS.split(|byte| *byte == b'\n') {
            let (process, expected) = cut(row, least)?;
            same(&rt, show_arguments(rt.alloc(), process)?.as_str(), expected);
        }
        for row in ENTRIES.split(|byte| *byte == b'\n') {
            let (process, expected) = cut(row, least)?;
            same(
                &rt,
                show_environment(rt.alloc(), process)?.as_str(),
                expected,
            );
        }
    }
    Ok(())
}
