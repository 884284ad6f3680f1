//! Appenders behind uncontended locks, and in boxes.

use crate::setup::{append, cut, same};
use log4rs_append::{Append, Locked, Steps};
use log4rs_base::{Context, LogError, Record};
use std::alloc::Global;
use std::test::Fail;

/// Counts flushes, steps and drives. Each append fails with the counts as its text.
#[derive(Drop)]
struct Counts {
    alloc: Global,
    flushes: u8,
    steps: u8,
    drives: u8,
}

impl Append for Counts {
    fn append(&mut self, _record: &Record, _context: &Context<'_>) -> Result<(), LogError> {
        let (flushes, steps, drives) = (self.flushes, self.steps, self.drives);
        Err(LogError::Custom(format!(in self.alloc; "{flushes} {steps} {drives}")?))
    }

    fn append_retired(&mut self, record: &Record, context: &Context<'_>) -> Result<(), LogError> {
        self.append(record, context)
    }

    fn flush(&mut self) {
        self.flushes = self.flushes.saturating_add(1);
    }
}

impl Steps for Counts {
    fn step(&mut self) -> Result<bool, LogError> {
        self.steps = self.steps.saturating_add(1);
        Ok(false)
    }

    fn drive(&mut self) -> Result<(), LogError> {
        self.drives = self.drives.saturating_add(1);
        Ok(())
    }

    fn retire(&mut self) -> Result<(), LogError> {
        self.drive()
    }

    fn resume(&mut self) -> Result<(), LogError> {
        Ok(())
    }
}

/// Calls to an appender behind a lock (`f` flushes, `!` steps and `*` drives), and how often it was
/// flushed, stepped and driven.
const ASKED: &str = "\
|0 0 0
f|1 0 0
!|0 1 0
*|0 0 1
f!!***|1 2 3";

/// Makes the call of a letter.
fn ask<A: Steps>(appender: &mut A, letter: char) -> Result<(), LogError> {
    match letter {
        'f' => appender.flush(),
        '!' => {
            appender.step()?;
        }
        _ => appender.drive()?,
    }
    Ok(())
}

/// Returns an appender that nothing was asked of.
fn unasked(alloc: Global) -> Counts {
    Counts {
        alloc,
        flushes: 0,
        steps: 0,
        drives: 0,
    }
}

/// Returns the counts of an appender.
fn counted<A: Append>(alloc: Global, appender: &mut A) -> Result<String, Fail> {
    match append(alloc, appender, "") {
        Ok(()) => Ok(String::new(alloc)),
        Err(fault) => Ok(format!(in alloc; "{fault}")?),
    }
}

/// Makes the calls of these letters to an appender behind a lock. Returns its counts.
fn asked(alloc: Global, letters: &str) -> Result<String, Fail> {
    let mut locked = Locked::new(alloc, unasked(alloc))?;
    for letter in letters.chars() {
        ask(&mut locked, letter)?;
    }
    counted(alloc, &mut locked)
}

#[test]
fn locks_pass_on_what_is_asked(rt: HostRuntime) -> Result<(), Fail> {
    for line in ASKED.lines() {
        let (letters, expected) = cut(line);
        same(&rt, asked(rt.alloc(), letters)?.as_str(), expected);
    }
    Ok(())
}

#[test]
fn boxes_pass_on_a_flush(rt: HostRuntime) -> Result<(), Fail> {
    let alloc = rt.alloc();
    let mut boxed: Box<dyn Append + Send + Sync + Drop> = Box::new(alloc, unasked(alloc))?;
    boxed.flush();
    same(&rt, counted(alloc, &mut boxed)?.as_str(), "1 0 0");
    Ok(())
}
