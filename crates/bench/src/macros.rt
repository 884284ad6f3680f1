//! Records that the macros of `log` make.

use crate::work::Work;
use jiff::tz::TimeZone;
use log::{LevelFilter, Log, Logged, debug, info};
use log4rs::{Backend, Facade, Origin, OutOfMemory};
use std::alloc::Global;
use std::fs::Files;
use std::rt::Clock;

/// A runtime whose macros log to a logger.
pub type Told<L, R> = Logged<R, Facade<'static, L, R>>;

/// Returns a runtime of the calling thread whose macros log to a logger, in UTC.
pub fn here<L: Backend + Drop, R: Files + Clock + Copy + Drop>(
    rt: R,
    alloc: Global,
    logger: L,
) -> Result<Told<L, R>, OutOfMemory> {
    let origin = Origin::here(&rt, alloc, TimeZone::UTC)?;
    let facade = Facade::new(alloc, logger, rt, origin);
    Ok(Logged::new(rt, LevelFilter::Trace, facade))
}

/// The first and the last number of users, who take turns.
const USERS: (u64, u64) = (100, 999);

/// Returns the user after this one.
fn next_user(user: u64) -> u64 {
    if user < USERS.1 { user + 1 } else { USERS.0 }
}

/// Logs a message of 54 bytes.
fn inform<R: Log>(rt: &R, target: &str) {
    info!(rt; target: target, "user 471 fetched 23 rows from the table of recent days");
}

/// Logs the same message with a number in it.
fn inform_of<R: Log>(rt: &R, target: &str, user: u64) {
    info!(rt; target: target, "user {user} fetched 23 rows from the table of recent days");
}

/// Logs a text.
fn quote<R: Log>(rt: &R, target: &str, text: &str) {
    info!(rt; target: target, "{text}");
}

/// Logs the message at a level that is off.
fn detail<R: Log>(rt: &R, target: &str) {
    debug!(rt; target: target, "user 471 fetched 23 rows from the table of recent days");
}

/// Logs to a target by `info!`.
#[derive(Drop)]
pub struct Informs<'a, R> {
    rt: R,
    target: &'a str,
}

impl<'a, R> Informs<'a, R> {
    pub fn new(rt: R, target: &'a str) -> Informs<'a, R> {
        Informs { rt, target }
    }
}

impl<R: Log> Work for Informs<'_, R> {
    fn once(&mut self) -> Result<u64, OutOfMemory> {
        inform(&self.rt, self.target);
        Ok(1)
    }
}

/// Logs to a target by `info!`, with a number.
#[derive(Drop)]
pub struct InformsOf<'a, R> {
    rt: R,
    target: &'a str,
    user: u64,
}

impl<'a, R> InformsOf<'a, R> {
    pub fn new(rt: R, target: &'a str) -> InformsOf<'a, R> {
        InformsOf {
            rt,
            target,
            user: USERS.0,
        }
    }
}

impl<R: Log> Work for InformsOf<'_, R> {
    fn once(&mut self) -> Result<u64, OutOfMemory> {
        inform_of(&self.rt, self.target, self.user);
        self.user = next_user(self.user);
        Ok(1)
    }
}

/// Logs a text to a target by `info!`.
#[derive(Drop)]
pub struct Quotes<'a, R> {
    rt: R,
    target: &'a str,
    text: &'a str,
}

impl<'a, R> Quotes<'a, R> {
    pub fn new(rt: R, target: &'a str, text: &'a str) -> Quotes<'a, R> {
        Quotes { rt, target, text }
    }
}

impl<R: Log> Work for Quotes<'_, R> {
    fn once(&mut self) -> Result<u64, OutOfMemory> {
        quote(&self.rt, self.target, self.text);
        Ok(1)
    }
}

/// Logs to a target by `debug!`, which is off.
#[derive(Drop)]
pub struct Details<'a, R> {
    rt: R,
    target: &'a str,
}

impl<'a, R> Details<'a, R> {
    pub fn new(rt: R, target: &'a str) -> Details<'a, R> {
        Details { rt, target }
    }
}

impl<R: Log> Work for Details<'_, R> {
    fn once(&mut self) -> Result<u64, OutOfMemory> {
        detail(&self.rt, self.target);
        Ok(0)
    }
}
