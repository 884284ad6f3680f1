//! Runs and their reports.

use log4rs_base::{Entry, LogError, OutOfMemory};
use thiserror::Error;

/// An act of a run.
#[derive(Drop)]
pub enum Act<'z> {
    /// Appends the entry's record, in its context.
    Append(Entry<'z>),
    /// Appends the entry's record late, as an appender does that was retired before the run: opens
    /// the file in append mode, writes the text, and closes the file. No trigger is called, and
    /// nothing is rolled. The next append opens the file again.
    ///
    /// The text is made by the encoder of the run, also where it stands for a record of former
    /// settings, whose encoder may be another. `suffix` and `drops` hold for any text.
    Late(Entry<'z>),
    /// Makes one step of a rotation in the background.
    Step,
}

/// A run: a list of acts, and the moment of its stop.
#[derive(Drop)]
pub struct Run<'z> {
    /// The acts, in order.
    pub acts: Vec<Act<'z>>,
    /// The number of operations of the store after which all further ones are refused, or `None` if
    /// the run is not stopped.
    pub stop_after: Option<u64>,
}

/// The result of an act.
#[derive(Debug, Drop)]
pub enum ActOutcome {
    /// The result of an append, late or not.
    Appended(Result<(), LogError>),
    /// The result of a step: whether more of a rotation is left.
    Stepped(Result<bool, LogError>),
}

/// Errors of opening the file of a run.
#[derive(Clone, Copy, Debug, PartialEq, Eq, Error)]
pub enum OpeningError {
    /// The settings are refused.
    #[error("the settings are refused")]
    Settings,
    /// The store refused an operation, or the run was stopped.
    #[error("{}", LogError::Store)]
    Store,
    /// An allocation failed.
    #[error("{}", OutOfMemory)]
    Memory,
}

/// The report of a run.
#[derive(Drop)]
pub struct RunReport {
    /// The result of opening the file.
    pub opening: Result<(), OpeningError>,
    /// The results of the acts, in order.
    pub outcomes: Vec<ActOutcome>,
    /// The decisions of the trigger, in order: one for each append in which it was called.
    pub answers: Vec<bool>,
    /// The number of operations that the stop let through to the store, or 0 if there is no stop.
    pub passed: u64,
    /// The number of operations that the stop refused, or 0 if there is no stop.
    pub stopped: u64,
}

/// The report of all runs.
#[derive(Drop)]
pub struct Report {
    /// The reports of the runs, in order.
    pub runs: Vec<RunReport>,
}
