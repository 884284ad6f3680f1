//! Errors of configurations.

ghost use Rattle.std.specs.Prelude.{◌≡◌, ◌↔◌, [], IsTrue};
ghost use Rattle.log4rs_config.specs.declared.runtime.error.BuildError.TheVariants.{Memory};

use log4rs_base::OutOfMemory;
use log4rs_base::print::print_fault;
use std::alloc::{AllocError, AllocFailed};
use std::fmt;
use std::marker::Model;
use thiserror::Error;

/// A fault of a configuration, with the name that it is about.
#[derive(Debug, Drop, Error)]
pub enum ConfigError {
    /// An appender has the name of one before it.
    #[error("Duplicate appender name `{0}`")]
    DuplicateAppenderName(String),
    /// The root or a logger names an appender that does not exist.
    #[error("Reference to nonexistent appender: `{0}`")]
    NonexistentAppender(String),
    /// A logger has the name of one before it.
    #[error("Duplicate logger name `{0}`")]
    DuplicateLoggerName(String),
    /// No logger may have this name.
    #[error("Invalid logger name `{0}`")]
    InvalidLoggerName(String),
}

/// The faults of a configuration, in the order in which they are found.
#[derive(Debug, Drop)]
pub struct ConfigErrors {
    errors: Vec<ConfigError>,
}

impl Model for ConfigErrors {
    ghost use Rattle.std.specs.Prelude.{List};
    ghost use Rattle.log4rs_config.specs.Faults.{Fault};
    ghost use Rattle.log4rs_config.specs.Errors.{faults_of};

    ghost Value = { List Fault };

    ghost view = { λ e. faults_of e.errors.items };
}

impl ConfigErrors {
    ghost use Rattle.log4rs_config.specs.Errors.{faults_of};

    pub(crate) fn new(errors: Vec<ConfigError>) -> ConfigErrors
        ensures { result ≡ faults_of errors.items }
    {
        ConfigErrors { errors }
    }

    /// Returns whether there is no fault.
    pub fn is_empty(&self) -> bool
        ensures { IsTrue result ↔ (self.now ≡ []) }
    {
        self.errors.is_empty()
    }

    /// Returns the faults.
    pub fn errors(&self) -> &[ConfigError]
        ensures { faults_of result.now ≡ self.now }
    {
        self.errors.as_slice()
    }

    /// Prints each fault to standard error, as `log4rs: ` and its text, and forgets it. Ignores
    /// what cannot be printed.
    pub fn handle(&mut self, rt: &impl Eprint)
        ensures { self.new ≡ [] }
    {
        for error in &self.errors {
            print_fault(rt, error);
        }
        self.errors.clear();
    }
}

impl fmt::Display for ConfigErrors {
    fn fmt<W: fmt::Write>(&self, f: &mut fmt::Formatter<W>) -> fmt::Result {
        f.write_str("errors in the configuration:")?;
        for (at, error) in self.errors.iter().enumerate() {
            f.write_str(if at == 0 { " " } else { "; " })?;
            write!(f, "{error}")?;
        }
        Ok(())
    }
}

impl std::error::Error for ConfigErrors {}

/// Errors of building a configuration.
#[derive(Debug, Drop, Error)]
pub enum BuildError {
    /// The configuration has these faults.
    #[error("{0}")]
    Errors(ConfigErrors),
    /// An allocation failed.
    #[error("{}", OutOfMemory)]
    Memory,
}

impl From<OutOfMemory> for BuildError {
    ghost from_gives = { λ _ e. e ≡ Memory };

    fn from(_: OutOfMemory) -> Self {
        BuildError::Memory
    }
}

impl From<AllocError> for BuildError {
    ghost from_gives = { λ _ e. e ≡ Memory };

    fn from(_: AllocError) -> Self {
        BuildError::Memory
    }
}

impl<T: Drop> From<AllocFailed<T>> for BuildError {
    ghost from_gives = { λ _ e. e ≡ Memory };

    fn from(_: AllocFailed<T>) -> Self {
        BuildError::Memory
    }
}
