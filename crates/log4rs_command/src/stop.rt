//! The causes of an early end.

ghost use Rattle.std.specs.Prelude.{◌≡◌};
ghost use Rattle.log4rs_command.specs.Stops.{stop_of, unloaded, unread, unworked};
ghost use Rattle.log4rs_command.specs.declared.stop.Stop.TheVariants.{Memory, Refused, Io, Clock};

use crate::arguments::ArgumentsError;
use log4rs_base::OutOfMemory;
use log4rs_build::FileError;
use log4rs_build::environment::ArgumentError;
use log4rs_config::runtime::BuildError;
use log4rs_threads::WorkersError;
use std::alloc::{AllocError, AllocFailed};
use std::io;
use thiserror::Error;

/// The status of a run in which all went well.
pub const DONE: u8 = 0;

/// The status of a run with a malformed line, a failed append, or an appender that was left out.
pub const FAULTY: u8 = 1;

/// The status of a run that ended early.
pub const REFUSED: u8 = 2;

/// The cause of a run's early end.
#[derive(Debug, Drop, Error)]
pub enum Stop {
    /// The arguments are wrong.
    #[error("usage: log4rs-run pattern PATTERN [NAME=LEVEL]... | file CONFIG | threads N COUNT")]
    Usage,
    /// The argument of this number is not UTF-8.
    #[error("log4rs-run: argument {0} is not UTF-8")]
    NotText(usize),
    /// The configuration has faults.
    #[error("log4rs-run: {0}")]
    Refused(BuildError),
    /// The configuration of a file could not be loaded.
    #[error("log4rs-run: {0}")]
    File(FileError),
    /// An allocation failed.
    #[error("log4rs-run: {}", OutOfMemory)]
    Memory,
    /// Reading or writing failed.
    #[error("log4rs-run: {0}")]
    Io(io::Error),
    /// The clock could not be read.
    #[error("log4rs-run: {0}")]
    Clock(jiff::Error),
    /// No thread could be started.
    #[error("log4rs-run: no thread can be started")]
    Thread,
    /// There are more lines than can be counted.
    #[error("log4rs-run: too many lines")]
    Endless,
}

impl From<OutOfMemory> for Stop {
    ghost from_gives = { λ _ e. e ≡ Memory };

    fn from(_: OutOfMemory) -> Self {
        Stop::Memory
    }
}

impl From<AllocError> for Stop {
    ghost from_gives = { λ _ e. e ≡ Memory };

    fn from(_: AllocError) -> Self {
        Stop::Memory
    }
}

impl<T: Drop> From<AllocFailed<T>> for Stop {
    ghost from_gives = { λ _ e. e ≡ Memory };

    fn from(_: AllocFailed<T>) -> Self {
        Stop::Memory
    }
}

impl From<ArgumentsError> for Stop {
    ghost from_gives = { λ error e. e ≡ stop_of error };

    fn from(error: ArgumentsError) -> Self {
        match error {
            ArgumentsError::Usage => Stop::Usage,
            ArgumentsError::Memory => Stop::Memory,
        }
    }
}

impl From<ArgumentError> for Stop {
    ghost from_gives = { λ error e. e ≡ unread error };

    fn from(error: ArgumentError) -> Self {
        match error {
            ArgumentError::NotText(at) => Stop::NotText(at),
            ArgumentError::Memory => Stop::Memory,
        }
    }
}

impl From<BuildError> for Stop {
    ghost from_gives = { λ fault e. e ≡ Refused fault };

    fn from(fault: BuildError) -> Self {
        Stop::Refused(fault)
    }
}

impl From<FileError> for Stop {
    ghost from_gives = { λ error e. e ≡ unloaded error };

    fn from(error: FileError) -> Self {
        match error {
            FileError::Memory => Stop::Memory,
            FileError::Thread => Stop::Thread,
            error => Stop::File(error),
        }
    }
}

impl From<WorkersError> for Stop {
    ghost from_gives = { λ error e. e ≡ unworked error };

    fn from(error: WorkersError) -> Self {
        match error {
            WorkersError::Memory => Stop::Memory,
            WorkersError::Thread => Stop::Thread,
        }
    }
}

impl From<io::Error> for Stop {
    ghost from_gives = { λ fault e. e ≡ Io fault };

    fn from(fault: io::Error) -> Self {
        Stop::Io(fault)
    }
}

impl From<jiff::Error> for Stop {
    ghost from_gives = { λ fault e. e ≡ Clock fault };

    fn from(fault: jiff::Error) -> Self {
        Stop::Clock(fault)
    }
}
