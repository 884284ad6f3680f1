//! Errors of reading and loading a configuration.

ghost use Rattle.std.specs.Prelude.{◌≡◌, string_bytes};
ghost use Rattle.log4rs_build.specs.Raw.{refused_by, format_refused, load_refused, source_refused};
ghost use Rattle.log4rs_build.specs.declared.error.InitError.TheVariants.{BuildConfig};
ghost use Rattle.log4rs_build.specs.declared.error.InitError.TheVariants.{Deserializing, Memory};
ghost use Rattle.log4rs_build.specs.FileErrors.{IsRefusalOf};
ghost use Rattle.log4rs_build.specs.declared.error.InitError.{InitError};
ghost use Rattle.log4rs_build.specs.declared.error.FileError.TheVariants.{Memory};

use crate::AppenderErrors;
use log4rs_base::OutOfMemory;
use log4rs_config::runtime::{BuildError, ConfigErrors};
use log4rs_settings::{ConfigSource, FormatError, LoadError, PartFault, SourceError, TextError};
use std::alloc::{AllocError, AllocFailed};
use thiserror::Error;

/// Errors of parsing a configuration.
#[derive(Debug, Drop, Error)]
pub enum ParseError {
    /// The text is not well formed, or is a value that no configuration has.
    #[error("{0}")]
    Text(TextError),
    /// There is a value that no configuration has, at this place in the text: the path of names to
    /// it, joined by dots. An item of a list has its index for a name.
    #[error("{0}: {1}")]
    Value(String, TextError),
    /// The top part, the root, a logger, or the kind or filters of an appender have a fault.
    #[error("{0}")]
    Settings(PartFault),
}

/// Errors of building a configuration from a text.
#[derive(Debug, Drop, Error)]
pub enum InitError {
    /// The extension of the path names no supported format.
    #[error("{0}")]
    Format(FormatError),
    /// The source failed to read its text.
    #[error("{0}")]
    Read(SourceError),
    /// The text is no configuration.
    #[error("{0}")]
    Parse(ParseError),
    /// Appenders or filters have faults.
    #[error("{0}")]
    Deserializing(AppenderErrors),
    /// The configuration has faults.
    #[error("{0}")]
    BuildConfig(ConfigErrors),
    /// An allocation failed.
    #[error("{}", OutOfMemory)]
    Memory,
}

impl From<OutOfMemory> for InitError {
    ghost from_gives = { λ _ e. e ≡ Memory };

    fn from(_: OutOfMemory) -> Self {
        InitError::Memory
    }
}

impl From<AppenderErrors> for InitError {
    ghost from_gives = { λ errors e. e ≡ Deserializing errors };

    fn from(errors: AppenderErrors) -> Self {
        InitError::Deserializing(errors)
    }
}

impl From<ConfigErrors> for InitError {
    ghost from_gives = { λ errors e. e ≡ BuildConfig errors };

    fn from(errors: ConfigErrors) -> Self {
        InitError::BuildConfig(errors)
    }
}

impl From<BuildError> for InitError {
    ghost from_gives = { λ error e. e ≡ refused_by error };

    fn from(error: BuildError) -> Self {
        match error {
            BuildError::Errors(errors) => InitError::BuildConfig(errors),
            BuildError::Memory => InitError::Memory,
        }
    }
}

impl From<FormatError> for InitError {
    ghost from_gives = { λ error e. e ≡ format_refused error };

    fn from(error: FormatError) -> Self {
        match error {
            FormatError::Memory => InitError::Memory,
            error => InitError::Format(error),
        }
    }
}

impl From<SourceError> for InitError {
    ghost from_gives = { λ error e. e ≡ source_refused error };

    fn from(error: SourceError) -> Self {
        match error {
            SourceError::Refused => InitError::Read(SourceError::Refused),
            SourceError::Memory => InitError::Memory,
        }
    }
}

impl From<InitError> for LoadError {
    ghost from_gives = { λ error e. e ≡ load_refused error };

    fn from(error: InitError) -> Self {
        match error {
            InitError::Memory => LoadError::Memory,
            _ => LoadError::Refused,
        }
    }
}

/// Errors of starting a logger by a file.
#[derive(Debug, Drop, Error)]
pub enum FileError {
    /// The file at a path cannot be read, with the cause.
    #[error("{path}: {fault}")]
    Read { path: String, fault: String },
    /// The file at a path is no configuration.
    #[error("{path}: {fault}")]
    Refused { path: String, fault: InitError },
    /// A thread beside the program could not be started.
    #[error("no thread can be started")]
    Thread,
    /// An allocation failed.
    #[error("{}", OutOfMemory)]
    Memory,
}

impl From<OutOfMemory> for FileError {
    ghost from_gives = { λ _ e. e ≡ Memory };

    fn from(_: OutOfMemory) -> Self {
        FileError::Memory
    }
}

impl From<AllocError> for FileError {
    ghost from_gives = { λ _ e. e ≡ Memory };

    fn from(_: AllocError) -> Self {
        FileError::Memory
    }
}

impl<T: Drop> From<AllocFailed<T>> for FileError {
    ghost from_gives = { λ _ e. e ≡ Memory };

    fn from(_: AllocFailed<T>) -> Self {
        FileError::Memory
    }
}

impl FileError {
    /// Returns the error for the file at a path, with its source's cause if that failed. Returns
    /// `Memory` if an allocation fails.
    pub(crate) fn of<S: ConfigSource>(path: String, fault: InitError, source: &S) -> FileError
        ensures { IsRefusalOf (string_bytes path) fault result }
    {
        match fault {
            InitError::Memory => FileError::Memory,
            InitError::Read(said) => {
                let alloc = *path.allocator();
                let told = match source.last_fault() {
                    Some(cause) => format!(in alloc; "{cause}"),
                    None => format!(in alloc; "{said}"),
                };
                match told {
                    Ok(fault) => FileError::Read { path, fault },
                    Err(_) => FileError::Memory,
                }
            }
            fault => FileError::Refused { path, fault },
        }
    }
}
