//! Errors.

ghost use Rattle.std.specs.Prelude.{◌≡◌};
ghost use Rattle.log4rs_base.specs.declared.error.LogError.TheVariants.{Memory};

use std::alloc::{AllocError, AllocFailed};
use thiserror::Error;

/// The error of a call in which an allocation failed.
#[derive(Clone, Copy, Debug, PartialEq, Eq, Error)]
#[error("out of memory")]
pub struct OutOfMemory;

impl From<AllocError> for OutOfMemory {
    fn from(_: AllocError) -> Self {
        OutOfMemory
    }
}

impl<T: Drop> From<AllocFailed<T>> for OutOfMemory {
    fn from(_: AllocFailed<T>) -> Self {
        OutOfMemory
    }
}

/// Errors of appenders and their parts.
#[derive(Debug, Drop, Error)]
pub enum LogError {
    /// A store or a console refused an operation.
    #[error("the store refused an operation")]
    Store,
    /// An allocation failed.
    #[error("{}", OutOfMemory)]
    Memory,
    /// A policy of the caller failed.
    #[error("the policy failed")]
    Policy,
    /// A component of the caller failed, for this reason.
    #[error("{0}")]
    Custom(String),
}

impl From<OutOfMemory> for LogError {
    ghost from_gives = { λ _ e. e ≡ Memory };

    fn from(_: OutOfMemory) -> Self {
        LogError::Memory
    }
}

impl From<AllocError> for LogError {
    ghost from_gives = { λ _ e. e ≡ Memory };

    fn from(_: AllocError) -> Self {
        LogError::Memory
    }
}

impl<T: Drop> From<AllocFailed<T>> for LogError {
    ghost from_gives = { λ _ e. e ≡ Memory };

    fn from(_: AllocFailed<T>) -> Self {
        LogError::Memory
    }
}

/// Errors of building a roller.
#[derive(Clone, Copy, Debug, PartialEq, Eq, Error)]
pub enum RollerError {
    /// The pattern has no `{}` for the index.
    #[error("pattern does not contain `{{}}`")]
    NoPlaceholder,
    /// The pattern has the extension `gz`.
    #[error("gzip compression requires the `gzip` feature")]
    GzipRequired,
    /// The pattern has the extension `zst`.
    #[error("zstd compression requires the `zstd` feature")]
    ZstdRequired,
    /// The lowest index plus the count exceeds 4294967295.
    #[error("the window ends past the largest index")]
    WindowTooLarge,
    /// An allocation failed.
    #[error("{}", OutOfMemory)]
    Memory,
}

impl From<OutOfMemory> for RollerError {
    ghost use Rattle.log4rs_base.specs.declared.error.RollerError.TheVariants.{Memory};

    ghost from_gives = { λ _ e. e ≡ Memory };

    fn from(_: OutOfMemory) -> Self {
        RollerError::Memory
    }
}

impl From<AllocError> for RollerError {
    ghost use Rattle.log4rs_base.specs.declared.error.RollerError.TheVariants.{Memory};

    ghost from_gives = { λ _ e. e ≡ Memory };

    fn from(_: AllocError) -> Self {
        RollerError::Memory
    }
}
