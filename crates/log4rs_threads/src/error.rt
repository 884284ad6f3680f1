//! Errors of publishers and sessions.

use log4rs_base::OutOfMemory;
use log4rs_config::runtime::ConfigErrors;
use std::alloc::{AllocError, AllocFailed};
use thiserror::Error;

/// Errors of opening a publisher and its sessions.
#[derive(Debug, Drop, Error)]
pub enum OpenError {
    /// An allocation failed.
    #[error("{}", OutOfMemory)]
    Memory,
    /// No session can be registered.
    #[error("no place for a session")]
    NoReader,
}

/// Errors of publishing a root and loggers.
#[derive(Debug, Drop, Error)]
pub enum SwapError {
    /// An allocation failed.
    #[error("{}", OutOfMemory)]
    Memory,
    /// The configuration would have these faults.
    #[error("{0}")]
    Errors(ConfigErrors),
    /// The publisher has made 18446744073709551615 swaps, the most that it counts.
    #[error("too many swaps")]
    Full,
}

/// Errors of delivering a record. Nothing was appended.
#[derive(Debug, Drop, Error)]
pub enum SessionError {
    /// An allocation failed.
    #[error("{}", OutOfMemory)]
    Memory,
    /// The publisher has ended.
    #[error("the publisher was ended")]
    Closed,
}

impl From<OutOfMemory> for OpenError {
    fn from(_: OutOfMemory) -> Self {
        OpenError::Memory
    }
}

impl From<AllocError> for OpenError {
    fn from(_: AllocError) -> Self {
        OpenError::Memory
    }
}

impl<T: Drop> From<AllocFailed<T>> for OpenError {
    fn from(_: AllocFailed<T>) -> Self {
        OpenError::Memory
    }
}
