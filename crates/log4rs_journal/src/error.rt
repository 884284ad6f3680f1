//! Errors of journals.

use log4rs_base::OutOfMemory;
use std::alloc::AllocError;
use thiserror::Error;

/// Errors of appending a record.
#[derive(Clone, Copy, Debug, PartialEq, Eq, Error)]
pub enum JournalError {
    /// An allocation failed.
    #[error("{}", OutOfMemory)]
    Memory,
}

impl From<AllocError> for JournalError {
    fn from(_: AllocError) -> Self {
        JournalError::Memory
    }
}

impl From<OutOfMemory> for JournalError {
    fn from(_: OutOfMemory) -> Self {
        JournalError::Memory
    }
}

impl From<JournalError> for OutOfMemory {
    fn from(_: JournalError) -> Self {
        OutOfMemory
    }
}
