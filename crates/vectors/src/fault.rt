//! Reasons why a case cannot be replayed.

use log4rs_base::OutOfMemory;
use std::alloc::{AllocError, AllocFailed};
use std::io;

/// A reason why a case cannot be replayed.
#[derive(Drop)]
pub enum Fault {
    /// An allocation failed.
    Memory,
    /// The line is not a case of its kind.
    Malformed,
    /// The system refused a file operation.
    Files(io::Error),
}

impl From<io::Error> for Fault {
    fn from(error: io::Error) -> Self {
        Fault::Files(error)
    }
}

impl From<OutOfMemory> for Fault {
    fn from(_: OutOfMemory) -> Self {
        Fault::Memory
    }
}

impl From<AllocError> for Fault {
    fn from(_: AllocError) -> Self {
        Fault::Memory
    }
}

impl<T: Drop> From<AllocFailed<T>> for Fault {
    fn from(_: AllocFailed<T>) -> Self {
        Fault::Memory
    }
}

impl From<serde_json::Error> for Fault {
    fn from(fault: serde_json::Error) -> Self {
        if fault.is_memory() {
            Fault::Memory
        } else {
            Fault::Malformed
        }
    }
}
