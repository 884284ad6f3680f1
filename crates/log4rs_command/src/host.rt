//! The surroundings of a run.

use std::alloc::Global;
use std::collections::BTreeMap;
use std::io::{Stderr, Stdout};

/// The memory, the clock, the source of random words, the files and the terminals of a run.
#[derive(Drop)]
pub struct Host<C, G, X> {
    /// The allocator.
    pub alloc: Global,
    /// The clock of the records.
    pub clock: C,
    /// The source of the records' random words.
    pub random: G,
    /// The files of a configuration.
    pub files: X,
    /// The values of the environment, by their names.
    pub env: BTreeMap<String, String>,
    /// The stream of consoles that write to standard output.
    pub stdout: Stdout,
    /// The stream of consoles that write to standard error.
    pub stderr: Stderr,
    /// Whether standard output and standard error are terminals.
    pub is_terminal: bool,
}
