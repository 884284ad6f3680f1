//! The commands of the program `log4rs-run`: it logs its input by a pattern or by the configuration
//! in a file, or appends to a journal in threads.
#![tactic(auto)]

mod appending;
pub mod arguments;
pub mod command;
pub mod configuration;
mod counting;
pub mod file_run;
pub mod help;
pub mod host;
pub mod logging;
pub mod losses;
pub mod memory;
pub mod pattern;
mod reading;
pub mod seen;
pub mod stop;
mod thread_records;

pub use appending::{Receipts, append_in_threads};
pub use file_run::{FileAccess, log_by_file};
pub use reading::{ReadBack, read_back};
