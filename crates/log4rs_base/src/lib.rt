//! The base of log4rs: records and their contexts, errors, filters, dates, paths, and lines of
//! JSON.
//!
//! Contracts say neither that there is memory, nor what the system does with real files.
#![tactic(auto)]

pub mod carried;
pub mod dates;
pub mod error;
pub mod filter;
pub mod gate;
pub mod json_lines;
pub mod paths;
pub mod print;
pub mod record;
pub mod swap;
pub mod target;

pub use carried::Carried;
pub use dates::{
    Clock, DateFormat, Directive, IntervalTooSmall, Standard, TimeTriggerConfig,
    TimeTriggerInterval, date_text,
};
pub use error::{LogError, OutOfMemory, RollerError};
pub use gate::{Gate, StopFlag, StopGate, at_rate};
pub use paths::{expand_env_vars, expand_time, is_fifo, parent_of};
pub use record::{Context, Entry, Record};
pub use swap::{FaultList, SwapConfig};
pub use target::Target;
