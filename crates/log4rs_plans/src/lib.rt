//! Plans: what the settings of a configuration ask for, and what follows from that before anything
//! is built: which appenders roll in the background, which have faults, and which warnings there
//! are.
#![tactic(auto)]

mod asked;
mod faults;
pub mod overlaps;
mod path_lines;
mod plan_lines;
mod surroundings;
pub mod unused;
mod warnings;
mod written_files;

pub use asked::{Asked, Plans, Waits, appenders_asked};
pub use faults::{AppenderErrors, DeserializingConfigError, WithMeaning, good_filters};
pub use plan_lines::Devices;
pub use surroundings::{PlannedAppender, Surroundings, effective_plan};
pub use warnings::{NO_APPENDER, OfFile, Warning};
pub use written_files::{path_of, shares_files};
