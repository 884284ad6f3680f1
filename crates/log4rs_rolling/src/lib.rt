//! Stores of files, and what rolls a file of a store: triggers and their times, rollers, policies.
//!
//! Contracts say neither that there is memory, nor what the system does with real files.
#![tactic(auto)]

pub mod fixed_window;
pub mod folder;
pub mod interval_laws;
pub mod laws;
pub mod log_file;
mod moves;
mod names;
pub mod next_time;
pub mod policy;
pub mod roll;
pub mod store;
pub mod time_trigger;
pub mod trigger;

pub use fixed_window::{FixedWindowRoller, FixedWindowRollerBuilder, RollerError};
pub use log_file::LogFile;
pub use policy::{CompoundPolicy, CompoundPolicyOf, Keep, Policy};
pub use roll::{AnyRoller, DeleteRoller, Roll};
pub use store::{
    Effect, FsMaker, FsStore, MemMaker, MemStore, Open, Planned, Renamed, Store, StoreError,
    StoreMaker, open_to_write, write_bytes,
};
pub use time_trigger::{IntervalTooSmall, TimeTrigger, TimeTriggerConfig, TimeTriggerInterval};
pub use trigger::{AnyTrigger, AnyTriggerOf, NotedTrigger, OnStartUpTrigger, SizeTrigger, Trigger};
