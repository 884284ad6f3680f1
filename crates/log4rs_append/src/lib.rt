//! Appenders, which write the texts of records.
#![tactic(auto)]

pub mod any;
pub mod append;
pub mod choice;
pub mod console;
pub mod file;
pub mod laws;
pub mod locked;
pub mod log_appender;
pub mod memory;
pub mod rolling_file;
pub mod steps;
mod texts;

pub use any::{AnyAppender, AppenderOf};
pub use append::Append;
pub use choice::{DefaultEncoder, Given, MakeEncoder};
pub use console::{ConsoleAppender, ConsoleAppenderBuilder, ConsoleOut, MemOut, Target};
pub use file::{FileAppender, FileAppenderBuilder};
pub use locked::Locked;
pub use log_appender::{Log, LogAppender};
pub use log4rs_base::{expand_env_vars, expand_time};
pub use log4rs_rolling as policy;
pub use memory::MemoryAppender;
pub use rolling_file::{LogFile, RollingFileAppender, RollingFileAppenderBuilder};
pub use steps::Steps;
