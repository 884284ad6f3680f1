//! Appenders: the destinations of records.

pub mod rolling_file;

pub use log4rs_append::{
    AnyAppender, Append, AppenderOf, ConsoleAppender, ConsoleAppenderBuilder, ConsoleOut,
    DefaultEncoder, FileAppender, FileAppenderBuilder, Given, Locked, Log, LogAppender,
    MakeEncoder, MemOut, MemoryAppender, Steps, Target, console, expand_env_vars, expand_time,
    file, laws, memory, policy,
};
pub use log4rs_base::LogError;
pub use rolling_file::{LogFile, RollingFileAppender, RollingFileAppenderBuilder};
