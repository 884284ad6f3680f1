//! The appender to rolled files, and runs of such a file that may stop anywhere.

pub use log4rs_append::rolling_file::{
    LogFile, RollingFileAppender, RollingFileAppenderBuilder, builder,
};
pub use log4rs_restarts::{
    Act, ActOutcome, Life, OpeningError, Report, RollingSettings, Run, RunReport, TriggerSettings,
    lives, sessions,
};
