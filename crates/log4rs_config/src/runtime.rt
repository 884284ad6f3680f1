//! Configurations built in code.

pub mod appender;
pub mod builder;
pub mod config;
pub mod error;
pub mod laws;
pub mod levels;
pub mod logger;
mod lossy;
pub mod root;
pub mod shared;

pub use appender::{Appender, AppenderBuilder};
pub use builder::ConfigBuilder;
pub use config::{Config, Configured};
pub use error::{BuildError, ConfigError, ConfigErrors};
pub use logger::{Logger, LoggerBuilder};
pub use root::{Root, RootBuilder};
pub use shared::{HoldsConfig, Rereads, SharedAppender, SharesAppenders};
