//! Configurations: which records go to which appenders.

pub mod file;
pub mod raw;

pub use crate::loggers::{
    HandleBy, HandleFrom, LoggerBy, LoggerFrom, init_config, init_config_with_err_handler,
    init_file, init_raw_config,
};
pub use file::{InitError, load_config_file};
pub use log4rs_config::{Appender, Config, Logger, Root, name, runtime};
pub use raw::{Deserializers, RawConfig, create_raw_config};
