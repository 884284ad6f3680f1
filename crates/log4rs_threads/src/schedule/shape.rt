//! Configurations as plain data.

use log::LevelFilter;
use log4rs_config::runtime::{Logger, Root};

/// An appender of a shape. It keeps the text of each record by a pattern.
#[derive(Drop)]
pub struct ShapeAppender {
    /// The appender's name.
    pub name: String,
    /// Records more verbose than one of these levels are rejected.
    pub thresholds: Vec<LevelFilter>,
    /// The pattern of its texts.
    pub pattern: String,
}

/// A configuration as plain data.
#[derive(Drop)]
pub struct Shape {
    /// The root.
    pub root: Root,
    /// The loggers.
    pub loggers: Vec<Logger>,
    /// The appenders, in order.
    pub appenders: Vec<ShapeAppender>,
}
