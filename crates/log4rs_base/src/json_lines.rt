//! The JSON line of a record.

pub mod line;
mod members;

pub use line::json_line;
