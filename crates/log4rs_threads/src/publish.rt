//! The publisher of configurations, and the sessions that log by what it published.

pub mod history;
pub(crate) mod law;
pub(crate) mod published;
pub mod publisher;
pub(crate) mod rule;
pub mod session;
pub mod session_report;
pub mod subscriber;
pub mod swap_writer;
