//! Dates: what a clock shows, the formats that print it, and the intervals of time triggers.

pub mod clock;
pub mod directive;
pub mod format;
pub mod interval;
pub mod standard;

pub use clock::Clock;
pub use directive::Directive;
pub use format::{DateFormat, date_text};
pub use interval::{IntervalTooSmall, TimeTriggerConfig, TimeTriggerInterval};
pub use standard::Standard;
