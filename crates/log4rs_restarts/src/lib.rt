//! Sessions of a rolled file on one store, each of which may be stopped, and what is kept across
//! stops and restarts.
#![tactic(auto)]

pub mod by_life;
pub mod by_settings;
pub mod laws;
mod lent;
pub mod rolling_settings;
pub mod run;
mod runs;
pub mod settings;
mod stopping;

pub use by_life::{Life, lives};
pub use by_settings::sessions;
pub use rolling_settings::RollingSettings;
pub use run::{Act, ActOutcome, OpeningError, Report, Run, RunReport};
pub use settings::TriggerSettings;
