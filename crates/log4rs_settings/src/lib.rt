//! The texts of configurations: their trees in JSON or TOML, the settings in these, the plans of
//! their components, the sources of texts, and the step that reads a changed text again; also the
//! process's arguments, environment and time zone.
#![tactic(auto)]

mod component;
mod convert;
pub mod environment;
mod fields;
pub mod file;
pub mod formats;
pub mod load;
mod makers;
mod part;
mod plan;
pub mod reload;
mod rules;
pub mod source;
mod syntax;
mod system;
mod text;
mod top;
mod tree;
mod units;
mod values;

pub use component::{AppenderConfig, Component, EncoderConfig, FilterConfig};
pub use file::FileSource;
pub use formats::{FormatError, extension, format_of_path};
pub use load::{LoadError, LoadedText, Loads};
pub use makers::{Maker, Makers};
pub use part::{ConfigFault, FaultAt, PartError, PartFault, Shown, TreeError};
pub use plan::{
    AppenderPlan, EncoderPlan, FilterPlan, PolicyPlan, RollerPlan, TriggerPlan, Waiting, WindowPlan,
};
pub use reload::{ChangedText, ReloadError, ReloadOf, Reloader};
pub use rules::{appender_plan, filter_plan};
pub use source::{ConfigSource, NotedSource, SourceError};
pub use syntax::{Position, SyntaxError, SyntaxFault};
pub use system::{SystemZone, ZoneFault, system_zone};
pub use text::{Format, TextError, read, refused_place};
pub use top::{LoggerConfig, NamedAppender, NamedLogger, RootConfig, TopConfig};
pub use tree::Tree;
pub use units::{parse_duration, parse_interval, parse_size};
