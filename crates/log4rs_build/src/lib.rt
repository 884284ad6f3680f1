//! Configurations from texts and files: components built by their plans or handed in, the
//! configurations of these, and the faults of what is left out.
#![tactic(auto)]

mod again;
mod config_file;
mod create;
mod deserializers;
mod error;
mod in_force;
mod raw;
mod rereading;
mod tell_once;

pub use config_file::{
    BegunFile, ConfigFile, LoadedFile, PlainAppender, PlainFile, Reload, load_config_file,
    load_file, read_config_file, read_with_reloader, tell,
};
pub use create::{Built, ConfigBy, ConfigFrom, create_lossy, create_raw_config};
pub use deserializers::{Deserializers, DeserializersOf, DeserializersWith, Refilled};
pub use error::{FileError, InitError, ParseError};
pub use in_force::{InForce, Keeping, Leaver, in_force_of, kept, leaving_of, still_in_force};
pub use log4rs_parts::{
    Absent, BehindOf, BuildAppender, BuiltOf, Handed, HandedIn, HandedInOf, NamedParts, Once,
    PartMaker, Parts, Refill, Refusal, build_filters,
};
pub use log4rs_plans::{
    AppenderErrors, Asked, DeserializingConfigError, PlannedAppender, Plans, Surroundings, Warning,
    WithMeaning, effective_plan, overlaps, unused,
};
pub use log4rs_settings::{SystemZone, ZoneFault, environment, system_zone};
pub use raw::RawConfig;
pub use rereading::{KeptBy, Rebuilt, RebuiltBy, Rereading, RereadingBy};
pub use tell_once::{FileStore, FileStoreMaker, TellOnceMaker, TellOnceStore, file_store_maker};
