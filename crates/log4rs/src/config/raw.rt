//! Configurations as their texts describe them, and configurations built from these.

pub use log4rs_build::{
    AppenderErrors, BehindOf, BuildAppender, BuiltOf, ConfigBy, ConfigFrom, Deserializers,
    DeserializersOf, DeserializersWith, DeserializingConfigError, Handed, HandedIn, HandedInOf,
    Once, PartMaker, Parts, Plans, RawConfig, Refill, Refilled, Surroundings, WithMeaning,
    create_lossy, create_raw_config,
};
pub use log4rs_settings::{
    AppenderConfig, ConfigFault, EncoderConfig, FilterConfig, Format, Maker, NamedAppender,
    PartError, PartFault, Position, SyntaxError, SyntaxFault, TextError, Tree, TreeError,
};
