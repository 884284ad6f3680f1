//! Configurations in files, and the step that reads a changed file again.

pub use log4rs_base::{FaultList, Gate, SwapConfig};
pub use log4rs_build::{
    BegunFile, ConfigFile, FileError, InitError, LoadedFile, ParseError, PlainAppender, PlainFile,
    Rebuilt, Reload, Rereading, load_config_file, load_file, read_config_file, read_with_reloader,
};
pub use log4rs_settings::{
    ConfigSource, FileSource, FormatError, LoadError, LoadedText, Loads, NotedSource, ReloadError,
    ReloadOf, Reloader, SourceError, format_of_path,
};
