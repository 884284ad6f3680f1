//! log4rs: records of what a program does, routed to appenders by a configuration.
#![tactic(auto)]

pub mod append;
pub mod backend;
mod begin;
pub mod config;
pub mod event;
pub mod facade;
pub mod fields;
mod loggers;
pub mod macros;
pub mod origin;
mod program;
mod room;
pub mod threads;

pub use backend::Backend;
pub use begin::{
    FileHandle, FileLogger, FileLogging, FileLoggingOf, FileWorkers, PlainLogging, init,
};
pub use config::{Config, init_config, init_config_with_err_handler, init_file, init_raw_config};
pub use event::{context_of, record_of};
pub use facade::Facade;
pub use fields::mdc_of;
pub use log4rs_append::policy;
pub use log4rs_base::{Context, Entry, LogError, OutOfMemory, Record, filter};
pub use log4rs_build::{
    Absent, FileError, FileStore, FileStoreMaker, Surroundings, SystemZone, ZoneFault, environment,
    file_store_maker, system_zone,
};
pub use log4rs_config::{AppendError, Core, CoreError, CoreOf, Turns, laws};
pub use log4rs_encode as encode;
pub use log4rs_journal::{
    JournalAppender, JournalError, Note, Notes, Receipt, SharedJournal, Shown,
};
pub use log4rs_rolling::store;
pub use log4rs_threads::{
    Doors, Draft, Event, Fill, Handle, Loaded, Locks, Logger, NotedDoors, OpenError, Publisher,
    PublisherOf, Session, SessionError, SessionOf, SessionReport, Shape, ShapeAppender, Sinks,
    SwapError, Told, World,
};
pub use origin::Origin;
pub use program::{Program, with_file};
