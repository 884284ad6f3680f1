//! Loggers that threads share, over any appenders, routes, handlers and runtimes.

pub use log4rs_base::{Gate, StopFlag, StopGate};
pub use log4rs_config::runtime::Rereads;
pub use log4rs_threads::{
    Doors, HandleOf, Handler, LoadedOf, LocksOf, LoggerOf, LoggingOf, NoHandler, NoteDeliveries,
    NotedDoors, ReportFault, TellFault, Workers, WorkersError, WorkersOf, doors, handle, loaded,
    logger, noted_doors, report, workers,
};
