//! Loggers that threads share, whose configuration is swapped behind a lock; a publisher of
//! configurations, whose sessions never log by an older configuration than they have seen or were
//! told of; and a model of callers, shapes and sinks that runs a schedule of atomic steps.
//!
//! A shape is a configuration as plain data. A caller loads the current shape to deliver an entry,
//! and then appends to one appender at each step, even if another shape becomes current in between.
#![tactic(auto)]

mod answers;
pub mod current;
pub mod doors;
pub mod error;
pub mod fill;
mod ghost_notes;
pub mod handle;
pub mod laws;
mod leaving;
pub mod loaded;
pub mod logger;
pub mod noted_doors;
mod present;
pub mod publish;
pub mod report;
pub mod schedule;
pub mod tell;
pub mod workers;

pub use doors::Doors;
pub use error::{OpenError, SessionError, SwapError};
pub use fill::{Draft, Fill};
pub use handle::{Handle, HandleOf};
pub use loaded::{Loaded, LoadedOf, Locks, LocksOf};
pub use log4rs_config::{AppenderNames, NoteDeliveries, RoutedLists};
pub use logger::{Logger, LoggerOf};
pub use noted_doors::NotedDoors;
pub use publish::publisher::{Publisher, PublisherOf, Told};
pub use publish::session::{Session, SessionOf};
pub use publish::session_report::SessionReport;
pub use publish::subscriber::{Subscriber, SubscriberGuard};
pub use publish::swap_writer::{NoSubscriber, SwapWriter, Unpublished};
pub use report::{Handler, NoHandler, ReportFault};
pub use schedule::event::Event;
pub use schedule::shape::{Shape, ShapeAppender};
pub use schedule::world::{Sinks, World};
pub use tell::TellFault;
pub use workers::{LoggingOf, Workers, WorkersError, WorkersOf};
