//! The appender of any kind.

use crate::append::Append;
use crate::console::ConsoleAppender;
use crate::file::FileAppender;
use crate::memory::MemoryAppender;
use crate::rolling_file::RollingFileAppender;
use crate::steps::Steps;
use log4rs_base::{Context, LogError, Record};
use log4rs_encode::{AnyEncoder, Encode};
use log4rs_rolling::store::Store;
use log4rs_rolling::{AnyRoller, CompoundPolicy, Keep, Policy};

/// An appender of this crate with encoders `E`, over stores `S`, with policies `P`, or a `C` of the
/// caller's.
#[derive(Drop)]
pub enum AppenderOf<S: Store + Drop, P: Keep<S>, E, C> {
    /// Writes to a console.
    Console(ConsoleAppender<E>),
    /// Writes to a file.
    File(FileAppender<S, E>),
    /// Writes to a rolled file.
    Rolling(RollingFileAppender<S, P, E>),
    /// Keeps texts in memory.
    Memory(MemoryAppender<E>),
    /// The caller's appender.
    Custom(C),
}

/// An appender of this crate over stores `S`, with the policies and encoders of this crate, or a
/// boxed one of the caller's.
pub type AnyAppender<S> = AppenderOf<
    S,
    CompoundPolicy<AnyRoller>,
    AnyEncoder,
    Box<dyn Append + Send + Sync + Drop>,
>;

impl<S: Store + Drop, P: Policy<S>, E: Encode, C: Append> Append for AppenderOf<S, P, E, C> {
    ghost use Rattle.log4rs_append.specs.Any.{told_of};

    ghost sink = { told_of ⟦<ConsoleAppender<E> as Append>⟧.sink
        ⟦<FileAppender<S, E> as Append>⟧.sink ⟦<RollingFileAppender<S, P, E> as Append>⟧.sink
        ⟦<MemoryAppender<E> as Append>⟧.sink C.sink };

    fn append(&mut self, record: &Record, context: &Context<'_>) -> Result<(), LogError> {
        match self {
            AppenderOf::Console(appender) => appender.append(record, context),
            AppenderOf::File(appender) => appender.append(record, context),
            AppenderOf::Rolling(appender) => appender.append(record, context),
            AppenderOf::Memory(appender) => appender.append(record, context),
            AppenderOf::Custom(appender) => appender.append(record, context),
        }
    }

    fn append_retired(&mut self, record: &Record, context: &Context<'_>) -> Result<(), LogError> {
        match self {
            AppenderOf::Console(appender) => appender.append_retired(record, context),
            AppenderOf::File(appender) => appender.append_retired(record, context),
            AppenderOf::Rolling(appender) => appender.append_retired(record, context),
            AppenderOf::Memory(appender) => appender.append_retired(record, context),
            AppenderOf::Custom(appender) => appender.append_retired(record, context),
        }
    }

    fn flush(&mut self) {
        match self {
            AppenderOf::Console(appender) => appender.flush(),
            AppenderOf::File(appender) => appender.flush(),
            AppenderOf::Rolling(appender) => appender.flush(),
            AppenderOf::Memory(appender) => appender.flush(),
            AppenderOf::Custom(appender) => appender.flush(),
        }
    }
}

impl<S: Store + Drop, P: Policy<S>, E: Encode, C: Steps> Steps for AppenderOf<S, P, E, C> {
    fn step(&mut self) -> Result<bool, LogError> {
        match self {
            AppenderOf::Console(appender) => Steps::step(appender),
            AppenderOf::File(appender) => Steps::step(appender),
            AppenderOf::Rolling(appender) => Steps::step(appender),
            AppenderOf::Memory(appender) => Steps::step(appender),
            AppenderOf::Custom(appender) => Steps::step(appender),
        }
    }

    fn drive(&mut self) -> Result<(), LogError> {
        match self {
            AppenderOf::Console(appender) => Steps::drive(appender),
            AppenderOf::File(appender) => Steps::drive(appender),
            AppenderOf::Rolling(appender) => Steps::drive(appender),
            AppenderOf::Memory(appender) => Steps::drive(appender),
            AppenderOf::Custom(appender) => Steps::drive(appender),
        }
    }

    fn retire(&mut self) -> Result<(), LogError> {
        match self {
            AppenderOf::Console(appender) => Steps::retire(appender),
            AppenderOf::File(appender) => Steps::retire(appender),
            AppenderOf::Rolling(appender) => Steps::retire(appender),
            AppenderOf::Memory(appender) => Steps::retire(appender),
            AppenderOf::Custom(appender) => Steps::retire(appender),
        }
    }

    fn resume(&mut self) -> Result<(), LogError> {
        match self {
            AppenderOf::Console(appender) => Steps::resume(appender),
            AppenderOf::File(appender) => Steps::resume(appender),
            AppenderOf::Rolling(appender) => Steps::resume(appender),
            AppenderOf::Memory(appender) => Steps::resume(appender),
            AppenderOf::Custom(appender) => Steps::resume(appender),
        }
    }
}
