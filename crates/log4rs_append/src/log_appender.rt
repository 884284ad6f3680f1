//! Loggers, and appenders that pass records on to one.

ghost use Rattle.std.specs.Prelude.{◌≡◌, IfSome, IsOk};

use crate::append::Append;
use log::Level;
use log4rs_base::{Context, LogError, Record};

/// A logger. It takes records, and handles its errors itself.
pub trait Log {
    ghost use Rattle.std.specs.Prelude.{ℕ, Bool, Option, None, List};
    ghost use Rattle.log.specs.declared.level.Level.{Level as LevelData};
    ghost use Rattle.log4rs_base.specs.declared.record.Context.{Context as ContextData};
    ghost use Rattle.log4rs_base.specs.declared.record.Record.{Record as RecordData};

    /// The levels that it takes at each target, if contracts see them.
    ghost enables: { Self → Option (LevelData → List ℕ → Bool) } = { λ _. None };

    /// The effect of a record, if contracts see it: the logger before, the record, its context, and
    /// the logger after.
    ghost logs: { Self → RecordData → ContextData → Self → Type 0 } = { λ _ _ _ _. Unit {0} };

    /// Returns whether records of this level and target are taken.
    fn enabled(&self, level: Level, target: &str) -> bool
        ensures { IfSome (enables self.now) (λ takes. result ≡ takes level target.now) };

    /// Logs a record.
    fn log(&mut self, record: &Record, context: &Context<'_>)
        ensures enables { enables self.new ≡ enables self.old }
        ensures logs { logs self.old «record».now context.now self.new };

    /// Writes what is buffered.
    fn flush(&mut self)
        ensures { enables self.new ≡ enables self.old };
}

/// Passes each record on to a logger, and never fails. Contracts see only its logger.
#[derive(Drop)]
pub struct LogAppender<L> {
    /// The logger.
    pub logger: L,
}

impl<L: Log> LogAppender<L> {
    /// Creates an appender to a logger.
    pub fn new(logger: L) -> LogAppender<L>
        ensures { result.logger ≡ logger }
    {
        LogAppender { logger }
    }
}

impl<L: Log> Append for LogAppender<L> {
    ghost use Rattle.log4rs_append.specs.Sink.{Appended};

    fn append(&mut self, record: &Record, context: &Context<'_>) -> Result<(), LogError>
        ensures appended { let sink = ⟦<LogAppender<L> as Append>⟧.sink in
            Appended «record».now context.now result (sink self.old) (sink self.new) }
        ensures logged { L.logs self.old.logger «record».now context.now self.new.logger }
        ensures ok { IsOk result }
    {
        self.logger.log(record, context);
        Ok(())
    }

    fn append_retired(&mut self, record: &Record, context: &Context<'_>) -> Result<(), LogError> {
        self.append(record, context)
    }

    fn flush(&mut self) {
        self.logger.flush();
    }
}
