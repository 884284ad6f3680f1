//! Logging to a core in memory, and printing of its texts.

ghost use Rattle.std.specs.Prelude.{◌≡◌, IfSome, OnOk, map, string_bytes};
ghost use Rattle.std.specs.Io.KnownBytes.{Appends};
ghost use Rattle.std.specs.List.{concat};
ghost use Rattle.log4rs_command.specs.Sinks.{held_in};

use crate::logging::LogRecords;
use crate::stop::Stop;
use log4rs_append::{Append, MemoryAppender};
use log4rs_base::filter::{AnyFilter, Filter};
use log4rs_base::print::write_fault;
use log4rs_base::{Context, Record};
use log4rs_config::runtime::Configured;
use log4rs_config::{AppendError, CoreError, CoreOf};
use log4rs_encode::AnyEncoder;
use std::io::{self, Write};

/// A core over one appender that keeps its texts in memory.
pub type MemoryCore = CoreOf<MemoryAppender<AnyEncoder>, AnyFilter>;

/// Prints the fault of each failed append.
fn print_faults<E: Write>(errors: &[AppendError], err: &mut E) -> io::Result<()> {
    for error in errors {
        write_fault(err, &error.fault)?;
    }
    Ok(())
}

/// Prints the fault of each failed append. If an allocation fails, logging stops.
impl<A: Append + Drop, F: Filter + Drop> LogRecords for CoreOf<A, F> {
    ghost use Rattle.log4rs_command.specs.ToCore.{LogsRecord};

    ghost logs = { λ old logged context is_well new.
        let seen = ⟦<CoreOf<A, F> as Configured>⟧ in
        LogsRecord seen.settings seen.admits seen.sinks old logged context is_well new };

    fn log_record<E: Write>(
        &mut self,
        logged: &Record,
        context: &Context<'_>,
        err: &mut E,
    ) -> Result<bool, Stop> {
        match CoreOf::log(self, logged, context) {
            Ok(()) => Ok(true),
            Err(CoreError::Memory) => Err(Stop::Memory),
            Err(CoreError::Appenders(errors)) => {
                print_faults(&errors, err)?;
                Ok(false)
            }
        }
    }
}

/// Returns the texts that the one appender holds, in order.
fn held_texts(core: &MemoryCore) -> &[String]
    ensures { IfSome (held_in (⟦<MemoryCore as Configured>⟧.sinks core.now))
        (λ held. map (λ text. string_bytes text) result.now ≡ held) }
{
    let [only] = core.config().appenders() else {
        return &[];
    };
    only.appender().records()
}

/// Prints texts, one after another, and flushes.
fn print_all<O: Write>(texts: &[String], out: &mut O) -> io::Result<()>
    ensures { OnOk result (Appends (O.contents out.old) (O.contents out.new)
        (concat (map (λ text. string_bytes text) texts.now))) }
{
    for text in texts {
        out.write_all(text.as_bytes())?;
    }
    out.flush()
}

/// Prints the texts that the appender holds, in order.
pub fn print_texts<O: Write>(core: &MemoryCore, out: &mut O) -> io::Result<()>
    ensures { OnOk result (IfSome (held_in (⟦<MemoryCore as Configured>⟧.sinks core.now))
        (λ held. Appends (O.contents out.old) (O.contents out.new) (concat held))) }
{
    print_all(held_texts(core), out)
}
