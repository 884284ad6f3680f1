//! A logger that counts its failed appends.

ghost use Rattle.std.specs.Prelude.{◌≡◌, [], MatchResult};
ghost use Rattle.log4rs_config.specs.Routing.{deliveries};
ghost use Rattle.log4rs_command.specs.Losses.{AreFailuresAt};

use crate::logging::LogRecords;
use crate::losses::{Losses, count_each};
use crate::stop::Stop;
use log4rs_append::Append;
use log4rs_base::filter::Filter;
use log4rs_base::{Context, LogError, OutOfMemory, Record};
use log4rs_config::AppendError;
use log4rs_config::runtime::Configured;
use log4rs_threads::{LoadedOf, LoggerOf, ReportFault};
use std::alloc::Global;
use std::collections::BTreeMap;
use std::io::Write;
use std::sync::Wait;

/// A logger with handler `H` and runtime `L` that counts the failed appends of each appender,
/// across all its configurations.
#[derive(Drop)]
pub struct Counting<A, F, H, L> {
    alloc: Global,
    logger: LoggerOf<A, F, H, L>,
    losses: Losses,
    // The failed appends of a record while it is logged.
    errors: Vec<AppendError>,
}

impl<A: Append + Drop, F: Filter + Drop, H: Drop, L: Clone + Drop> Counting<A, F, H, L> {
    /// Counts the failed appends of a logger. There are none so far.
    pub fn new(alloc: Global, logger: LoggerOf<A, F, H, L>) -> Counting<A, F, H, L> {
        Counting {
            alloc,
            logger,
            losses: BTreeMap::new(alloc),
            errors: Vec::new(alloc),
        }
    }

    /// Returns the number of failed appends so far, by the names of the appenders.
    pub fn losses(&self) -> &Losses {
        &self.losses
    }
}

/// Delivers a record by a loaded configuration, and keeps its failed appends. If an allocation
/// fails, appends nothing.
fn deliver<A: Append, F: Filter, H, L: Wait>(
    loaded: &LoadedOf<A, F, H, L>,
    errors: &mut Vec<AppendError>,
    logged: &Record,
    context: &Context<'_>,
) -> Result<(), OutOfMemory>
    ensures { let seen = ⟦<LoadedOf<A, F, H, L> as Configured>⟧ in
        MatchResult result (λ _. AreFailuresAt (deliveries (seen.settings loaded.now)
        (seen.admits loaded.now) logged.now) errors.new.items)
        (λ _. AreFailuresAt [] errors.new.items) }
{
    errors.clear();
    loaded.log_noting(&mut loaded.locks(), errors, logged, context)
}

/// Counts each failed append under the name of its appender, and reports its fault as the logger
/// does. If an allocation fails before the first append, reports that and appends nothing. Returns
/// whether no append failed.
impl<A, F, H, L> LogRecords for Counting<A, F, H, L>
where
    A: Append + Drop,
    F: Filter + Drop,
    H: ReportFault + Drop,
    L: Wait + Eprint + Clone + Drop,
{
    ghost use Rattle.log4rs_command.specs.Losses.{CountsFailures};

    ghost logs = { λ old _ _ _ new. CountsFailures old.losses new.losses };

    fn log_record<E: Write>(
        &mut self,
        logged: &Record,
        context: &Context<'_>,
        _err: &mut E,
    ) -> Result<bool, Stop> {
        let Ok(loaded) = self.logger.load() else {
            self.logger.report(&LogError::Memory);
            return Ok(false);
        };
        if let Err(_) = deliver(&loaded, &mut self.errors, logged, context) {
            loaded.report(&LogError::Memory);
            return Ok(false);
        }
        count_each(&mut self.losses, self.alloc, &loaded, &self.errors)?;
        loaded.report_appends(&self.errors);
        loaded.report_recoveries();
        Ok(self.errors.is_empty())
    }
}
