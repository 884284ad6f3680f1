//! Logging with a promise.

ghost use Rattle.std.specs.Prelude.{◌≡◌, IfOk, OnErr, IsTrue, is_ok};
ghost use Rattle.std.specs.List.{list_all};
ghost use Rattle.log4rs_config.specs.Destinations.{RoutesAlike};
ghost use Rattle.log4rs_config.specs.Routing.{deliveries};
ghost use Rattle.log4rs_config.specs.Received.{HaveReceived};

use log4rs::config::runtime::Configured;
use log4rs::store::Store;
use log4rs::{Core, CoreError, Entry, OutOfMemory};

/// Returns whether no result is an error.
pub(crate) fn are_ok(answers: &[Result<(), CoreError>]) -> bool
    ensures { result ≡ list_all is_ok answers.now }
{
    answers.iter().all(|answer| answer.is_ok())
}

/// Logs the entries. Returns whether all were logged: then each appender whose sink is visible has
/// received, in order, the text of each entry as often as it is delivered there.
pub fn all_are_logged<S: Store + Drop>(
    core: &mut Core<S>,
    entries: &[Entry<'_>],
) -> Result<bool, OutOfMemory>
    ensures received { let seen = ⟦<Core<S> as Configured>⟧ in
        IfOk result (λ is_well. IsTrue is_well
        → HaveReceived (deliveries (seen.settings core.old) (seen.admits core.old)) entries.now
        (seen.sinks core.old) (seen.sinks core.new)) }
    ensures err { OnErr result (let seen = ⟦<Core<S> as Configured>⟧ in
        seen.sinks core.new ≡ seen.sinks core.old) }
    ensures routes { let seen = ⟦<Core<S> as Configured>⟧ in
        RoutesAlike seen.settings seen.admits core.old core.new }
{
    let answers = core.log_all(entries)?;
    Ok(are_ok(&answers))
}
