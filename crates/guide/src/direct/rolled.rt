//! Rolled files inside a core, with a promise about what is kept.

ghost use Rattle.std.specs.Prelude.{ℕ, IfSome};
ghost use Rattle.log4rs_append.specs.RolledFile.{KeepsItsEnd};
ghost use Rattle.log4rs_config.specs.Kept.{IsLeftOut, RolledFilesGoOn, SinkStays, rolled_at};
ghost use Rattle.log4rs_config.specs.Routing.{deliveries};

use log4rs::append::laws::rolled_files_keep_their_end;
use log4rs::config::runtime::Configured;
use log4rs::laws::deliveries_leave_rolled_files;
use log4rs::store::Store;
use log4rs::{Core, CoreError, Entry};

/// Logs two entries. Each rolled file of the core stays the one that it was, and its archives and
/// the file hold the end of what they held at its opening, followed by what was written since. If
/// neither entry is delivered, nothing is done.
pub fn log_both<S: Store + Drop>(
    core: &mut Core<S>,
    first: &Entry<'_>,
    second: &Entry<'_>,
) -> (Result<(), CoreError>, Result<(), CoreError>)
    ensures kept { let seen = ⟦<Core<S> as Configured>⟧ in (at : ℕ)
        → IfSome (rolled_at (seen.sinks core.new) at) (λ file. ∥ KeepsItsEnd file ∥₁) }
    ensures rolled { let seen = ⟦<Core<S> as Configured>⟧ in
        RolledFilesGoOn (seen.sinks core.old) (seen.sinks core.new) }
    ensures others { let seen = ⟦<Core<S> as Configured>⟧ in
        let places = deliveries (seen.settings core.old) (seen.admits core.old) in (at : ℕ)
        → IsLeftOut at (places first.now.logged) → IsLeftOut at (places second.now.logged)
        → SinkStays at (seen.sinks core.old) (seen.sinks core.new) }
{
    rolled_files_keep_their_end();
    deliveries_leave_rolled_files();
    let one = core.log(&first.logged, &first.context);
    let other = core.log(&second.logged, &second.context);
    (one, other)
}
