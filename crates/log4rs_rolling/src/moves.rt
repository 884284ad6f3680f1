//! Moves of files.

ghost use Rattle.std.specs.Prelude.{OnOk, OnErr, IfErr};
ghost use Rattle.log4rs_rolling.specs.Costs.{Costs, Makes};
ghost use Rattle.log4rs_rolling.specs.Disk.{Calls, files_of};
ghost use Rattle.log4rs_rolling.specs.Faults.{MayAnswer};
ghost use Rattle.log4rs_rolling.specs.Keeping.{StaysClosed};
ghost use Rattle.log4rs_rolling.specs.Moves.{Moved, MovedHalf};
ghost use Rattle.log4rs_rolling.specs.OperationResults.{MovedBy, RenamedBy};

use crate::folder::make_parent;
use crate::store::Store;
use log4rs_base::LogError;

/// Copies a file over another, and removes it.
fn copy_over<S: Store>(from: &str, to: &str, store: &mut S) -> Result<(), LogError>
    ensures ok { OnOk result (Calls (S.disk store.old) (S.disk store.new)
        (Moved (files_of (S.disk store.old)) from.now to.now)) }
    ensures err { OnErr result (Calls (S.disk store.old) (S.disk store.new)
        (MovedHalf (files_of (S.disk store.old)) from.now to.now)) }
    ensures closed { StaysClosed (S.disk store.old) (S.disk store.new) }
    ensures fault { IfErr result
        (MayAnswer (S.disk store.old).refusals (S.disk store.new).refusals) }
    ensures made { Makes 2 (S.disk store.old) (S.disk store.new) }
{
    if let Err(_) = store.copy(from, to) {
        return Err(LogError::Store);
    }
    if let Err(_) = store.remove(from) {
        return Err(LogError::Store);
    }
    Ok(())
}

/// Moves a file, if it is present: by a rename, or by a copy if that is refused and `rename_only`
/// is not set.
pub(crate) fn move_file<S: Store>(
    from: &str,
    to: &str,
    rename_only: bool,
    store: &mut S,
) -> Result<(), LogError>
    ensures moved { MovedBy (λ f. Moved f from.now to.now) (λ f. MovedHalf f from.now to.now)
        rename_only result (S.disk store.old) (S.disk store.new) }
    ensures cost { Costs 3 result (S.disk store.old) (S.disk store.new) }
{
    if let Ok(_) = store.rename(from, to) {
        return Ok(());
    }
    if rename_only {
        return Err(LogError::Store);
    }
    copy_over(from, to, store)
}

/// Creates the target's directory, and moves a file, if it is present.
pub(crate) fn move_to_folder<S: Store>(
    from: &str,
    to: &str,
    rename_only: bool,
    store: &mut S,
) -> Result<(), LogError>
    ensures moved { MovedBy (λ f. Moved f from.now to.now) (λ f. MovedHalf f from.now to.now)
        rename_only result (S.disk store.old) (S.disk store.new) }
    ensures cost { Costs 4 result (S.disk store.old) (S.disk store.new) }
{
    make_parent(to, store)?;
    move_file(from, to, rename_only, store)
}

/// Renames a file, if it is present.
pub(crate) fn rename_file<S: Store>(from: &str, to: &str, store: &mut S) -> Result<(), LogError>
    ensures renamed { RenamedBy from.now to.now result (S.disk store.old) (S.disk store.new) }
    ensures cost { Costs 1 result (S.disk store.old) (S.disk store.new) }
{
    if let Err(_) = store.rename(from, to) {
        return Err(LogError::Store);
    }
    Ok(())
}

/// Creates the target's directory, and renames a file, if it is present.
pub(crate) fn rename_to_folder<S: Store>(
    from: &str,
    to: &str,
    store: &mut S,
) -> Result<(), LogError>
    ensures renamed { RenamedBy from.now to.now result (S.disk store.old) (S.disk store.new) }
    ensures cost { Costs 2 result (S.disk store.old) (S.disk store.new) }
{
    make_parent(to, store)?;
    rename_file(from, to, store)
}
