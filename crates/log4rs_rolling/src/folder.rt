//! Directories of files.

ghost use Rattle.std.specs.Prelude.{◌≡◌, [], OnOk, IfErr};
ghost use Rattle.log4rs_rolling.specs.Costs.{Costs};
ghost use Rattle.log4rs_rolling.specs.Disk.{Calls, Does, SameOpen};
ghost use Rattle.log4rs_rolling.specs.Faults.{MayAnswer};
ghost use Rattle.log4rs_rolling.specs.Keeping.{StaysClosed};

use crate::store::Store;
use log4rs_base::{LogError, parent_of};

/// Creates the directory of a file, if the path names one. Changes no file. Fails with `Store` if
/// the store refuses.
pub fn make_parent<S: Store>(path: &str, store: &mut S) -> Result<(), LogError>
    ensures ok { OnOk result (Does (S.disk store.old) (S.disk store.new) []
        (S.disk store.old).refusals (S.disk store.old).opened) }
    ensures calls { Calls (S.disk store.old) (S.disk store.new) (λ added. added ≡ []) }
    ensures closed { StaysClosed (S.disk store.old) (S.disk store.new) }
    ensures opened { SameOpen (S.disk store.old) (S.disk store.new) }
    ensures only { IfErr result (λ fault. fault ≡ LogError.Store) }
    ensures fault { IfErr result
        (MayAnswer (S.disk store.old).refusals (S.disk store.new).refusals) }
    ensures cost { Costs 1 result (S.disk store.old) (S.disk store.new) }
{
    if let Some(parent) = parent_of(path) {
        if let Err(_) = store.make_dirs(parent) {
            return Err(LogError::Store);
        }
    }
    Ok(())
}
