//! Sessions whose settings change in between.

ghost use Rattle.std.specs.Prelude.{ℕ, List, [], ◌≡◌, IfOk, IsTrue, length, vec_len};
ghost use Rattle.log4rs_rolling.specs.Disk.{files_of};
ghost use Rattle.log4rs_rolling.specs.Window.{AreDistinct, Window, contents, names};
ghost use Rattle.log4rs_restarts.specs.Lives.{AreKept, AreWithin, LivesDid, Rise};
ghost use Rattle.log4rs_restarts.specs.Suffix.{HoldsASuffix};
ghost use Rattle.log4rs_restarts.specs.Widened.{AtEach, KeepsBut};

use crate::by_settings::sessions;
use crate::rolling_settings::RollingSettings;
use crate::run::{Report, Run};
use log4rs_base::OutOfMemory;
use log4rs_rolling::store::Store;
use std::alloc::Global;

/// A life of a program: its settings, and the runs that it makes with them.
#[derive(Drop)]
pub struct Life<'z> {
    /// The settings of its runs.
    pub settings: RollingSettings,
    /// The runs, in order, each with its stop.
    pub runs: Vec<Run<'z>>,
}

/// Executes lives, one after another, on one store, and returns the store and their reports. Each
/// does what `sessions` does by its own settings. Fails if an allocation for the settings or a
/// report fails; the later lives then do nothing.
///
/// If all lives keep the archives of one window and its file, each perhaps without the oldest of
/// the archives, and no later one hides more of them, then what is kept is a suffix of what was
/// kept at the start and of all that was written since, provided that the archives hidden at first
/// had no files. If a later life hides more, each life leaves out one part of that at most, behind
/// what the archives hold that it hides. These are not changed.
pub fn lives<S: Store + Drop>(
    alloc: Global,
    store: S,
    lives: &[Life<'_>],
) -> (S, Result<Vec<Report>, OutOfMemory>)
    ensures did { IfOk result.1 (λ reports.
        LivesDid lives.now reports.items (S.disk store) (S.disk result.0)) }
    // With an error too.
    ensures kept { AreKept lives.now (S.disk store) (S.disk result.0) }
    ensures suffix { (hidden : List (List ℕ)) (window : Window) → Rise hidden window lives.now
        → (IsTrue (S.disk store).tells → contents (files_of (S.disk store)) hidden ≡ [])
        → HoldsASuffix window (S.disk store) (S.disk result.0) }
    ensures in_order { (window : Window) → AreWithin window lives.now → AreDistinct (names window)
        → AtEach (S.disk store) (S.disk result.0)
        (KeepsBut (length lives.now) window (files_of (S.disk store))) }
{
    let Ok(reports) = Vec::with_capacity(alloc, lives.len()) else {
        return (store, Err(OutOfMemory));
    };
    let mut reports = reports;
    let mut store = store;
    for life in lives {
        let (left, report) = sessions(alloc, store, &life.settings, life.runs.as_slice());
        store = left;
        let Ok(report) = report else {
            return (store, Err(OutOfMemory));
        };
        reports.push_reserved(report);
    }
    (store, Ok(reports))
}
