//! Laws of sessions.

ghost use Rattle.std.specs.Prelude.{◌≡◌, ◌<◌, ◌≤◌, ◌↔◌, ℕ, List, [], Option, IfSome, IsSome};
ghost use Rattle.std.specs.Prelude.{IsTrue, length};
ghost use Rattle.log4rs_rolling.specs.Change.{Files};
ghost use Rattle.log4rs_rolling.specs.Disk.{Disk, files_of};
ghost use Rattle.log4rs_rolling.specs.Places.{OnlyOf};
ghost use Rattle.log4rs_rolling.specs.Window.{Window, AreDistinct, NoCopies, around, contents};
ghost use Rattle.log4rs_rolling.specs.Window.{kept, names};
ghost use Rattle.log4rs_rolling.specs.Appends.{Reading};
ghost use Rattle.log4rs_restarts.specs.Acts.{RunDone, all_changes};
ghost use Rattle.log4rs_restarts.specs.ActsDone.{DidRuns};
ghost use Rattle.log4rs_restarts.specs.RollingSettings.{keeping_of, path_of, window_of};
ghost use Rattle.log4rs_restarts.specs.Runs.{AreRuns, Ran, RanOver, all_cuts};
ghost use Rattle.log4rs_restarts.specs.Cuts.{EndAtCuts};
ghost use Rattle.log4rs_restarts.specs.Stops.{Changed};
ghost use Rattle.log4rs_restarts.specs.Suffix.{HoldsASuffix};
ghost use Rattle.log4rs_restarts.specs.Widened.{AtEach, KeepsBehind, KeepsBut, KeepsTheEndOf};
ghost use Rattle.log4rs_restarts.specs.Widened.{SameFiles, widened};
ghost use Rattle.log4rs_restarts.specs.Triggers.{Begins};
ghost use Rattle.log4rs_restarts.specs.declared.rolling_settings.RollingSettings.{RollingSettings};
ghost use Rattle.log4rs_restarts.specs.declared.settings.TriggerSettings.{TriggerSettings};
ghost use Rattle.log4rs_restarts.specs.declared.run.RunReport.{RunReport};
ghost use Rattle.log4rs_restarts.specs.declared.run.Run.{Run};

/// Runs of openings, appends and steps keep the window, wherever they are stopped.
pub fn runs_keep()
    ensures { (trigger : TriggerSettings) (reading : Option Reading) (window : Window)
        (files : Files) (runs : List Run) (reports : List RunReport)
        (done : List RunDone) → AreDistinct (names window)
        → AreRuns trigger reading window files runs reports done
        → Ran trigger reading window files runs reports (all_changes done) }
{}

/// In runs of openings, appends and steps, wherever they are stopped, each kept archive ends where
/// one ended at the start, or at a cut, where the trigger fired. Nothing is copied in them.
pub fn runs_end()
    ensures { (trigger : TriggerSettings) (reading : Option Reading) (window : Window)
        (files : Files) (runs : List Run) (reports : List RunReport)
        (done : List RunDone) → AreDistinct (names window)
        → AreRuns trigger reading window files runs reports done
        → NoCopies (all_changes done)
        → EndAtCuts (all_cuts window.active (length (kept window files)) done) window files
        (all_changes done) }
{}

/// The changes of runs determine what became of the window of their archives and their file.
pub fn runs_in_a_window()
    ensures { (settings : RollingSettings) (reading : Option Reading) (runs : List Run)
        (reports : List RunReport) (old new : Disk)
        → DidRuns (Begins settings.trigger) reading (keeping_of settings) (path_of settings)
        runs reports old new
        → RanOver (keeping_of settings) settings.trigger (path_of settings) reading
        runs reports old new }
{}

/// The window of settings is the one that their roller keeps, if it keeps an archive.
pub fn roller_keeps_the_window()
    ensures archives { (settings : RollingSettings) → 0 < length (window_of settings).archives
        ↔ IsSome (keeping_of settings).archives }
    ensures window { (settings : RollingSettings) → let keeping = keeping_of settings in
        let path = path_of settings in
        IfSome keeping.archives (λ older.
        window_of settings ≡ around older (keeping.waiting path) path) }
{}

/// Settings of the same files have one window, if their counts are equal. If not, the window of the
/// larger count has older archives before those of the smaller one, and else the same names. What
/// else may differ is the trigger and its limit, the encoder, and whether files are only renamed.
pub fn counts_widen()
    ensures same { (one other : RollingSettings) → SameFiles one other → other.count ≡ one.count
        → window_of other ≡ window_of one }
    ensures wider { (one other : RollingSettings) → SameFiles one other
        → one.count ≤ other.count
        → (older : List (List ℕ)) × (window_of other ≡ widened older (window_of one)) }
{}

/// Runs, and then runs with other settings of the same files, on one store. What is kept is a
/// suffix of what was kept at the start and of all that was written since, at every moment:
///
/// - `same`: if the window is the same;
/// - `raised`: if archives were added, over all of them, provided that none of the added names had
///   a file at the start;
/// - `lowered`: if archives were taken away, over those that are left. What was kept at the start
///   then counts over all.
///
/// Archives that were taken away are hidden: runs with fewer archives leave their files as they
/// are, and keep the end of the rest (`hidden`). A later, larger count sees them again, before what
/// the runs kept. Then what is kept need not be a suffix: what the runs dropped is missing behind
/// what the hidden archives hold. Nothing else is, and nothing is out of order (`gap`).
pub fn changed_settings_keep()
    ensures same { (window : Window) (first between last : Disk)
        → HoldsASuffix window first between → HoldsASuffix window between last
        → HoldsASuffix window first last }
    ensures raised { (older : List (List ℕ)) (window : Window) (first between last : Disk)
        → 0 < length window.archives
        → (IsTrue first.tells → contents (files_of first) older ≡ [])
        → Changed first between (OnlyOf (names window)) → HoldsASuffix window first between
        → HoldsASuffix (widened older window) between last
        → HoldsASuffix (widened older window) first last }
    ensures lowered { (older : List (List ℕ)) (window : Window) (first between last : Disk)
        → 0 < length window.archives → AreDistinct (names (widened older window))
        → HoldsASuffix (widened older window) first between → HoldsASuffix window between last
        → AtEach first last (KeepsTheEndOf older window (files_of first)) }
    ensures hidden { (older : List (List ℕ)) (window : Window) (old new : Disk)
        → 0 < length window.archives → AreDistinct (names (widened older window))
        → Changed old new (OnlyOf (names window)) → HoldsASuffix window old new
        → AtEach old new (KeepsBehind older window (files_of old)) }
    ensures gap { (older : List (List ℕ)) (window : Window) (old new : Disk)
        → 0 < length window.archives → AreDistinct (names (widened older window))
        → Changed old new (OnlyOf (names window)) → HoldsASuffix window old new
        → AtEach old new (KeepsBut 1 (widened older window) (files_of old)) }
{}
