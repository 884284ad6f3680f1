//! Laws of routing and of deliveries.

ghost use Rattle.std.specs.Prelude.{ℕ, Bool, List, Result};
ghost use Rattle.log4rs_base.specs.declared.record.Context.{Context};
ghost use Rattle.log4rs_base.specs.declared.record.Record.{Record};
ghost use Rattle.log4rs_base.specs.declared.error.LogError.{LogError};
ghost use Rattle.log4rs_append.specs.Sink.{Sink};
ghost use Rattle.log4rs_config.specs.Answer.{IsAnswer};
ghost use Rattle.log4rs_config.specs.Beside.{EachWorked, OneDrive, OneStep};
ghost use Rattle.log4rs_config.specs.declared.delivery.CoreError.{CoreError};
ghost use Rattle.log4rs_config.specs.Kept.{OthersAreLeft, RolledFilesGoOn};
ghost use Rattle.log4rs_config.specs.Laws.{OthersStay, OrderChangesNothing, NothingAbove};
ghost use Rattle.log4rs_config.specs.Laws.{GovernorIsLongest, LevelIsSet, NameGovernsItself};
ghost use Rattle.log4rs_config.specs.Laws.{PlacesStay, Faultless, LevelFaults};

/// The order of loggers does not matter, as long as each path finds the same logger.
pub fn order_of_loggers()
    ensures { OthersStay }
{}

/// The order of loggers with different names does not matter.
pub fn order_changes_nothing()
    ensures { OrderChangesNothing }
{}

/// If no level of the root and the loggers is above a limit, then none at any target is.
pub fn nothing_above()
    ensures { NothingAbove }
{}

/// The governing logger is the one with the most components, of all whose components begin the
/// target's.
pub fn governor_is_longest()
    ensures { GovernorIsLongest }
{}

/// If a level is set at a name, that name governs itself, what it governs has the level, all other
/// targets keep their level, and all targets keep their appenders.
pub fn level_is_set()
    ensures level { LevelIsSet }
    ensures itself { NameGovernsItself }
    ensures places { PlacesStay }
{}

/// An accepted configuration has no faults, and setting a level at a name adds none, unless no
/// logger may have that name.
pub fn levels_have_no_faults()
    ensures accepted { Faultless }
    ensures level { LevelFaults }
{}

/// Whatever logging a record returns, each rolled file is the same file and goes on. Where nothing
/// is delivered, nothing is done.
pub fn deliveries_leave_rolled_files()
    ensures rolled { (r : Record) (c : Context) (places : List ℕ) (answer : Result Unit CoreError)
        (before after : List Sink) → IsAnswer r c places answer before after
        → RolledFilesGoOn before after }
    ensures others { (r : Record) (c : Context) (places : List ℕ) (answer : Result Unit CoreError)
        (before after : List Sink) → IsAnswer r c places answer before after
        → OthersAreLeft places before after }
    ensures joined { (before between after : List Sink) → RolledFilesGoOn before between
        → RolledFilesGoOn between after → RolledFilesGoOn before after }
{}

/// Whatever a step or a drive of each appender returns, each rolled file is the same file and goes
/// on.
pub fn work_leaves_rolled_files()
    ensures stepped { (results : List (Result Bool LogError)) (before after : List Sink)
        → EachWorked OneStep results before after → RolledFilesGoOn before after }
    ensures driven { (results : List (Result Unit LogError)) (before after : List Sink)
        → EachWorked OneDrive results before after → RolledFilesGoOn before after }
{}
