//! The logger that governs a target.

ghost use Rattle.std.specs.Prelude.{◌≡◌, ◌<◌};

use crate::cores::{Core, LoggerRow, configured, keepers, record, same};
use log::{Level, LevelFilter};
use log4rs_base::{OutOfMemory, Record};
use log4rs_config::Turns;
use std::alloc::Global;
use std::marker::Brand;
use std::sync::ledger::{Blank, Ledger};
use std::test::Fail;

/// Returns the index of the logger that governs the target of a record.
fn governor_of(core: &Core, record: &Record) -> Option<usize> {
    governor_from::<Brand>(core, record, Blank::new(1))
}

/// The same, for a ledger that the caller has named.
fn governor_from<L: Ledger>(core: &Core, record: &Record, blank: Blank) -> Option<usize>
    requires name { blank.name ≡ L.name }
    requires parts { blank.parts ≡ L.parts }
    requires some { 0 < blank.parts }
{
    core.governor(record.target.as_str(), &mut Turns::<L>::new(blank))
}

/// Loggers in the order of their names' components.
fn loggers<'a>() -> [LoggerRow<'a>; 3] {
    [
        ("a", LevelFilter::Info, true, ""),
        ("a!", LevelFilter::Error, true, ""),
        ("a::b", LevelFilter::Trace, true, ""),
    ]
}

/// Targets, and after a bar the place of the logger that governs each, its level, and whether Debug
/// is enabled.
const TARGETS: &str = "\
a::b::c|Some(2) TRACE true
a!::x|Some(1) ERROR false
a::c|Some(0) INFO false
b|None OFF false";

/// Returns the place of the governor of a target, its level, and whether Debug is enabled.
fn shown(alloc: Global, core: &Core, target: &str) -> Result<String, OutOfMemory> {
    let asked = record(alloc, (Level::Info, target, ""))?;
    let place = governor_of(core, &asked);
    let (level, is_debugged) = (core.route(target).0, core.enabled(Level::Debug, target));
    Ok(format!(in alloc; "{place:?} {level} {is_debugged}")?)
}

#[test]
fn each_target_has_its_governor(rt: HostRuntime) -> Result<(), Fail> {
    let appenders = keepers(rt.alloc(), "m")?;
    let config = configured(rt.alloc(), appenders, &loggers(), LevelFilter::Off, "")?;
    let core = Core::new(rt.alloc(), config)?;
    for row in TARGETS.lines() {
        let (target, expected) = row.split_once('|').unwrap_or((row, ""));
        same(&rt, shown(rt.alloc(), &core, target)?.as_str(), expected);
    }
    Ok(())
}
