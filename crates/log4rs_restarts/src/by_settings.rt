//! Sessions of a rolled file by its settings.

ghost use Rattle.std.specs.Prelude.{All, IfOk, OnErr, IsTrue, ◌≡◌, ◌||◌, None, vec_len};
ghost use Rattle.log4rs_rolling.specs.Places.{OnlyOf};
ghost use Rattle.log4rs_rolling.specs.Window.{NoCopies, names};
ghost use Rattle.log4rs_restarts.specs.RollingSettings.{refusal_of, window_of};
ghost use Rattle.log4rs_restarts.specs.Sessions.{AreReportedBy, AreUnfit, IsEmpty, RanBy};
ghost use Rattle.log4rs_restarts.specs.Stops.{Changed};
ghost use Rattle.log4rs_restarts.specs.Suffix.{DropsTheOldest, HoldsASuffix};
ghost use Rattle.log4rs_restarts.specs.Runs.{IsRefused};

use crate::rolling_settings::{RollingSettings, ready};
use crate::run::{OpeningError, Report, Run, RunReport};
use crate::runs::sessions_with;
use log4rs_base::OutOfMemory;
use log4rs_rolling::RollerError;
use log4rs_rolling::store::Store;
use std::alloc::Global;

/// Returns the reports of runs whose settings are refused.
fn refused(alloc: Global, number: usize) -> Result<Report, OutOfMemory>
    ensures number { IfOk result (λ report. vec_len report.runs ≡ number) }
    ensures refused { IfOk result (λ report. All IsRefused report.runs.items) }
    ensures empty { IfOk result (λ report. All IsEmpty report.runs.items) }
{
    let mut runs = Vec::with_capacity(alloc, number)?;
    for _ in 0..number {
        runs.push_reserved(RunReport {
            opening: Err(OpeningError::Settings),
            outcomes: Vec::new(alloc),
            answers: Vec::new(alloc),
            passed: 0,
            stopped: 0,
        });
    }
    Ok(Report { runs })
}

/// Executes runs, one after another, on one store, and returns the store and a report. Each run
/// creates the directory of the file, opens the file in append mode, does its acts in order if that
/// succeeds, and closes the file. Trigger and roller are new in each run: a rotation that an
/// earlier run left is found by its waiting file, and completed, before the file is opened.
///
/// Path, roller and encoder are made once, before the first operation of the store. Fails if an
/// allocation for them or the report fails; the store is then unchanged. If the pattern, the window
/// or the trigger is refused, no run does anything, and each reports `Settings`.
///
/// Whatever is refused, each change keeps what the archives and the file held, or drops the oldest
/// archive, at most one for each rotation that was begun, if no file was copied.
pub fn sessions<S: Store + Drop>(
    alloc: Global,
    store: S,
    settings: &RollingSettings,
    runs: &[Run<'_>],
) -> (S, Result<Report, OutOfMemory>)
    ensures ran { refusal_of settings.now ≡ None → IfOk result.1 (λ report.
        RanBy settings.now runs.now report.runs.items (S.disk store) (S.disk result.0)) }
    ensures suffix { HoldsASuffix (window_of settings.now) (S.disk store) (S.disk result.0) }
    ensures drops { IfOk result.1 (λ report. DropsTheOldest (window_of settings.now) runs.now
        report.runs.items (S.disk store) (S.disk result.0)) }
    // Nothing is copied if the settings only rename or roll in the background.
    ensures renames { IsTrue (settings.now.background || settings.now.rename_only)
        → Changed (S.disk store) (S.disk result.0) NoCopies }
    // Files beside the window stay as they are.
    ensures elsewhere { Changed (S.disk store) (S.disk result.0)
        (OnlyOf (names (window_of settings.now))) }
    ensures reported { IfOk result.1 (λ report.
        AreReportedBy settings.now runs.now report.runs.items (S.disk store) (S.disk result.0)) }
    ensures refused { AreUnfit settings.now
        → IfOk result.1 (λ report. All IsRefused report.runs.items) × (result.0 ≡ store) }
    ensures none { OnErr result.1 (result.0 ≡ store) }
{
    match ready(alloc, settings) {
        Ok((made, encoder)) => sessions_with(alloc, store, &made, &encoder, runs),
        Err(RollerError::Memory) => (store, Err(OutOfMemory)),
        Err(_) => (store, refused(alloc, runs.len())),
    }
}
